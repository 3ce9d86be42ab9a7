// The table of upper bytes: a line for each, with the kind of the words that begin with it and the ranges of those that are allowed.
ghost use Rattle.std.specs.Prelude.{◌≡◌, ◌∷◌, ◌<◌};
ghost use Rattle.layout.specs.Below.{texts_below};
ghost use Rattle.layout.specs.Numbers.{hex_of};
ghost use Rattle.layout.specs.Adds.{Adds};
ghost use Rattle.layout.specs.Written.{Front};
ghost use Rattle.names.specs.Table.{is_allowed, is_first, bound_text, any_below, ranges_text, gap_text, byte_text, name_text, row_text, table_text};

use crate::kind::put_kind;
use layout::numbers::hex4;
use layout::writer::Writer;
use words::upper_byte::{decode_by_byte, kind_of_byte};

// Room for the table.
pub const LONGEST: usize = 16384;

// Whether the word with these two bytes is allowed.
#[tactic(auto, using(crate::proofs::Ranges::found_allowed), unfolding(crate::specs::Table::is_allowed))]
fn is_allowed(byte: u8, low: u16) -> bool
    ensures { result ≡ is_allowed byte low }
{
    low < 256 && decode_by_byte(u16::from(byte) * 256 + low).is_ok()
}

// Whether a range begins at an allowed word.
#[tactic(auto, unfolding(crate::specs::Table::is_first))]
fn is_first(byte: u8, low: u16) -> bool
    ensures { result ≡ is_first byte low }
{
    low == 0 || !is_allowed(byte, low - 1)
}

fn put_word(writer: &mut Writer<'_>, mark: u8, word: u16)
    ensures { Adds writer.old writer.new (mark ∷ hex_of word) }
{
    writer.put_byte(mark);
    writer.put_bytes(&hex4(word));
}

// A word at which a range begins or ends.
#[tactic(auto, using(layout::proofs::Adding::adds_none), unfolding(crate::specs::Table::bound_text))]
fn put_bound(writer: &mut Writer<'_>, byte: u8, low: u16)
    requires { low < 256 }
    ensures { Adds writer.old writer.new (bound_text byte low) }
{
    if !is_allowed(byte, low) {
        return;
    }
    let word = u16::from(byte) * 256 + low;
    if is_first(byte, low) {
        put_word(writer, b' ', word);
        return;
    }
    if is_allowed(byte, low + 1) {
        return;
    }
    put_word(writer, b'-', word);
}

fn put_bounds(writer: &mut Writer<'_>, byte: u8)
    ensures { Adds writer.old writer.new (texts_below (bound_text byte) 256) }
{
    for low in 0..256 {
        put_bound(writer, byte, low);
    }
}

// Whether any word with this upper byte is allowed. A `for` and not `any`: its step is the equation that defines `any_below`.
fn any_allowed(byte: u8) -> bool
    ensures { result ≡ any_below byte 256 }
{
    let mut any = false;
    for low in 0..256 {
        any |= is_allowed(byte, low);
    }
    any
}

#[tactic(auto, unfolding(layout::specs::Numbers::ascii, crate::specs::Table::ranges_text))]
fn put_ranges(writer: &mut Writer<'_>, byte: u8)
    ensures { Adds writer.old writer.new (ranges_text byte) }
{
    if any_allowed(byte) {
        put_bounds(writer, byte);
        return;
    }
    writer.put_bytes(b" none");
}

// An empty line before each row of sixteen.
#[tactic(auto, using(layout::proofs::Adding::adds_none), unfolding(layout::specs::Numbers::ascii, crate::specs::Table::gap_text))]
fn put_gap(writer: &mut Writer<'_>, byte: u8)
    ensures { Adds writer.old writer.new (gap_text byte) }
{
    if byte % 16 == 0 {
        writer.put_byte(b'\n');
        return;
    }
}

// The byte, in two hexadecimal digits.
#[tactic(auto, unfolding(crate::specs::Table::byte_text))]
fn put_digits(writer: &mut Writer<'_>, byte: u8)
    ensures { Adds writer.old writer.new (byte_text byte) }
{
    let digits = hex4(u16::from(byte) * 256);
    writer.put_bytes(&digits[..2]);
}

// The byte and the kind of its words.
fn put_name(writer: &mut Writer<'_>, byte: u8)
    ensures { Adds writer.old writer.new (name_text byte) }
{
    put_digits(writer, byte);
    writer.put_bytes(b"    ");
    put_kind(writer, kind_of_byte(byte));
}

fn put_row(writer: &mut Writer<'_>, byte: u8)
    ensures { Adds writer.old writer.new (row_text byte) }
{
    put_gap(writer, byte);
    put_name(writer, byte);
    put_ranges(writer, byte);
    writer.put_byte(b'\n');
}

fn put_rows(writer: &mut Writer<'_>)
    ensures { Adds writer.old writer.new (texts_below row_text 256) }
{
    for byte in 0..256u16 {
        put_row(writer, byte as u8);
    }
}

// The table at the front; the answer is its length.
pub fn upper_bytes(out: &mut [u8; LONGEST]) -> usize
    ensures { Front out.old table_text result out.new }
{
    let mut writer = Writer::new(out);
    writer.put_bytes(b"byte  kind          allowed words\n");
    put_rows(&mut writer);
    writer.len()
}
