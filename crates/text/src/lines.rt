// The lines that the listing program prints.
ghost use Rattle.std.specs.Prelude.{◌≤◌, length, take};
ghost use Rattle.layout.specs.Adds.{Adds};
ghost use Rattle.layout.specs.Written.{Front};
ghost use Rattle.text.specs.Lines.{timed_text, word_line, word_lines, end_line, refusal_line};

use layout::numbers::hex4;
use layout::writer::Writer;

// A tick and its word.
pub fn put_timed(writer: &mut Writer<'_>, tick: u64, word: u16)
    ensures { Adds writer.old writer.new (timed_text tick word) }
{
    writer.put_decimal(tick);
    writer.put_bytes(b" ");
    writer.put_bytes(&hex4(word));
}

// The same as a line.
pub fn put_timed_line(writer: &mut Writer<'_>, tick: u64, word: u16)
    ensures { Adds writer.old writer.new (word_line tick word) }
{
    put_timed(writer, tick, word);
    writer.put_bytes(b"\n");
}

fn put_word_line(writer: &mut Writer<'_>, tick: u32, word: u16)
    ensures { Adds writer.old writer.new (word_line tick word) }
{
    put_timed_line(writer, u64::from(tick), word);
}

// A line for each of the first count ticks and words.
pub(crate) fn put_word_lines(writer: &mut Writer<'_>, ticks: &[u32], words: &[u16], count: usize)
    requires fact_1 { count ≤ length ticks.now }
    requires fact_2 { count ≤ length words.now }
    ensures { Adds writer.old writer.new (word_lines (take count ticks.now) (take count words.now)) }
{
    // An index for the two lists: the invariant of a `zip` would speak of its iterators, which is no plainer.
    for i in 0..count {
        put_word_line(writer, ticks[i], words[i]);
    }
}

// The end of a plan.
pub(crate) fn put_end_line(writer: &mut Writer<'_>, end: u32)
    ensures { Adds writer.old writer.new (end_line end) }
{
    writer.put_named(b"end ", u64::from(end));
    writer.put_bytes(b"\n");
}

pub fn put_refusal_line(writer: &mut Writer<'_>, number: u8, place: usize)
    ensures { Adds writer.old writer.new (refusal_line number place) }
{
    writer.put_named(b"refused ", u64::from(number));
    writer.put_named(b" at ", place as u64);
    writer.put_bytes(b"\n");
}

// The line of a refusal by itself; the answer is its length.
pub fn refusal_line(number: u8, place: usize, out: &mut [u8; 64]) -> usize
    ensures { Front out.old (refusal_line number place) result out.new }
{
    let mut writer = Writer::new(out);
    put_refusal_line(&mut writer, number, place);
    writer.len()
}
