// The kind of a word, and what its data mean.
ghost use Rattle.std.specs.Prelude.{◌≡◌};
ghost use Rattle.layout.specs.Adds.{Adds};
ghost use Rattle.inspection.specs.Meaning.{is_time, is_lamp, is_mode, choice_of, value_of, cover_text, value_text, data_text, unknown_text, range_text, meaning_text, kind_text};

use head::state::Head;
use layout::writer::Writer;
use words::{DecodeError, Word, decode, kind_of, kinds};

#[tactic(auto, unfolding(crate::specs::Meaning::is_time))]
fn is_time(kind: u8) -> bool
    ensures { result ≡ is_time kind }
{
    let ir = (kind == kinds::IR_DELAY) | (kind == kinds::IR_EXPO);
    ir | (kind == kinds::CCD_DELAY) | (kind == kinds::CCD_EXPO)
}

#[tactic(auto, unfolding(crate::specs::Meaning::is_lamp))]
fn is_lamp(kind: u8) -> bool
    ensures { result ≡ is_lamp kind }
{
    let lamps = (kind == kinds::CCD_LAMP) | (kind == kinds::IR_LAMP);
    lamps | (kind == kinds::SHUTTER) | (kind == kinds::ANNEALING)
}

#[tactic(auto, unfolding(crate::specs::Meaning::is_mode))]
fn is_mode(kind: u8) -> bool
    ensures { result ≡ is_mode kind }
{
    (kind == kinds::IR_DETECTOR) | (kind == kinds::IR_WIN_MODE) | (kind == kinds::SWITCH)
}

// Which of a kind's two texts is meant.
#[tactic(auto, unfolding(crate::specs::Meaning::choice_of))]
fn choice_of(kind: u8, bits: u16) -> u16
    ensures { result ≡ choice_of kind bits }
{
    if is_mode(kind) {
        return bits;
    }
    if is_lamp(kind) {
        return bits % 2;
    }
    if kind == kinds::SIN_M {
        return bits / 16;
    }
    0
}

// The number that the text shows.
#[tactic(auto, unfolding(crate::specs::Meaning::value_of))]
fn value_of(kind: u8, bits: u16) -> u64
    ensures { result ≡ value_of kind bits }
{
    if is_time(kind) {
        return Head::STEP_TICKS as u64 * bits as u64;
    }
    if is_lamp(kind) {
        return (bits / 2) as u64;
    }
    if kind == kinds::SIN_M {
        return (bits % 16) as u64;
    }
    bits as u64
}

#[tactic(auto, unfolding(crate::specs::Meaning::cover_text, crate::specs::Meaning::cover_template, layout::specs::Numbers::ascii))]
fn put_cover(writer: &mut Writer<'_>, bits: u16)
    ensures { Adds writer.old writer.new (cover_text bits) }
{
    let b = bits as u64;
    let values = [b / 512, b / 256 % 2, b / 128 % 2, b % 128];
    writer.put_template(
        b"{close|open}, {half|one} wave, sensors {disabled|enabled}, @@ steps\n",
        &values,
        &[],
    );
}

// The data of a word of any kind but COVER.
fn put_value(writer: &mut Writer<'_>, kind: u8, bits: u16)
    ensures { Adds writer.old writer.new (value_text kind bits) }
{
    let values = [
        2 * kind as u64 + choice_of(kind, bits) as u64,
        value_of(kind, bits),
    ];
    writer.put_template(
        b"{no operation||start of an acquisition||housekeeping||stop||\
        detector off|detector on|IR window mode full|IR window mode reduced|\
        VDETCOM, upper 4 bits: @@||VDETCOM, lower 8 bits: @@@||\
        VDETADJ, upper 4 bits: @@||VDETADJ, lower 8 bits: @@@||\
        IR delay %%%%% s||IR exposure %%%%% s||\
        CCD window X1 @@@@||CCD window Y1 @@@||CCD window X2 @@@@||CCD window Y2 @@@||\
        CCD delay %%%%% s||CCD exposure %%%%% s||\
        CCD lamp off, current @|CCD lamp on, current @|\
        IR lamp off, current @@|IR lamp on, current @@|\
        shutter open, current @@|shutter closed, current @@|\
        annealing off, limit @@|annealing on, limit @@|\
        sine +, upper 4 bits: @@|sine -, upper 4 bits: @@|sine, lower 8 bits: @@@||\
        cosine, upper 4 bits: @@||cosine, lower 8 bits: @@@||\
        motor on|motor off}\n",
        &values,
        &[],
    );
}

#[tactic(auto, unfolding(crate::specs::Meaning::data_text))]
fn put_data(writer: &mut Writer<'_>, kind: u8, bits: u16)
    ensures { Adds writer.old writer.new (data_text kind bits) }
{
    if kind == kinds::COVER {
        put_cover(writer, bits);
        return;
    }
    put_value(writer, kind, bits);
}

#[tactic(auto, unfolding(crate::specs::Meaning::unknown_text, crate::specs::Meaning::unknown_template, layout::specs::Numbers::ascii))]
fn put_unknown(writer: &mut Writer<'_>, word: u16)
    ensures { Adds writer.old writer.new (unknown_text word) }
{
    let values = [(word / 1024) as u64, (word % 1024) as u64];
    writer.put_template(b"identifier @@, data @@@@\n", &values, &[]);
}

#[tactic(auto, unfolding(crate::specs::Meaning::range_text, crate::specs::Meaning::range_template, layout::specs::Numbers::ascii))]
fn put_out_of_range(writer: &mut Writer<'_>, word: u16)
    ensures { Adds writer.old writer.new (range_text word) }
{
    let values = [(word % 1024) as u64];
    writer.put_template(b"data @@@@\n", &values, &[]);
}

// What a word's data mean; of a word that is unknown or out of range, its numbers.
pub(crate) fn put_meaning(writer: &mut Writer<'_>, word: u16)
    ensures { Adds writer.old writer.new (meaning_text word) }
{
    match decode(word) {
        Ok(Word { kind, bits }) => put_data(writer, kind, bits),
        Err(DecodeError::Unknown) => put_unknown(writer, word),
        Err(DecodeError::OutOfRange { kind: _ }) => put_out_of_range(writer, word),
    }
}

#[tactic(auto, unfolding(crate::specs::Meaning::kind_text))]
pub(crate) fn put_kind(writer: &mut Writer<'_>, word: u16)
    ensures { Adds writer.old writer.new (kind_text word) }
{
    names::kind::put_kind(writer, kind_of(word));
}
