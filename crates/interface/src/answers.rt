// The numbers that the exported functions answer.
ghost use Rattle.std.specs.Prelude.{◌≡◌, ◌+◌, ◌*◌, ◌≤◌, ◌<◌, ◌^◌, Err};
ghost use Rattle.head.specs.Numbers.{cause_number};
ghost use Rattle.head.specs.declared.word.Cause.TheVariants.{State};
ghost use Rattle.blocks.specs.Numbers.{refusal_place};
ghost use Rattle.interface.specs.Blocks.{refusal_answer, most_place};
ghost use Rattle.interface.specs.Stepping.{flag_bits, due_answer};
ghost use Rattle.interface.specs.Plans.{packed, count_in, Small, translated_answer};
ghost use Rattle.interface.specs.Codec.{refused_kind, decoded_answer, encoded_answer};

use blocks::refusal::Refusal;
use head::state::Flags;
use head::tick::Due;
use head::word::Cause;
use schedule::{TranslateError, Translation};
use words::{DecodeError, EncodeError, Word};

// For an array that is no state, or a state that is out of range.
pub fn state_refused() -> u32
    ensures { result ≡ cause_number State }
{
    u32::from(Cause::State.number())
}

// The flags as bits: IR time, IR word, scan, VIS time, VIS word.
fn flag_bits(flags: Flags) -> u32
    ensures value { result ≡ flag_bits flags }
    ensures upper_bound { result ≤ 31 }
{
    u32::from(flags.irtime)
        + 2 * u32::from(flags.irword)
        + 4 * u32::from(flags.scan)
        + 8 * u32::from(flags.vistime)
        + 16 * u32::from(flags.visword)
}

pub fn due_number(due: Due) -> u32
    ensures { result ≡ due_answer due }
{
    let number = u32::from(due.number());
    match due {
        Due::Nothing => number,
        Due::Blocks { ended: _, flags } => number + 256 * flag_bits(flags),
        Due::Refused => number,
    }
}

// The kind that stands in a refusal of a word; 0 for the one that has none.
fn refused_kind(error: DecodeError) -> u8
    ensures { result ≡ refused_kind error }
{
    match error {
        DecodeError::Unknown => 0,
        DecodeError::OutOfRange { kind } => kind,
    }
}

pub fn decoded_number(found: Result<Word, DecodeError>) -> u32
    ensures { result ≡ decoded_answer found }
{
    match found {
        Ok(word) => u32::from(word.kind) * 0x10000 + u32::from(word.bits),
        Err(error) => u32::from(error.number()) * 0x1000000
            + u32::from(refused_kind(error)) * 0x10000,
    }
}

pub fn encoded_number(made: Result<u16, EncodeError>) -> u32
    ensures { result ≡ encoded_answer made }
{
    match made {
        Ok(word) => u32::from(word),
        Err(error) => u32::from(error.number()) * 0x1000000,
    }
}

// The number in bits 0-7, a count in bits 8-23, a length or a place in bits 32-63.
fn packed(number: u8, count: usize, last: usize) -> u64
    requires { (count < 2 ^ 16) × (last < 2 ^ 32) }
    ensures { result ≡ packed number count last }
{
    u64::from(number) + 0x100 * count as u64 + 0x1_0000_0000 * last as u64
}

// The count that stands in an error; 0 for those that have none.
fn short_count(error: TranslateError) -> usize
    ensures { result ≡ count_in (Err error) }
{
    match error {
        TranslateError::StateUnfit => 0,
        TranslateError::Plan(_) => 0,
        TranslateError::Short { count } => count,
    }
}

pub(crate) fn translated_number(translated: Result<Translation, TranslateError>) -> u64
    requires { Small translated }
    ensures { result ≡ translated_answer translated }
{
    match translated {
        Ok(made) => packed(0, made.count, made.end as usize),
        Err(error) => packed(error.number(), short_count(error), error.place()),
    }
}

// The number of a refused block, and the place above it.
pub(crate) fn refused_number(refusal: Refusal) -> u32
    requires { refusal_place refusal ≤ most_place }
    ensures { result ≡ refusal_answer refusal }
{
    let place = refusal.place() as u32;
    u32::from(refusal.number()) + 0x100 * place
}
