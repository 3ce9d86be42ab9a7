// Lists as text: read, inspected, and a refusal in words.
ghost use Rattle.std.specs.Prelude.{◌≡◌, cond, ◌<◌, ◌^◌, length};
ghost use Rattle.interface.specs.Plans.{packed as Plans·packed};
ghost use Rattle.import.specs.Read.{import_number};
ghost use Rattle.imported.specs.Printed.{refusal_text};
ghost use Rattle.layout.specs.Written.{Written};
ghost use Rattle.texts.specs.Texts.{has_room, text_after};
ghost use Rattle.texts.specs.Lists.{read_place, inspection_answer, inspection_left};

use crate::arrays::packed;
use crate::handing::{BUFFER_SHORT, hand_over_counted, hand_over_wording};
use import::reasons::ImportError;
use imported::refusal::put_refusal;
use inspection::inspection::{LONGEST, inspect};
use layout::writer::Writer;

// Room for every refusal in words.
const MOST_WORDING: usize = 256;

// The answer of reading in one number.
#[tactic(auto, unfolding(crate::specs::Lists::read_place))]
pub(crate) fn read_number(read: Result<usize, ImportError>) -> u64
    requires { read_place read < 2 ^ 32 }
    ensures { result ≡ Plans·packed (import_number read) 0 (read_place read) }
{
    match read {
        Ok(count) => packed(0, 0, count),
        Err(ImportError::Refused { reason, line }) => packed(reason.number(), 0, line),
        Err(ImportError::Short { count }) => packed(BUFFER_SHORT, 0, count),
    }
}

// The inspection of a list, made in an array with room for it.
fn hand_over_inspection(words: &[u16], ticks: &[u32], made: &mut [u8], text: &mut [u8]) -> u64
    requires { length made.old ≡ 262144 }
    ensures value { result ≡ inspection_answer words.now ticks.now text.old }
    ensures text_after { text.new ≡ inspection_left words.now ticks.now text.old }
{
    match inspect(words, ticks, made) {
        Ok(inspection) => {
            let findings = inspection.counts.findings() as usize;
            hand_over_counted(&made[..inspection.length], text, findings)
        }
        Err(error) => packed(error.number(), 0, 0),
    }
}

pub(crate) fn put_inspection(words: &[u16], ticks: &[u32], text: &mut [u8]) -> u64
    ensures value { result ≡ inspection_answer words.now ticks.now text.old }
    ensures text_after { text.new ≡ inspection_left words.now ticks.now text.old }
{
    let mut made = [0u8; LONGEST];
    hand_over_inspection(words, ticks, &mut made, text)
}

// The words of a refusal, from the first byte on; the answer is their length.
fn refusal_words(out: &mut [u8], number: u8, line: usize) -> usize
    ensures { Written out.old 0 (refusal_text number line) result out.new }
{
    let mut writer = Writer::new(out);
    put_refusal(&mut writer, number, line);
    writer.len()
}

// A refusal of a text in words; the answer is their length, 0 where there is no room for them.
pub(crate) fn put_list_wording(number: u8, line: usize, text: &mut [u8]) -> u32
    ensures value { result ≡ cond (has_room (refusal_text number line) text.old) (length (refusal_text number line)) 0 }
    ensures text_after { text.new ≡ text_after (has_room (refusal_text number line) text.old) (refusal_text number line) text.old }
{
    let mut made = [0u8; MOST_WORDING];
    let length = refusal_words(&mut made, number, line);
    hand_over_wording(&made[..length], text)
}
