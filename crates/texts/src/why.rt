// An answer of `shabgozim_why` in words.
ghost use Rattle.std.specs.Prelude.{◌≡◌, true};
ghost use Rattle.explanation.specs.Explanation.{explanation_text};
ghost use Rattle.layout.specs.Written.{Written};
ghost use Rattle.texts.specs.Texts.{words_length, words_left};
ghost use Rattle.texts.specs.Why.{unpacked_why, is_why};

use crate::handing::hand_over_wording;
use diagnosis::Diagnosis;
use explanation::put_explanation;
use interface::why::{COVER_BIT, packed_why};
use layout::writer::Writer;
use words::kind_of;

// Room for every line.
const MOST_LINE: usize = 256;

// The diagnosis that an answer stands for.
fn unpacked_why(answer: u32) -> Diagnosis
    ensures { result ≡ unpacked_why answer }
{
    let number = answer % 0x100;
    let detail = (answer / 0x100 % 0x10000) as u16;
    if number == 21 {
        return Diagnosis::StateOutOfRange;
    }
    if number == 22 {
        if COVER_BIT <= answer {
            return Diagnosis::CoverMoves(detail);
        }
        return Diagnosis::HeadBusy(detail);
    }
    if number == 23 {
        return Diagnosis::UnknownIdentifier(detail);
    }
    if number == 24 {
        return Diagnosis::DataOutOfRange {
            word: detail,
            kind: kind_of(detail),
        };
    }
    if number == 25 {
        return Diagnosis::OutOfTurn {
            due: (detail % 0x100) as u8,
        };
    }
    Diagnosis::Taken
}

// The words of a line, from the first byte on; the answer is their length.
fn line_words(out: &mut [u8], diagnosis: Diagnosis) -> usize
    ensures { Written out.old 0 (explanation_text diagnosis) result out.new }
{
    let mut writer = Writer::new(out);
    put_explanation(&mut writer, diagnosis);
    writer.len()
}

fn put_line(diagnosis: Diagnosis, text: &mut [u8]) -> u32
    ensures value { result ≡ words_length true (explanation_text diagnosis) text.old }
    ensures text_after { text.new ≡ words_left true (explanation_text diagnosis) text.old }
{
    let mut made = [0u8; MOST_LINE];
    let length = line_words(&mut made, diagnosis);
    hand_over_wording(&made[..length], text)
}

// Writes an answer of `shabgozim_why` in words.
pub fn shabgozim_explanation(why: u32, text: &mut [u8]) -> u32
    ensures value { result ≡ words_length (is_why why) (explanation_text (unpacked_why why)) text.old }
    ensures text_after { text.new ≡ words_left (is_why why) (explanation_text (unpacked_why why)) text.old }
{
    let diagnosis = unpacked_why(why);
    let answer = packed_why(diagnosis) == why;
    if !answer {
        return 0;
    }
    put_line(diagnosis, text)
}
