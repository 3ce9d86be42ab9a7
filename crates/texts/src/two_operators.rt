// The texts of two operators: two text lists merged, and request P6's refusals in words.
ghost use Rattle.std.specs.Prelude.{◌≡◌, true};
ghost use Rattle.layout.specs.Written.{Written};
ghost use Rattle.merged.specs.Refusal.{refusal_text};
ghost use Rattle.texts.specs.Texts.{words_length, words_left};
ghost use Rattle.texts.specs.Operators.{merge_texts_answer, merge_texts_left, is_operator_refusal};

use crate::arrays::packed;
use crate::handing::{hand_over, hand_over_wording};
use layout::writer::Writer;
use merged::printed::{LONGEST, MergeTextsError, merge_texts};
use merged::refusal::put_refusal;

// Room for every refusal in words.
const MOST_WORDING: usize = 256;

// Reads two text lists, merges them, and writes the merge as text.
pub fn shabgozim_merge_texts(ccd: &[u8], infrared: &[u8], text: &mut [u8]) -> u64
    ensures value { result ≡ merge_texts_answer ccd.now infrared.now text.old }
    ensures text_after { text.new ≡ merge_texts_left ccd.now infrared.now text.old }
{
    let mut made = [0u8; LONGEST];
    match merge_texts(ccd, infrared, &mut made) {
        Ok(length) => hand_over(&made[..length], text),
        Err(MergeTextsError::Unread { list, error }) => {
            packed(error.number(), list as usize, error.line())
        }
        Err(MergeTextsError::SameTick) => packed(MergeTextsError::SameTick.number(), 0, 0),
    }
}

// The words of a refusal, from the first byte on; the answer is their length.
fn refusal_words(out: &mut [u8], number: u8) -> usize
    ensures { Written out.old 0 (refusal_text number) result out.new }
{
    let mut writer = Writer::new(out);
    put_refusal(&mut writer, number);
    writer.len()
}

fn put_words(number: u8, text: &mut [u8]) -> u32
    ensures value { result ≡ words_length true (refusal_text number) text.old }
    ensures text_after { text.new ≡ words_left true (refusal_text number) text.old }
{
    let mut made = [0u8; MOST_WORDING];
    let length = refusal_words(&mut made, number);
    hand_over_wording(&made[..length], text)
}

// Writes a refusal of a word that is not passed on, or of merging, in words.
pub fn shabgozim_operator_refusal(number: u8, text: &mut [u8]) -> u32
    ensures value { result ≡ words_length (is_operator_refusal number) (refusal_text number) text.old }
    ensures text_after { text.new ≡ words_left (is_operator_refusal number) (refusal_text number) text.old }
{
    let refusal = (51 <= number) & (number <= 54);
    if !refusal {
        return 0;
    }
    put_words(number, text)
}
