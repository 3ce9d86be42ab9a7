// The texts of the high-resolution head: the picture of a pixel map, and request P5's refusals in words.
ghost use Rattle.std.specs.Prelude.{◌≡◌, true};
ghost use Rattle.layout.specs.Written.{Written};
ghost use Rattle.picture.specs.Printed.{refusal_text};
ghost use Rattle.texts.specs.Texts.{words_length, words_left};
ghost use Rattle.texts.specs.PemH.{picture_answer, picture_left, is_pem_h_refusal};

use crate::arrays::packed;
use crate::handing::{hand_over, hand_over_wording};
use layout::writer::Writer;
use picture::printed::{LONGEST, picture};
use picture::refusal::put_refusal;
use pixels::lighted;

// Room for every refusal in words.
const MOST_WORDING: usize = 256;

// Writes the picture of a pixel map.
pub fn shabgozim_h_picture(map: &[u8], text: &mut [u8]) -> u64
    ensures value { result ≡ picture_answer map.now text.old }
    ensures text_after { text.new ≡ picture_left map.now text.old }
{
    match lighted(map) {
        Ok(_) => {
            let mut made = [0u8; LONGEST];
            let length = picture(map, &mut made);
            hand_over(&made[..length], text)
        }
        Err(error) => packed(error.number(), 0, 0),
    }
}

// The words of a refusal, from the first byte on; the answer is their length.
fn refusal_words(out: &mut [u8], number: u8) -> usize
    ensures { Written out.old 0 (refusal_text number) result out.new }
{
    let mut writer = Writer::new(out);
    put_refusal(&mut writer, number);
    writer.len()
}

fn put_words(number: u8, text: &mut [u8]) -> u32
    ensures value { result ≡ words_length true (refusal_text number) text.old }
    ensures text_after { text.new ≡ words_left true (refusal_text number) text.old }
{
    let mut made = [0u8; MOST_WORDING];
    let length = refusal_words(&mut made, number);
    hand_over_wording(&made[..length], text)
}

// Writes a refusal of a map or of a request in words.
pub fn shabgozim_h_refusal(number: u8, text: &mut [u8]) -> u32
    ensures value { result ≡ words_length (is_pem_h_refusal number) (refusal_text number) text.old }
    ensures text_after { text.new ≡ words_left (is_pem_h_refusal number) (refusal_text number) text.old }
{
    let refusal = (41 <= number) & (number <= 44);
    if !refusal {
        return 0;
    }
    put_words(number, text)
}
