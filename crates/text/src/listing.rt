// The listing of a plan, and what the listing program prints for the bytes that it reads.
ghost use Rattle.std.specs.Prelude.{◌≡◌, ◌≤◌, length, take};
ghost use Rattle.head.specs.State.{power_on};
ghost use Rattle.layout.specs.Written.{Written, Front};
ghost use Rattle.schedule.specs.Translate.{most_words, translation_number, translation_place};
ghost use Rattle.text.specs.Listing.{listing_of, listing_number, listing_place, listed_of, listed_after, printed_for};

use crate::lines::{put_end_line, put_refusal_line, put_word_lines};
use head::state::Head;
use layout::writer::Writer;
use schedule::TranslateError;
use schedule::translate::{MOST_WORDS, translate};

// The most bytes that the listing program takes.
pub const MOST_INPUT: usize = 4096;

// Room for the listing of every plan.
pub const LONGEST: usize = 8192;

// The first count ticks and words, and the end.
fn put_listing(
    out: &mut [u8; LONGEST],
    ticks: &[u32],
    words: &[u16],
    count: usize,
    end: u32,
) -> usize
    requires fact_1 { count ≤ length ticks.now }
    requires fact_2 { count ≤ length words.now }
    ensures { Written out.old 0 (listing_of (take count ticks.now) (take count words.now) end) result out.new }
{
    let mut writer = Writer::new(out);
    writer.put_bytes(b"tick word\n");
    put_word_lines(&mut writer, ticks, words, count);
    put_end_line(&mut writer, end);
    writer.len()
}

// The listing of a plan for a head, at the front, and the number of its bytes; a refusal writes nothing.
pub fn list_plan(head: Head, plan: &[u8], out: &mut [u8; LONGEST]) -> Result<usize, TranslateError>
    ensures value { result ≡ listed_of head plan.now }
    ensures out_after { out.new ≡ listed_after head plan.now out.old }
    ensures result_value { listing_number result ≡ translation_number head plan.now most_words most_words }
    ensures result_value_2 { listing_place result ≡ translation_place head plan.now }
{
    let mut words = [0u16; MOST_WORDS];
    let mut ticks = [0u32; MOST_WORDS];
    let made = translate(head, plan, &mut words, &mut ticks)?;
    Ok(put_listing(out, &ticks, &words, made.count, made.end))
}

fn list_at_power_on(plan: &[u8], out: &mut [u8; LONGEST]) -> Result<usize, TranslateError>
    ensures value { result ≡ listed_of power_on plan.now }
    ensures out_after { out.new ≡ listed_after power_on plan.now out.old }
{
    list_plan(Head::power_on(), plan, out)
}

// The text for a plan; the answer is its length.
pub fn listing(plan: &[u8], out: &mut [u8; LONGEST]) -> usize
    ensures { Front out.old (printed_for plan.now) result out.new }
{
    if MOST_INPUT < plan.len() {
        let mut writer = Writer::new(out);
        writer.put_bytes(b"input too long\n");
        return writer.len();
    }
    match list_at_power_on(plan, out) {
        Ok(length) => length,
        Err(error) => {
            let mut writer = Writer::new(out);
            put_refusal_line(&mut writer, error.number(), error.place());
            writer.len()
        }
    }
}
