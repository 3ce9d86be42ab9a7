// The texts that the exported functions write. Each is made in an array with room for all of it, and handed over where the caller's array
// has room too.
ghost use Rattle.std.specs.Prelude.{◌≡◌, cond, ◌<◌, ◌^◌, length};
ghost use Rattle.head.specs.Row.{places, numbers_of};
ghost use Rattle.layout.specs.Written.{Written};
ghost use Rattle.names.specs.Table.{table_text};
ghost use Rattle.report.specs.Refusal.{refusal_text};
ghost use Rattle.texts.specs.Texts.{has_room, text_after, counted_answer, room_answer, listing_answer, listing_left, report_answer, report_left, report_state};

use crate::arrays::{load, packed, store};
use head::state::Head;
use layout::writer::Writer;
use names::table::upper_bytes;
use report::refusal::put_refusal;
use report::report::report;
use text::listing::list_plan;

// Room for every refusal in words.
const MOST_WORDING: usize = 1024;

// Document 01's number of a buffer without room.
pub(crate) const BUFFER_SHORT: u8 = 10;

// Hands over a text and a count; where there is no room for it, nothing is written.
pub(crate) fn hand_over_counted(made: &[u8], text: &mut [u8], count: usize) -> u64
    requires fact_1 { length made.now < 2 ^ 32 }
    requires fact_2 { count < 2 ^ 16 }
    ensures value { result ≡ counted_answer count made.now text.old }
    ensures text_after { text.new ≡ text_after (has_room made.now text.old) made.now text.old }
{
    if text.len() < made.len() {
        return packed(BUFFER_SHORT, count, made.len());
    }
    let mut writer = Writer::new(text);
    writer.put_bytes(made);
    packed(0, count, made.len())
}

pub(crate) fn hand_over(made: &[u8], text: &mut [u8]) -> u64
    requires { length made.now < 2 ^ 32 }
    ensures value { result ≡ room_answer made.now text.old }
    ensures text_after { text.new ≡ text_after (has_room made.now text.old) made.now text.old }
{
    hand_over_counted(made, text, 0)
}

// The listing of a plan for the head that the array holds.
pub(crate) fn put_listing(state: &[u16], plan: &[u8], text: &mut [u8]) -> u64
    requires { length state.now ≡ places }
    ensures value { result ≡ listing_answer state.now plan.now text.old }
    ensures text_after { text.new ≡ listing_left state.now plan.now text.old }
{
    let mut made = [0u8; text::listing::LONGEST];
    match list_plan(load(state), plan, &mut made) {
        Ok(length) => hand_over(&made[..length], text),
        Err(error) => packed(error.number(), 0, error.place()),
    }
}

// Hands over a text, and with it the head that the array is to hold.
fn hand_over_with(made: &[u8], text: &mut [u8], head: Head, state: &mut [u16]) -> u64
    requires fact_1 { length made.now < 2 ^ 32 }
    requires fact_2 { length state.old ≡ places }
    ensures value { result ≡ room_answer made.now text.old }
    ensures text_after { text.new ≡ text_after (has_room made.now text.old) made.now text.old }
    ensures state_after { state.new ≡ cond (has_room made.now text.old) (numbers_of head) state.old }
{
    if text.len() < made.len() {
        return hand_over(made, text);
    }
    store(state, head);
    hand_over(made, text)
}

// The report of a plan for the head that the array holds, and in the array the head at the plan's end.
pub(crate) fn put_report(state: &mut [u16], plan: &[u8], text: &mut [u8]) -> u64
    requires { length state.old ≡ places }
    ensures value { result ≡ report_answer state.old plan.now text.old }
    ensures text_after { text.new ≡ report_left state.old plan.now text.old }
    ensures state_after { state.new ≡ report_state state.old plan.now text.old }
{
    let mut made = [0u8; report::report::LONGEST];
    match report(load(state), plan, &mut made) {
        Ok(reported) => hand_over_with(&made[..reported.length], text, reported.head, state),
        Err(error) => packed(error.number(), 0, error.place()),
    }
}

// Hands over words; the answer is their length, 0 where there is no room for them.
pub(crate) fn hand_over_wording(made: &[u8], text: &mut [u8]) -> u32
    requires { length made.now < 2 ^ 32 }
    ensures value { result ≡ cond (has_room made.now text.old) (length made.now) 0 }
    ensures text_after { text.new ≡ text_after (has_room made.now text.old) made.now text.old }
{
    if text.len() < made.len() {
        return 0;
    }
    let mut writer = Writer::new(text);
    writer.put_bytes(made);
    made.len() as u32
}

// The words of a refusal, from the first byte on; the answer is their length.
fn refusal_words(out: &mut [u8], number: u8, place: usize, plan: &[u8]) -> usize
    ensures { Written out.old 0 (refusal_text number place plan.now) result out.new }
{
    let mut writer = Writer::new(out);
    put_refusal(&mut writer, number, place, plan);
    writer.len()
}

// A refusal in words; the answer is their length, 0 where there is no room for them.
pub(crate) fn put_wording(number: u8, place: usize, plan: &[u8], text: &mut [u8]) -> u32
    ensures value { result ≡ cond (has_room (refusal_text number place plan.now) text.old) (length (refusal_text number place plan.now)) 0 }
    ensures text_after { text.new ≡ text_after (has_room (refusal_text number place plan.now) text.old) (refusal_text number place plan.now) text.old }
{
    let mut made = [0u8; MOST_WORDING];
    let length = refusal_words(&mut made, number, place, plan);
    hand_over_wording(&made[..length], text)
}

// The table of upper bytes.
pub(crate) fn put_table(text: &mut [u8]) -> u64
    ensures value { result ≡ room_answer table_text text.old }
    ensures text_after { text.new ≡ text_after (has_room table_text text.old) table_text text.old }
{
    let mut made = [0u8; names::table::LONGEST];
    let length = upper_bytes(&mut made);
    hand_over(&made[..length], text)
}
