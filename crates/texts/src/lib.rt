// The texts of the C interface (include/shabgozim.h), which `texts_c` exports: the listing and the report of a plan, a list read from text,
// inspected or merged, refusals in words, and the table of upper bytes.
#![tactic(auto)]

pub mod arrays;
pub mod handing;
pub mod lists;
pub mod pem_h;
pub mod two_operators;
pub mod why;

ghost use Rattle.std.specs.Prelude.{◌≡◌, length};
ghost use Rattle.names.specs.Table.{table_text};
ghost use Rattle.texts.specs.Lists.{read_answer, words_left, ticks_left, inspection_answer, inspection_left, list_refusal_length, list_refusal_left};
ghost use Rattle.texts.specs.Texts.{has_room, text_after, room_answer, listing_answer, listing_left, report_answer, report_left, report_state, refusal_length, refusal_left};

use import::read::read_list;
use interface::state::well_formed;

// Document 01's number of an array that holds no fit state.
const STATE_UNFIT: u64 = 1;

// Writes the listing of a stored plan for the head in this state.
pub fn shabgozim_listing(state: &[u16], plan: &[u8], text: &mut [u8]) -> u64
    ensures value { result ≡ listing_answer state.now plan.now text.old }
    ensures text_after { text.new ≡ listing_left state.now plan.now text.old }
{
    if !well_formed(state) {
        return STATE_UNFIT;
    }
    handing::put_listing(state, plan, text)
}

// Writes the report of a stored plan, from this state once it is idle and at rest, and leaves the state at the plan's end.
pub fn shabgozim_report(state: &mut [u16], plan: &[u8], text: &mut [u8]) -> u64
    ensures value { result ≡ report_answer state.old plan.now text.old }
    ensures state_after { state.new ≡ report_state state.old plan.now text.old }
    ensures text_after { text.new ≡ report_left state.old plan.now text.old }
{
    if !well_formed(state) {
        return STATE_UNFIT;
    }
    handing::put_report(state, plan, text)
}

// Writes a refusal of a plan in words.
pub fn shabgozim_refusal(number: u8, place: u32, plan: &[u8], text: &mut [u8]) -> u32
    ensures value { result ≡ refusal_length number place plan.now text.old }
    ensures text_after { text.new ≡ refusal_left number place plan.now text.old }
{
    let refusal = (1 <= number) & (number <= 10);
    if !refusal {
        return 0;
    }
    handing::put_wording(number, place as usize, plan, text)
}

// Reads a list of timed words from text.
pub fn shabgozim_read_list(text: &[u8], words: &mut [u16], ticks: &mut [u32]) -> u64
    ensures value { result ≡ read_answer text.now (length words.old) (length ticks.old) }
    ensures words_after { words.new ≡ words_left text.now words.old ticks.old }
    ensures ticks_after { ticks.new ≡ ticks_left text.now words.old ticks.old }
{
    lists::read_number(read_list(text, words, ticks))
}

// Writes the inspection of a list that is given to a head at power-on.
pub fn shabgozim_inspection(words: &[u16], ticks: &[u32], text: &mut [u8]) -> u64
    ensures value { result ≡ inspection_answer words.now ticks.now text.old }
    ensures text_after { text.new ≡ inspection_left words.now ticks.now text.old }
{
    lists::put_inspection(words, ticks, text)
}

// Writes a refusal of a text in words.
pub fn shabgozim_list_refusal(number: u8, line: u32, text: &mut [u8]) -> u32
    ensures value { result ≡ list_refusal_length number line text.old }
    ensures text_after { text.new ≡ list_refusal_left number line text.old }
{
    let refusal = (91 <= number) & (number <= 96);
    if !refusal {
        return 0;
    }
    lists::put_list_wording(number, line as usize, text)
}

// Writes the table of upper bytes.
pub fn shabgozim_upper_bytes(text: &mut [u8]) -> u64
    ensures value { result ≡ room_answer table_text text.old }
    ensures text_after { text.new ≡ text_after (has_room table_text text.old) table_text text.old }
{
    handing::put_table(text)
}
