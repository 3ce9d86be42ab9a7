// What C calls of the texts (include/shabgozim.h). Each function calls the one of its name in `texts`, and promises the same. They stand in
// an archive of their own, so that the calls of the other one are not slowed down by sharing functions with them.
#![tactic(auto)]

pub mod pem_h;
pub mod two_operators;
pub mod why;

ghost use Rattle.std.specs.Prelude.{◌≡◌, length};
ghost use Rattle.names.specs.Table.{table_text};
ghost use Rattle.texts.specs.Lists.{read_answer, words_left, ticks_left, inspection_answer, inspection_left, list_refusal_length, list_refusal_left};
ghost use Rattle.texts.specs.Texts.{has_room, text_after, room_answer, listing_answer, listing_left, report_answer, report_left, report_state, refusal_length, refusal_left};

#[unsafe(no_mangle)]
pub extern "C" fn shabgozim_listing(state: &[u16], plan: &[u8], text: &mut [u8]) -> u64
    ensures value { result ≡ listing_answer state.now plan.now text.old }
    ensures text_after { text.new ≡ listing_left state.now plan.now text.old }
{
    texts::shabgozim_listing(state, plan, text)
}

#[unsafe(no_mangle)]
pub extern "C" fn shabgozim_report(state: &mut [u16], plan: &[u8], text: &mut [u8]) -> u64
    ensures value { result ≡ report_answer state.old plan.now text.old }
    ensures state_after { state.new ≡ report_state state.old plan.now text.old }
    ensures text_after { text.new ≡ report_left state.old plan.now text.old }
{
    texts::shabgozim_report(state, plan, text)
}

#[unsafe(no_mangle)]
pub extern "C" fn shabgozim_refusal(number: u8, place: u32, plan: &[u8], text: &mut [u8]) -> u32
    ensures value { result ≡ refusal_length number place plan.now text.old }
    ensures text_after { text.new ≡ refusal_left number place plan.now text.old }
{
    texts::shabgozim_refusal(number, place, plan, text)
}

#[unsafe(no_mangle)]
pub extern "C" fn shabgozim_read_list(text: &[u8], words: &mut [u16], ticks: &mut [u32]) -> u64
    ensures value { result ≡ read_answer text.now (length words.old) (length ticks.old) }
    ensures words_after { words.new ≡ words_left text.now words.old ticks.old }
    ensures ticks_after { ticks.new ≡ ticks_left text.now words.old ticks.old }
{
    texts::shabgozim_read_list(text, words, ticks)
}

#[unsafe(no_mangle)]
pub extern "C" fn shabgozim_inspection(words: &[u16], ticks: &[u32], text: &mut [u8]) -> u64
    ensures value { result ≡ inspection_answer words.now ticks.now text.old }
    ensures text_after { text.new ≡ inspection_left words.now ticks.now text.old }
{
    texts::shabgozim_inspection(words, ticks, text)
}

#[unsafe(no_mangle)]
pub extern "C" fn shabgozim_list_refusal(number: u8, line: u32, text: &mut [u8]) -> u32
    ensures value { result ≡ list_refusal_length number line text.old }
    ensures text_after { text.new ≡ list_refusal_left number line text.old }
{
    texts::shabgozim_list_refusal(number, line, text)
}

#[unsafe(no_mangle)]
pub extern "C" fn shabgozim_upper_bytes(text: &mut [u8]) -> u64
    ensures value { result ≡ room_answer table_text text.old }
    ensures text_after { text.new ≡ text_after (has_room table_text text.old) table_text text.old }
{
    texts::shabgozim_upper_bytes(text)
}
