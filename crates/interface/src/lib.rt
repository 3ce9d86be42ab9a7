// The C interface of the library (include/shabgozim.h), which `interface_c` exports. A state of the head crosses it as an array of 35
// 16-bit numbers. Every length is judged here, and none is trusted.
#![tactic(auto)]

pub mod answers;
pub mod pem_h;
pub mod readings;
pub mod state;
pub mod two_operators;
pub mod why;

ghost use Rattle.std.specs.Prelude.{◌≡◌, length};
ghost use Rattle.words.specs.Codec.{decode_of, encode_of};
ghost use Rattle.plan.specs.Stored.{plan_of};
ghost use Rattle.schedule.specs.Translate.{schedule_of, filled, word_list, tick_list};
ghost use Rattle.blocks.specs.Numbers.{written_number};
ghost use Rattle.blocks.specs.Written.{buffer_after};
ghost use Rattle.blocks.specs.Ir.{ir_words, ir_readings};
ghost use Rattle.blocks.specs.Ccd.{ccd_words, ccd_readings};
ghost use Rattle.interface.specs.Blocks.{block_written, ir_block_for, ccd_block_for, ir_answer, ir_read_for, ir_numbers_after, ccd_answer, ccd_read_for, ccd_numbers_after};
ghost use Rattle.head.specs.Row.{state_of};
ghost use Rattle.interface.specs.Plans.{translated_of, translated_answer};
ghost use Rattle.interface.specs.Stepping.{power_on_answer, power_on_state, range_answer, word_answer, word_state, tick_answer, tick_state, list_answer, list_state, list_outcomes};
ghost use Rattle.interface.specs.Codec.{decoded_answer, encoded_answer};

use blocks::ccd::{CCD_READINGS, CCD_WORDS, read_ccd, write_ccd};
use blocks::ir::{IR_READINGS, IR_WORDS, read_ir, write_ir};
use blocks::refusal::{Refusal, number_of};
use head::state::Head;
use schedule::TranslateError;
use schedule::translate::translate;
use state::PLACES;
use words::upper_byte::decode_by_byte;

// Writes the power-on state.
pub fn shabgozim_power_on(state: &mut [u16]) -> u32
    ensures value { result ≡ power_on_answer state.old }
    ensures state_after { state.new ≡ power_on_state state.old }
{
    if state.len() != PLACES {
        return answers::state_refused();
    }
    state::store(state, Head::power_on());
    0
}

pub fn shabgozim_in_range(state: &[u16]) -> u32
    ensures { result ≡ range_answer state.now }
{
    if !state::well_formed(state) {
        return answers::state_refused();
    }
    if state::load(state).in_range() {
        return 0;
    }
    answers::state_refused()
}

// Gives the head a word.
pub fn shabgozim_word(state: &mut [u16], word: u16) -> u32
    ensures value { result ≡ word_answer state.old word }
    ensures state_after { state.new ≡ word_state state.old word }
{
    if !state::well_formed(state) {
        return answers::state_refused();
    }
    let answered = state::load(state).word(word);
    let outcome = answered.outcome;
    state::store(state, answered.head);
    outcome.number()
}

// Lets a tick pass.
pub fn shabgozim_tick(state: &mut [u16]) -> u32
    ensures value { result ≡ tick_answer state.old }
    ensures state_after { state.new ≡ tick_state state.old }
{
    if !state::well_formed(state) {
        return answers::state_refused();
    }
    let ticked = state::load(state).tick();
    let due = ticked.due;
    state::store(state, ticked.head);
    answers::due_number(due)
}

// Gives the head a list of words, each at its tick.
pub fn shabgozim_list(state: &mut [u16], words: &[u16], ticks: &[u32], outcomes: &mut [u16]) -> u32
    ensures value { result ≡ list_answer state.old words.now ticks.now (length outcomes.old) }
    ensures state_after { state.new ≡ list_state state.old words.now ticks.now (length outcomes.old) }
    ensures outcomes_after { outcomes.new ≡ list_outcomes state.old words.now ticks.now outcomes.old }
{
    if !state::well_formed(state) {
        return answers::state_refused();
    }
    let listed = state::load(state).list(words, ticks, outcomes);
    state::store(state, listed.head);
    match listed.answer {
        Ok(()) => 0,
        Err(error) => u32::from(error.number()),
    }
}

pub fn shabgozim_decode(word: u16) -> u32
    ensures { result ≡ decoded_answer (decode_of word) }
{
    answers::decoded_number(words::decode(word))
}

// The same by the word's upper byte.
pub fn shabgozim_decode_by_byte(word: u16) -> u32
    ensures { result ≡ decoded_answer (decode_of word) }
{
    answers::decoded_number(decode_by_byte(word))
}

pub fn shabgozim_encode(kind: u8, bits: u16) -> u32
    ensures { result ≡ encoded_answer (encode_of kind bits) }
{
    answers::encoded_number(words::encode(kind, bits))
}

// Translates a stored plan for the head in this state.
pub fn shabgozim_translate(state: &[u16], plan: &[u8], words: &mut [u16], ticks: &mut [u32]) -> u64
    ensures value { result ≡ translated_answer (translated_of state.now plan.now (length words.old) (length ticks.old)) }
    ensures words_after { words.new ≡ filled (translated_of state.now plan.now (length words.old) (length ticks.old)) (word_list (schedule_of (state_of state.now) (plan_of plan.now))) words.old }
    ensures ticks_after { ticks.new ≡ filled (translated_of state.now plan.now (length words.old) (length ticks.old)) (tick_list (schedule_of (state_of state.now) (plan_of plan.now))) ticks.old }
{
    if !state::well_formed(state) {
        return u64::from(TranslateError::StateUnfit.number());
    }
    let translated = translate(state::load(state), plan, words, ticks);
    answers::translated_number(translated)
}

// Writes the IR block of a state.
pub fn shabgozim_write_ir(
    state: &[u16],
    flags: u32,
    ended: u32,
    bits: u32,
    readings: &[u16],
    block: &mut [u16],
) -> u32
    ensures value { result ≡ written_number (block_written ir_words ir_readings state.now readings.now block.old) }
    ensures block_after { block.new ≡ buffer_after (block_written ir_words ir_readings state.now readings.now block.old) (ir_block_for state.now flags ended bits readings.now) block.old }
{
    if readings.len() != IR_READINGS {
        return u32::from(Refusal::Length.number());
    }
    if block.len() != IR_WORDS {
        return u32::from(Refusal::Length.number());
    }
    if !state::well_formed(state) {
        return u32::from(Refusal::State.number());
    }
    let head = state::load(state);
    let shown = readings::flags_in(flags);
    let given = readings::readings(readings);
    let said = readings::ir_bits_in(bits);
    let written = write_ir(head, shown, ended == 1, given, said, block);
    u32::from(number_of(&written))
}

// Writes the CCD block of a state.
pub fn shabgozim_write_ccd(
    state: &[u16],
    flags: u32,
    ended: u32,
    bits: u32,
    readings: &[u16],
    block: &mut [u16],
) -> u32
    ensures value { result ≡ written_number (block_written ccd_words ccd_readings state.now readings.now block.old) }
    ensures block_after { block.new ≡ buffer_after (block_written ccd_words ccd_readings state.now readings.now block.old) (ccd_block_for state.now flags ended bits readings.now) block.old }
{
    if readings.len() != CCD_READINGS {
        return u32::from(Refusal::Length.number());
    }
    if block.len() != CCD_WORDS {
        return u32::from(Refusal::Length.number());
    }
    if !state::well_formed(state) {
        return u32::from(Refusal::State.number());
    }
    let head = state::load(state);
    let shown = readings::flags_in(flags);
    let given = readings::readings(readings);
    let said = readings::ccd_bits_in(bits);
    let written = write_ccd(head, shown, ended == 1, given, said, block);
    u32::from(number_of(&written))
}

// Reads an IR block into numbers.
pub fn shabgozim_read_ir(block: &[u16], numbers: &mut [u16]) -> u32
    ensures value { result ≡ ir_answer (ir_read_for block.now numbers.old) }
    ensures numbers_after { numbers.new ≡ ir_numbers_after (ir_read_for block.now numbers.old) block.now numbers.old }
{
    if numbers.len() != readings::IR_NUMBERS {
        return u32::from(Refusal::Length.number());
    }
    match read_ir(block) {
        Ok(read) => {
            // The readings come from the block: in the answer a refusal would overlap them, so that the compiler moves them in pieces.
            readings::put_ir(numbers, &block[..IR_READINGS], read.meaning);
            0
        }
        Err(refusal) => answers::refused_number(refusal),
    }
}

// Reads a CCD block into numbers.
pub fn shabgozim_read_ccd(block: &[u16], numbers: &mut [u16]) -> u32
    ensures value { result ≡ ccd_answer (ccd_read_for block.now numbers.old) }
    ensures numbers_after { numbers.new ≡ ccd_numbers_after (ccd_read_for block.now numbers.old) block.now numbers.old }
{
    if numbers.len() != readings::CCD_NUMBERS {
        return u32::from(Refusal::Length.number());
    }
    match read_ccd(block) {
        Ok(read) => {
            // From the block, as the readings of an IR block are.
            readings::put_ccd(numbers, &block[..CCD_READINGS], read.meaning);
            0
        }
        Err(refusal) => answers::refused_number(refusal),
    }
}
