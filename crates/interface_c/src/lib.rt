// What C calls (include/shabgozim.h). Each function calls the one of its name in `interface`, and promises the same.
#![tactic(auto)]

pub mod pem_h;
pub mod two_operators;
pub mod why;

ghost use Rattle.std.specs.Prelude.{◌≡◌, length};
ghost use Rattle.words.specs.Codec.{decode_of, encode_of};
ghost use Rattle.plan.specs.Stored.{plan_of};
ghost use Rattle.schedule.specs.Translate.{schedule_of, filled, word_list, tick_list};
ghost use Rattle.blocks.specs.Numbers.{written_number};
ghost use Rattle.blocks.specs.Written.{buffer_after};
ghost use Rattle.blocks.specs.Ir.{ir_words, ir_readings};
ghost use Rattle.blocks.specs.Ccd.{ccd_words, ccd_readings};
ghost use Rattle.interface.specs.Blocks.{block_written, ir_block_for, ccd_block_for, ir_answer, ir_read_for, ir_numbers_after, ccd_answer, ccd_read_for, ccd_numbers_after};
ghost use Rattle.head.specs.Row.{state_of};
ghost use Rattle.interface.specs.Plans.{translated_of, translated_answer};
ghost use Rattle.interface.specs.Stepping.{power_on_answer, power_on_state, range_answer, word_answer, word_state, tick_answer, tick_state, list_answer, list_state, list_outcomes};
ghost use Rattle.interface.specs.Codec.{decoded_answer, encoded_answer};

#[unsafe(no_mangle)]
pub extern "C" fn shabgozim_power_on(state: &mut [u16]) -> u32
    ensures value { result ≡ power_on_answer state.old }
    ensures state_after { state.new ≡ power_on_state state.old }
{
    interface::shabgozim_power_on(state)
}

#[unsafe(no_mangle)]
pub extern "C" fn shabgozim_in_range(state: &[u16]) -> u32
    ensures { result ≡ range_answer state.now }
{
    interface::shabgozim_in_range(state)
}

#[unsafe(no_mangle)]
pub extern "C" fn shabgozim_word(state: &mut [u16], word: u16) -> u32
    ensures value { result ≡ word_answer state.old word }
    ensures state_after { state.new ≡ word_state state.old word }
{
    interface::shabgozim_word(state, word)
}

#[unsafe(no_mangle)]
pub extern "C" fn shabgozim_tick(state: &mut [u16]) -> u32
    ensures value { result ≡ tick_answer state.old }
    ensures state_after { state.new ≡ tick_state state.old }
{
    interface::shabgozim_tick(state)
}

#[unsafe(no_mangle)]
pub extern "C" fn shabgozim_list(
    state: &mut [u16],
    words: &[u16],
    ticks: &[u32],
    outcomes: &mut [u16],
) -> u32
    ensures value { result ≡ list_answer state.old words.now ticks.now (length outcomes.old) }
    ensures state_after { state.new ≡ list_state state.old words.now ticks.now (length outcomes.old) }
    ensures outcomes_after { outcomes.new ≡ list_outcomes state.old words.now ticks.now outcomes.old }
{
    interface::shabgozim_list(state, words, ticks, outcomes)
}

#[unsafe(no_mangle)]
pub extern "C" fn shabgozim_decode(word: u16) -> u32
    ensures { result ≡ decoded_answer (decode_of word) }
{
    interface::shabgozim_decode(word)
}

#[unsafe(no_mangle)]
pub extern "C" fn shabgozim_decode_by_byte(word: u16) -> u32
    ensures { result ≡ decoded_answer (decode_of word) }
{
    interface::shabgozim_decode_by_byte(word)
}

#[unsafe(no_mangle)]
pub extern "C" fn shabgozim_encode(kind: u8, bits: u16) -> u32
    ensures { result ≡ encoded_answer (encode_of kind bits) }
{
    interface::shabgozim_encode(kind, bits)
}

#[unsafe(no_mangle)]
pub extern "C" fn shabgozim_translate(
    state: &[u16],
    plan: &[u8],
    words: &mut [u16],
    ticks: &mut [u32],
) -> u64
    ensures value { result ≡ translated_answer (translated_of state.now plan.now (length words.old) (length ticks.old)) }
    ensures words_after { words.new ≡ filled (translated_of state.now plan.now (length words.old) (length ticks.old)) (word_list (schedule_of (state_of state.now) (plan_of plan.now))) words.old }
    ensures ticks_after { ticks.new ≡ filled (translated_of state.now plan.now (length words.old) (length ticks.old)) (tick_list (schedule_of (state_of state.now) (plan_of plan.now))) ticks.old }
{
    interface::shabgozim_translate(state, plan, words, ticks)
}

#[unsafe(no_mangle)]
pub extern "C" fn shabgozim_write_ir(
    state: &[u16],
    flags: u32,
    ended: u32,
    bits: u32,
    readings: &[u16],
    block: &mut [u16],
) -> u32
    ensures value { result ≡ written_number (block_written ir_words ir_readings state.now readings.now block.old) }
    ensures block_after { block.new ≡ buffer_after (block_written ir_words ir_readings state.now readings.now block.old) (ir_block_for state.now flags ended bits readings.now) block.old }
{
    interface::shabgozim_write_ir(state, flags, ended, bits, readings, block)
}

#[unsafe(no_mangle)]
pub extern "C" fn shabgozim_write_ccd(
    state: &[u16],
    flags: u32,
    ended: u32,
    bits: u32,
    readings: &[u16],
    block: &mut [u16],
) -> u32
    ensures value { result ≡ written_number (block_written ccd_words ccd_readings state.now readings.now block.old) }
    ensures block_after { block.new ≡ buffer_after (block_written ccd_words ccd_readings state.now readings.now block.old) (ccd_block_for state.now flags ended bits readings.now) block.old }
{
    interface::shabgozim_write_ccd(state, flags, ended, bits, readings, block)
}

#[unsafe(no_mangle)]
pub extern "C" fn shabgozim_read_ir(block: &[u16], numbers: &mut [u16]) -> u32
    ensures value { result ≡ ir_answer (ir_read_for block.now numbers.old) }
    ensures numbers_after { numbers.new ≡ ir_numbers_after (ir_read_for block.now numbers.old) block.now numbers.old }
{
    interface::shabgozim_read_ir(block, numbers)
}

#[unsafe(no_mangle)]
pub extern "C" fn shabgozim_read_ccd(block: &[u16], numbers: &mut [u16]) -> u32
    ensures value { result ≡ ccd_answer (ccd_read_for block.now numbers.old) }
    ensures numbers_after { numbers.new ≡ ccd_numbers_after (ccd_read_for block.now numbers.old) block.now numbers.old }
{
    interface::shabgozim_read_ccd(block, numbers)
}
