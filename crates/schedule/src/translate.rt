// A stored plan translated into timed words (document 01, "Plans").
ghost use Rattle.std.specs.Prelude.{◌≡◌, ◌≤◌, length, OnOk};
ghost use Rattle.std.proofs.Math.Seq.{paste};
ghost use Rattle.plan.specs.Stored.{orders_from, most_orders, plan_of};
ghost use Rattle.schedule.specs.Clock.{Near};
ghost use Rattle.schedule.specs.Filled.{laid_of, words_laid, ticks_laid};
ghost use Rattle.schedule.specs.Translate.{fit, most_words, translate_of, schedule_of, filled, tick_list, word_list, translated_number, translated_place, translation_number, translation_place};

use crate::clock::Clock;
use crate::put::put_order;
use crate::{TranslateError, Translation};
use head::state::Head;
use plan::stored::{Fault, HEADER, MOST_ORDERS, Refusal, byte_at, checked_at, header_fault};

// The most words that a plan has: four for each order.
pub const MOST_WORDS: usize = 4 * MOST_ORDERS;

// The orders of a plan, judged one by one; their words and ticks from the first place on, as far as they go.
fn lay(
    words: &mut [u16],
    ticks: &mut [u32],
    plan: &[u8],
    start: Clock,
) -> Result<Translation, Refusal>
    requires fact_1 { most_words ≤ length words.old }
    requires fact_2 { most_words ≤ length ticks.old }
    requires fact_3 { Near 0 start }
    ensures value { result ≡ laid_of (orders_from most_orders plan.now 3) start 0 }
    ensures when_done { OnOk result (words.new ≡ words_laid (orders_from most_orders plan.now 3) start 0 words.old) }
    ensures when_done_2 { OnOk result (ticks.new ≡ ticks_laid (orders_from most_orders plan.now 3) start 0 ticks.old) }
{
    let mut at: usize = HEADER;
    let mut next: usize = 0;
    let mut clock = start;
    let mut k: usize = 0;
    // The place advances by each order's own length, so it is no index of a `for`.
    while at < plan.len() {
        if MOST_ORDERS <= k {
            return Err(Refusal {
                fault: Fault::TooMany,
                place: at,
            });
        }
        let order = match checked_at(plan, at) {
            Ok(order) => order,
            Err(fault) => return Err(Refusal { fault, place: at }),
        };
        let placed = put_order(words, ticks, next, clock, order);
        clock = placed.clock;
        next = placed.next;
        at = at + 1 + byte_at(plan, at) as usize;
        k += 1;
    }
    Ok(Translation {
        count: next,
        end: clock.now,
    })
}

// The first words and ticks into lent lists, in one loop: a `copy_from_slice` of each would make the archive need `memcpy` from outside.
fn copy_out(words: &mut [u16], ticks: &mut [u32], sent: &[u16], times: &[u32], count: usize)
    requires fact_1 { count ≤ length words.old }
    requires fact_2 { count ≤ length ticks.old }
    requires fact_3 { count ≤ length sent.now }
    requires fact_4 { count ≤ length times.now }
    ensures words_after { words.new ≡ paste words.old 0 sent.now count }
    ensures ticks_after { ticks.new ≡ paste ticks.old 0 times.now count }
{
    for i in 0..count {
        words[i] = sent[i];
        ticks[i] = times[i];
    }
}

// Whether a plan can be translated for a head: in range, idle, and nothing moving.
pub fn is_fit(head: Head) -> bool
    ensures { result ≡ fit head }
{
    if !head.at_rest() {
        return false;
    }
    head.in_range() & !head.is_busy()
}

// Fills the first places of words and ticks with the plan's, or refuses and writes to neither.
pub fn translate(
    head: Head,
    plan: &[u8],
    words: &mut [u16],
    ticks: &mut [u32],
) -> Result<Translation, TranslateError>
    ensures value { result ≡ translate_of head plan.now (length words.old) (length ticks.old) }
    ensures words_after { words.new ≡ filled result (word_list (schedule_of head (plan_of plan.now))) words.old }
    ensures ticks_after { ticks.new ≡ filled result (tick_list (schedule_of head (plan_of plan.now))) ticks.old }
    ensures result_value { translated_number result ≡ translation_number head plan.now (length words.old) (length ticks.old) }
    ensures result_value_2 { translated_place result ≡ translation_place head plan.now }
{
    if !is_fit(head) {
        return Err(TranslateError::StateUnfit);
    }
    if let Err(fault) = header_fault(plan) {
        return Err(TranslateError::Plan(Refusal { fault, place: 0 }));
    }
    let mut own_words = [0u16; MOST_WORDS];
    let mut own_ticks = [0u32; MOST_WORDS];
    let laid = lay(&mut own_words, &mut own_ticks, plan, Clock::of(head))?;
    let count = laid.count;
    if words.len() < count {
        return Err(TranslateError::Short { count });
    }
    if ticks.len() < count {
        return Err(TranslateError::Short { count });
    }
    copy_out(words, ticks, &own_words, &own_ticks, count);
    Ok(laid)
}
