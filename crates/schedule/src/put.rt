// The words of orders laid into two lists, each with its tick.
ghost use Rattle.std.specs.Prelude.{◌≡◌, true, ◌+◌, ◌≤◌, length, take};
ghost use Rattle.std.proofs.lemmas.List.Edits.{sets};
ghost use Rattle.orders.specs.Codes.{fit};
ghost use Rattle.orders.specs.Words.{words_of, items_of};
ghost use Rattle.schedule.specs.Clock.{Near, early, latest, clock_through};
ghost use Rattle.schedule.specs.Filled.{order_ticks, up_from};
ghost use Rattle.schedule.specs.Translate.{words_in};

use crate::clock::Clock;
use orders::encoding::Words;
use orders::order::Order;

// The clock after some words, and the place after theirs.
#[derive(Clone, Copy)]
pub struct Placed {
    pub clock: Clock,
    pub next: usize,
}

// The first N words of a list from a place on: the first at this tick, each other one tick later. N is a constant, since a loop of a length that is
// not known makes an order of a translation 60 instructions dearer.
fn put_first<const N: usize>(
    words: &mut [u16],
    ticks: &mut [u32],
    from: usize,
    tick: u32,
    list: [u16; 4],
)
    requires count_bound { N ≤ 4 }
    requires tick_bound { tick + 2 ≤ latest }
    requires count_in_bounds_1 { from + N ≤ length words.old }
    requires count_in_bounds_2 { from + N ≤ length ticks.old }
    ensures words_after { words.new ≡ sets words.old from (take N list) }
    ensures ticks_after { ticks.new ≡ sets ticks.old from (up_from tick N) }
{
    for i in 0..N {
        words[from + i] = list[i];
        ticks[from + i] = tick + i as u32;
    }
}

// The words of an order from a place on.
fn put_words(words: &mut [u16], ticks: &mut [u32], from: usize, tick: u32, sent: Words)
    requires count_bound { sent.count ≤ 4 }
    requires tick_bound { tick + 2 ≤ latest }
    requires count_in_bounds_1 { from + sent.count ≤ length words.old }
    requires count_in_bounds_2 { from + sent.count ≤ length ticks.old }
    ensures words_after { words.new ≡ sets words.old from (words_in sent) }
    ensures ticks_after { ticks.new ≡ sets ticks.old from (up_from tick sent.count) }
{
    let list = sent.list;
    match sent.count {
        0 => {}
        1 => put_first::<1>(words, ticks, from, tick, list),
        2 => put_first::<2>(words, ticks, from, tick, list),
        3 => put_first::<3>(words, ticks, from, tick, list),
        _ => put_first::<4>(words, ticks, from, tick, list),
    }
}

// The words of an order that fits, from a place on; a wait has none and advances the clock.
pub(crate) fn put_order(
    words: &mut [u16],
    ticks: &mut [u32],
    from: usize,
    clock: Clock,
    order: Order,
) -> Placed
    requires order_value_1 { fit order ≡ true }
    requires order_value_2 { Near early clock }
    requires order_in_bounds_1 { from + length (words_of order) ≤ length words.old }
    requires order_in_bounds_2 { from + length (words_of order) ≤ length ticks.old }
    ensures clock_value { (result.clock ≡ clock_through clock (items_of order)) × (result.next ≡ from + length (words_of order)) }
    ensures words_after { words.new ≡ sets words.old from (words_of order) }
    ensures ticks_after { ticks.new ≡ sets ticks.old from (order_ticks clock order) }
{
    let sent = order.words();
    let tick = clock.first_tick(order.code);
    put_words(words, ticks, from, tick, sent);
    Placed {
        clock: clock.after_order(order, tick, sent.count as u32),
        next: from + sent.count,
    }
}
