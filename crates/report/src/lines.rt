// The orders of a plan, a line for each: its index, the tick of its last word, and what it does.
ghost use Rattle.std.specs.Prelude.{◌≡◌, ◌-◌, ◌≤◌, length, get_or};
ghost use Rattle.orders.specs.Words.{words_of};
ghost use Rattle.plan.specs.Stored.{orders, plan_of, orders_in};
ghost use Rattle.layout.specs.Numbers.{bit};
ghost use Rattle.layout.specs.Adds.{Adds};
ghost use Rattle.report.specs.Acts.{exposed_by};
ghost use Rattle.report.specs.Read.{row_entry, entries_in};
ghost use Rattle.report.specs.Lines.{exposed_after, is_switch, order_case, order_shown, order_text, is_act, place_text, order_line, order_lines};

use crate::acts::{put_act, settings_of};
use head::state::{Head, Settings};
use layout::numbers::bit;
use layout::writer::Writer;
use orders::codes;
use orders::encoding::sine_register;
use orders::order::Order;
use plan::log::{EXPOSURE, ROW};
use plan::stored::{HEADER, byte_at, checked_at};

// The orders whose first field switches something on or off, or between two modes.
#[tactic(auto, unfolding(crate::specs::Lines::is_switch))]
fn is_switch(code: u8) -> bool
    ensures { result ≡ is_switch code }
{
    let modes = (code == codes::WINDOW_MODE) | (code == codes::DETECTOR) | (code == codes::MOTOR);
    let lamps = (code == codes::CCD_LAMP) | (code == codes::IR_LAMP);
    modes | lamps | (code == codes::SHUTTER) | (code == codes::ANNEALING)
}

// Which of the texts is the order's: two for each code, the second for a switch that is 1.
#[tactic(auto, unfolding(crate::specs::Lines::order_case))]
fn order_case(order: Order) -> u64
    ensures { result ≡ order_case order }
{
    let first = 2 * order.code as u64;
    if is_switch(order.code) {
        return first + order.a as u64;
    }
    first
}

// The values that the order's text shows, after the case.
#[tactic(auto, unfolding(crate::specs::Lines::order_shown))]
fn order_values(order: Order) -> [u64; 5]
    ensures { result ≡ order_shown order }
{
    let code = order.code;
    let case = order_case(order);
    let a = order.a as u64;
    let b = order.b as u64;
    let moves = Head::MIRROR_TICKS as u64;
    let step = Head::STEP_TICKS as u64;
    if (code == codes::IR_TIMES) | (code == codes::CCD_TIMES) {
        return [case, step * a, step * b, 0, 0];
    }
    if code == codes::MIRROR {
        return [case, sine_register(order.a) as u64, b, moves, moves];
    }
    if code == codes::MOTOR {
        return [case, moves, moves, 0, 0];
    }
    if is_switch(code) {
        return [case, b, 0, 0, 0];
    }
    if code == codes::WAIT {
        return [case, a, a, 0, 0];
    }
    [case, a, b, order.c as u64, order.d as u64]
}

// What an order does that is no act.
fn put_order_text(writer: &mut Writer<'_>, order: Order)
    ensures { Adds writer.old writer.new (order_text order) }
{
    let values = order_values(order);
    writer.put_template(
        b"{||\
        VDETCOM ####||\
        VDETADJ ####||\
        IR delay %%%%% s, exposure %%%%% s||\
        CCD delay %%%%% s, exposure %%%%% s||\
        IR window mode full|IR window mode reduced|\
        CCD window #### #### #### ####||\
        detector off|detector on|\
        CCD lamp off, current @|CCD lamp on, current @|\
        IR lamp off, current @@|IR lamp on, current @@|\
        shutter open, current @@|shutter closed, current @@|\
        annealing off, limit @@|annealing on, limit @@|\
        mirror to sine ~~~~~, cosine ####; it moves for @@ ticks, %%%% s||\
        motor off|motor on; the mirror moves for @@ ticks, %%%% s|\
        ||||||\
        wait @@@@@ ticks, %%%%%% s}\n",
        &values,
        &values,
    );
}

// The orders whose line is that of the head's log.
#[tactic(auto, unfolding(crate::specs::Lines::is_act))]
fn is_act(code: u8) -> bool
    ensures { result ≡ is_act code }
{
    (code == codes::COVER) | (code == codes::EXPOSE) | (code == codes::HOUSEKEEPING)
}

// The order's index, and the tick of its last word; a wait has no word.
#[tactic(auto, unfolding(crate::specs::Lines::place_text, crate::specs::Lines::place_template, layout::specs::Numbers::ascii))]
fn put_place(writer: &mut Writer<'_>, index: usize, code: u8, tick: u32)
    ensures { Adds writer.old writer.new (place_text index code tick) }
{
    let words = bit(code != codes::WAIT);
    let values = [index as u64, words, tick as u64, tick as u64];
    writer.put_template(
        b"#####  {                   |#######  %%%%%%%%  }",
        &values,
        &values,
    );
}

// The line of an order; the row is that of the next act.
fn put_order(
    writer: &mut Writer<'_>,
    index: usize,
    order: Order,
    tick: u32,
    row: &[u16],
    before: Settings,
)
    requires { length row.now ≡ 21 }
    ensures { Adds writer.old writer.new (order_line index order tick (row_entry row.now) before) }
{
    put_place(writer, index, order.code, tick);
    if is_act(order.code) {
        put_act(writer, row, before);
        return;
    }
    put_order_text(writer, order);
}

// A tick; 0 past the end.
fn tick_at(ticks: &[u32], i: usize) -> u32
    ensures { result ≡ get_or ticks.now i 0 }
{
    ticks.get(i).copied().unwrap_or(0)
}

// The tick of the last of so many words.
fn last_tick(ticks: &[u32], words: usize) -> u32
    ensures { result ≡ get_or ticks.now (words - 1) 0 }
{
    tick_at(ticks, words.saturating_sub(1))
}

// The settings of the last exposure: those of this act where it is one.
#[tactic(auto, unfolding(crate::specs::Acts::exposed_by, crate::specs::Read::row_entry))]
fn exposed_by(row: &[u16], before: Settings) -> Settings
    requires { length row.now ≡ 21 }
    ensures { result ≡ exposed_by (row_entry row.now) before }
{
    if row[0] == EXPOSURE {
        return settings_of(row);
    }
    before
}

// The same after an order, whose row that is where it is an act.
#[tactic(auto, unfolding(crate::specs::Lines::exposed_after))]
fn exposed_after(code: u8, row: &[u16], before: Settings) -> Settings
    requires { length row.now ≡ 21 }
    ensures { result ≡ exposed_after code (row_entry row.now) before }
{
    if is_act(code) {
        return exposed_by(row, before);
    }
    before
}

// How many acts an order is.
fn act_count(code: u8) -> usize
    ensures { result ≡ bit (is_act code) }
{
    usize::from(is_act(code))
}

fn word_count(order: Order) -> usize
    ensures { result ≡ length (words_of order) }
{
    let words = order.words();
    words.count
}

// The lines of an accepted plan's orders, by the ticks of its words and the rows of the head's log.
pub(crate) fn put_orders(
    writer: &mut Writer<'_>,
    plan: &[u8],
    count: usize,
    ticks: &[u32],
    rows: &[u16],
    settings: Settings,
)
    requires fact_1 { plan_of plan.now ≡ orders (orders_in (plan_of plan.now)) }
    requires fact_2 { length (orders_in (plan_of plan.now)) ≡ count }
    requires fact_3 { length rows.now ≡ 1365 }
    ensures { Adds writer.old writer.new (order_lines 0 0 0 settings (orders_in (plan_of plan.now)) ticks.now (entries_in 65 rows.now)) }
{
    let mut at: usize = HEADER;
    let mut words: usize = 0;
    let mut acts: usize = 0;
    let mut before = settings;
    for k in 0..count {
        let order = checked_at(plan, at).unwrap();
        words = words + word_count(order);
        let from = ROW * acts;
        let to = from + ROW;
        let row = &rows[from..to];
        let tick = last_tick(ticks, words);
        put_order(writer, k + 1, order, tick, row, before);
        before = exposed_after(order.code, row, before);
        acts = acts + act_count(order.code);
        at = at + 1 + byte_at(plan, at) as usize;
    }
}
