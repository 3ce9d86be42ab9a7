// A stored plan read without words: its log of acts and the settings at the end, as rows (document 01, "Plans").
ghost use Rattle.std.specs.Prelude.{◌≡◌, ◌+◌, ◌*◌, ◌<◌, length};
ghost use Rattle.std.proofs.lemmas.List.Edits.{sets};
ghost use Rattle.plan.specs.Stored.{orders, most_orders, plan_of, orders_in, plan_number, plan_place};
ghost use Rattle.plan.specs.Reading.{entries_by, settings_read, log_read};
ghost use Rattle.plan.specs.Rows.{rows_of, record_of};
ghost use Rattle.plan.specs.Read.{read_of, read_number, read_place, read_record, at_front};

use crate::log::{END, EXPOSURE, cover_row, lay, request_row, settings_row};
use crate::settings::settings_by;
use crate::stored::{HEADER, Refusal, byte_at, checked_at, judge};
use head::state::Settings;
use orders::codes::{COVER, EXPOSE, HOUSEKEEPING};
use orders::order::Order;

// The act of an order, if it has one, as the next row; answers the number of acts then.
fn log_order(rows: &mut [u16], acts: usize, settings: Settings, order: Order) -> usize
    requires { acts < most_orders }
    ensures value { result ≡ acts + length (entries_by settings order) }
    ensures rows_after { rows.new ≡ sets rows.old (21 * acts) (rows_of (entries_by settings order)) }
{
    let code = order.code;
    if code == COVER {
        lay(rows, acts, cover_row(order.a, order.b, order.c, order.d));
        return acts + 1;
    }
    if code == EXPOSE {
        lay(rows, acts, settings_row(EXPOSURE, settings));
        return acts + 1;
    }
    if code == HOUSEKEEPING {
        lay(rows, acts, request_row());
        return acts + 1;
    }
    acts
}

// The orders of an accepted plan, and after their acts the settings at the end; answers the number of acts.
fn read_orders(rows: &mut [u16], plan: &[u8], count: usize, start: Settings) -> usize
    requires fact_1 { plan_of plan.now ≡ orders (orders_in (plan_of plan.now)) }
    requires fact_2 { length (orders_in (plan_of plan.now)) ≡ count }
    ensures value { result ≡ length (log_read start (orders_in (plan_of plan.now))) }
    ensures rows_after { rows.new ≡ sets rows.old 0 (record_of (log_read start (orders_in (plan_of plan.now))) (settings_read start (orders_in (plan_of plan.now)))) }
{
    let mut settings = start;
    let mut at: usize = HEADER;
    let mut acts: usize = 0;
    for _k in 0..count {
        let order = checked_at(plan, at).unwrap();
        acts = log_order(rows, acts, settings, order);
        settings = settings_by(settings, order);
        at = at + 1 + byte_at(plan, at) as usize;
    }
    lay(rows, acts, settings_row(END, settings));
    acts
}

// Reads a plan from given settings into the first rows, and answers the number of acts; a refusal writes nothing.
pub fn read_plan(settings: Settings, plan: &[u8], rows: &mut [u16; 1365]) -> Result<usize, Refusal>
    ensures value { result ≡ read_of settings (plan_of plan.now) }
    ensures result_value { read_number result ≡ plan_number (plan_of plan.now) }
    ensures result_value_2 { read_place result ≡ plan_place (plan_of plan.now) }
    ensures rows_after { rows.new ≡ at_front (read_record settings (plan_of plan.now)) rows.old }
{
    let count = judge(plan)?;
    Ok(read_orders(rows, plan, count, settings))
}
