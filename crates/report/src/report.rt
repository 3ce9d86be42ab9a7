// The report of a plan, and the head at its end.
ghost use Rattle.std.specs.Prelude.{◌≡◌, ◌≤◌, length};
ghost use Rattle.head.specs.List.{numbers_listed, list_of};
ghost use Rattle.plan.specs.Stored.{orders, plan_of, orders_in};
ghost use Rattle.schedule.specs.Translate.{most_words, translation_number, translation_place};
ghost use Rattle.layout.specs.Adds.{Adds};
ghost use Rattle.layout.specs.Written.{Written};
ghost use Rattle.report.specs.Read.{entries_in};
ghost use Rattle.report.specs.Report.{rested, taken_in, text_of, report_text, reported_of, report_after, reported_number, reported_place};

use crate::ending::{Outcome, put_ending};
use crate::lines::put_orders;
use crate::opening::{Counts, put_opening};
use head::numbers::is_cause;
use head::state::Head;
use layout::writer::Writer;
use plan::stored::judge;
use run::compare::compare;
use schedule::TranslateError;
use schedule::translate::MOST_WORDS;

// Room for the report of every plan.
pub const LONGEST: usize = 65536;

// The head at the plan's end, and the length of the text.
#[derive(Clone, Copy, Debug, PartialEq, Eq)]
pub struct Reported {
    pub head: Head,
    pub length: usize,
}

// How many orders a plan has; a refused one has none.
fn order_count(plan: &[u8]) -> usize
    ensures { result ≡ length (orders_in (plan_of plan.now)) }
{
    judge(plan).unwrap_or(0)
}

// How many outcomes are of words that were taken: no cause.
fn taken_in(outcomes: &[u16]) -> usize
    ensures { result ≡ taken_in outcomes.now }
{
    outcomes
        .iter()
        .filter(|&&outcome| !is_cause(outcome as u32))
        .count()
}

// How many words of a list the head takes.
fn taken_words(head: Head, words: &[u16], ticks: &[u32]) -> usize
    requires fact_1 { length words.now ≡ length ticks.now }
    requires fact_2 { length words.now ≤ most_words }
    requires fact_3 { (list_of head words.now ticks.now most_words).answer ≡ Ok tt }
    ensures { result ≡ taken_in (numbers_listed words.now ticks.now head) }
{
    let mut outcomes = [0u16; MOST_WORDS];
    let _ = head.list(words, ticks, &mut outcomes);
    taken_in(&outcomes[..words.len()])
}

// The state that was given, the ticks until it is idle and at rest, and the state then.
#[derive(Clone, Copy)]
struct Start {
    given: Head,
    rest: u32,
    head: Head,
}

// The text of a plan that was run: from the head at the start to the one at the end.
fn put_report(
    writer: &mut Writer<'_>,
    plan: &[u8],
    ticks: &[u32],
    rows: &[u16],
    start: Start,
    last: Head,
    outcome: Outcome,
)
    requires fact_1 { plan_of plan.now ≡ orders (orders_in (plan_of plan.now)) }
    requires fact_2 { length rows.now ≡ 1365 }
    ensures { Adds writer.old writer.new (text_of plan.now ticks.now (entries_in 65 rows.now) start last outcome) }
{
    let orders = order_count(plan);
    let counts = Counts {
        bytes: plan.len(),
        orders,
        words: outcome.words,
    };
    put_opening(writer, counts, start.given, start.rest, start.head);
    put_orders(writer, plan, orders, ticks, rows, start.head.settings);
    put_ending(writer, start.head, last, outcome);
}

// The same from the first place on, as far as there is room for it; the answer is its length.
fn write_report(
    out: &mut [u8],
    plan: &[u8],
    ticks: &[u32],
    rows: &[u16],
    start: Start,
    last: Head,
    outcome: Outcome,
) -> usize
    requires fact_1 { plan_of plan.now ≡ orders (orders_in (plan_of plan.now)) }
    requires fact_2 { length rows.now ≡ 1365 }
    ensures { Written out.old 0 (text_of plan.now ticks.now (entries_in 65 rows.now) start last outcome) result out.new }
{
    let mut writer = Writer::new(out);
    put_report(&mut writer, plan, ticks, rows, start, last, outcome);
    writer.len()
}

// Lets ticks pass until the head is idle and at rest, simulates the plan on it, and writes the report, as far as there is room for it. A
// refusal writes nothing.
pub fn report(head: Head, plan: &[u8], out: &mut [u8]) -> Result<Reported, TranslateError>
    ensures value { result ≡ reported_of head plan.now (length out.old) }
    ensures out_after { out.new ≡ report_after result (report_text head plan.now) out.old }
    ensures result_value { reported_number result ≡ translation_number (rested head) plan.now most_words most_words }
    ensures result_value_2 { reported_place result ≡ translation_place (rested head) plan.now }
{
    let rest = head.rest_ticks();
    let start = head.pass(rest);
    let mut words = [0u16; MOST_WORDS];
    let mut ticks = [0u32; MOST_WORDS];
    let mut rows = [0u16; 1365];
    let mut times = [0u32; 64];
    let compared = compare(start, plan, &mut words, &mut ticks, &mut rows, &mut times)?;
    let count = compared.count;
    let taken = taken_words(start, &words[..count], &ticks[..count]);
    let outcome = Outcome {
        end: compared.end,
        words: count,
        taken,
        equal: compared.equal,
    };
    let from = Start {
        given: head,
        rest,
        head: start,
    };
    let last = compared.head;
    let length = write_report(out, plan, &ticks[..count], &rows, from, last, outcome);
    Ok(Reported { head: last, length })
}
