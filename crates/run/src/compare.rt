// What the head did in a plan's run compared with the plan read without words, number by number.
ghost use Rattle.std.specs.Prelude.{◌≡◌, ◌+◌, ◌*◌, ◌≤◌, length, take};
ghost use Rattle.plan.specs.Read.{read_record};
ghost use Rattle.plan.specs.Stored.{plan_of};
ghost use Rattle.schedule.specs.Translate.{most_words, schedule_of, translate_of, filled, word_list, tick_list, translation_number, translation_place};
ghost use Rattle.run.specs.Rehearse.{run_record, run_times};
ghost use Rattle.run.specs.Compare.{same, compared_of, compared_number, compared_place};

use crate::rehearse::rehearse;
use head::state::{Head, Settings};
use plan::log::ROW;
use plan::reading::read_plan;
use schedule::TranslateError;
use schedule::translate::MOST_WORDS;

// What a plan's run made, as `Rehearsal` says it, and whether the head's record is that of the plan read without words.
#[derive(Clone, Copy, Debug, PartialEq, Eq)]
pub struct Comparison {
    pub head: Head,
    pub count: usize,
    pub end: u32,
    pub acts: usize,
    pub equal: bool,
}

// Whether the record of a run with so many acts is that of the plan read without words.
fn agrees(settings: Settings, plan: &[u8], rows: &[u16], acts: usize) -> bool
    requires fact_1 { acts ≤ 64 }
    requires fact_2 { 21 * acts + 21 ≤ length rows.now }
    ensures { result ≡ same (take (21 * acts + 21) rows.now) (read_record settings (plan_of plan.now)) }
{
    let mut read = [0u16; 1365];
    let Ok(read_acts) = read_plan(settings, plan, &mut read) else {
        return false;
    };
    if read_acts != acts {
        return false;
    }
    let length = ROW * acts + ROW;
    rows[..length] == read[..length]
}

// Rehearses a plan, reads it without words, and compares what the head did with what the reading says. A refusal is the
// translation's and writes nothing.
pub fn compare(
    head: Head,
    plan: &[u8],
    words: &mut [u16; MOST_WORDS],
    ticks: &mut [u32; MOST_WORDS],
    rows: &mut [u16; 1365],
    times: &mut [u32; 64],
) -> Result<Comparison, TranslateError>
    ensures value { result ≡ compared_of head plan.now }
    ensures words_after { words.new ≡ filled (translate_of head plan.now most_words most_words) (word_list (schedule_of head (plan_of plan.now))) words.old }
    ensures ticks_after { ticks.new ≡ filled (translate_of head plan.now most_words most_words) (tick_list (schedule_of head (plan_of plan.now))) ticks.old }
    ensures rows_after { rows.new ≡ filled (translate_of head plan.now most_words most_words) (run_record head (schedule_of head (plan_of plan.now))) rows.old }
    ensures times_after { times.new ≡ filled (translate_of head plan.now most_words most_words) (run_times head (schedule_of head (plan_of plan.now))) times.old }
    ensures result_value { compared_number result ≡ translation_number head plan.now most_words most_words }
    ensures result_value_2 { compared_place result ≡ translation_place head plan.now }
{
    let rehearsed = rehearse(head, plan, words, ticks, rows, times)?;
    Ok(Comparison {
        head: rehearsed.head,
        count: rehearsed.count,
        end: rehearsed.end,
        acts: rehearsed.acts,
        equal: agrees(head.settings, plan, rows, rehearsed.acts),
    })
}
