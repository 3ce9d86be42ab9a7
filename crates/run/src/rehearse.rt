// A stored plan translated, and its words given to the head at their ticks; what the head does is logged.
ghost use Rattle.std.specs.Prelude.{◌≡◌, ◌+◌, ◌*◌, ◌≤◌, length, replicate};
ghost use Rattle.std.proofs.Math.Option.{some};
ghost use Rattle.std.proofs.lemmas.List.Edits.{sets};
ghost use Rattle.plan.specs.Stored.{plan_of};
ghost use Rattle.plan.specs.Rows.{rows_of};
ghost use Rattle.schedule.specs.Schedule.{Rising};
ghost use Rattle.schedule.specs.Translate.{schedule_of, filled, tick_list, word_list, translation_number, translation_place};
ghost use Rattle.run.specs.Run.{next, head_after, moment_log, log_of};
ghost use Rattle.run.specs.Rehearse.{rehearse_of, translation_of, buffered, run_of, run_record, run_times, Fulfilled, rehearsed_number, rehearsed_place};

use crate::Rehearsal;
use crate::acts::log_outcome;
use head::state::Head;
use plan::log::{END, lay, settings_row};
use schedule::TranslateError;
use schedule::translate::translate;

// A head, and how many acts it has made.
#[derive(Clone, Copy)]
struct Ran {
    head: Head,
    acts: usize,
}

// A word at its tick, its act logged, and the tick passes.
fn give(found: Head, word: u16, tick: u32, rows: &mut [u16], times: &mut [u32], acts: usize) -> Ran
    requires { acts + length (moment_log (record { head = found; given = some word })) ≤ length times.old }
    ensures head_value { result.head ≡ next found (some word) }
    ensures acts_value { result.acts ≡ acts + length (moment_log (record { head = found; given = some word })) }
    ensures rows_after { rows.new ≡ sets rows.old (21 * acts) (rows_of (moment_log (record { head = found; given = some word }))) }
    ensures times_after { times.new ≡ sets times.old acts (replicate (length (moment_log (record { head = found; given = some word }))) tick) }
{
    let answered = found.word(word);
    let outcome = answered.outcome;
    let acts = log_outcome(rows, times, acts, tick, found.settings, outcome);
    let ticked = answered.head.tick();
    let after = ticked.head;
    Ran { head: after, acts }
}

// The head at the end, after the first words of a list, each given at its tick; its acts and its settings at the end are logged.
fn run_words(
    head: Head,
    words: &[u16],
    ticks: &[u32],
    count: usize,
    end: u32,
    rows: &mut [u16],
    times: &mut [u32],
) -> Ran
    requires count_in_bounds_1 { count ≤ length words.now }
    requires count_in_bounds_2 { count ≤ length ticks.now }
    requires rising { Rising 0 (buffered count end ticks.now words.now).list end }
    requires words_in_bounds { length (log_of (run_of head (buffered count end ticks.now words.now))) ≤ length times.old }
    ensures head_value { result.head ≡ head_after end 0 (buffered count end ticks.now words.now).list head }
    ensures acts_value { result.acts ≡ length (log_of (run_of head (buffered count end ticks.now words.now))) }
    ensures rows_after { rows.new ≡ sets rows.old 0 (run_record head (buffered count end ticks.now words.now)) }
    ensures times_after { times.new ≡ sets times.old 0 (run_times head (buffered count end ticks.now words.now)) }
{
    let mut state = head;
    let mut clock: u32 = 0;
    let mut acts: usize = 0;
    for i in 0..count {
        let tick = ticks[i];
        let found = state.pass(tick - clock);
        let given = give(found, words[i], tick, rows, times, acts);
        state = given.head;
        acts = given.acts;
        clock = tick + 1;
    }
    let last = state.pass(end - clock);
    lay(rows, acts, settings_row(END, last.settings));
    Ran { head: last, acts }
}

// Translates a plan for a head and runs it to its end, logging what the head does; a refusal is the translation's and writes nothing.
pub fn rehearse(
    head: Head,
    plan: &[u8],
    words: &mut [u16],
    ticks: &mut [u32],
    rows: &mut [u16; 1365],
    times: &mut [u32; 64],
) -> Result<Rehearsal, TranslateError>
    ensures value { result ≡ rehearse_of head plan.now (length words.old) (length ticks.old) }
    ensures words_after { words.new ≡ filled (translation_of result) (word_list (schedule_of head (plan_of plan.now))) words.old }
    ensures ticks_after { ticks.new ≡ filled (translation_of result) (tick_list (schedule_of head (plan_of plan.now))) ticks.old }
    ensures rows_after { rows.new ≡ filled (translation_of result) (run_record head (schedule_of head (plan_of plan.now))) rows.old }
    ensures times_after { times.new ≡ filled (translation_of result) (run_times head (schedule_of head (plan_of plan.now))) times.old }
    ensures fulfilled { Fulfilled head plan.now words.new ticks.new result }
    ensures result_value { rehearsed_number result ≡ translation_number head plan.now (length words.old) (length ticks.old) }
    ensures result_value_2 { rehearsed_place result ≡ translation_place head plan.now }
{
    let translation = translate(head, plan, words, ticks)?;
    let count = translation.count;
    let end = translation.end;
    let ran = run_words(head, words, ticks, count, end, rows, times);
    let after = ran.head;
    Ok(Rehearsal {
        head: after,
        count,
        end,
        acts: ran.acts,
    })
}
