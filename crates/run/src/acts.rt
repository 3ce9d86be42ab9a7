// The head's acts put into a log as they are taken: a row for each, and its tick.
ghost use Rattle.std.specs.Prelude.{◌≡◌, ◌+◌, ◌*◌, ◌<◌, ◌≤◌, length, set, replicate};
ghost use Rattle.std.proofs.lemmas.List.Edits.{sets};
ghost use Rattle.plan.specs.Rows.{rows_of};
ghost use Rattle.run.specs.Run.{entry_of, entries_of};

use head::state::Settings;
use head::word::{Act, Outcome};
use plan::log::{EXPOSURE, cover_row, lay, request_row, settings_row};

// The two buffers and the number of acts are passed one by one, here and below: a struct that borrows both would have to say in each
// contract what it gives back.

// The row and the tick of the next act; answers the number of acts then.
fn put_act(rows: &mut [u16], times: &mut [u32], acts: usize, tick: u32, row: [u16; 21]) -> usize
    requires { acts < length times.old }
    ensures value { result ≡ acts + 1 }
    ensures rows_after { rows.new ≡ sets rows.old (21 * acts) row }
    ensures times_after { times.new ≡ set times.old acts tick }
{
    lay(rows, acts, row);
    times[acts] = tick;
    acts + 1
}

// An act that was taken under these settings.
fn log_act(
    rows: &mut [u16],
    times: &mut [u32],
    acts: usize,
    tick: u32,
    settings: Settings,
    act: Act,
) -> usize
    requires { acts + length (entry_of settings act) ≤ length times.old }
    ensures value { result ≡ acts + length (entry_of settings act) }
    ensures rows_after { rows.new ≡ sets rows.old (21 * acts) (rows_of (entry_of settings act)) }
    ensures times_after { times.new ≡ sets times.old acts (replicate (length (entry_of settings act)) tick) }
{
    match act {
        Act::None => acts,
        Act::Exposure => put_act(rows, times, acts, tick, settings_row(EXPOSURE, settings)),
        Act::Request => put_act(rows, times, acts, tick, request_row()),
        Act::Cover(bits) => {
            let row = cover_row(bits / 512, bits / 256 % 2, bits / 128 % 2, bits % 128);
            put_act(rows, times, acts, tick, row)
        }
    }
}

// The act of a word, if it was taken and has one.
pub(crate) fn log_outcome(
    rows: &mut [u16],
    times: &mut [u32],
    acts: usize,
    tick: u32,
    settings: Settings,
    outcome: Outcome,
) -> usize
    requires { acts + length (entries_of settings outcome) ≤ length times.old }
    ensures value { result ≡ acts + length (entries_of settings outcome) }
    ensures rows_after { rows.new ≡ sets rows.old (21 * acts) (rows_of (entries_of settings outcome)) }
    ensures times_after { times.new ≡ sets times.old acts (replicate (length (entries_of settings outcome)) tick) }
{
    match outcome {
        Outcome::Taken(act) => log_act(rows, times, acts, tick, settings, act),
        Outcome::Ignored(_) => acts,
    }
}
