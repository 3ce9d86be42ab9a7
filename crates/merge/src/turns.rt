// Merging turn by turn: which list gives the next entry, how far the lists go, and the entries written.
ghost use Rattle.std.specs.Prelude.{◌≡◌, true, ◌++◌, ◌≤◌, length, drop};
ghost use Rattle.timed.specs.List.{rising};
ghost use Rattle.merge.specs.Merge.{ticks_in, merged_part};
ghost use Rattle.merge.specs.ByPlaces.{Turned, walk_of};

use crate::answer::Parts;
use crate::tick_in;

// The next entry, how much of the two lists is merged after it, and whether both have its tick.
#[derive(Clone, Copy)]
pub(crate) struct Given {
    pub entry: u64,
    pub after: Parts,
    pub same: bool,
}

// How many entries of each list the merged part has, and whether a tick stood in both.
#[derive(Clone, Copy)]
pub(crate) struct Walked {
    pub parts: Parts,
    pub same: bool,
}

const NOTHING: Parts = Parts {
    ccd: 0,
    infrared: 0,
};

// The turn after so much of the lists; none where a list has run out.
fn turn_at(ccd: &[u64], infrared: &[u64], at: Parts) -> Option<Given>
    ensures { Turned ccd.now infrared.now at.ccd at.infrared result }
{
    let mine = *ccd.get(at.ccd)?;
    let other = *infrared.get(at.infrared)?;
    let first = tick_in(mine);
    let second = tick_in(other);
    if first < second {
        return Some(Given {
            entry: mine,
            after: Parts {
                ccd: at.ccd + 1,
                ..at
            },
            same: false,
        });
    }
    Some(Given {
        entry: other,
        after: Parts {
            infrared: at.infrared + 1,
            ..at
        },
        same: first == second,
    })
}

// Goes through both lists until one has run out.
pub(crate) fn walk(ccd: &[u64], infrared: &[u64]) -> Walked
    requires fact_1 { rising (ticks_in ccd.now) ≡ true }
    requires fact_2 { rising (ticks_in infrared.now) ≡ true }
    ensures { result ≡ walk_of ccd.now infrared.now }
{
    let mut parts = NOTHING;
    let mut same = false;
    while let Some(given) = turn_at(ccd, infrared, parts) {
        parts = given.after;
        same = same | given.same;
    }
    Walked { parts, same }
}

// Writes the merged part into the first places of the output.
pub(crate) fn write(ccd: &[u64], infrared: &[u64], merged: &mut [u64])
    requires { length (merged_part ccd.now infrared.now) ≤ length merged.old }
    ensures { merged.new ≡ merged_part ccd.now infrared.now ++ drop (length (merged_part ccd.now infrared.now)) merged.old }
{
    let mut parts = NOTHING;
    while let Some(given) = turn_at(ccd, infrared, parts) {
        merged[parts.ccd + parts.infrared] = given.entry;
        parts = given.after;
    }
}
