// What is counted over a list: ignored words, exposures, those with an incomplete mirror set, and those while something moves.
ghost use Rattle.std.specs.Prelude.{◌≡◌, ◌≤◌};
ghost use Rattle.head.specs.Busy.{at_rest};
ghost use Rattle.head.specs.Numbers.{outcome_number};
ghost use Rattle.inspection.specs.Inspection.{counts_of};
ghost use Rattle.inspection.specs.Rows.{number_of};
ghost use Rattle.inspection.specs.Counts.{counted, findings};

use crate::notes::{is_exposure, is_ignored};
use crate::rows::next_head;
use head::state::Head;
use head::word::Outcome;
use timed::TimedList;

#[derive(Clone, Copy, Debug, Default, PartialEq, Eq)]
pub struct Counts {
    pub ignored: u32,
    pub exposures: u32,
    pub incomplete: u32,
    pub moving: u32,
}

impl Counts {
    // What must not be: 0 where every word is taken, no exposure has an incomplete mirror set and none begins while something moves.
    #[tactic(auto, unfolding(crate::specs::Counts::findings))]
    pub fn findings(self) -> u64
        ensures { result ≡ findings self }
    {
        u64::from(self.ignored) + u64::from(self.incomplete) + u64::from(self.moving)
    }

    // One word more, with its outcome, the words received of a mirror set, and whether nothing moves.
    #[tactic(auto, unfolding(crate::specs::Counts::counted))]
    fn counted(self, outcome: Outcome, begun: u16, rest: bool) -> Counts
        requires fact_1 { self.ignored ≤ 256 }
        requires fact_2 { self.exposures ≤ 256 }
        requires fact_3 { self.incomplete ≤ 256 }
        requires fact_4 { self.moving ≤ 256 }
        ensures { result ≡ counted self (outcome_number outcome) begun rest }
    {
        let exposes = is_exposure(outcome);
        Counts {
            ignored: self.ignored + u32::from(is_ignored(outcome)),
            exposures: self.exposures + u32::from(exposes),
            incomplete: self.incomplete + u32::from(exposes & (0 < begun)),
            moving: self.moving + u32::from(exposes & !rest),
        }
    }
}

// One word more, which the head gets.
fn count_word(counts: Counts, head: Head, word: u16) -> Counts
    requires fact_1 { counts.ignored ≤ 256 }
    requires fact_2 { counts.exposures ≤ 256 }
    requires fact_3 { counts.incomplete ≤ 256 }
    requires fact_4 { counts.moving ≤ 256 }
    ensures { result ≡ counted counts (number_of head word) head.begun.count (at_rest head) }
{
    counts.counted(head.word(word).outcome, head.begun.count, head.at_rest())
}

// The counts of a list from power-on.
pub(crate) fn count_words(list: TimedList) -> Counts
    ensures { result ≡ counts_of list.entry.words.now list.entry.ticks.now }
{
    let mut counts = Counts::default();
    let mut head = Head::power_on();
    for (i, word) in list.words.iter().enumerate() {
        counts = count_word(counts, head, *word);
        head = next_head(head, *word, list.ticks, i);
    }
    counts
}
