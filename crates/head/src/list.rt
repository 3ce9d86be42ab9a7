// A list of timed words in one call (document 02, request P1).
ghost use Rattle.std.specs.Prelude.{◌≡◌, true, ◌++◌, ◌+◌, ◌≤◌, length, drop, get_or};
ghost use Rattle.timed.specs.List.{is_list};
ghost use Rattle.head.specs.Range.{in_range};
ghost use Rattle.head.specs.Word.{answer_of};
ghost use Rattle.head.specs.Tick.{ticks_of};
ghost use Rattle.head.specs.Numbers.{outcome_number};
ghost use Rattle.head.specs.List.{gap_after, head_listed, numbers_listed, list_of, outcomes_after, list_error_number, list_answer_number, list_number};

use crate::range::Ranged;
use crate::state::Head;
use crate::word::Cause;
use timed::is_list;

// The ticks that pass after the last word: its own.
const LAST_GAP: u32 = 1;

// Why a list was not given.
#[derive(Clone, Copy, Debug, PartialEq, Eq)]
pub enum ListError {
    // The state is out of range.
    StateRefused,
    // The ticks do not rise, the lists differ in length or have more than 256 places, or the outcomes have too few.
    ListRefused,
}

#[derive(Clone, Copy, Debug, PartialEq, Eq)]
pub struct Listed {
    pub head: Head,
    pub answer: Result<(), ListError>,
}

impl ListError {
    #[tactic(auto, unfolding(crate::specs::List::list_error_number))]
    pub fn number(self) -> u8
        ensures { result ≡ list_error_number self }
    {
        match self {
            ListError::StateRefused => Cause::State.number(),
            ListError::ListRefused => 31,
        }
    }
}

// The ticks that pass after the word at a place.
#[tactic(auto, unfolding(crate::specs::List::gap_after))]
pub fn gap_after(ticks: &[u32], at: usize) -> u32
    ensures { result ≡ gap_after (get_or ticks.now at 0) (drop (at + 1) ticks.now) }
{
    if ticks.len() <= at {
        return LAST_GAP;
    }
    let next = at + 1;
    if next < ticks.len() {
        return ticks[next].saturating_sub(ticks[at]);
    }
    LAST_GAP
}

// The state after a word and some ticks, and the number of the word's outcome.
#[derive(Clone, Copy)]
struct Stepped {
    head: Ranged,
    number: u16,
}

impl Ranged {
    // A word, and then so many ticks.
    fn stepped(self, word: u16, gap: u32) -> Stepped
        ensures head_value { result.head.head ≡ ticks_of gap (answer_of self.head word).head }
        ensures number_value { result.number ≡ outcome_number (answer_of self.head word).outcome }
    {
        let answered = self.head.answer(word);
        let outcome = answered.outcome;
        let number = outcome.number() as u16;
        let head = answered.head.later(gap);
        Stepped {
            head: Ranged { head },
            number,
        }
    }

    // The state after a list; the outcomes' numbers are written.
    fn given(self, words: &[u16], ticks: &[u32], outcomes: &mut [u16]) -> Head
        requires a_list { is_list words.now ticks.now ≡ true }
        requires room { length words.now ≤ length outcomes.old }
        ensures value { result ≡ head_listed words.now ticks.now self.head }
        ensures outcomes_after { outcomes.new ≡ numbers_listed words.now ticks.now self.head ++ drop (length words.now) outcomes.old }
    {
        let mut head = self;
        for (i, word) in words.iter().enumerate() {
            let stepped = head.stepped(*word, gap_after(ticks, i));
            outcomes[i] = stepped.number;
            head = stepped.head;
        }
        head.head
    }
}

impl Head {
    // Gives the head a list of words, each at its tick: the first at once, and after the last its own tick passes.
    pub fn list(self, words: &[u16], ticks: &[u32], outcomes: &mut [u16]) -> Listed
        ensures value { result ≡ list_of self words.now ticks.now (length outcomes.old) }
        ensures outcomes_after { outcomes.new ≡ outcomes_after result.answer (numbers_listed words.now ticks.now self) outcomes.old }
        ensures answer_value { list_answer_number result.answer ≡ list_number self words.now ticks.now (length outcomes.old) }
    {
        if !self.in_range() {
            return Listed {
                head: self,
                answer: Err(ListError::StateRefused),
            };
        }
        let fits = is_list(words, ticks) & (words.len() <= outcomes.len());
        if !fits {
            return Listed {
                head: self,
                answer: Err(ListError::ListRefused),
            };
        }
        Listed {
            head: Ranged { head: self }.given(words, ticks, outcomes),
            answer: Ok(()),
        }
    }
}
