// The head's answer to a word.
ghost use Rattle.std.specs.Prelude.{◌≡◌, Err, true, ◌<◌};
ghost use Rattle.head.specs.Apply.{act_of};
ghost use Rattle.head.specs.Numbers.{outcome_number, answer_number};
ghost use Rattle.head.specs.ByGrid.{waiting, by_grid, by_finding};
ghost use Rattle.head.specs.Range.{in_range};
ghost use Rattle.head.specs.Flags.{mirror_word};
ghost use Rattle.words.specs.declared.DecodeError.TheVariants.{OutOfRange};
ghost use Rattle.head.specs.State.{none_begun};
ghost use Rattle.head.specs.Word.{marked, out_of_turn, on_decoded, answer_of};

use crate::grid;
use crate::grid::BUSY;
use crate::range::Ranged;
use crate::state::{Begun, FlagBits, Head};
use words::kinds::{COS_L, COVER, HK, SIN_M, START};
use words::{DecodeError, Word};

#[derive(Clone, Copy, Debug, PartialEq, Eq)]
pub enum Act {
    None,
    Exposure,
    // A housekeeping request.
    Request,
    // A cover move, with the data bits of its word.
    Cover(u16),
}

#[derive(Clone, Copy, Debug, PartialEq, Eq)]
pub enum Cause {
    // The state is out of range.
    State,
    Busy,
    CoverMoving,
    UnknownWord,
    // Data out of range.
    Range,
    // A mirror word out of turn.
    Turn,
}

// Document 01 names both cases of a word, so an enum of its own, and no Result: an ignored word is no failure of the call.
#[derive(Clone, Copy, Debug, PartialEq, Eq)]
pub enum Outcome {
    Taken(Act),
    Ignored(Cause),
}

#[derive(Clone, Copy, Debug, PartialEq, Eq)]
pub struct Answered {
    pub head: Head,
    pub outcome: Outcome,
}

// A word with a meaning: one of the 28 kinds, and ten bits of data.
#[derive(Clone, Copy)]
pub(crate) struct Known {
    pub(crate) kind: u8,
    pub(crate) bits: u16,
    ghost a_kind: { kind < 28 },
    ghost ten_bits: { bits < 1024 },
}

// The act of a word that is taken.
#[tactic(auto, unfolding(crate::specs::Apply::act_of))]
fn act_of(word: Known) -> Act
    ensures { result ≡ act_of word.kind word.bits }
{
    match word.kind {
        START => Act::Exposure,
        HK => Act::Request,
        COVER => Act::Cover(word.bits),
        _ => Act::None,
    }
}

// Whether this is a mirror word out of turn after so many words of a set.
#[tactic(auto, unfolding(crate::specs::Word::out_of_turn))]
fn out_of_turn(count: u16, kind: u8) -> bool
    ensures { result ≡ out_of_turn count kind }
{
    if kind <= SIN_M {
        return false;
    }
    if COS_L < kind {
        return false;
    }
    let due = SIN_M as u32 + count as u32;
    kind as u32 != due
}

#[tactic(auto, unfolding(crate::specs::Flags::mirror_word, crate::specs::Flags::one_of))]
fn is_mirror(kind: u8) -> bool
    ensures { result ≡ mirror_word kind }
{
    (SIN_M <= kind) & (kind <= COS_L)
}

impl Head {
    // The state with other flags and another begun set: all that an ignored word may change.
    fn marked(mut self, flags: FlagBits, begun: Begun) -> Head
        ensures { result ≡ marked self flags begun }
    {
        self.flags = flags;
        self.begun = begun;
        self
    }

    // The answer to a word that is ignored in this phase; a begun set stays.
    #[tactic(auto, unfolding(crate::specs::ByGrid::waiting))]
    fn kept_waiting(self, phase: usize) -> Answered
        ensures { result ≡ waiting self phase }
    {
        let kept = self.begun;
        if phase == BUSY {
            return Answered {
                head: self.marked(self.flags.time_both(), kept),
                outcome: Outcome::Ignored(Cause::Busy),
            };
        }
        Answered {
            head: self.marked(self.flags.time_ir(), kept),
            outcome: Outcome::Ignored(Cause::CoverMoving),
        }
    }

    // The answer to a word that is out of range; a mirror word drops the begun set.
    #[tactic(auto, unfolding(crate::specs::Word::on_decoded))]
    fn out_of_range(self, kind: u8) -> Answered
        ensures { result ≡ on_decoded self (Err (OutOfRange kind)) }
    {
        let flags = self.flags.out_of_range(kind);
        let outcome = Outcome::Ignored(Cause::Range);
        if is_mirror(kind) {
            return Answered {
                head: self.marked(flags, Begun::default()),
                outcome,
            };
        }
        Answered {
            head: self.marked(flags, self.begun),
            outcome,
        }
    }

    // The answer to a word that has no kind, or data that its kind does not allow.
    #[tactic(auto, unfolding(crate::specs::ByGrid::by_finding, crate::specs::ByGrid::waiting, crate::specs::Word::on_decoded))]
    fn no_word(self, error: DecodeError) -> Answered
        ensures { result ≡ by_finding self error }
    {
        let busy = self.is_busy();
        if busy {
            return self.kept_waiting(BUSY);
        }
        match error {
            DecodeError::OutOfRange { kind } => self.out_of_range(kind),
            DecodeError::Unknown => Answered {
                head: self.marked(self.flags.word_both(), self.begun),
                outcome: Outcome::Ignored(Cause::UnknownWord),
            },
        }
    }

    // The answer to a word of a known kind with allowed data.
    #[tactic(auto, unfolding(crate::specs::ByGrid::by_grid))]
    fn known_word(self, word: Known) -> Answered
        requires { in_range self ≡ true }
        ensures { result ≡ by_grid self word.kind word.bits }
    {
        let phase = self.phase();
        if !grid::applied(phase, word.kind) {
            return self.kept_waiting(phase);
        }
        if out_of_turn(self.begun.count, word.kind) {
            return Answered {
                head: self.marked(self.flags.scanned(), Begun::default()),
                outcome: Outcome::Ignored(Cause::Turn),
            };
        }
        Answered {
            head: Ranged { head: self }.applied(word),
            outcome: Outcome::Taken(act_of(word)),
        }
    }

    // The answer of a state in range. It takes the state itself: a `Ranged` made for this call would be one more copy of it for each word.
    pub(crate) fn answer(self, word: u16) -> Answered
        requires { in_range self ≡ true }
        ensures { result ≡ answer_of self word }
    {
        let found = words::decode(word);
        let Ok(Word { kind, bits }) = found else {
            return self.no_word(found.unwrap_err());
        };
        self.known_word(Known { kind, bits })
    }

    pub fn word(self, word: u16) -> Answered
        ensures value { result ≡ answer_of self word }
        ensures outcome_value { outcome_number result.outcome ≡ answer_number self word }
    {
        if !self.in_range() {
            return Answered {
                head: self,
                outcome: Outcome::Ignored(Cause::State),
            };
        }
        self.answer(word)
    }
}
