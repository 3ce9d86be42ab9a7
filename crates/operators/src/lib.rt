// Two operators share one head (document 02, request P6): the controller passes a word of theirs on to it, or refuses it.
#![tactic(auto)]

ghost use Rattle.std.specs.Prelude.{◌≡◌};
ghost use Rattle.words.specs.Codec.{decode_of};
ghost use Rattle.operators.specs.Passing.{pass_error_number, in_group, passes, passed_on, passing_number, pass_on_number};

use head::state::Head;
use head::word::{Cause, Outcome};
use words::groups::{INFRARED, group_of};
use words::{Word, decode};

// Why an operator's word is not passed on.
#[derive(Clone, Copy, Debug, PartialEq, Eq)]
pub enum PassError {
    // The state is out of range.
    StateRefused,
    // The word is not allowed, not in the operator's group, or the head is busy.
    NotPassed,
}

// What becomes of an operator's word: the head's own answer where it is passed on.
#[derive(Clone, Copy)]
pub struct PassedOn {
    pub head: Head,
    pub passing: Result<Outcome, PassError>,
}

impl PassError {
    #[tactic(auto, unfolding(crate::specs::Passing::pass_error_number, head::specs::Numbers::cause_number))]
    pub fn number(self) -> u8
        ensures { result ≡ pass_error_number self }
    {
        match self {
            PassError::StateRefused => Cause::State.number(),
            PassError::NotPassed => 51,
        }
    }
}

// Whether a word is allowed and its kind in this group.
#[tactic(auto, unfolding(crate::specs::Passing::in_group))]
pub fn in_group(group: u8, word: u16) -> bool
    ensures { result ≡ in_group group (decode_of word) }
{
    let Ok(Word { kind, bits: _ }) = decode(word) else {
        return false;
    };
    group_of(kind) == group
}

// Whether the controller passes an operator's word on.
#[tactic(auto, using(crate::proofs::Operators::operator_least), unfolding(crate::specs::Passing::passes))]
pub fn passes(head: Head, operator: u8, word: u16) -> bool
    ensures { result ≡ passes head operator word }
{
    let known = operator <= INFRARED;
    let idle = !head.is_busy();
    known & in_group(operator, word) & idle
}

// The head after an operator's word, and what became of it.
#[tactic(auto, unfolding(crate::specs::Passing::passed_on, crate::specs::Passing::pass_on_number, crate::specs::Passing::passing_number, crate::specs::Passing::pass_error_number))]
pub fn pass_on(head: Head, operator: u8, word: u16) -> PassedOn
    ensures value { result ≡ passed_on head operator word }
    ensures passing_value { passing_number result.passing ≡ pass_on_number head operator word }
{
    if !head.in_range() {
        return PassedOn {
            head,
            passing: Err(PassError::StateRefused),
        };
    }
    if !passes(head, operator, word) {
        return PassedOn {
            head,
            passing: Err(PassError::NotPassed),
        };
    }
    let answered = head.word(word);
    PassedOn {
        head: answered.head,
        passing: Ok(answered.outcome),
    }
}
