// Why a word did nothing (document 02, request P7): the rule that the head applied, read off the head's own answer, and what is left of the
// ticks that stopped the word, the word itself, or the mirror word that was due.
#![tactic(auto)]

ghost use Rattle.std.specs.Prelude.{◌≡◌};
ghost use Rattle.head.specs.Numbers.{answer_number};
ghost use Rattle.diagnosis.specs.Diagnosis.{due_after, by_cause, diagnosis_of, diagnosis_number, stopped_number};

use head::state::Head;
use head::word::{Cause, Outcome};
use words::kind_of;
use words::kinds::{COS_L, COS_M, SIN_L, SIN_M};

// Seven answers of one rank, which one text explains each, so an enum of its own and no `Result`.
#[derive(Clone, Copy, Debug, PartialEq, Eq)]
pub enum Diagnosis {
    // The word is taken.
    Taken,
    // The state is out of range.
    StateOutOfRange,
    // The head is busy for so many ticks more.
    HeadBusy(u16),
    // The cover moves for so many ticks more.
    CoverMoves(u16),
    // No kind has the identifier of this word.
    UnknownIdentifier(u16),
    // The data of this word are out of the range of this kind.
    DataOutOfRange { word: u16, kind: u8 },
    // A mirror word out of turn; one of this kind was due.
    OutOfTurn { due: u8 },
}

impl Diagnosis {
    // 0 for a word that is taken, else document 01's number of the cause.
    #[tactic(auto, unfolding(crate::specs::Diagnosis::diagnosis_number, head::specs::Numbers::cause_number))]
    pub fn number(self) -> u8
        ensures { result ≡ diagnosis_number self }
    {
        match self {
            Diagnosis::Taken => 0,
            Diagnosis::StateOutOfRange => 21,
            Diagnosis::HeadBusy(_) => 22,
            Diagnosis::CoverMoves(_) => 22,
            Diagnosis::UnknownIdentifier(_) => 23,
            Diagnosis::DataOutOfRange { word: _, kind: _ } => 24,
            Diagnosis::OutOfTurn { due: _ } => 25,
        }
    }
}

// The kind of the mirror word that is due after so many words of a set.
#[tactic(auto, unfolding(crate::specs::Diagnosis::due_after))]
fn due_after(count: u16) -> u8
    ensures { result ≡ due_after count }
{
    match count {
        0 => SIN_M,
        1 => SIN_L,
        2 => COS_M,
        _ => COS_L,
    }
}

// What a cause says of the state and the word.
#[tactic(auto, unfolding(crate::specs::Diagnosis::by_cause))]
fn by_cause(head: Head, word: u16, cause: Cause) -> Diagnosis
    ensures { result ≡ by_cause head word cause }
{
    let busy = head.busy_ticks();
    let cover = head.motion.cover;
    let kind = kind_of(word);
    let due = due_after(head.begun.count);
    match cause {
        Cause::State => Diagnosis::StateOutOfRange,
        Cause::Busy => Diagnosis::HeadBusy(busy),
        Cause::CoverMoving => Diagnosis::CoverMoves(cover),
        Cause::UnknownWord => Diagnosis::UnknownIdentifier(word),
        Cause::Range => Diagnosis::DataOutOfRange { word, kind },
        Cause::Turn => Diagnosis::OutOfTurn { due },
    }
}

// What becomes of a word that a head in this state gets, and why.
#[tactic(auto, using(crate::proofs::Ruled::found_number), unfolding(crate::specs::Diagnosis::diagnosis_of, crate::specs::Diagnosis::by_outcome))]
pub fn diagnose(head: Head, word: u16) -> Diagnosis
    ensures value { result ≡ diagnosis_of head word }
    ensures result_value { diagnosis_number result ≡ stopped_number (answer_number head word) }
{
    match head.word(word).outcome {
        Outcome::Taken(_) => Diagnosis::Taken,
        Outcome::Ignored(cause) => by_cause(head, word, cause),
    }
}
