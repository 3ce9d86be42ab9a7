// Plans translated into timed words (document 01, "Plans").
#![tactic(auto)]

ghost use Rattle.std.specs.Prelude.{◌≡◌};
ghost use Rattle.schedule.specs.Translate.{translate_error_number, translate_error_place};
ghost use Rattle.schedule.specs.declared.TranslateError.{TranslateError};

use plan::stored::Refusal;

pub mod clock;
pub mod put;
pub mod translate;

// What a translation made: the number of words, and the tick at which the plan ends.
#[derive(Clone, Copy, Debug, PartialEq, Eq)]
pub struct Translation {
    pub count: usize,
    pub end: u32,
}

// Why a plan is not translated.
#[derive(Clone, Copy, Debug, PartialEq, Eq)]
pub enum TranslateError {
    // The head's state is out of range, busy, or moving.
    StateUnfit,
    // The plan's own refusal.
    Plan(Refusal),
    // A buffer is shorter than the number of words, which is given.
    Short { count: usize },
}

impl TranslateError {
    // The number of document 01's refusal table.
    pub fn number(self) -> u8
        ensures { result ≡ translate_error_number self }
    {
        match self {
            TranslateError::StateUnfit => 1,
            TranslateError::Plan(refusal) => refusal.number(),
            TranslateError::Short { count: _ } => 10,
        }
    }

    // The byte place, 0 where the plan is not what is wrong.
    pub fn place(self) -> usize
        ensures { result ≡ translate_error_place self }
    {
        match self {
            TranslateError::Plan(refusal) => refusal.place,
            _ => 0,
        }
    }
}

impl From<Refusal> for TranslateError {
    ghost from_gives = { λ refusal error. error ≡ TranslateError.Plan refusal };

    fn from(refusal: Refusal) -> TranslateError {
        TranslateError::Plan(refusal)
    }
}
