// Why a block is not written or not read.
ghost use Rattle.std.specs.Prelude.{◌≡◌};
ghost use Rattle.blocks.specs.Numbers.{answer_number, answer_place, refusal_number, refusal_place};

#[derive(Clone, Copy, Debug, PartialEq, Eq)]
pub enum Refusal {
    // The buffer has not the block's length.
    Length,
    // The state is out of range.
    State,
    // A fixed bit of this word is wrong.
    FixedBit { place: usize },
    // The value of this word is out of range.
    OutOfRange { place: usize },
}

impl Refusal {
    // Document 01's number.
    pub fn number(self) -> u8
        ensures { result ≡ refusal_number self }
    {
        match self {
            Refusal::Length => 11,
            Refusal::State => 21,
            Refusal::FixedBit { place: _ } => 12,
            Refusal::OutOfRange { place: _ } => 13,
        }
    }

    // The word's index from 0; 0 where no word is at fault.
    pub fn place(self) -> usize
        ensures { result ≡ refusal_place self }
    {
        match self {
            Refusal::Length | Refusal::State => 0,
            Refusal::FixedBit { place } | Refusal::OutOfRange { place } => place,
        }
    }
}

// Document 01's number of a writer's or a reader's answer; 0 where the block is written or read.
pub fn number_of<T>(answer: &Result<T, Refusal>) -> u8
    ensures { result ≡ answer_number answer.now }
{
    match answer {
        Ok(_) => 0,
        Err(refusal) => refusal.number(),
    }
}

pub fn place_of<T>(answer: &Result<T, Refusal>) -> usize
    ensures { result ≡ answer_place answer.now }
{
    match answer {
        Ok(_) => 0,
        Err(refusal) => refusal.place(),
    }
}
