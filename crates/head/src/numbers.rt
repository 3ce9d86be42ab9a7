// The numbers of the head's answers: document 01's causes, and request P1's number of a taken word.
ghost use Rattle.std.specs.Prelude.{◌≡◌};
ghost use Rattle.head.specs.Tick.{task_of};
ghost use Rattle.head.specs.Numbers.{act_number, cause_number, is_cause, outcome_number, task_number, due_number};

use crate::state::{Head, Task};
use crate::tick::Due;
use crate::word::{Act, Cause, Outcome};

impl Act {
    // A cover move gives its word.
    #[tactic(auto, unfolding(crate::specs::Numbers::act_number))]
    pub fn number(self) -> u32
        ensures { result ≡ act_number self }
    {
        match self {
            Act::None => 0,
            Act::Exposure => 1,
            Act::Request => 2,
            Act::Cover(bits) => 0x1000 + bits as u32,
        }
    }
}

impl Cause {
    #[tactic(auto, unfolding(crate::specs::Numbers::cause_number))]
    pub fn number(self) -> u8
        ensures { result ≡ cause_number self }
    {
        match self {
            Cause::State => 21,
            Cause::Busy => 22,
            Cause::CoverMoving => 22,
            Cause::UnknownWord => 23,
            Cause::Range => 24,
            Cause::Turn => 25,
        }
    }
}

// Whether the number of an outcome is a cause's.
#[tactic(auto, unfolding(crate::specs::Numbers::is_cause))]
pub fn is_cause(number: u32) -> bool
    ensures { result ≡ is_cause number }
{
    (21 <= number) & (number <= 25)
}

impl Outcome {
    #[tactic(auto, unfolding(crate::specs::Numbers::outcome_number))]
    pub fn number(self) -> u32
        ensures { result ≡ outcome_number self }
    {
        match self {
            Outcome::Taken(act) => act.number(),
            Outcome::Ignored(cause) => cause.number() as u32,
        }
    }
}

// The task of a number.
impl From<u16> for Task {
    ghost from_gives = { λ number task. task ≡ task_of number };

    #[tactic(auto, unfolding(crate::specs::Tick::task_of))]
    fn from(number: u16) -> Task {
        match number {
            Head::NO_TASK => Task::Idle,
            Head::ACQUISITION => Task::Acquisition,
            _ => Task::Housekeeping,
        }
    }
}

impl Task {
    #[tactic(auto, unfolding(crate::specs::Numbers::task_number))]
    pub fn number(self) -> u8
        ensures { result ≡ task_number self }
    {
        match self {
            Task::Idle => 0,
            Task::Acquisition => 1,
            Task::Housekeeping => 2,
        }
    }
}

impl Due {
    // Blocks due give the task that ended.
    #[tactic(auto, unfolding(crate::specs::Numbers::due_number))]
    pub fn number(self) -> u8
        ensures { result ≡ due_number self }
    {
        match self {
            Due::Nothing => 0,
            Due::Blocks { ended, flags: _ } => ended.number(),
            Due::Refused => 21,
        }
    }
}
