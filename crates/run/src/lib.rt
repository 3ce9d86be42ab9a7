// A translated plan run on the head (demand 3).
#![tactic(auto)]

use head::state::Head;

pub mod acts;
pub mod compare;
pub mod rehearse;

// What a plan's run made: the head at the end, the number of words, the tick at which the plan ends, and the number of acts.
#[derive(Clone, Copy, Debug, PartialEq, Eq)]
pub struct Rehearsal {
    pub head: Head,
    pub count: usize,
    pub end: u32,
    pub acts: usize,
}
