// An imported list: read from text, and inspected.
#![tactic(auto)]

pub mod printed;
pub mod refusal;
