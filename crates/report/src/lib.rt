// The report of a plan: from which state it starts, what the head does order by order, and what is left at the end.
#![tactic(auto)]

pub mod acts;
pub mod ending;
pub mod lines;
pub mod opening;
pub mod printed;
pub mod refusal;
pub mod report;
