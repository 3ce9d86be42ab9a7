// Two text lists merged into one, and request P6's refusals in words.
#![tactic(auto)]

pub mod entries;
pub mod lines;
pub mod printed;
pub mod refusal;
