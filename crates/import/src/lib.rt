// Lists of timed words read from text, in the layout that the listing program prints.
#![tactic(auto)]

pub mod line;
pub mod progress;
pub mod read;
pub mod reasons;
pub mod split;
