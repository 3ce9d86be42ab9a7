// The two housekeeping blocks, written and read (document 01, "Blocks").
#![tactic(auto)]

pub mod ccd;
pub mod ir;
pub mod refusal;
pub mod written;
