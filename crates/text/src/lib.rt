// What the listing program prints (document 01, "Examples").
#![tactic(auto)]

pub mod lines;
pub mod listing;
