// A model of the PEM-M head: a state that takes words and ticks (document 01, "The head").
#![tactic(auto)]

pub mod apply;
pub mod busy;
pub mod flags;
pub mod grid;
pub mod list;
pub mod numbers;
pub mod pass;
pub mod range;
pub mod row;
pub mod state;
pub mod tick;
pub mod word;
