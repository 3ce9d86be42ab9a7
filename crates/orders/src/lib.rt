// What an order is: its codes and fields, their ranges, and its words (document 01, "Plans").
#![tactic(auto)]

pub mod codes;
pub mod encoding;
pub mod order;
