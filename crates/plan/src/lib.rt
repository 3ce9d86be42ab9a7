// Stored plans: their orders, read from bytes, and a plan read without words (document 01, "Plans").
#![tactic(auto)]

pub mod log;
pub mod reading;
pub mod settings;
pub mod stored;
