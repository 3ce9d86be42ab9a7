// The kinds of word by name, and the table of upper bytes, as text.
#![tactic(auto)]

pub mod kind;
pub mod table;
