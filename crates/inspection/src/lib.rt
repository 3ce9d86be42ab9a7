// An imported list, word by word: what each word is, what becomes of it, and on which mirror pair the head exposes.
#![tactic(auto)]

pub mod counts;
pub mod inspection;
pub mod meaning;
pub mod notes;
pub mod rows;
