// Text written into a lent list of bytes: bytes, numbers, and lines laid out by a template. A writer stops at the list's end.
#![tactic(auto)]

pub mod bytes;
pub mod fields;
pub mod numbers;
pub mod template;
pub mod writer;
