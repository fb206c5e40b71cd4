//! The reader of an operator's text: its tokens, its syntax, its names and limits.
#![tactic(auto)]

mod laws;
mod read;

pub use laws::texts_are_read_exactly;
pub use read::read_operator;
