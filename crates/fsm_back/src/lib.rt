//! The compiler for hardware pages, and that its tables keep the meaning.
#![tactic(auto)]

mod compile;
mod laws;
mod sequence;

pub use compile::compile_hard;
pub use laws::{tables_are_in_range, tables_keep_the_meaning};
