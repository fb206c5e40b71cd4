//! The compiler for softcores.
#![tactic(auto)]

mod compile;
mod emit;
mod jumps;
mod laws;
mod places;
mod templates;
#[cfg(test)]
mod tests;

pub use compile::compile_soft;
pub use laws::{code_keeps_the_meaning, words_keep_the_meaning};
