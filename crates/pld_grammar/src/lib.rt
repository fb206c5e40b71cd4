//! The grammar of an operator's text, and where a text leaves it: definitions and laws.
#![tactic(auto)]

mod laws;

pub use laws::{no_fault, one_fault, one_operator, verdicts_are_exact};
