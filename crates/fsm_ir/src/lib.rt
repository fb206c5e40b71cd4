//! The blocks of an operator: lists of micro-operations, each with where it goes on.
#![tactic(auto)]

mod block;
mod builder;
mod emit;

pub use block::{Block, Lowered};
pub use emit::{blocks, lower};
