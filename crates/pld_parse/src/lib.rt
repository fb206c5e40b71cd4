//! The reader of operators' texts: tokens to trees, with the exact fault.
#![tactic(auto)]

mod expression;
mod nesting;
mod operator;
mod parse;
mod prefix;
mod simple;
mod statement;
mod token;

pub use parse::parse_tokens;
