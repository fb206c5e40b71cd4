//! Where the operators of a design are placed in its tree of pages.
#![tactic(auto)]

mod board;
mod ends;
mod laws;
mod leaves;
mod placement;
#[cfg(test)]
mod tests;

pub use ends::Ends;
pub use laws::{exchanges_lower_the_sum, no_exchange_is_left, operators_have_leaves};
pub use placement::{Placement, TooFewPages, place};
