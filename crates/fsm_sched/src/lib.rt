//! The schedule of a block: its micro-operations, put into states that are made one after the other.
#![tactic(auto)]

mod placing;
mod rule;

pub use placing::{each_is_placed, schedule, states_are_in_range, states_mean_the_micros};

#[cfg(test)]
mod tests;
