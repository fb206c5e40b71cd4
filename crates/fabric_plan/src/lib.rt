//! What a run of a placed design is given, that it is the design's own Kahn network, and the rows that a run leaves.
#![tactic(auto)]

mod laws;
mod planning;
mod standing;
#[cfg(test)]
mod tests;

pub use laws::{
    left_rows_stand, plans_are_alike, plans_are_designs, plans_are_sound, rows_are_the_tables,
};
pub use planning::{allowed, plan};
pub use standing::leave_rows;
