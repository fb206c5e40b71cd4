//! Images that are kept by kind and text.
#![tactic(auto)]

mod cache;
mod key;
mod laws;
#[cfg(test)]
mod tests;

pub use cache::Cache;
pub use key::Key;
pub use laws::{misses_are_few, misses_are_first_places};
