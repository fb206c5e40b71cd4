//! What a run of pages over a network is: what it is given, its state, and what its journal stands for.
#![tactic(auto)]

mod entry;
mod row;

pub use entry::{Entry, Journal, store};
pub use row::{Blocked, Outcome};
