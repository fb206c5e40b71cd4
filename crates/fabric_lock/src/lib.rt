//! A lock whose value has a history. Each seat knows a beginning of that history, and all entries in it that are its own.
//!
//! A lock is a table of two words and one slot. Word 0 is 0, or one more than the number of the seat that is in a hold.
//! Word 1 is the length of the history. The slot holds the value while no seat is in a hold.
#![tactic(auto)]

pub use held::Held;
pub use lock::FabricLock;
pub use seat::Seat;
pub use told::Told;

mod crossing;
mod held;
mod lock;
mod plays;
mod seat;
mod told;
mod views;
