//! What stands between a page and the network: credits, the outbox, and the slots of words that have come.
#![tactic(auto)]

mod laws;
mod leaf;
mod masks;
mod ports;
mod tables;
#[cfg(test)]
mod tests;

pub use laws::moves_keep_window;
pub use leaf::Leaf;
pub use ports::{InPort, OutPort, Waiting};
pub use tables::{ConfigEntry, Tables};
