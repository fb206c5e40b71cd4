//! Designs: operators, channels between their ports, inputs and outputs, pins and a depth, and their edits.
#![tactic(auto)]

mod channels;
mod graph;
mod looks;
mod operators;
mod parts;
mod slots;

pub use graph::Graph;
pub use parts::{Channel, Cut, FromEnd, GraphFault, OpenPort, OperatorEntry, ToEnd};
