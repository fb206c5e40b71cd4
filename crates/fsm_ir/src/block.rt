//! Blocks.

use fsm_core::{Micro, Next};

/// A block: its micros, which are made in order, and the blocks where it goes on, by their numbers.
#[derive(Drop)]
pub struct Block {
    pub micros: Vec<Micro>,
    pub next: Next,
}

/// An operator's blocks, in the order of their numbers, and how many registers they take: 64 for the scalars,
/// and one for each temporary.
#[derive(Drop)]
pub struct Lowered {
    pub blocks: Vec<Block>,
    pub registers: u16,
}
