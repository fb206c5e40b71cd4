//! The assembler for softcore operators, and the way back.
#![tactic(auto)]

mod assembling;
mod coding;
mod disassembling;
mod image;
mod labels;
mod laws;
mod line;
mod lines;
mod mnemonic;
mod numbers;
mod operands;
#[cfg(test)]
mod tests;
mod words;
mod written;

pub use assembling::{AsmOp, assemble};
pub use disassembling::disassemble;
pub use image::asm_image;
pub use laws::{disassembled_and_assembled, texts_are_short};
