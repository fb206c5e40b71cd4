//! The instructions of the softcore: all of RV32IM, and their words.
#![tactic(auto)]

mod decoding;
mod encoding;
mod instr;
mod numbers;
mod opcodes;
#[cfg(test)]
mod tests;

pub use decoding::{decode, encoded_and_decoded};
pub use encoding::encode;
pub use instr::Instr;
pub use numbers::{Far, Imm, Near, Reg, Shift, Upper};
