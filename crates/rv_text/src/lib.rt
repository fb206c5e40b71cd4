//! The instructions of the softcore as text: mnemonics, operands, and how each instruction is written.
#![tactic(auto)]

mod form;
mod names;
mod text;

pub use form::Form;
pub use names::{
    AddressName, BareName, BranchName, NumberName, RegistersName, ShiftName, StoreName, UpperName,
};
pub use text::{Style, Text};
