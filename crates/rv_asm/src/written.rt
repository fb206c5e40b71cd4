//! What a line of an assembly text says.

use pld_base::Name;
use rv_isa::Reg;
use rv_text::{
    AddressName, BareName, BranchName, NumberName, RegistersName, ShiftName, StoreName, UpperName,
};

/// Where a branch or a jump goes.
#[derive(Clone, Copy, Drop)]
pub enum Target {
    /// To the instruction behind this label.
    Label(Name),
    /// So many bytes on, from the instruction itself.
    Offset(i64),
}

/// An instruction as it is written: its numbers may be out of range, and its target may be a label.
#[derive(Clone, Copy, Drop)]
pub enum Written {
    Upper {
        name: UpperName,
        rd: Reg,
        number: i64,
    },
    Jump {
        rd: Reg,
        target: Target,
    },
    Branch {
        name: BranchName,
        rs1: Reg,
        rs2: Reg,
        target: Target,
    },
    Address {
        name: AddressName,
        rd: Reg,
        rs1: Reg,
        number: i64,
    },
    Store {
        name: StoreName,
        rs1: Reg,
        rs2: Reg,
        number: i64,
    },
    Shift {
        name: ShiftName,
        rd: Reg,
        rs1: Reg,
        number: i64,
    },
    Number {
        name: NumberName,
        rd: Reg,
        rs1: Reg,
        number: i64,
    },
    Registers {
        name: RegistersName,
        rd: Reg,
        rs1: Reg,
        rs2: Reg,
    },
    Bare {
        name: BareName,
    },
}

/// A line behind the line of the ports.
#[derive(Clone, Copy, Drop)]
pub enum Line {
    /// Blanks and a comment alone.
    Empty,
    /// A label with this name.
    Label(Name),
    Instruction(Written),
}
