//! An instruction as its mnemonic and its operands.

ghost use Rattle.std.specs.Prelude.{◌≡◌};
ghost use Rattle.rv_isa.specs.Spelling.{IsInstr};
ghost use Rattle.rv_text.specs.Forms.{form_of, instr_of, upper_instr, branch_instr, address_instr, store_instr, shift_instr, number_instr, registers_instr, bare_instr};

use crate::{
    AddressName, BareName, BranchName, NumberName, RegistersName, ShiftName, StoreName, UpperName,
};
use rv_isa::{Far, Imm, Instr, Near, Reg, Shift, Upper};

/// An instruction: its mnemonic, and its operands. There is a form for each kind of operands.
#[derive(Clone, Copy, PartialEq, Eq, Debug)]
pub enum Form {
    /// The register that is written, and the upper 20 bits.
    Upper {
        name: UpperName,
        rd: Reg,
        imm: Upper,
    },
    /// A jump: the register that is written, and how far it goes.
    Jump {
        rd: Reg,
        imm: Far,
    },
    /// The two registers that are compared, and how far it goes.
    Branch {
        name: BranchName,
        rs1: Reg,
        rs2: Reg,
        imm: Near,
    },
    /// The register that is written, and an address: a register and a number.
    Address {
        name: AddressName,
        rd: Reg,
        rs1: Reg,
        imm: Imm,
    },
    /// An address, by its register; the register that is stored; and the address's number.
    Store {
        name: StoreName,
        rs1: Reg,
        rs2: Reg,
        imm: Imm,
    },
    /// The register that is written, the one that is read, and by how many bits it is shifted.
    Shift {
        name: ShiftName,
        rd: Reg,
        rs1: Reg,
        by: Shift,
    },
    /// The register that is written, the one that is read, and a number.
    Number {
        name: NumberName,
        rd: Reg,
        rs1: Reg,
        imm: Imm,
    },
    /// The register that is written, and the two that are read.
    Registers {
        name: RegistersName,
        rd: Reg,
        rs1: Reg,
        rs2: Reg,
    },
    /// No operands.
    Bare {
        name: BareName,
    },
}

impl Form {
    /// The form of an instruction.
    pub fn of(i: Instr) -> Form
        ensures { result ≡ form_of i }
    {
        match i {
            Instr::Lui { rd, imm } => Form::Upper {
                name: UpperName::Lui,
                rd,
                imm,
            },
            Instr::Auipc { rd, imm } => Form::Upper {
                name: UpperName::Auipc,
                rd,
                imm,
            },
            Instr::Jal { rd, imm } => Form::Jump { rd, imm },
            Instr::Jalr { rd, rs1, imm } => Form::Address {
                name: AddressName::Jalr,
                rd,
                rs1,
                imm,
            },
            Instr::Beq { rs1, rs2, imm } => Form::Branch {
                name: BranchName::Beq,
                rs1,
                rs2,
                imm,
            },
            Instr::Bne { rs1, rs2, imm } => Form::Branch {
                name: BranchName::Bne,
                rs1,
                rs2,
                imm,
            },
            Instr::Blt { rs1, rs2, imm } => Form::Branch {
                name: BranchName::Blt,
                rs1,
                rs2,
                imm,
            },
            Instr::Bge { rs1, rs2, imm } => Form::Branch {
                name: BranchName::Bge,
                rs1,
                rs2,
                imm,
            },
            Instr::Bltu { rs1, rs2, imm } => Form::Branch {
                name: BranchName::Bltu,
                rs1,
                rs2,
                imm,
            },
            Instr::Bgeu { rs1, rs2, imm } => Form::Branch {
                name: BranchName::Bgeu,
                rs1,
                rs2,
                imm,
            },
            Instr::Lb { rd, rs1, imm } => Form::Address {
                name: AddressName::Lb,
                rd,
                rs1,
                imm,
            },
            Instr::Lh { rd, rs1, imm } => Form::Address {
                name: AddressName::Lh,
                rd,
                rs1,
                imm,
            },
            Instr::Lw { rd, rs1, imm } => Form::Address {
                name: AddressName::Lw,
                rd,
                rs1,
                imm,
            },
            Instr::Lbu { rd, rs1, imm } => Form::Address {
                name: AddressName::Lbu,
                rd,
                rs1,
                imm,
            },
            Instr::Lhu { rd, rs1, imm } => Form::Address {
                name: AddressName::Lhu,
                rd,
                rs1,
                imm,
            },
            Instr::Sb { rs1, rs2, imm } => Form::Store {
                name: StoreName::Sb,
                rs1,
                rs2,
                imm,
            },
            Instr::Sh { rs1, rs2, imm } => Form::Store {
                name: StoreName::Sh,
                rs1,
                rs2,
                imm,
            },
            Instr::Sw { rs1, rs2, imm } => Form::Store {
                name: StoreName::Sw,
                rs1,
                rs2,
                imm,
            },
            Instr::Addi { rd, rs1, imm } => Form::Number {
                name: NumberName::Addi,
                rd,
                rs1,
                imm,
            },
            Instr::Slti { rd, rs1, imm } => Form::Number {
                name: NumberName::Slti,
                rd,
                rs1,
                imm,
            },
            Instr::Sltiu { rd, rs1, imm } => Form::Number {
                name: NumberName::Sltiu,
                rd,
                rs1,
                imm,
            },
            Instr::Xori { rd, rs1, imm } => Form::Number {
                name: NumberName::Xori,
                rd,
                rs1,
                imm,
            },
            Instr::Ori { rd, rs1, imm } => Form::Number {
                name: NumberName::Ori,
                rd,
                rs1,
                imm,
            },
            Instr::Andi { rd, rs1, imm } => Form::Number {
                name: NumberName::Andi,
                rd,
                rs1,
                imm,
            },
            Instr::Slli { rd, rs1, by } => Form::Shift {
                name: ShiftName::Slli,
                rd,
                rs1,
                by,
            },
            Instr::Srli { rd, rs1, by } => Form::Shift {
                name: ShiftName::Srli,
                rd,
                rs1,
                by,
            },
            Instr::Srai { rd, rs1, by } => Form::Shift {
                name: ShiftName::Srai,
                rd,
                rs1,
                by,
            },
            Instr::Add { rd, rs1, rs2 } => Form::Registers {
                name: RegistersName::Add,
                rd,
                rs1,
                rs2,
            },
            Instr::Sub { rd, rs1, rs2 } => Form::Registers {
                name: RegistersName::Sub,
                rd,
                rs1,
                rs2,
            },
            Instr::Sll { rd, rs1, rs2 } => Form::Registers {
                name: RegistersName::Sll,
                rd,
                rs1,
                rs2,
            },
            Instr::Slt { rd, rs1, rs2 } => Form::Registers {
                name: RegistersName::Slt,
                rd,
                rs1,
                rs2,
            },
            Instr::Sltu { rd, rs1, rs2 } => Form::Registers {
                name: RegistersName::Sltu,
                rd,
                rs1,
                rs2,
            },
            Instr::Xor { rd, rs1, rs2 } => Form::Registers {
                name: RegistersName::Xor,
                rd,
                rs1,
                rs2,
            },
            Instr::Srl { rd, rs1, rs2 } => Form::Registers {
                name: RegistersName::Srl,
                rd,
                rs1,
                rs2,
            },
            Instr::Sra { rd, rs1, rs2 } => Form::Registers {
                name: RegistersName::Sra,
                rd,
                rs1,
                rs2,
            },
            Instr::Or { rd, rs1, rs2 } => Form::Registers {
                name: RegistersName::Or,
                rd,
                rs1,
                rs2,
            },
            Instr::And { rd, rs1, rs2 } => Form::Registers {
                name: RegistersName::And,
                rd,
                rs1,
                rs2,
            },
            Instr::Mul { rd, rs1, rs2 } => Form::Registers {
                name: RegistersName::Mul,
                rd,
                rs1,
                rs2,
            },
            Instr::Mulh { rd, rs1, rs2 } => Form::Registers {
                name: RegistersName::Mulh,
                rd,
                rs1,
                rs2,
            },
            Instr::Mulhsu { rd, rs1, rs2 } => Form::Registers {
                name: RegistersName::Mulhsu,
                rd,
                rs1,
                rs2,
            },
            Instr::Mulhu { rd, rs1, rs2 } => Form::Registers {
                name: RegistersName::Mulhu,
                rd,
                rs1,
                rs2,
            },
            Instr::Div { rd, rs1, rs2 } => Form::Registers {
                name: RegistersName::Div,
                rd,
                rs1,
                rs2,
            },
            Instr::Divu { rd, rs1, rs2 } => Form::Registers {
                name: RegistersName::Divu,
                rd,
                rs1,
                rs2,
            },
            Instr::Rem { rd, rs1, rs2 } => Form::Registers {
                name: RegistersName::Rem,
                rd,
                rs1,
                rs2,
            },
            Instr::Remu { rd, rs1, rs2 } => Form::Registers {
                name: RegistersName::Remu,
                rd,
                rs1,
                rs2,
            },
            Instr::Fence { rd, rs1, imm } => Form::Number {
                name: NumberName::Fence,
                rd,
                rs1,
                imm,
            },
            Instr::Ecall => Form::Bare {
                name: BareName::Ecall,
            },
            Instr::Ebreak => Form::Bare {
                name: BareName::Ebreak,
            },
        }
    }

    /// The instruction of this form.
    pub fn instr(self) -> Instr
        ensures { result ≡ instr_of self }
    {
        match self {
            Form::Upper { name, rd, imm } => upper(name, rd, imm),
            Form::Jump { rd, imm } => Instr::Jal { rd, imm },
            Form::Branch {
                name,
                rs1,
                rs2,
                imm,
            } => branch(name, rs1, rs2, imm),
            Form::Address { name, rd, rs1, imm } => address(name, rd, rs1, imm),
            Form::Store {
                name,
                rs1,
                rs2,
                imm,
            } => store(name, rs1, rs2, imm),
            Form::Shift { name, rd, rs1, by } => shift(name, rd, rs1, by),
            Form::Number { name, rd, rs1, imm } => number(name, rd, rs1, imm),
            Form::Registers { name, rd, rs1, rs2 } => registers(name, rd, rs1, rs2),
            Form::Bare { name } => bare(name),
        }
    }
}

fn upper(name: UpperName, rd: Reg, imm: Upper) -> Instr
    ensures { result ≡ upper_instr name rd imm }
{
    match name {
        UpperName::Lui => Instr::Lui { rd, imm },
        UpperName::Auipc => Instr::Auipc { rd, imm },
    }
}

fn branch(name: BranchName, rs1: Reg, rs2: Reg, imm: Near) -> Instr
    ensures { result ≡ branch_instr name rs1 rs2 imm }
{
    match name {
        BranchName::Beq => Instr::Beq { rs1, rs2, imm },
        BranchName::Bne => Instr::Bne { rs1, rs2, imm },
        BranchName::Blt => Instr::Blt { rs1, rs2, imm },
        BranchName::Bge => Instr::Bge { rs1, rs2, imm },
        BranchName::Bltu => Instr::Bltu { rs1, rs2, imm },
        BranchName::Bgeu => Instr::Bgeu { rs1, rs2, imm },
    }
}

fn address(name: AddressName, rd: Reg, rs1: Reg, imm: Imm) -> Instr
    ensures { result ≡ address_instr name rd rs1 imm }
{
    match name {
        AddressName::Jalr => Instr::Jalr { rd, rs1, imm },
        AddressName::Lb => Instr::Lb { rd, rs1, imm },
        AddressName::Lh => Instr::Lh { rd, rs1, imm },
        AddressName::Lw => Instr::Lw { rd, rs1, imm },
        AddressName::Lbu => Instr::Lbu { rd, rs1, imm },
        AddressName::Lhu => Instr::Lhu { rd, rs1, imm },
    }
}

fn store(name: StoreName, rs1: Reg, rs2: Reg, imm: Imm) -> Instr
    ensures { result ≡ store_instr name rs1 rs2 imm }
{
    match name {
        StoreName::Sb => Instr::Sb { rs1, rs2, imm },
        StoreName::Sh => Instr::Sh { rs1, rs2, imm },
        StoreName::Sw => Instr::Sw { rs1, rs2, imm },
    }
}

fn shift(name: ShiftName, rd: Reg, rs1: Reg, by: Shift) -> Instr
    ensures { result ≡ shift_instr name rd rs1 by }
{
    match name {
        ShiftName::Slli => Instr::Slli { rd, rs1, by },
        ShiftName::Srli => Instr::Srli { rd, rs1, by },
        ShiftName::Srai => Instr::Srai { rd, rs1, by },
    }
}

fn number(name: NumberName, rd: Reg, rs1: Reg, imm: Imm) -> Instr
    ensures { result ≡ number_instr name rd rs1 imm }
{
    match name {
        NumberName::Addi => Instr::Addi { rd, rs1, imm },
        NumberName::Slti => Instr::Slti { rd, rs1, imm },
        NumberName::Sltiu => Instr::Sltiu { rd, rs1, imm },
        NumberName::Xori => Instr::Xori { rd, rs1, imm },
        NumberName::Ori => Instr::Ori { rd, rs1, imm },
        NumberName::Andi => Instr::Andi { rd, rs1, imm },
        NumberName::Fence => Instr::Fence { rd, rs1, imm },
    }
}

fn registers(name: RegistersName, rd: Reg, rs1: Reg, rs2: Reg) -> Instr
    ensures { result ≡ registers_instr name rd rs1 rs2 }
{
    match name {
        RegistersName::Add => Instr::Add { rd, rs1, rs2 },
        RegistersName::Sub => Instr::Sub { rd, rs1, rs2 },
        RegistersName::Sll => Instr::Sll { rd, rs1, rs2 },
        RegistersName::Slt => Instr::Slt { rd, rs1, rs2 },
        RegistersName::Sltu => Instr::Sltu { rd, rs1, rs2 },
        RegistersName::Xor => Instr::Xor { rd, rs1, rs2 },
        RegistersName::Srl => Instr::Srl { rd, rs1, rs2 },
        RegistersName::Sra => Instr::Sra { rd, rs1, rs2 },
        RegistersName::Or => Instr::Or { rd, rs1, rs2 },
        RegistersName::And => Instr::And { rd, rs1, rs2 },
        RegistersName::Mul => Instr::Mul { rd, rs1, rs2 },
        RegistersName::Mulh => Instr::Mulh { rd, rs1, rs2 },
        RegistersName::Mulhsu => Instr::Mulhsu { rd, rs1, rs2 },
        RegistersName::Mulhu => Instr::Mulhu { rd, rs1, rs2 },
        RegistersName::Div => Instr::Div { rd, rs1, rs2 },
        RegistersName::Divu => Instr::Divu { rd, rs1, rs2 },
        RegistersName::Rem => Instr::Rem { rd, rs1, rs2 },
        RegistersName::Remu => Instr::Remu { rd, rs1, rs2 },
    }
}

fn bare(name: BareName) -> Instr
    ensures { result ≡ bare_instr name }
{
    match name {
        BareName::Ecall => Instr::Ecall,
        BareName::Ebreak => Instr::Ebreak,
    }
}
