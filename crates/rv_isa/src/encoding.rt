//! From an instruction to its word.

ghost use Rattle.std.specs.Prelude.{◌≡◌, ◌<◌, ◌≤◌};
ghost use Rattle.rv_isa.specs.Formats.{in_bits, r_form, i_form, s_form, b_form, u_form, j_form};
ghost use Rattle.rv_isa.specs.Ranges.{IsReg, IsImm, IsUpper, IsNear, IsFar};
ghost use Rattle.rv_isa.specs.Spelling.{spelling, IsInstr};

use crate::opcodes::{AUIPC, BRANCH, JAL, JALR, LOAD, LUI, MISC_MEM, OP, OP_IMM, STORE};
use crate::{Far, Imm, Instr, Near, Reg, Shift, Upper};

/// The word of an instruction (RISC-V unprivileged manual, "RV32/64G Instruction Set Listings").
pub fn encode(i: Instr) -> u32
    ensures word { result ≡ spelling i }
    ensures ranges { IsInstr i }
{
    match i {
        Instr::Lui { rd, imm } => u_form(LUI, rd, imm),
        Instr::Auipc { rd, imm } => u_form(AUIPC, rd, imm),
        Instr::Jal { rd, imm } => j_form(rd, imm),
        Instr::Jalr { rd, rs1, imm } => i_form(JALR, 0, rd, rs1, imm),
        Instr::Beq { rs1, rs2, imm } => b_form(0, rs1, rs2, imm),
        Instr::Bne { rs1, rs2, imm } => b_form(1, rs1, rs2, imm),
        Instr::Blt { rs1, rs2, imm } => b_form(4, rs1, rs2, imm),
        Instr::Bge { rs1, rs2, imm } => b_form(5, rs1, rs2, imm),
        Instr::Bltu { rs1, rs2, imm } => b_form(6, rs1, rs2, imm),
        Instr::Bgeu { rs1, rs2, imm } => b_form(7, rs1, rs2, imm),
        Instr::Lb { rd, rs1, imm } => i_form(LOAD, 0, rd, rs1, imm),
        Instr::Lh { rd, rs1, imm } => i_form(LOAD, 1, rd, rs1, imm),
        Instr::Lw { rd, rs1, imm } => i_form(LOAD, 2, rd, rs1, imm),
        Instr::Lbu { rd, rs1, imm } => i_form(LOAD, 4, rd, rs1, imm),
        Instr::Lhu { rd, rs1, imm } => i_form(LOAD, 5, rd, rs1, imm),
        Instr::Sb { rs1, rs2, imm } => s_form(0, rs1, rs2, imm),
        Instr::Sh { rs1, rs2, imm } => s_form(1, rs1, rs2, imm),
        Instr::Sw { rs1, rs2, imm } => s_form(2, rs1, rs2, imm),
        Instr::Addi { rd, rs1, imm } => i_form(OP_IMM, 0, rd, rs1, imm),
        Instr::Slti { rd, rs1, imm } => i_form(OP_IMM, 2, rd, rs1, imm),
        Instr::Sltiu { rd, rs1, imm } => i_form(OP_IMM, 3, rd, rs1, imm),
        Instr::Xori { rd, rs1, imm } => i_form(OP_IMM, 4, rd, rs1, imm),
        Instr::Ori { rd, rs1, imm } => i_form(OP_IMM, 6, rd, rs1, imm),
        Instr::Andi { rd, rs1, imm } => i_form(OP_IMM, 7, rd, rs1, imm),
        Instr::Slli { rd, rs1, by } => shift_form(1, 0x00, rd, rs1, by),
        Instr::Srli { rd, rs1, by } => shift_form(5, 0x00, rd, rs1, by),
        Instr::Srai { rd, rs1, by } => shift_form(5, 0x20, rd, rs1, by),
        Instr::Add { rd, rs1, rs2 } => r_form(0, 0x00, rd, rs1, rs2),
        Instr::Sub { rd, rs1, rs2 } => r_form(0, 0x20, rd, rs1, rs2),
        Instr::Sll { rd, rs1, rs2 } => r_form(1, 0x00, rd, rs1, rs2),
        Instr::Slt { rd, rs1, rs2 } => r_form(2, 0x00, rd, rs1, rs2),
        Instr::Sltu { rd, rs1, rs2 } => r_form(3, 0x00, rd, rs1, rs2),
        Instr::Xor { rd, rs1, rs2 } => r_form(4, 0x00, rd, rs1, rs2),
        Instr::Srl { rd, rs1, rs2 } => r_form(5, 0x00, rd, rs1, rs2),
        Instr::Sra { rd, rs1, rs2 } => r_form(5, 0x20, rd, rs1, rs2),
        Instr::Or { rd, rs1, rs2 } => r_form(6, 0x00, rd, rs1, rs2),
        Instr::And { rd, rs1, rs2 } => r_form(7, 0x00, rd, rs1, rs2),
        Instr::Mul { rd, rs1, rs2 } => r_form(0, 0x01, rd, rs1, rs2),
        Instr::Mulh { rd, rs1, rs2 } => r_form(1, 0x01, rd, rs1, rs2),
        Instr::Mulhsu { rd, rs1, rs2 } => r_form(2, 0x01, rd, rs1, rs2),
        Instr::Mulhu { rd, rs1, rs2 } => r_form(3, 0x01, rd, rs1, rs2),
        Instr::Div { rd, rs1, rs2 } => r_form(4, 0x01, rd, rs1, rs2),
        Instr::Divu { rd, rs1, rs2 } => r_form(5, 0x01, rd, rs1, rs2),
        Instr::Rem { rd, rs1, rs2 } => r_form(6, 0x01, rd, rs1, rs2),
        Instr::Remu { rd, rs1, rs2 } => r_form(7, 0x01, rd, rs1, rs2),
        Instr::Fence { rd, rs1, imm } => i_form(MISC_MEM, 0, rd, rs1, imm),
        Instr::Ecall => 0x0000_0073,
        Instr::Ebreak => 0x0010_0073,
    }
}

// A register's number.
fn number(r: Reg) -> u32
    ensures value { result ≡ r }
    ensures range { IsReg r }
{
    r.index() as u32
}

// A number of 12 bits.
fn imm_bits(imm: Imm) -> u32
    ensures value { result ≡ in_bits 12 imm }
    ensures range { IsImm imm }
    ensures high { result < 0x1000 }
{
    let v = imm.value();
    (if v < 0 { v + 0x1000 } else { v }) as u32
}

// A branch's offset, as 13 bits.
fn near_bits(imm: Near) -> u32
    ensures value { result ≡ in_bits 13 imm }
    ensures range { IsNear imm }
    ensures high { result < 0x2000 }
{
    let v = imm.value();
    (if v < 0 { v + 0x2000 } else { v }) as u32
}

// A jump's offset, as 21 bits.
fn far_bits(imm: Far) -> u32
    ensures value { result ≡ in_bits 21 imm }
    ensures range { IsFar imm }
    ensures high { result < 0x20_0000 }
{
    let v = imm.value();
    (if v < 0 { v + 0x20_0000 } else { v }) as u32
}

// An operation of two registers.
fn r_form(funct3: u32, funct7: u32, rd: Reg, rs1: Reg, rs2: Reg) -> u32
    requires funct3 { funct3 ≤ 7 }
    requires funct7 { funct7 ≤ 127 }
    ensures word { result ≡ r_form 0x33 funct3 funct7 rd rs1 rs2 }
    ensures rd { IsReg rd }
    ensures rs1 { IsReg rs1 }
    ensures rs2 { IsReg rs2 }
{
    OP + (number(rd) << 7)
        + (funct3 << 12)
        + (number(rs1) << 15)
        + (number(rs2) << 20)
        + (funct7 << 25)
}

// A shift by a number.
fn shift_form(funct3: u32, funct7: u32, rd: Reg, rs1: Reg, by: Shift) -> u32
    requires funct3 { funct3 ≤ 7 }
    requires funct7 { funct7 ≤ 127 }
    ensures word { result ≡ r_form 0x13 funct3 funct7 rd rs1 by }
    ensures rd { IsReg rd }
    ensures rs1 { IsReg rs1 }
    ensures by { IsReg by }
{
    OP_IMM
        + (number(rd) << 7)
        + (funct3 << 12)
        + (number(rs1) << 15)
        + ((by.value() as u32) << 20)
        + (funct7 << 25)
}

// An operation of a register and a number.
fn i_form(opcode: u32, funct3: u32, rd: Reg, rs1: Reg, imm: Imm) -> u32
    requires opcode { opcode ≤ 127 }
    requires funct3 { funct3 ≤ 7 }
    ensures word { result ≡ i_form opcode funct3 rd rs1 imm }
    ensures rd { IsReg rd }
    ensures rs1 { IsReg rs1 }
    ensures imm { IsImm imm }
{
    opcode + (number(rd) << 7) + (funct3 << 12) + (number(rs1) << 15) + (imm_bits(imm) << 20)
}

// A store.
fn s_form(funct3: u32, rs1: Reg, rs2: Reg, imm: Imm) -> u32
    requires funct3 { funct3 ≤ 7 }
    ensures word { result ≡ s_form 0x23 funct3 rs1 rs2 imm }
    ensures rs1 { IsReg rs1 }
    ensures rs2 { IsReg rs2 }
    ensures imm { IsImm imm }
{
    let v = imm_bits(imm);
    STORE
        + ((v % 32) << 7)
        + (funct3 << 12)
        + (number(rs1) << 15)
        + (number(rs2) << 20)
        + ((v >> 5) << 25)
}

// A branch.
fn b_form(funct3: u32, rs1: Reg, rs2: Reg, imm: Near) -> u32
    requires funct3 { funct3 ≤ 7 }
    ensures word { result ≡ b_form 0x63 funct3 rs1 rs2 imm }
    ensures rs1 { IsReg rs1 }
    ensures rs2 { IsReg rs2 }
    ensures imm { IsNear imm }
{
    let v = near_bits(imm);
    BRANCH
        + (((v >> 11) % 2) << 7)
        + (((v >> 1) % 16) << 8)
        + (funct3 << 12)
        + (number(rs1) << 15)
        + (number(rs2) << 20)
        + (((v >> 5) % 64) << 25)
        + ((v >> 12) << 31)
}

// A number of 20 bits.
fn u_form(opcode: u32, rd: Reg, imm: Upper) -> u32
    requires opcode { opcode ≤ 127 }
    ensures word { result ≡ u_form opcode rd imm }
    ensures rd { IsReg rd }
    ensures imm { IsUpper imm }
{
    opcode + (number(rd) << 7) + ((imm.value() as u32) << 12)
}

// A jump.
fn j_form(rd: Reg, imm: Far) -> u32
    ensures word { result ≡ j_form 0x6f rd imm }
    ensures rd { IsReg rd }
    ensures imm { IsFar imm }
{
    let v = far_bits(imm);
    JAL + (number(rd) << 7)
        + (((v >> 12) % 256) << 12)
        + (((v >> 11) % 2) << 20)
        + (((v >> 1) % 1024) << 21)
        + ((v >> 20) << 31)
}
