//! From a word to its instruction.

ghost use Rattle.std.specs.Prelude.{◌≡◌, ◌≢◌, ◌<◌, IfSome, IsNone, Some};
ghost use Rattle.rv_isa.specs.Reading.{opcode_in, rd_in, funct3_in, rs1_in, rs2_in, funct7_in, upper_in, imm_in, offset_in, near_in, far_in, signed, branch_of, load_of, store_of, jump_of, fence_of, shift_left_of, shift_right_of, op_imm_of, base_op_of, turned_op_of, multiply_of, op_of, system_of, decoded};
ghost use Rattle.rv_isa.specs.Ranges.{IsReg, IsImm, IsUpper, IsNear, IsFar};
ghost use Rattle.rv_isa.specs.Spelling.{spelling, IsInstr};
ghost use Rattle.rv_isa.specs.declared.instr.Instr.{Instr};

use crate::opcodes::{AUIPC, BRANCH, JAL, JALR, LOAD, LUI, MISC_MEM, OP, OP_IMM, STORE, SYSTEM};
use crate::{Far, Imm, Instr, Near, Reg, Shift, Upper, encode};

/// The instruction whose word this is; none where no instruction has it.
pub fn decode(w: u32) -> Option<Instr>
    ensures value { result ≡ decoded w }
    ensures word { IfSome result (λ i. spelling i ≡ w) }
    ensures ranges { IfSome result IsInstr }
    ensures found { (i : Instr) → IsInstr i → spelling i ≡ w → result ≡ Some i }
    ensures none { IsNone result → (i : Instr) → IsInstr i → spelling i ≢ w }
{
    by_opcode(w)
}

/// What is encoded decodes to the same instruction.
pub fn encoded_and_decoded(i: Instr) -> Option<Instr>
    ensures { result ≡ Some i }
{
    decode(encode(i))
}

// By the opcode.
fn by_opcode(w: u32) -> Option<Instr>
    ensures same { result ≡ decoded w }
    ensures word { IfSome result (λ i. spelling i ≡ w) }
    ensures ranges { IfSome result IsInstr }
{
    match w % 128 {
        LUI => Some(Instr::Lui {
            rd: rd(w),
            imm: upper(w),
        }),
        AUIPC => Some(Instr::Auipc {
            rd: rd(w),
            imm: upper(w),
        }),
        JAL => Some(Instr::Jal {
            rd: rd(w),
            imm: far(w),
        }),
        JALR => jump_to(w),
        BRANCH => branch(w),
        LOAD => load(w),
        STORE => store(w),
        OP_IMM => op_imm(w),
        OP => op(w),
        MISC_MEM => fence(w),
        SYSTEM => system(w),
        _ => None,
    }
}

// A jump to a register.
fn jump_to(w: u32) -> Option<Instr>
    requires { opcode_in w ≡ 0x67 }
    ensures same { result ≡ jump_of (funct3_in w) w }
    ensures word { IfSome result (λ i. spelling i ≡ w) }
    ensures ranges { IfSome result IsInstr }
{
    match funct3(w) {
        0 => Some(Instr::Jalr {
            rd: rd(w),
            rs1: rs1(w),
            imm: imm(w),
        }),
        _ => None,
    }
}

// An order of memory.
fn fence(w: u32) -> Option<Instr>
    requires { opcode_in w ≡ 0x0f }
    ensures same { result ≡ fence_of (funct3_in w) w }
    ensures word { IfSome result (λ i. spelling i ≡ w) }
    ensures ranges { IfSome result IsInstr }
{
    match funct3(w) {
        0 => Some(Instr::Fence {
            rd: rd(w),
            rs1: rs1(w),
            imm: imm(w),
        }),
        _ => None,
    }
}

// A branch.
fn branch(w: u32) -> Option<Instr>
    requires { opcode_in w ≡ 0x63 }
    ensures same { result ≡ branch_of (funct3_in w) w }
    ensures word { IfSome result (λ i. spelling i ≡ w) }
    ensures ranges { IfSome result IsInstr }
{
    let rs1 = rs1(w);
    let rs2 = rs2(w);
    let imm = near(w);
    match funct3(w) {
        0 => Some(Instr::Beq { rs1, rs2, imm }),
        1 => Some(Instr::Bne { rs1, rs2, imm }),
        4 => Some(Instr::Blt { rs1, rs2, imm }),
        5 => Some(Instr::Bge { rs1, rs2, imm }),
        6 => Some(Instr::Bltu { rs1, rs2, imm }),
        7 => Some(Instr::Bgeu { rs1, rs2, imm }),
        _ => None,
    }
}

// A load.
fn load(w: u32) -> Option<Instr>
    requires { opcode_in w ≡ 0x03 }
    ensures same { result ≡ load_of (funct3_in w) w }
    ensures word { IfSome result (λ i. spelling i ≡ w) }
    ensures ranges { IfSome result IsInstr }
{
    let rd = rd(w);
    let rs1 = rs1(w);
    let imm = imm(w);
    match funct3(w) {
        0 => Some(Instr::Lb { rd, rs1, imm }),
        1 => Some(Instr::Lh { rd, rs1, imm }),
        2 => Some(Instr::Lw { rd, rs1, imm }),
        4 => Some(Instr::Lbu { rd, rs1, imm }),
        5 => Some(Instr::Lhu { rd, rs1, imm }),
        _ => None,
    }
}

// A store.
fn store(w: u32) -> Option<Instr>
    requires { opcode_in w ≡ 0x23 }
    ensures same { result ≡ store_of (funct3_in w) w }
    ensures word { IfSome result (λ i. spelling i ≡ w) }
    ensures ranges { IfSome result IsInstr }
{
    let rs1 = rs1(w);
    let rs2 = rs2(w);
    let imm = offset(w);
    match funct3(w) {
        0 => Some(Instr::Sb { rs1, rs2, imm }),
        1 => Some(Instr::Sh { rs1, rs2, imm }),
        2 => Some(Instr::Sw { rs1, rs2, imm }),
        _ => None,
    }
}

// An operation of a register and a number.
fn op_imm(w: u32) -> Option<Instr>
    requires { opcode_in w ≡ 0x13 }
    ensures same { result ≡ op_imm_of (funct3_in w) (funct7_in w) w }
    ensures word { IfSome result (λ i. spelling i ≡ w) }
    ensures ranges { IfSome result IsInstr }
{
    let rd = rd(w);
    let rs1 = rs1(w);
    let imm = imm(w);
    match funct3(w) {
        0 => Some(Instr::Addi { rd, rs1, imm }),
        1 => shift_left(w),
        2 => Some(Instr::Slti { rd, rs1, imm }),
        3 => Some(Instr::Sltiu { rd, rs1, imm }),
        4 => Some(Instr::Xori { rd, rs1, imm }),
        5 => shift_right(w),
        6 => Some(Instr::Ori { rd, rs1, imm }),
        7 => Some(Instr::Andi { rd, rs1, imm }),
        _ => None,
    }
}

// A shift to the left by a number.
fn shift_left(w: u32) -> Option<Instr>
    requires opcode { opcode_in w ≡ 0x13 }
    requires funct3 { funct3_in w ≡ 1 }
    ensures same { result ≡ shift_left_of (funct7_in w) w }
    ensures word { IfSome result (λ i. spelling i ≡ w) }
    ensures ranges { IfSome result IsInstr }
{
    if funct7(w) == 0 {
        Some(Instr::Slli {
            rd: rd(w),
            rs1: rs1(w),
            by: by(w),
        })
    } else {
        None
    }
}

// A shift to the right by a number.
fn shift_right(w: u32) -> Option<Instr>
    requires opcode { opcode_in w ≡ 0x13 }
    requires funct3 { funct3_in w ≡ 5 }
    ensures same { result ≡ shift_right_of (funct7_in w) w }
    ensures word { IfSome result (λ i. spelling i ≡ w) }
    ensures ranges { IfSome result IsInstr }
{
    match funct7(w) {
        0x00 => Some(Instr::Srli {
            rd: rd(w),
            rs1: rs1(w),
            by: by(w),
        }),
        0x20 => Some(Instr::Srai {
            rd: rd(w),
            rs1: rs1(w),
            by: by(w),
        }),
        _ => None,
    }
}

// An operation of two registers.
fn op(w: u32) -> Option<Instr>
    requires { opcode_in w ≡ 0x33 }
    ensures same { result ≡ op_of (funct3_in w) (funct7_in w) w }
    ensures word { IfSome result (λ i. spelling i ≡ w) }
    ensures ranges { IfSome result IsInstr }
{
    match funct7(w) {
        0x00 => base_op(w),
        0x01 => multiply(w),
        0x20 => turned_op(w),
        _ => None,
    }
}

// An operation of the base set, with funct7 0.
fn base_op(w: u32) -> Option<Instr>
    requires opcode { opcode_in w ≡ 0x33 }
    requires funct7 { funct7_in w ≡ 0 }
    ensures same { result ≡ base_op_of (funct3_in w) w }
    ensures word { IfSome result (λ i. spelling i ≡ w) }
    ensures ranges { IfSome result IsInstr }
{
    let rd = rd(w);
    let rs1 = rs1(w);
    let rs2 = rs2(w);
    match funct3(w) {
        0 => Some(Instr::Add { rd, rs1, rs2 }),
        1 => Some(Instr::Sll { rd, rs1, rs2 }),
        2 => Some(Instr::Slt { rd, rs1, rs2 }),
        3 => Some(Instr::Sltu { rd, rs1, rs2 }),
        4 => Some(Instr::Xor { rd, rs1, rs2 }),
        5 => Some(Instr::Srl { rd, rs1, rs2 }),
        6 => Some(Instr::Or { rd, rs1, rs2 }),
        7 => Some(Instr::And { rd, rs1, rs2 }),
        _ => None,
    }
}

// A product, a quotient or a remainder.
fn multiply(w: u32) -> Option<Instr>
    requires opcode { opcode_in w ≡ 0x33 }
    requires funct7 { funct7_in w ≡ 1 }
    ensures same { result ≡ multiply_of (funct3_in w) w }
    ensures word { IfSome result (λ i. spelling i ≡ w) }
    ensures ranges { IfSome result IsInstr }
{
    let rd = rd(w);
    let rs1 = rs1(w);
    let rs2 = rs2(w);
    match funct3(w) {
        0 => Some(Instr::Mul { rd, rs1, rs2 }),
        1 => Some(Instr::Mulh { rd, rs1, rs2 }),
        2 => Some(Instr::Mulhsu { rd, rs1, rs2 }),
        3 => Some(Instr::Mulhu { rd, rs1, rs2 }),
        4 => Some(Instr::Div { rd, rs1, rs2 }),
        5 => Some(Instr::Divu { rd, rs1, rs2 }),
        6 => Some(Instr::Rem { rd, rs1, rs2 }),
        7 => Some(Instr::Remu { rd, rs1, rs2 }),
        _ => None,
    }
}

// An operation of the base set, with bit 30.
fn turned_op(w: u32) -> Option<Instr>
    requires opcode { opcode_in w ≡ 0x33 }
    requires funct7 { funct7_in w ≡ 0x20 }
    ensures same { result ≡ turned_op_of (funct3_in w) w }
    ensures word { IfSome result (λ i. spelling i ≡ w) }
    ensures ranges { IfSome result IsInstr }
{
    let rd = rd(w);
    let rs1 = rs1(w);
    let rs2 = rs2(w);
    match funct3(w) {
        0 => Some(Instr::Sub { rd, rs1, rs2 }),
        5 => Some(Instr::Sra { rd, rs1, rs2 }),
        _ => None,
    }
}

// A call of the surroundings, or the end.
fn system(w: u32) -> Option<Instr>
    ensures same { result ≡ system_of w }
    ensures word { IfSome result (λ i. spelling i ≡ w) }
    ensures ranges { IfSome result IsInstr }
{
    match w {
        0x0000_0073 => Some(Instr::Ecall),
        0x0010_0073 => Some(Instr::Ebreak),
        _ => None,
    }
}

fn rd(w: u32) -> Reg
    ensures value { result ≡ rd_in w }
    ensures range { IsReg result }
{
    Reg::new(((w >> 7) % 32) as i32)
}

fn funct3(w: u32) -> u32
    ensures { result ≡ funct3_in w }
{
    (w >> 12) % 8
}

fn rs1(w: u32) -> Reg
    ensures value { result ≡ rs1_in w }
    ensures range { IsReg result }
{
    Reg::new(((w >> 15) % 32) as i32)
}

fn rs2(w: u32) -> Reg
    ensures value { result ≡ rs2_in w }
    ensures range { IsReg result }
{
    Reg::new(((w >> 20) % 32) as i32)
}

fn by(w: u32) -> Shift
    ensures value { result ≡ rs2_in w }
    ensures range { IsReg result }
{
    Shift::new(((w >> 20) % 32) as i32)
}

fn funct7(w: u32) -> u32
    ensures { result ≡ funct7_in w }
{
    w >> 25
}

fn upper(w: u32) -> Upper
    ensures value { result ≡ upper_in w }
    ensures range { IsUpper result }
{
    Upper::new((w >> 12) as i32)
}

// 12 bits as a number with a sign.
fn signed_12(v: u32) -> Imm
    requires { v < 0x1000 }
    ensures value { result ≡ signed 12 v }
    ensures range { IsImm result }
{
    let v = v as i32;
    Imm::new(if v < 0x800 { v } else { v - 0x1000 })
}

fn imm(w: u32) -> Imm
    ensures value { result ≡ imm_in w }
    ensures range { IsImm result }
{
    signed_12(w >> 20)
}

// The number of a store.
fn offset(w: u32) -> Imm
    ensures value { result ≡ offset_in w }
    ensures range { IsImm result }
{
    signed_12((w >> 7) % 32 + ((w >> 25) << 5))
}

// A branch's offset.
fn near(w: u32) -> Near
    ensures value { result ≡ near_in w }
    ensures range { IsNear result }
{
    let v = (((w >> 8) % 16) << 1)
        + (((w >> 25) % 64) << 5)
        + (((w >> 7) % 2) << 11)
        + ((w >> 31) << 12);
    let v = v as i32;
    Near::new(if v < 0x1000 { v } else { v - 0x2000 })
}

// A jump's offset.
fn far(w: u32) -> Far
    ensures value { result ≡ far_in w }
    ensures range { IsFar result }
{
    let v = (((w >> 21) % 1024) << 1)
        + (((w >> 20) % 2) << 11)
        + (((w >> 12) % 256) << 12)
        + ((w >> 31) << 20);
    let v = v as i32;
    Far::new(if v < 0x10_0000 { v } else { v - 0x20_0000 })
}
