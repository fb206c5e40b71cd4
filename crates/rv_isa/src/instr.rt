//! One instruction.

use crate::{Far, Imm, Near, Reg, Shift, Upper};

/// An instruction of RV32IM (RISC-V unprivileged manual, chapters "RV32I Base Integer Instruction
/// Set" and "M Extension"): `rd` is the register that it writes, `rs1` and `rs2` are those that it
/// reads.
#[derive(Clone, Copy, PartialEq, Eq, Debug)]
pub enum Instr {
    /// The upper 20 bits, with zeros below.
    Lui { rd: Reg, imm: Upper },
    /// The sum of the pc and the upper 20 bits, with zeros below.
    Auipc { rd: Reg, imm: Upper },
    /// A jump; `rd` gets the place after the jump.
    Jal { rd: Reg, imm: Far },
    /// A jump to `rs1 + imm` with bit 0 cleared; `rd` gets the place after the jump.
    Jalr { rd: Reg, rs1: Reg, imm: Imm },
    /// A branch where the two registers are equal.
    Beq { rs1: Reg, rs2: Reg, imm: Near },
    /// A branch where the two registers differ.
    Bne { rs1: Reg, rs2: Reg, imm: Near },
    /// A branch where `rs1` is below `rs2`, both with a sign.
    Blt { rs1: Reg, rs2: Reg, imm: Near },
    /// A branch where `rs1` isn't below `rs2`, both with a sign.
    Bge { rs1: Reg, rs2: Reg, imm: Near },
    /// A branch where `rs1` is below `rs2`, both without a sign.
    Bltu { rs1: Reg, rs2: Reg, imm: Near },
    /// A branch where `rs1` isn't below `rs2`, both without a sign.
    Bgeu { rs1: Reg, rs2: Reg, imm: Near },
    /// A byte from the address `rs1 + imm`, with copies of its sign above.
    Lb { rd: Reg, rs1: Reg, imm: Imm },
    /// A half word from the address `rs1 + imm`, with copies of its sign above.
    Lh { rd: Reg, rs1: Reg, imm: Imm },
    /// A word from the address `rs1 + imm`.
    Lw { rd: Reg, rs1: Reg, imm: Imm },
    /// A byte from the address `rs1 + imm`, with zeros above.
    Lbu { rd: Reg, rs1: Reg, imm: Imm },
    /// A half word from the address `rs1 + imm`, with zeros above.
    Lhu { rd: Reg, rs1: Reg, imm: Imm },
    /// The low byte of `rs2`, to the address `rs1 + imm`.
    Sb { rs1: Reg, rs2: Reg, imm: Imm },
    /// The low half word of `rs2`, to the address `rs1 + imm`.
    Sh { rs1: Reg, rs2: Reg, imm: Imm },
    /// The word of `rs2`, to the address `rs1 + imm`.
    Sw { rs1: Reg, rs2: Reg, imm: Imm },
    /// The sum of `rs1` and the number.
    Addi { rd: Reg, rs1: Reg, imm: Imm },
    /// 1 where `rs1` is below the number, both with a sign, and 0 elsewhere.
    Slti { rd: Reg, rs1: Reg, imm: Imm },
    /// 1 where `rs1` is below the number, both without a sign, and 0 elsewhere.
    Sltiu { rd: Reg, rs1: Reg, imm: Imm },
    /// The exclusive or of `rs1` and the number.
    Xori { rd: Reg, rs1: Reg, imm: Imm },
    /// The bits of `rs1` or the number.
    Ori { rd: Reg, rs1: Reg, imm: Imm },
    /// The bits of `rs1` and the number.
    Andi { rd: Reg, rs1: Reg, imm: Imm },
    /// A shift of `rs1` to the left.
    Slli { rd: Reg, rs1: Reg, by: Shift },
    /// A shift of `rs1` to the right, with zeros.
    Srli { rd: Reg, rs1: Reg, by: Shift },
    /// A shift of `rs1` to the right, with copies of the sign.
    Srai { rd: Reg, rs1: Reg, by: Shift },
    /// The sum of `rs1` and `rs2`.
    Add { rd: Reg, rs1: Reg, rs2: Reg },
    /// The difference of `rs1` and `rs2`.
    Sub { rd: Reg, rs1: Reg, rs2: Reg },
    /// A shift of `rs1` to the left, by the low five bits of `rs2`.
    Sll { rd: Reg, rs1: Reg, rs2: Reg },
    /// 1 where `rs1` is below `rs2`, both with a sign, and 0 elsewhere.
    Slt { rd: Reg, rs1: Reg, rs2: Reg },
    /// 1 where `rs1` is below `rs2`, both without a sign, and 0 elsewhere.
    Sltu { rd: Reg, rs1: Reg, rs2: Reg },
    /// The exclusive or of `rs1` and `rs2`.
    Xor { rd: Reg, rs1: Reg, rs2: Reg },
    /// A shift of `rs1` to the right, with zeros, by the low five bits of `rs2`.
    Srl { rd: Reg, rs1: Reg, rs2: Reg },
    /// A shift of `rs1` to the right, with copies of the sign, by the low five bits of `rs2`.
    Sra { rd: Reg, rs1: Reg, rs2: Reg },
    /// The bits of `rs1` or `rs2`.
    Or { rd: Reg, rs1: Reg, rs2: Reg },
    /// The bits of `rs1` and `rs2`.
    And { rd: Reg, rs1: Reg, rs2: Reg },
    /// The low word of the product of `rs1` and `rs2`.
    Mul { rd: Reg, rs1: Reg, rs2: Reg },
    /// The high word of the product of `rs1` and `rs2`, both with a sign.
    Mulh { rd: Reg, rs1: Reg, rs2: Reg },
    /// The high word of the product of `rs1` with a sign and `rs2` without one.
    Mulhsu { rd: Reg, rs1: Reg, rs2: Reg },
    /// The high word of the product of `rs1` and `rs2`, both without a sign.
    Mulhu { rd: Reg, rs1: Reg, rs2: Reg },
    /// A quotient with a sign, truncated toward zero. All bits are 1 where `rs2` is 0.
    Div { rd: Reg, rs1: Reg, rs2: Reg },
    /// A quotient without a sign. All bits are 1 where `rs2` is 0.
    Divu { rd: Reg, rs1: Reg, rs2: Reg },
    /// A remainder with the sign of `rs1`, and `rs1` where `rs2` is 0.
    Rem { rd: Reg, rs1: Reg, rs2: Reg },
    /// A remainder without a sign, and `rs1` where `rs2` is 0.
    Remu { rd: Reg, rs1: Reg, rs2: Reg },
    /// An order of loads and stores, which one core keeps by itself.
    Fence { rd: Reg, rs1: Reg, imm: Imm },
    /// A call of the surroundings.
    Ecall,
    /// The end of the program.
    Ebreak,
}
