//! The instructions that each form of the language becomes.

ghost use Rattle.std.specs.Prelude.{◌≡◌, ◌<◌, ◌≤◌, ◌+◌, ◌*◌, ◌^◌, [], ◌∷◌, ◌++◌, OnOk, pos, negsuc, ◌≤ℤ◌, nat_abs};
ghost use Rattle.pld_ast.specs.Resolve.{joined, sign_of, op2_of};
ghost use Rattle.rv_back.specs.Code.{const, push, pop, get_scalar, register_at, set_scalar, read_scalar, read_at, less_by, shift_by, quotient_by, remainder_by, op2_code, high_of, low_of, set_aside, bring_back, prologue};
ghost use Rattle.rv_back.specs.Form.{un_code};

use pld_ast::{BinOp, Ty, UnOp};
use pld_base::NoMemory;
use rv_isa::{Imm, Instr, Reg, Upper};

/// One more instruction.
pub fn put(code: &mut Vec<Instr>, instr: Instr) -> Result<(), NoMemory>
    ensures { OnOk result (code.new.items ≡ code.old.items ++ instr ∷ []) }
{
    code.push(instr)?;
    Ok(())
}

/// Two more instructions.
pub fn put_both(code: &mut Vec<Instr>, first: Instr, second: Instr) -> Result<(), NoMemory>
    ensures { OnOk result (code.new.items ≡ code.old.items ++ first ∷ second ∷ []) }
{
    put(code, first)?;
    put(code, second)
}

// The signed view of the low 12 bits.
fn low(v: u32) -> Imm
    ensures { result ≡ low_of v }
{
    let low = (v % 4096) as i32;
    if low < 2048 {
        Imm::new(low)
    } else {
        Imm::new(low - 4096)
    }
}

// The upper 20 bits of v less its low 12 bits.
fn high(v: u32) -> Upper
    ensures { result ≡ high_of v }
{
    Upper::new(((v / 4096 + (v % 4096) / 2048) % 0x10_0000) as i32)
}

/// A number into a register.
pub fn put_const(code: &mut Vec<Instr>, r: Reg, v: u32) -> Result<(), NoMemory>
    ensures { OnOk result (code.new.items ≡ code.old.items ++ const r v) }
{
    put_both(
        code,
        Instr::Lui {
            rd: r,
            imm: high(v),
        },
        Instr::Addi {
            rd: r,
            rs1: r,
            imm: low(v),
        },
    )
}

// A register into another one.
fn put_move(code: &mut Vec<Instr>, rd: Reg, rs1: Reg) -> Result<(), NoMemory>
    ensures { OnOk result (code.new.items ≡ code.old.items ++ Instr.Addi rd rs1 (pos 0) ∷ []) }
{
    let imm = Imm::new(0);
    put(code, Instr::Addi { rd, rs1, imm })
}

// A number is added to a register.
fn put_add(code: &mut Vec<Instr>, r: Reg, number: i32) -> Result<(), NoMemory>
    requires low { negsuc 2047 ≤ℤ number }
    requires high { number ≤ℤ pos 2047 }
    ensures { OnOk result (code.new.items ≡ code.old.items ++ Instr.Addi r r number ∷ []) }
{
    let imm = Imm::new(number);
    put(code, Instr::Addi { rd: r, rs1: r, imm })
}

// A word from a place past a register.
fn put_lw(code: &mut Vec<Instr>, rd: Reg, rs1: Reg, past: usize) -> Result<(), NoMemory>
    requires { past ≤ 2047 }
    ensures { OnOk result (code.new.items ≡ code.old.items ++ Instr.Lw rd rs1 (pos past) ∷ []) }
{
    let imm = Imm::new(past as i32);
    put(code, Instr::Lw { rd, rs1, imm })
}

// x10 to a place past a register.
fn put_sw(code: &mut Vec<Instr>, rs1: Reg, past: usize) -> Result<(), NoMemory>
    requires { past ≤ 2047 }
    ensures { OnOk result (code.new.items ≡ code.old.items ++ Instr.Sw rs1 10 (pos past) ∷ []) }
{
    let rs2 = Reg::new(10);
    let imm = Imm::new(past as i32);
    put(code, Instr::Sw { rs1, rs2, imm })
}

// The upper 20 bits of a register.
fn put_lui(code: &mut Vec<Instr>, rd: Reg, bits: i32) -> Result<(), NoMemory>
    requires low { pos 0 ≤ℤ bits }
    requires high { bits ≤ℤ pos 1048575 }
    ensures { OnOk result (code.new.items ≡ code.old.items ++ Instr.Lui rd (nat_abs bits) ∷ []) }
{
    let imm = Upper::new(bits);
    put(code, Instr::Lui { rd, imm })
}

/// x10 onto the pushed words.
pub fn put_push(code: &mut Vec<Instr>) -> Result<(), NoMemory>
    ensures { OnOk result (code.new.items ≡ code.old.items ++ push) }
{
    let sp = Reg::new(2);
    put_sw(code, sp, 0)?;
    put_add(code, sp, 4)
}

/// The last of the pushed words into x11.
pub fn put_pop(code: &mut Vec<Instr>) -> Result<(), NoMemory>
    ensures { OnOk result (code.new.items ≡ code.old.items ++ pop) }
{
    let sp = Reg::new(2);
    put_add(code, sp, -4)?;
    put_lw(code, Reg::new(11), sp, 0)
}

/// The left operand goes to x11 before a short right operand, and is pushed before any other.
pub fn put_aside(code: &mut Vec<Instr>, short: bool) -> Result<(), NoMemory>
    ensures { OnOk result (code.new.items ≡ code.old.items ++ set_aside short) }
{
    if short {
        put_move(code, Reg::new(11), Reg::new(10))
    } else {
        put_push(code)
    }
}

/// The left operand comes to x11 after the right one.
pub fn put_back(code: &mut Vec<Instr>, short: bool) -> Result<(), NoMemory>
    ensures { OnOk result (code.new.items ≡ code.old.items ++ bring_back short) }
{
    if short { Ok(()) } else { put_pop(code) }
}

// The register of a scalar, if it has one.
fn register_of(s: usize) -> Option<Reg>
    ensures { result ≡ register_at s }
{
    if s < 20 {
        Some(Reg::new(12 + s as i32))
    } else {
        None
    }
}

/// A scalar into x10.
pub fn put_get(code: &mut Vec<Instr>, s: usize) -> Result<(), NoMemory>
    requires { s ≤ 64 }
    ensures { OnOk result (code.new.items ≡ code.old.items ++ get_scalar s) }
{
    match register_of(s) {
        Some(r) => put_move(code, Reg::new(10), r),
        None => put_lw(code, Reg::new(10), Reg::new(8), 4 * s),
    }
}

/// x10 into a scalar.
pub fn put_set(code: &mut Vec<Instr>, s: usize) -> Result<(), NoMemory>
    requires { s ≤ 64 }
    ensures { OnOk result (code.new.items ≡ code.old.items ++ set_scalar s) }
{
    match register_of(s) {
        Some(r) => put_move(code, r, Reg::new(10)),
        None => put_sw(code, Reg::new(8), 4 * s),
    }
}

/// A word of an in-port into a scalar.
pub fn put_read(code: &mut Vec<Instr>, s: usize, port: usize) -> Result<(), NoMemory>
    requires scalar { s ≤ 64 }
    requires port { port ≤ 8 }
    ensures { OnOk result (code.new.items ≡ code.old.items ++ read_scalar s port) }
{
    match register_of(s) {
        Some(r) => put_lw(code, r, Reg::new(9), 4 * port),
        None => {
            put_lw(code, Reg::new(10), Reg::new(9), 4 * port)?;
            put_sw(code, Reg::new(8), 4 * s)
        }
    }
}

/// x10 becomes the word at its address.
pub fn put_load(code: &mut Vec<Instr>) -> Result<(), NoMemory>
    ensures { OnOk result (code.new.items ≡ code.old.items ++ Instr.Lw 10 10 (pos 0) ∷ []) }
{
    let x10 = Reg::new(10);
    put_lw(code, x10, x10, 0)
}

/// x10 to the address in x11.
pub fn put_store(code: &mut Vec<Instr>) -> Result<(), NoMemory>
    ensures { OnOk result (code.new.items ≡ code.old.items ++ Instr.Sw 11 10 (pos 0) ∷ []) }
{
    put_sw(code, Reg::new(11), 0)
}

/// A word of an in-port to the address in x10.
pub fn put_read_at(code: &mut Vec<Instr>, port: usize) -> Result<(), NoMemory>
    requires { port ≤ 8 }
    ensures { OnOk result (code.new.items ≡ code.old.items ++ read_at port) }
{
    let x10 = Reg::new(10);
    let x11 = Reg::new(11);
    put_move(code, x11, x10)?;
    put_lw(code, x10, Reg::new(9), 4 * port)?;
    put_sw(code, x11, 0)
}

/// x10 to an out-port.
pub fn put_write(code: &mut Vec<Instr>, port: usize) -> Result<(), NoMemory>
    requires { port ≤ 8 }
    ensures { OnOk result (code.new.items ≡ code.old.items ++ Instr.Sw 9 10 (pos (256 + 4 * port)) ∷ []) }
{
    put_sw(code, Reg::new(9), 256 + 4 * port)
}

/// The program ends.
pub fn put_end(code: &mut Vec<Instr>) -> Result<(), NoMemory>
    ensures { OnOk result (code.new.items ≡ code.old.items ++ Instr.Ebreak ∷ []) }
{
    put(code, Instr::Ebreak)
}

/// x10 becomes the operation of it.
pub fn put_op1(code: &mut Vec<Instr>, o: UnOp) -> Result<(), NoMemory>
    ensures { OnOk result (code.new.items ≡ code.old.items ++ un_code o) }
{
    let rd = Reg::new(10);
    match o {
        UnOp::Neg => put(
            code,
            Instr::Sub {
                rd,
                rs1: Reg::new(0),
                rs2: rd,
            },
        ),
        UnOp::Plus => Ok(()),
        UnOp::BitNot => put(
            code,
            Instr::Xori {
                rd,
                rs1: rd,
                imm: Imm::new(-1),
            },
        ),
        UnOp::Not => put(
            code,
            Instr::Sltiu {
                rd,
                rs1: rd,
                imm: Imm::new(1),
            },
        ),
    }
}

// Unsigned where one of the two is.
fn join(s: Ty, t: Ty) -> Ty
    ensures { result ≡ joined s t }
{
    match s {
        Ty::Uint => Ty::Uint,
        Ty::Int => t,
    }
}

// x10 becomes 1 where the one register is below the other, and else 0.
fn less(ty: Ty, rs1: Reg, rs2: Reg) -> Instr
    ensures { result ≡ less_by (sign_of ty) rs1 rs2 }
{
    let rd = Reg::new(10);
    match ty {
        Ty::Int => Instr::Slt { rd, rs1, rs2 },
        Ty::Uint => Instr::Sltu { rd, rs1, rs2 },
    }
}

// x11 shifted to the right by x10.
fn shift(ty: Ty) -> Instr
    ensures { result ≡ shift_by (sign_of ty) }
{
    let rd = Reg::new(10);
    let rs1 = Reg::new(11);
    match ty {
        Ty::Int => Instr::Sra { rd, rs1, rs2: rd },
        Ty::Uint => Instr::Srl { rd, rs1, rs2: rd },
    }
}

// x11 divided by x10.
fn quotient(ty: Ty) -> Instr
    ensures { result ≡ quotient_by (sign_of ty) }
{
    let rd = Reg::new(10);
    let rs1 = Reg::new(11);
    match ty {
        Ty::Int => Instr::Div { rd, rs1, rs2: rd },
        Ty::Uint => Instr::Divu { rd, rs1, rs2: rd },
    }
}

// What is left of x11 where it is divided by x10.
fn remainder(ty: Ty) -> Instr
    ensures { result ≡ remainder_by (sign_of ty) }
{
    let rd = Reg::new(10);
    let rs1 = Reg::new(11);
    match ty {
        Ty::Int => Instr::Rem { rd, rs1, rs2: rd },
        Ty::Uint => Instr::Remu { rd, rs1, rs2: rd },
    }
}

// A register becomes 1 where it isn't 0.
fn truth(r: Reg) -> Instr
    ensures { result ≡ Instr.Sltu r 0 r }
{
    Instr::Sltu {
        rd: r,
        rs1: Reg::new(0),
        rs2: r,
    }
}

// x10 becomes 1 where it is 0, and else 0.
fn is_zero() -> Instr
    ensures { result ≡ Instr.Sltiu 10 10 (pos 1) }
{
    let rd = Reg::new(10);
    Instr::Sltiu {
        rd,
        rs1: rd,
        imm: Imm::new(1),
    }
}

// x10 becomes 1 where it is 0, and 0 where it is 1.
fn flip() -> Instr
    ensures { result ≡ Instr.Xori 10 10 (pos 1) }
{
    let rd = Reg::new(10);
    Instr::Xori {
        rd,
        rs1: rd,
        imm: Imm::new(1),
    }
}

/// x10 becomes the operation of x11 and x10, whose types are s and t.
pub fn put_op2(code: &mut Vec<Instr>, o: BinOp, s: Ty, t: Ty) -> Result<(), NoMemory>
    ensures { OnOk result (code.new.items ≡ code.old.items ++ op2_code (op2_of o s t)) }
{
    let rd = Reg::new(10);
    let rs1 = Reg::new(11);
    let rs2 = rd;
    let both = join(s, t);
    match o {
        BinOp::OrElse => put_both(code, Instr::Or { rd, rs1, rs2 }, truth(rd)),
        BinOp::AndAlso => {
            put_both(code, truth(rs1), truth(rs2))?;
            put(code, Instr::And { rd, rs1, rs2 })
        }
        BinOp::Or => put(code, Instr::Or { rd, rs1, rs2 }),
        BinOp::Xor => put(code, Instr::Xor { rd, rs1, rs2 }),
        BinOp::And => put(code, Instr::And { rd, rs1, rs2 }),
        BinOp::Eq => put_both(code, Instr::Sub { rd, rs1, rs2 }, is_zero()),
        BinOp::Ne => put_both(code, Instr::Sub { rd, rs1, rs2 }, truth(rd)),
        BinOp::Lt => put(code, less(both, rs1, rs2)),
        BinOp::Le => put_both(code, less(both, rs2, rs1), flip()),
        BinOp::Gt => put(code, less(both, rs2, rs1)),
        BinOp::Ge => put_both(code, less(both, rs1, rs2), flip()),
        BinOp::Shl => put(code, Instr::Sll { rd, rs1, rs2 }),
        BinOp::Shr => put(code, shift(s)),
        BinOp::Add => put(code, Instr::Add { rd, rs1, rs2 }),
        BinOp::Sub => put(code, Instr::Sub { rd, rs1, rs2 }),
        BinOp::Mul => put(code, Instr::Mul { rd, rs1, rs2 }),
        BinOp::Div => put(code, quotient(both)),
        BinOp::Rem => put(code, remainder(both)),
    }
}

/// The places of the RAM, of the ports and of the pushed words.
pub fn put_prologue(code: &mut Vec<Instr>) -> Result<(), NoMemory>
    ensures { OnOk result (code.new.items ≡ code.old.items ++ prologue) }
{
    let sp = Reg::new(2);
    put_lui(code, Reg::new(8), 0x20)?;
    put_lui(code, Reg::new(9), 0x80000)?;
    put_lui(code, sp, 0x28)?;
    put_add(code, sp, 256)
}
