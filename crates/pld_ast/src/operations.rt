//! What the operations of the language give.

ghost use Rattle.std.specs.Prelude.{◌≡◌};
ghost use Rattle.pld_ast.specs.Meaning.{binary_of, is_zero, is_other};
ghost use Rattle.pld_ast.specs.Resolve.{op2_of};
ghost use Rattle.pld_ast.specs.Ops.{one_of};

use crate::tree::{BinOp, Ty, UnOp};
use pld_base::words;

// 1 where it is 0, and else 0.
fn zero(a: u32) -> u32
    ensures { result ≡ is_zero a }
{
    if a == 0 { 1 } else { 0 }
}

// 0 where it is 0, and else 1.
fn other(a: u32) -> u32
    ensures { result ≡ is_other a }
{
    if a == 0 { 0 } else { 1 }
}

// 1 where a is below b, as signed words where both have a sign.
fn less(s: Ty, t: Ty, a: u32, b: u32) -> u32
    ensures { result ≡ binary_of (op2_of BinOp.Lt s t) a b }
{
    match s {
        Ty::Uint => words::ltu(a, b),
        Ty::Int => match t {
            Ty::Uint => words::ltu(a, b),
            Ty::Int => words::lts(a, b),
        },
    }
}

// A quotient, of signed words where both have a sign.
fn quotient(s: Ty, t: Ty, a: u32, b: u32) -> u32
    ensures { result ≡ binary_of (op2_of BinOp.Div s t) a b }
{
    match s {
        Ty::Uint => words::divu(a, b),
        Ty::Int => match t {
            Ty::Uint => words::divu(a, b),
            Ty::Int => words::divs(a, b),
        },
    }
}

// A remainder, of signed words where both have a sign.
fn remainder(s: Ty, t: Ty, a: u32, b: u32) -> u32
    ensures { result ≡ binary_of (op2_of BinOp.Rem s t) a b }
{
    match s {
        Ty::Uint => words::remu(a, b),
        Ty::Int => match t {
            Ty::Uint => words::remu(a, b),
            Ty::Int => words::rems(a, b),
        },
    }
}

/// What a binary operation gives, at its operands' types.
pub fn apply(o: BinOp, s: Ty, t: Ty, a: u32, b: u32) -> u32
    ensures { result ≡ binary_of (op2_of o s t) a b }
{
    match o {
        BinOp::OrElse => if a == 0 { other(b) } else { 1 },
        BinOp::AndAlso => if a == 0 { 0 } else { other(b) },
        BinOp::Or => a | b,
        BinOp::Xor => a ^ b,
        BinOp::And => a & b,
        BinOp::Eq => if a == b { 1 } else { 0 },
        BinOp::Ne => if a == b { 0 } else { 1 },
        BinOp::Lt => less(s, t, a, b),
        BinOp::Le => zero(less(s, t, b, a)),
        BinOp::Gt => less(s, t, b, a),
        BinOp::Ge => zero(less(s, t, a, b)),
        BinOp::Shl => words::shl(a, b),
        BinOp::Shr => match s {
            Ty::Int => words::sar(a, b),
            Ty::Uint => words::shr(a, b),
        },
        BinOp::Add => words::add(a, b),
        BinOp::Sub => words::sub(a, b),
        BinOp::Mul => words::mul(a, b),
        BinOp::Div => quotient(s, t, a, b),
        BinOp::Rem => remainder(s, t, a, b),
    }
}

/// What a unary operation gives.
pub fn apply_one(o: UnOp, a: u32) -> u32
    ensures { result ≡ one_of o a }
{
    match o {
        UnOp::Neg => words::sub(0, a),
        UnOp::Plus => a,
        UnOp::BitNot => a ^ u32::MAX,
        UnOp::Not => zero(a),
    }
}
