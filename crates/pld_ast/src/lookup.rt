//! The types of values.

ghost use Rattle.std.specs.Prelude.{◌≡◌};
ghost use Rattle.pld_ast.specs.Resolve.{joined, unary_type, binary_type, type_of, declared_in};

use crate::places::type_of_variable;
use crate::tree::{BinOp, Expr, Operator, Ty, UnOp};

/// The type of two operands together: unsigned where one of them is.
pub fn join(s: Ty, t: Ty) -> Ty
    ensures { result ≡ joined s t }
{
    match s {
        Ty::Uint => Ty::Uint,
        Ty::Int => t,
    }
}

/// The type of a prefix operation.
pub fn type_after(o: UnOp, t: Ty) -> Ty
    ensures { result ≡ unary_type o t }
{
    match o {
        UnOp::Not => Ty::Int,
        UnOp::Neg | UnOp::Plus | UnOp::BitNot => t,
    }
}

/// The type of an infix operation, at its operands' types.
pub fn type_between(o: BinOp, s: Ty, t: Ty) -> Ty
    ensures { result ≡ binary_type o s t }
{
    match o {
        BinOp::OrElse
        | BinOp::AndAlso
        | BinOp::Eq
        | BinOp::Ne
        | BinOp::Lt
        | BinOp::Le
        | BinOp::Gt
        | BinOp::Ge => Ty::Int,
        BinOp::Shl | BinOp::Shr => s,
        BinOp::Or
        | BinOp::Xor
        | BinOp::And
        | BinOp::Add
        | BinOp::Sub
        | BinOp::Mul
        | BinOp::Div
        | BinOp::Rem => join(s, t),
    }
}

/// The type of a value.
#[tactic(auto, using(crate::proofs::Views::views))]
pub fn type_in(op: &Operator, e: &Expr) -> Ty
    ensures { result ≡ type_of (declared_in op.now) e.now }
{
    match e {
        Expr::Lit(_, t) => *t,
        Expr::Var(u) => type_of_variable(op.scalars.as_slice(), &u.name),
        Expr::Element(u, _) => type_of_variable(op.arrays.as_slice(), &u.name),
        Expr::Unary(o, a) => type_after(*o, type_in(op, a.get())),
        Expr::Binary(o, a, b) => type_between(*o, type_in(op, a.get()), type_in(op, b.get())),
        Expr::Cast(t, _) => *t,
    }
}
