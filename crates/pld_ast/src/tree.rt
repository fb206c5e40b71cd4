//! An operator's text, as a tree. `x op= e`, `x++` and `for` stand as the assignments and loops that they mean.

use pld_base::{Name, Place, Side};
use sqlite_items::{Boxed, Items};

/// The type of a word: signed or unsigned.
#[derive(Clone, Copy, PartialEq, Eq, Debug)]
pub enum Ty {
    Int,
    Uint,
}

/// A name where it is used.
#[derive(Clone, Copy, PartialEq, Eq, Debug)]
pub struct Used {
    pub name: Name,
    pub at: Place,
}

/// A prefix operator: `-`, `+`, `~`, `!`.
#[derive(Clone, Copy, PartialEq, Eq, Debug)]
pub enum UnOp {
    Neg,
    Plus,
    BitNot,
    Not,
}

/// A binary operator, from the loosest to the tightest.
#[derive(Clone, Copy, PartialEq, Eq, Debug)]
pub enum BinOp {
    OrElse,
    AndAlso,
    Or,
    Xor,
    And,
    Eq,
    Ne,
    Lt,
    Le,
    Gt,
    Ge,
    Shl,
    Shr,
    Add,
    Sub,
    Mul,
    Div,
    Rem,
}

/// An expression.
#[derive(Drop)]
pub enum Expr {
    Lit(u32, Ty),
    Var(Used),
    Element(Used, Boxed<Expr>),
    Unary(UnOp, Boxed<Expr>),
    Binary(BinOp, Boxed<Expr>, Boxed<Expr>),
    Cast(Ty, Boxed<Expr>),
}

/// What is assigned to.
#[derive(Drop)]
pub enum Target {
    Scalar(Used),
    Element(Used, Expr),
}

/// A statement.
#[derive(Drop)]
pub enum Stmt {
    Assign(Target, Expr),
    Read(Target, Used),
    Write(Used, Expr),
    If(Expr, Items<Stmt>, Items<Stmt>),
    While(Expr, Items<Stmt>),
    Return,
}

/// A port, in the order of the header.
#[derive(Clone, Copy, PartialEq, Eq, Debug)]
pub struct Port {
    pub name: Name,
    pub side: Side,
    pub at: Place,
}

/// A declared scalar. An initializer stands in the body, as the assignment that it means.
#[derive(Clone, Copy, PartialEq, Eq, Debug)]
pub struct Scalar {
    pub name: Name,
    pub ty: Ty,
    pub at: Place,
}

/// A declared array of `len` words.
#[derive(Clone, Copy, PartialEq, Eq, Debug)]
pub struct Array {
    pub name: Name,
    pub ty: Ty,
    pub len: u32,
    pub at: Place,
}

/// An operator: its name with its place, its ports, its variables in the order of their declarations, and its statements.
#[derive(Drop)]
pub struct Operator {
    pub name: Name,
    pub at: Place,
    pub ports: Items<Port>,
    pub scalars: Items<Scalar>,
    pub arrays: Items<Array>,
    pub body: Items<Stmt>,
}
