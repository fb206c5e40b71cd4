//! Copies of operators.

ghost use Rattle.std.specs.Prelude.{◌≡◌, IfOk};

use crate::tree::{Expr, Operator, Stmt, Target};
use pld_base::NoMemory;
use sqlite_items::{Boxed, Items};
use std::alloc::Global;

impl Expr {
    /// A copy of the expression.
    pub fn copy(&self, alloc: Global) -> Result<Expr, NoMemory>
        ensures { IfOk result (λ made. made ≡ self.now) }
    {
        match self {
            Expr::Lit(v, t) => Ok(Expr::Lit(*v, *t)),
            Expr::Var(u) => Ok(Expr::Var(*u)),
            Expr::Element(u, i) => Ok(Expr::Element(*u, boxed(alloc, i.get().copy(alloc)?)?)),
            Expr::Unary(o, a) => Ok(Expr::Unary(*o, boxed(alloc, a.get().copy(alloc)?)?)),
            Expr::Binary(o, a, b) => {
                let left = boxed(alloc, a.get().copy(alloc)?)?;
                let right = boxed(alloc, b.get().copy(alloc)?)?;
                Ok(Expr::Binary(*o, left, right))
            }
            Expr::Cast(t, a) => Ok(Expr::Cast(*t, boxed(alloc, a.get().copy(alloc)?)?)),
        }
    }
}

// An expression in a box.
fn boxed(alloc: Global, e: Expr) -> Result<Boxed<Expr>, NoMemory>
    ensures { IfOk result (λ made. made ≡ e) }
{
    Ok(Boxed::new(alloc, e)?)
}

impl Target {
    /// A copy of the target.
    pub fn copy(&self, alloc: Global) -> Result<Target, NoMemory>
        ensures { IfOk result (λ made. made ≡ self.now) }
    {
        match self {
            Target::Scalar(u) => Ok(Target::Scalar(*u)),
            Target::Element(u, i) => Ok(Target::Element(*u, i.copy(alloc)?)),
        }
    }
}

// A copy of a statement.
#[cycle(copies)]
fn statement(alloc: Global, s: &Stmt) -> Result<Stmt, NoMemory>
    ensures { IfOk result (λ made. made ≡ s.now) }
{
    match s {
        Stmt::Assign(to, e) => Ok(Stmt::Assign(to.copy(alloc)?, e.copy(alloc)?)),
        Stmt::Read(to, port) => Ok(Stmt::Read(to.copy(alloc)?, *port)),
        Stmt::Write(port, e) => Ok(Stmt::Write(*port, e.copy(alloc)?)),
        Stmt::If(e, a, b) => {
            let test = e.copy(alloc)?;
            let yes = block(alloc, a.as_slice())?;
            let no = block(alloc, b.as_slice())?;
            Ok(Stmt::If(test, yes, no))
        }
        Stmt::While(e, a) => Ok(Stmt::While(e.copy(alloc)?, block(alloc, a.as_slice())?)),
        Stmt::Return => Ok(Stmt::Return),
    }
}

// A copy of a list of statements.
#[cycle(copies)]
fn block(alloc: Global, body: &[Stmt]) -> Result<Items<Stmt>, NoMemory>
    ensures { IfOk result (λ made. made ≡ body.now) }
{
    let mut made = Items::new(alloc);
    for s in body {
        made.push(statement(alloc, s)?)?;
    }
    Ok(made)
}

impl Operator {
    /// A copy of the operator.
    pub fn copy(&self, alloc: Global) -> Result<Operator, NoMemory>
        ensures { IfOk result (λ made. made ≡ self.now) }
    {
        Ok(Operator {
            name: self.name,
            at: self.at,
            ports: Items::from_slice(alloc, self.ports.as_slice())?,
            scalars: Items::from_slice(alloc, self.scalars.as_slice())?,
            arrays: Items::from_slice(alloc, self.arrays.as_slice())?,
            body: block(alloc, self.body.as_slice())?,
        })
    }
}
