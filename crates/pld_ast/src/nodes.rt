//! The count of an operator's nodes, counted no further than is of use.

ghost use Rattle.std.specs.Prelude.{◌≡◌, ◌+◌, ℕ, min};
ghost use Rattle.pld_ast.specs.Nodes.{value_nodes as nodes_of_value, action_nodes, target_nodes as nodes_of_target};
ghost use Rattle.pld_ast.specs.Resolve.{Names, value_in, action_in, block_in, program_of};

use crate::tree::{Expr, Operator, Stmt, Target};

// Nodes are counted no further than this.
const MANY: u32 = 1001;

/// Two counts of nodes together, and 1001 where that is more.
pub fn added(a: u32, b: u32) -> u32
    ensures { result ≡ min (a + b) 1001 }
{
    if a < MANY && b < MANY - a {
        a + b
    } else {
        MANY
    }
}

/// The number of nodes of a value, and 1001 where it has more.
pub fn value_nodes(e: &Expr) -> u32
    ensures { (d : Names) → result ≡ min (nodes_of_value (value_in d e.now)) 1001 }
{
    match e {
        Expr::Lit(_, _) => 1,
        Expr::Var(_) => 1,
        Expr::Element(_, a) => added(value_nodes(a.get()), 1),
        Expr::Unary(_, a) => added(value_nodes(a.get()), 1),
        Expr::Binary(_, a, b) => added(added(value_nodes(a.get()), value_nodes(b.get())), 1),
        Expr::Cast(_, a) => added(value_nodes(a.get()), 1),
    }
}

/// The number of nodes of a target, which are those of its index, and 1001 where it has more.
pub fn target_nodes(t: &Target) -> u32
    ensures { (d : Names) → result ≡ min (nodes_of_target d t.now) 1001 }
{
    match t {
        Target::Scalar(_) => 0,
        Target::Element(_, i) => value_nodes(i),
    }
}

// The number of nodes of a statement.
#[cycle(nodes)]
fn statement_nodes(s: &Stmt) -> u32
    ensures { (d : Names) → result ≡ min (action_nodes (action_in d s.now)) 1001 }
{
    match s {
        Stmt::Assign(t, e) => added(added(target_nodes(t), value_nodes(e)), 1),
        Stmt::Read(t, _) => added(target_nodes(t), 1),
        Stmt::Write(_, e) => added(value_nodes(e), 1),
        Stmt::If(e, a, b) => {
            let blocks = added(block_nodes(a.as_slice()), block_nodes(b.as_slice()));
            added(added(value_nodes(e), blocks), 1)
        }
        Stmt::While(e, a) => added(added(value_nodes(e), block_nodes(a.as_slice())), 1),
        Stmt::Return => 1,
    }
}

// The number of nodes of a list of statements.
#[cycle(nodes)]
fn block_nodes(block: &[Stmt]) -> u32
    ensures { (d : Names) → result ≡ min (action_nodes (block_in d block.now)) 1001 }
{
    let mut n: u32 = 0;
    for s in block {
        n = added(n, statement_nodes(s));
    }
    n
}

impl Operator {
    /// The number of nodes of the body, and 1001 where it has more: each assignment, read, write,
    /// `if`, `while` and `return` is one, and so is each literal, variable, element, operation and cast.
    pub fn nodes(&self) -> u32
        ensures { result ≡ min (action_nodes (program_of self.now).body) 1001 }
    {
        block_nodes(self.body.as_slice())
    }
}
