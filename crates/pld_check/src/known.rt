//! Whether the names of an operator are declared.

ghost use Rattle.std.specs.Prelude.{◌≡◌, ◌↔◌, ◌&&◌, IsTrue};
ghost use Rattle.pld_base.specs.Words.{IsWord};
ghost use Rattle.pld_base.specs.declared.event.Side.TheVariants.{In, Out};
ghost use Rattle.pld_ast.specs.Resolve.{value_in, action_in, block_in, declared_in, program_of};
ghost use Rattle.pld_ast.specs.Sound.{IsKnownValue, IsKnown};
ghost use Rattle.pld_check.specs.Known.{IsScalar, IsArray, IsPort, IsKnownTarget};

use pld_ast::{Expr, Operator, Stmt, Target, count_ports, place_of, port_place};
use pld_base::{Name, Side};

/// Whether both hold.
pub fn both(a: bool, b: bool) -> bool
    ensures { result ≡ (a && b) }
{
    a && b
}

// Every literal of a tree is a word.
fn is_word(_v: u32) -> bool
    ensures { IsTrue result ↔ IsWord _v }
{
    true
}

// Whether there is a scalar of this name.
fn is_scalar(op: &Operator, name: &Name) -> bool
    ensures { IsTrue result ↔ IsScalar op.now name.now }
{
    let scalars = op.scalars.as_slice();
    place_of(scalars, name) < scalars.len()
}

// Whether there is an array of this name.
fn is_array(op: &Operator, name: &Name) -> bool
    ensures { IsTrue result ↔ IsArray op.now name.now }
{
    let arrays = op.arrays.as_slice();
    place_of(arrays, name) < arrays.len()
}

// Whether there is an in-port of this name.
fn is_input(op: &Operator, name: &Name) -> bool
    ensures { IsTrue result ↔ IsPort op.now In name.now }
{
    let ports = op.ports.as_slice();
    port_place(ports, Side::In, name) < count_ports(ports, Side::In)
}

// Whether there is an out-port of this name.
fn is_output(op: &Operator, name: &Name) -> bool
    ensures { IsTrue result ↔ IsPort op.now Out name.now }
{
    let ports = op.ports.as_slice();
    port_place(ports, Side::Out, name) < count_ports(ports, Side::Out)
}

// Whether the names of an expression are declared.
fn is_known(op: &Operator, e: &Expr) -> bool
    ensures { IsTrue result ↔ IsKnownValue (program_of op.now) (value_in (declared_in op.now) e.now) }
{
    match e {
        Expr::Lit(v, _) => is_word(*v),
        Expr::Var(u) => is_scalar(op, &u.name),
        Expr::Element(u, i) => both(is_array(op, &u.name), is_known(op, i.get())),
        Expr::Unary(_, a) => is_known(op, a.get()),
        Expr::Binary(_, a, b) => both(is_known(op, a.get()), is_known(op, b.get())),
        Expr::Cast(_, a) => is_known(op, a.get()),
    }
}

// Whether the names of a target are declared.
fn is_known_target(op: &Operator, to: &Target) -> bool
    ensures { IsTrue result ↔ IsKnownTarget op.now to.now }
{
    match to {
        Target::Scalar(u) => is_scalar(op, &u.name),
        Target::Element(u, i) => both(is_array(op, &u.name), is_known(op, i)),
    }
}

// Whether the names of a statement are declared.
#[cycle(known)]
fn is_known_statement(op: &Operator, s: &Stmt) -> bool
    ensures { IsTrue result ↔ IsKnown (program_of op.now) (action_in (declared_in op.now) s.now) }
{
    match s {
        Stmt::Assign(to, e) => both(is_known_target(op, to), is_known(op, e)),
        Stmt::Read(to, port) => both(is_known_target(op, to), is_input(op, &port.name)),
        Stmt::Write(port, e) => both(is_output(op, &port.name), is_known(op, e)),
        Stmt::If(e, a, b) => {
            let front = both(is_known(op, e), are_known(op, a.as_slice()));
            both(front, are_known(op, b.as_slice()))
        }
        Stmt::While(e, a) => both(is_known(op, e), are_known(op, a.as_slice())),
        Stmt::Return => true,
    }
}

/// Whether the names of these statements are declared.
#[cycle(known)]
pub fn are_known(op: &Operator, body: &[Stmt]) -> bool
    ensures { IsTrue result ↔ IsKnown (program_of op.now) (block_in (declared_in op.now) body.now) }
{
    let mut known = true;
    for s in body {
        known = both(known, is_known_statement(op, s));
    }
    known
}
