//! The first wrong name of an operator.

ghost use Rattle.std.specs.Prelude.{◌≡◌, ◌++◌, ◌∷◌, [], map, IfNone, None};
ghost use Rattle.std.specs.List.{filter_map};
ghost use Rattle.pld_base.specs.Words.{IsWord};
ghost use Rattle.pld_ast.specs.Resolve.{value_in, action_in, block_in, declared_in, program_of};
ghost use Rattle.pld_ast.specs.Sound.{IsKnownValue, IsKnown};
ghost use Rattle.pld_check.specs.Known.{IsKnownTarget};
ghost use Rattle.pld_check.specs.Uses.{declarations, used_as, value_uses, target_uses, uses, block_uses};
ghost use Rattle.pld_check.specs.Faults.{fault_at as fault_at_of, twice_at, use_fault as use_fault_of, first_of as first_of_both, earlier as earlier_of, first_twice as first_twice_of, first_misused, least, wrong_names, Walked, IsRole};

use crate::roles::{Role, misuse, precedes};
use crate::scope::{Declaration, Scoped};
use pld_ast::{Expr, Stmt, Target, Used};
use pld_base::{FaultKind, Name, Place, SourceFault};

/// A fault of this kind at this place.
pub fn fault_at(kind: FaultKind, at: Place) -> SourceFault
    ensures { result ≡ fault_at_of kind at }
{
    SourceFault {
        kind,
        line: at.line,
        column: at.column,
    }
}

fn place_of(f: SourceFault) -> Place
    ensures { result ≡ record { line = f.line; column = f.column } }
{
    Place {
        line: f.line,
        column: f.column,
    }
}

fn first_of(f: SourceFault, g: SourceFault) -> SourceFault
    ensures { result ≡ first_of_both f g }
{
    if precedes(place_of(g), place_of(f)) {
        g
    } else {
        f
    }
}

// The fault that stands first in the text.
fn earlier(a: Option<SourceFault>, b: Option<SourceFault>) -> Option<SourceFault>
    ensures { result ≡ earlier_of a b }
{
    match a {
        None => b,
        Some(f) => match b {
            None => Some(f),
            Some(g) => Some(first_of(f, g)),
        },
    }
}

// NameTwice where the name is declared twice up to this place.
fn twice(op: &Scoped, name: &Name, at: Place) -> Option<SourceFault>
    ensures { result ≡ twice_at (declarations op.now) name.now at }
{
    if op.is_twice(name, at) {
        Some(fault_at(FaultKind::NameTwice, at))
    } else {
        None
    }
}

// The first of these declarations that is a second one.
fn first_twice<D: Declaration>(op: &Scoped, declarations: &[D]) -> Option<SourceFault>
    ensures { result ≡ first_twice_of op.now (map D.mention declarations.now) }
{
    match declarations {
        [] => None,
        [first, rest @ ..] => earlier(twice(op, first.name(), first.at()), first_twice(op, rest)),
    }
}

// The first declaration of a name that is declared before it.
fn declared_twice(op: &Scoped) -> Option<SourceFault>
    ensures { result ≡ first_twice_of op.now (declarations op.now) }
{
    let operator = op.operator();
    let variables = earlier(
        first_twice(op, operator.scalars.as_slice()),
        first_twice(op, operator.arrays.as_slice()),
    );
    earlier(first_twice(op, operator.ports.as_slice()), variables)
}

// What is wrong with a use of a name that is known as this.
fn use_fault(known: Option<Role>, role: Role, u: &Used) -> Option<SourceFault>
    ensures { result ≡ use_fault_of known (used_as role u.now) }
{
    match known {
        None => Some(fault_at(FaultKind::UnknownName, u.at)),
        Some(declared) => match misuse(declared, role) {
            Some(kind) => Some(fault_at(kind, u.at)),
            None => None,
        },
    }
}

// What is wrong with a use of a name. Where the name is declared twice up to there, the second declaration is wrong, and stands before.
fn misused(op: &Scoped, role: Role, u: &Used) -> Option<SourceFault>
    ensures { Walked op.now result (used_as role u.now ∷ []) (IsRole op.now role u.now.name) }
{
    use_fault(op.role_at(&u.name, u.at), role, u)
}

// A number uses no name.
fn number(_v: u32) -> Option<SourceFault>
    ensures none { result ≡ None }
    ensures word { IsWord _v }
{
    None
}

// The first wrong name of an expression.
fn wrong_value(op: &Scoped, e: &Expr) -> Option<SourceFault>
    ensures { Walked op.now result (value_uses e.now) (IsKnownValue (program_of op.now) (value_in (declared_in op.now) e.now)) }
{
    match e {
        Expr::Lit(v, _) => number(*v),
        Expr::Var(u) => misused(op, Role::Scalar, u),
        Expr::Element(u, i) => earlier(misused(op, Role::Array, u), wrong_value(op, i.get())),
        Expr::Unary(_, a) => wrong_value(op, a.get()),
        Expr::Binary(_, a, b) => earlier(wrong_value(op, a.get()), wrong_value(op, b.get())),
        Expr::Cast(_, a) => wrong_value(op, a.get()),
    }
}

// The first wrong name of a target.
fn wrong_target(op: &Scoped, to: &Target) -> Option<SourceFault>
    ensures { Walked op.now result (target_uses to.now) (IsKnownTarget op.now to.now) }
{
    match to {
        Target::Scalar(u) => misused(op, Role::Scalar, u),
        Target::Element(u, i) => earlier(misused(op, Role::Array, u), wrong_value(op, i)),
    }
}

// The first wrong name of a statement.
#[cycle(wrong)]
fn wrong_statement(op: &Scoped, s: &Stmt) -> Option<SourceFault>
    ensures { Walked op.now result (uses s.now) (IsKnown (program_of op.now) (action_in (declared_in op.now) s.now)) }
{
    match s {
        Stmt::Assign(to, e) => earlier(wrong_target(op, to), wrong_value(op, e)),
        Stmt::Read(to, port) => earlier(wrong_target(op, to), misused(op, Role::Input, port)),
        Stmt::Write(port, e) => earlier(misused(op, Role::Output, port), wrong_value(op, e)),
        Stmt::If(e, a, b) => {
            let front = earlier(wrong_value(op, e), wrong_block(op, a.as_slice()));
            earlier(front, wrong_block(op, b.as_slice()))
        }
        Stmt::While(e, a) => earlier(wrong_value(op, e), wrong_block(op, a.as_slice())),
        Stmt::Return => None,
    }
}

// The first wrong name of these statements.
#[cycle(wrong)]
fn wrong_block(op: &Scoped, body: &[Stmt]) -> Option<SourceFault>
    ensures { Walked op.now result (block_uses body.now) (IsKnown (program_of op.now) (block_in (declared_in op.now) body.now)) }
{
    let mut found = None;
    for s in body {
        found = earlier(found, wrong_statement(op, s));
    }
    found
}

/// The first wrong name of an operator.
pub fn wrong_name(op: &Scoped) -> Option<SourceFault>
    ensures first { result ≡ least (wrong_names op.now) }
    ensures known { IfNone result (IsKnown (program_of op.now) (program_of op.now).body) }
{
    earlier(
        declared_twice(op),
        wrong_block(op, op.operator().body.as_slice()),
    )
}
