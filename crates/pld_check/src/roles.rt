//! What names stand for, and are used as.

ghost use Rattle.std.specs.Prelude.{◌≡◌};
ghost use Rattle.pld_check.specs.Uses.{port_role as port_role_of};
ghost use Rattle.pld_check.specs.Faults.{precedes as precedes_place, misuse as misuse_of};

use pld_base::{FaultKind, Place, Side};

/// What a name stands for, or is used as: a port that is read, a port that is written, a scalar, an array.
#[derive(Clone, Copy, PartialEq, Eq, Debug)]
pub enum Role {
    Input,
    Output,
    Scalar,
    Array,
}

/// Whether p stands before q in the text.
pub fn precedes(p: Place, q: Place) -> bool
    ensures { result ≡ precedes_place p q }
{
    p.line < q.line || (p.line == q.line && p.column < q.column)
}

/// What a port of this side is.
pub fn port_role(side: Side) -> Role
    ensures { result ≡ port_role_of side }
{
    match side {
        Side::In => Role::Input,
        Side::Out => Role::Output,
    }
}

/// What is wrong where a name that is declared as the one is used as the other.
pub fn misuse(declared: Role, used: Role) -> Option<FaultKind>
    ensures { result ≡ misuse_of declared used }
{
    match declared {
        Role::Input => match used {
            Role::Input => None,
            Role::Output => Some(FaultKind::WrongDirection),
            Role::Scalar | Role::Array => Some(FaultKind::WrongKind),
        },
        Role::Output => match used {
            Role::Output => None,
            Role::Input => Some(FaultKind::WrongDirection),
            Role::Scalar | Role::Array => Some(FaultKind::WrongKind),
        },
        Role::Scalar => match used {
            Role::Scalar => None,
            Role::Input | Role::Output | Role::Array => Some(FaultKind::WrongKind),
        },
        Role::Array => match used {
            Role::Array => None,
            Role::Input | Role::Output | Role::Scalar => Some(FaultKind::WrongKind),
        },
    }
}
