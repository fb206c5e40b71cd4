//! The places of names among variables and ports.

ghost use Rattle.std.specs.Prelude.{◌≡◌, ◌≤◌, ℕ, List, map, length};
ghost use Rattle.pld_ast.specs.declared.tree.Ty.{Ty};
ghost use Rattle.pld_ast.specs.Resolve.{place_in, ports_at, is_at as is_at_of, type_under};

use crate::tree::{Array, Port, Scalar, Ty};
use pld_base::{Name, Side};

/// A declared variable: a scalar or an array.
pub trait Variable {
    ghost named: { Self → List ℕ };

    ghost typed: { Self → Ty };

    /// Its name.
    fn name(&self) -> &Name
        ensures { result.now ≡ named self.now };

    /// The type of its words.
    fn ty(&self) -> Ty
        ensures { result ≡ typed self.now };
}

impl Variable for Scalar {
    ghost named = { λ s. s.name };

    ghost typed = { λ s. s.ty };

    fn name(&self) -> &Name {
        &self.name
    }

    fn ty(&self) -> Ty {
        self.ty
    }
}

impl Variable for Array {
    ghost named = { λ a. a.name };

    ghost typed = { λ a. a.ty };

    fn name(&self) -> &Name {
        &self.name
    }

    fn ty(&self) -> Ty {
        self.ty
    }
}

/// The place of a variable's name, and the count of variables where it isn't there.
pub fn place_of<T: Variable>(variables: &[T], name: &Name) -> usize
    ensures value { result ≡ place_in (map T.named variables.now) name.now }
    ensures bound { result ≤ length variables.now }
{
    variables
        .iter()
        .position(|v| v.name().is_same(name))
        .unwrap_or(variables.len())
}

/// The type of a variable's words, and signed where there is none of this name.
pub fn type_of_variable<T: Variable>(variables: &[T], name: &Name) -> Ty
    ensures { result ≡ type_under T.named T.typed variables.now name.now }
{
    variables
        .iter()
        .find(|v| v.name().is_same(name))
        .map_or(Ty::Int, |v| v.ty())
}

impl Port {
    /// Whether the port is of this side.
    pub fn is_at(&self, side: Side) -> bool
        ensures { result ≡ is_at_of side self.now }
    {
        match (side, self.side) {
            (Side::In, Side::In) | (Side::Out, Side::Out) => true,
            (Side::In, Side::Out) | (Side::Out, Side::In) => false,
        }
    }
}

/// The place of a port's name among the ports of this side, and their count where it isn't there.
pub fn port_place(ports: &[Port], side: Side, name: &Name) -> usize
    ensures value { result ≡ place_in (ports_at side ports.now) name.now }
    ensures within { result ≤ length (ports_at side ports.now) }
    ensures bound { result ≤ length ports.now }
{
    ports
        .iter()
        .filter(|port| port.is_at(side))
        .position(|port| port.name.is_same(name))
        .unwrap_or(count_ports(ports, side))
}

/// The count of ports of this side.
pub fn count_ports(ports: &[Port], side: Side) -> usize
    ensures { result ≡ length (ports_at side ports.now) }
{
    ports.iter().filter(|port| port.is_at(side)).count()
}
