//! Names by number, and the places of names in a scope.

ghost use Rattle.std.specs.Prelude.{◌≡◌, ◌≤◌, ◌+◌, length, map, true, Some};
ghost use Rattle.pld_base.specs.Names.{name_in, is_letter};
ghost use Rattle.pld_ast.specs.Resolve.{scalar_no, array_no, place_in};
ghost use Rattle.pld_call.specs.Trees.{numbered as numbered_of, scalar_name, array_name, in_name, out_name, called_so};
ghost use Rattle.pld_call.specs.Scopes.{names_at};

use pld_ast::{Array, Port, Scalar, Used, place_of, port_place};
use pld_base::{Name, Side};

/// Where a name is looked up: the parameters and the other scalars, the arrays and the ports; and the number of the first scalar.
#[derive(Clone, Copy)]
pub struct Scope<'a> {
    pub params: &'a [Scalar],
    pub locals: &'a [Scalar],
    pub arrays: &'a [Array],
    pub ports: &'a [Port],
    pub first: usize,
}

// The name with this text, which is an identifier.
fn name_of(text: &[u8]) -> Name
    requires { name_in text.now ≡ Some text.now }
    ensures { result ≡ text.now }
{
    Name::of(text).unwrap()
}

/// A letter and a number, which is 99 at most.
pub fn numbered(letter: u8, number: usize) -> Name
    requires { is_letter letter ≡ true }
    ensures { result ≡ numbered_of letter number }
{
    let n = if number < 99 { number as u8 } else { 99 };
    if n < 10 {
        name_of(&[letter, b'0' + n])
    } else {
        name_of(&[letter, b'0' + n / 10, b'0' + n % 10])
    }
}

// The number of a scalar.
fn scalar_number(scope: &Scope, name: &Name) -> usize
    ensures { result ≡ scalar_no (names_at scope.now) name.now }
{
    let place = place_of(scope.params, name);
    if place < scope.params.len() {
        place
    } else {
        place + place_of(scope.locals, name)
    }
}

/// A scalar, as it is called in the operator written out.
pub fn scalar_used(scope: &Scope, u: &Used) -> Used
    ensures { result ≡ called_so (scalar_name (scope.now.first + scalar_no (names_at scope.now) u.now.name)) u.now }
{
    let number = scope.first.saturating_add(scalar_number(scope, &u.name));
    Used {
        name: numbered(b's', number),
        at: u.at,
    }
}

/// An array, as it is called in the operator written out.
pub fn array_used(scope: &Scope, u: &Used) -> Used
    ensures { result ≡ called_so (array_name (array_no (names_at scope.now) u.now.name)) u.now }
{
    Used {
        name: numbered(b't', place_of(scope.arrays, &u.name)),
        at: u.at,
    }
}

/// An in-port, as it is called in the operator written out.
pub fn in_used(scope: &Scope, u: &Used) -> Used
    ensures { result ≡ called_so (in_name (place_in (names_at scope.now).ins u.now.name)) u.now }
{
    Used {
        name: numbered(b'i', port_place(scope.ports, Side::In, &u.name)),
        at: u.at,
    }
}

/// An out-port, as it is called in the operator written out.
pub fn out_used(scope: &Scope, u: &Used) -> Used
    ensures { result ≡ called_so (out_name (place_in (names_at scope.now).outs u.now.name)) u.now }
{
    Used {
        name: numbered(b'o', port_place(scope.ports, Side::Out, &u.name)),
        at: u.at,
    }
}
