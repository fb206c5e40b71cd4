//! The limits of the language, and the first fault of an operator.

ghost use Rattle.std.specs.Prelude.{◌≡◌, ◌≤◌, filter, slice_get, IfNone, None};
ghost use Rattle.pld_ast.specs.Resolve.{is_at, program_of};
ghost use Rattle.pld_ast.specs.Sound.{IsSound};
ghost use Rattle.pld_check.specs.Known.{AreFilled};
ghost use Rattle.pld_check.specs.Faults.{passed as passed_of, place_in_text, words_passed as words_passed_of, ports_passed as ports_passed_of, nodes_passed as nodes_passed_of, or_else, port_limit_fault as port_limit_fault_of, array_limit_fault as array_limit_fault_of, limit_fault as limit_fault_of, check_fault};

use crate::names::{fault_at, wrong_name};
use crate::scope::Scoped;
use pld_ast::{Array, Operator, Port, Scalar};
use pld_base::{FaultKind, Limit, Place, Side, SourceFault};

/// The most ports of one side.
pub const MOST_PORTS: usize = 8;

/// The most scalars.
pub const MOST_SCALARS: usize = 64;

/// The most arrays.
pub const MOST_ARRAYS: usize = 16;

/// The most words of all arrays.
pub const MOST_WORDS: u32 = 8192;

/// The most nodes.
pub const MOST_NODES: u32 = 1000;

// A limit that is passed at this place.
fn passed(limit: Limit, at: Option<Place>) -> Option<SourceFault>
    ensures { result ≡ passed_of limit at }
{
    match at {
        Some(at) => Some(fault_at(FaultKind::TooLarge(limit), at)),
        None => None,
    }
}

// The place of the name if there are more than 1,000 nodes.
fn nodes_passed(op: &Operator) -> Option<Place>
    ensures { result ≡ nodes_passed_of op.now }
{
    if op.nodes() > MOST_NODES {
        Some(op.at)
    } else {
        None
    }
}

// The place of the 65th scalar.
fn scalars_passed(scalars: &[Scalar]) -> Option<Place>
    ensures { result ≡ place_in_text (λ s. s.at) (slice_get scalars.now 64) }
{
    match scalars.get(MOST_SCALARS) {
        Some(scalar) => Some(scalar.at),
        None => None,
    }
}

// The place of the 17th array.
fn arrays_passed(arrays: &[Array]) -> Option<Place>
    ensures { result ≡ place_in_text (λ a. a.at) (slice_get arrays.now 16) }
{
    match arrays.get(MOST_ARRAYS) {
        Some(array) => Some(array.at),
        None => None,
    }
}

// The place of the array with which there are more than 8,192 words.
fn words_passed(arrays: &[Array]) -> Option<Place>
    ensures { result ≡ words_passed_of 0 arrays.now }
{
    let mut words: u32 = 0;
    for array in arrays {
        if array.len > MOST_WORDS - words {
            return Some(array.at);
        }
        words += array.len;
    }
    None
}

// The place of a port of this side, with so many of the side before it.
fn port_behind(side: Side, ports: &[Port], many: usize) -> Option<Place>
    ensures { result ≡ place_in_text (λ q. q.at) (slice_get (filter (is_at side) ports.now) many) }
{
    match ports {
        [] => None,
        [first, rest @ ..] => {
            if !first.is_at(side) {
                port_behind(side, rest, many)
            } else if many == 0 {
                Some(first.at)
            } else {
                port_behind(side, rest, many - 1)
            }
        }
    }
}

// The place of the ninth port of a side.
fn ports_passed(side: Side, ports: &[Port]) -> Option<Place>
    ensures { result ≡ ports_passed_of side ports.now }
{
    port_behind(side, ports, MOST_PORTS)
}

// The first of the two that is there.
fn first_fault(a: Option<SourceFault>, b: Option<SourceFault>) -> Option<SourceFault>
    ensures { result ≡ or_else a b }
{
    match a {
        Some(fault) => Some(fault),
        None => b,
    }
}

// The first limit on ports that is passed.
fn port_limit_fault(op: &Operator) -> Option<SourceFault>
    ensures { result ≡ port_limit_fault_of op.now }
{
    let ports = op.ports.as_slice();
    first_fault(
        passed(Limit::InPorts, ports_passed(Side::In, ports)),
        passed(Limit::OutPorts, ports_passed(Side::Out, ports)),
    )
}

// The first limit on arrays or ports that is passed.
fn array_limit_fault(op: &Operator) -> Option<SourceFault>
    ensures { result ≡ array_limit_fault_of op.now }
{
    let arrays = op.arrays.as_slice();
    let words = first_fault(
        passed(Limit::ArrayWords, words_passed(arrays)),
        port_limit_fault(op),
    );
    first_fault(passed(Limit::Arrays, arrays_passed(arrays)), words)
}

// The first limit that is passed.
fn limit_fault(op: &Operator) -> Option<SourceFault>
    ensures { result ≡ limit_fault_of op.now }
{
    let scalars = passed(Limit::Scalars, scalars_passed(op.scalars.as_slice()));
    let variables = first_fault(scalars, array_limit_fault(op));
    first_fault(passed(Limit::Nodes, nodes_passed(op)), variables)
}

/// The first wrong name of an operator, and else the first limit that it passes.
pub fn source_fault(op: &Scoped) -> Option<SourceFault>
    requires { AreFilled (program_of op.now).lengths }
    ensures exact { result ≡ check_fault op.now }
    ensures sound { IfNone result (IsSound (program_of op.now)) }
{
    match wrong_name(op) {
        Some(fault) => Some(fault),
        None => limit_fault(op.operator()),
    }
}
