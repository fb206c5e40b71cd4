//! Operators that the compilers take.

ghost use Rattle.std.specs.Prelude.{◌≡◌, ◌≤◌, ◌<◌, ◌↔◌, ◌&&◌, IsTrue, true, false, MatchOption, MatchResult, None, IfOk, map, sum, min, length};
ghost use Rattle.pld_ast.specs.Resolve.{program_of};
ghost use Rattle.pld_ast.specs.Sound.{IsSound};
ghost use Rattle.pld_check.specs.Known.{AreFilled};
ghost use Rattle.pld_check.specs.Faults.{check_fault, Refuses};
ghost use Rattle.pld_check.specs.Tested.{is_sound as is_sound_program};

use crate::known::{are_known, both};
use crate::limits::{MOST_ARRAYS, MOST_NODES, MOST_PORTS, MOST_SCALARS, MOST_WORDS, source_fault};
use crate::scope::Scoped;
use pld_ast::{Array, Operator, count_ports};
use pld_base::{NoMemory, Refused, Side, SourceFault};
use std::alloc::Global;
use std::marker::Model;

/// An operator whose names are declared and which is within the limits of the language: at most 8
/// in-ports and 8 out-ports, 64 scalars, 16 arrays of at least one word each and 8,192 words in all,
/// and 1,000 nodes.
#[derive(Drop)]
pub struct Checked {
    operator: Operator,
}

impl Model for Checked {
    ghost use Rattle.pld_ast.specs.declared.tree.Operator.{Operator};
    ghost use Rattle.pld_ast.specs.Resolve.{program_of};
    ghost use Rattle.pld_ast.specs.Sound.{IsSound};

    ghost Value = { Operator };

    ghost use Rattle.pld_ast.specs.contracts.tree.Stmt as stmt;
    ghost use Rattle.pld_ast.specs.contracts.tree.Expr as expr;
    ghost use Rattle.std.specs.Coded.{codes};

    ghost coded = { Prim.hlevel (codes, stmt.the_row.coded, expr.the_row.coded) };

    ghost view = { λ c. c.operator };

    ghost invariant = { λ c. IsSound (program_of c.operator) };
}

// Whether an array has a word at least.
fn is_filled(array: &Array) -> bool
    ensures { IsTrue result ↔ (1 ≤ array.now.len) }
{
    array.len >= 1
}

/// Whether each array has a word at least.
pub fn are_filled(arrays: &[Array]) -> bool
    ensures { IsTrue result ↔ AreFilled (map (λ a. a.len) arrays.now) }
{
    match arrays {
        [] => true,
        [first, rest @ ..] => both(is_filled(first), are_filled(rest)),
    }
}

// How many words the arrays have, counted no further than 8,193.
fn words_in(arrays: &[Array]) -> u32
    ensures { result ≡ min (sum (map (λ a. a.len) arrays.now)) 8193 }
{
    let mut words: u32 = 0;
    for array in arrays {
        words = if array.len <= MOST_WORDS - words {
            words + array.len
        } else {
            return MOST_WORDS + 1;
        };
    }
    words
}

// Whether the ports of each side are few enough.
fn few_ports(op: &Operator) -> bool
    ensures { IsTrue result ↔ (((program_of op.now).ins ≤ 8) × ((program_of op.now).outs ≤ 8)) }
{
    let ports = op.ports.as_slice();
    both(
        count_ports(ports, Side::In) <= MOST_PORTS,
        count_ports(ports, Side::Out) <= MOST_PORTS,
    )
}

// Whether the variables are few enough, and each array has a word at least.
fn few_variables(op: &Operator) -> bool
    ensures { IsTrue result ↔ (((program_of op.now).scalars ≤ 64) × (length (program_of op.now).lengths ≤ 16)) }
{
    both(
        op.scalars.len() <= MOST_SCALARS,
        op.arrays.len() <= MOST_ARRAYS,
    )
}

// Whether the arrays are long enough, and not too long.
fn sized_arrays(op: &Operator) -> bool
    ensures { IsTrue result ↔ (AreFilled (program_of op.now).lengths × (sum (program_of op.now).lengths ≤ 8192)) }
{
    let arrays = op.arrays.as_slice();
    both(are_filled(arrays), words_in(arrays) <= MOST_WORDS)
}

// Whether the names are declared, and the operator is within the limits.
fn decide(op: &Operator) -> bool
    ensures { IsTrue result ↔ IsSound (program_of op.now) }
{
    let room = both(few_ports(op), few_variables(op));
    let body = both(op.nodes() <= MOST_NODES, are_known(op, op.body.as_slice()));
    both(both(room, sized_arrays(op)), body)
}

// The same, told by the definition's test too.
fn is_sound(op: &Operator) -> bool
    ensures exact { IsTrue result ↔ IsSound (program_of op.now) }
    ensures tested { result ≡ is_sound_program (program_of op.now) }
{
    decide(op)
}

impl Checked {
    /// This operator, if its names are declared and it is within the limits; None where that isn't so.
    pub fn of(operator: Operator) -> Option<Checked>
        ensures exact { MatchOption result (IsSound (program_of operator) → ⊥) (λ checked. (checked ≡ operator) × IsSound (program_of operator)) }
        ensures tested { MatchOption result (is_sound_program (program_of operator) ≡ false) (λ checked. is_sound_program (program_of operator) ≡ true) }
    {
        if is_sound(&operator) {
            Some(Checked { operator })
        } else {
            None
        }
    }

    /// This operator, whose names are declared and which is within the limits. Nothing is tested.
    pub fn of_sound(operator: Operator) -> Checked
        requires { IsSound (program_of operator) }
        ensures { result ≡ operator }
    {
        Checked { operator }
    }

    /// The operator.
    pub fn operator(&self) -> &Operator
        ensures value { result.now ≡ self.now }
        ensures sound { IsSound (program_of self.now) }
    {
        &self.operator
    }

    /// A copy of it.
    pub fn copy(&self, alloc: Global) -> Result<Checked, NoMemory>
        ensures { IfOk result (λ made. made ≡ self.now) }
    {
        Ok(Checked {
            operator: self.operator.copy(alloc)?,
        })
    }

    /// How many in-ports it has, at most 8.
    pub fn ins(&self) -> u8
        ensures value { result ≡ (program_of self.now).ins }
        ensures bound { result ≤ 8 }
    {
        count_ports(self.operator.ports.as_slice(), Side::In) as u8
    }

    /// How many out-ports it has, at most 8.
    pub fn outs(&self) -> u8
        ensures value { result ≡ (program_of self.now).outs }
        ensures bound { result ≤ 8 }
    {
        count_ports(self.operator.ports.as_slice(), Side::Out) as u8
    }
}

/// Checks an operator whose arrays have a word each at least: its names, and the limits of the language.
///
/// A fault comes exactly where a name is wrong or a limit is passed. It is the first wrong name in the order of the text, at that
/// name: a second declaration (`NameTwice`), a name that isn't declared up to there (`UnknownName`), a scalar with an index, an
/// array without one, a port used as a variable or a variable used as a port (`WrongKind`), a read of an out-port or a write to an
/// in-port (`WrongDirection`). Ports, scalars and arrays share one scope. Where no name is wrong, it is the first limit that is
/// passed: `TooLarge` of `Nodes` over 1,000 nodes, at the operator's name, of `Scalars` over 64, `Arrays` over 16, `ArrayWords` over
/// 8,192 in all, `InPorts` over 8, `OutPorts` over 8, at the name of the first declaration that passes it. No memory is taken: the scope has been made. Works in time linear in the operator.
pub fn check(op: Scoped) -> Result<Checked, Refused<SourceFault>>
    requires { AreFilled (program_of op).lengths }
    ensures exact { MatchResult result (λ checked. (checked ≡ op) × (check_fault op ≡ None)) (λ refusal. Refuses refusal (check_fault op)) }
    ensures sound { IfOk result (λ _checked. IsSound (program_of op)) }
{
    match source_fault(&op) {
        Some(fault) => Err(Refused::Fault(fault)),
        None => Ok(Checked {
            operator: op.into_operator(),
        }),
    }
}
