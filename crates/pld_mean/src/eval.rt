//! The value of an expression.

ghost use Rattle.std.specs.Prelude.{◌≡◌, ◌<◌, ◌≤◌, ◌%◌, ℕ, List, [], length, map, get_or, slice_index};
ghost use Rattle.pld_ast.specs.Meaning.{value_of, index_in};
ghost use Rattle.pld_ast.specs.Resolve.{value_in, declared_in, place_in, program_of};
ghost use Rattle.pld_ast.specs.Sound.{IsSound, IsKnownValue};
ghost use Rattle.pld_mean.specs.Vars.{state_of, rows_of};

use crate::vars::Vars;
use pld_ast::{Array, Expr, Operator, apply, apply_one, place_of, type_in};

/// An index, modulo the length of an array that has a word at least.
pub fn index_at(arrays: &[Array], t: usize, i: u32) -> usize
    ensures { t < length arrays.now → 1 ≤ slice_index (map (λ a. a.len) arrays.now) t → result ≡ i % slice_index (map (λ a. a.len) arrays.now) t }
{
    match arrays.get(t) {
        None => 0,
        Some(array) => {
            if array.len == 0 {
                0
            } else {
                (i % array.len) as usize
            }
        }
    }
}

// An element, at an index modulo the array's length.
fn element(op: &Operator, vars: &Vars, t: usize, i: u32) -> u32
    requires { IsSound (program_of op.now) }
    ensures { t < length (program_of op.now).lengths → result ≡ slice_index (get_or (rows_of vars.now) t []) (index_in (program_of op.now).lengths t i) }
{
    vars.element(t, index_at(op.arrays.as_slice(), t, i))
}

/// The value of an expression.
pub fn eval(op: &Operator, vars: &Vars, e: &Expr) -> u32
    requires { IsSound (program_of op.now) }
    ensures { (ins : List (List ℕ)) → IsKnownValue (program_of op.now) (value_in (declared_in op.now) e.now) → result ≡ value_of (program_of op.now).lengths (value_in (declared_in op.now) e.now) (state_of ins vars.now) }
{
    match e {
        Expr::Lit(v, _) => *v,
        Expr::Var(u) => vars.scalar(place_of(op.scalars.as_slice(), &u.name)),
        Expr::Element(u, i) => {
            let t = place_of(op.arrays.as_slice(), &u.name);
            element(op, vars, t, eval(op, vars, i.get()))
        }
        Expr::Unary(o, a) => apply_one(*o, eval(op, vars, a.get())),
        Expr::Binary(o, a, b) => {
            let s = type_in(op, a.get());
            let t = type_in(op, b.get());
            apply(*o, s, t, eval(op, vars, a.get()), eval(op, vars, b.get()))
        }
        Expr::Cast(_, a) => eval(op, vars, a.get()),
    }
}
