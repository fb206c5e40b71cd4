//! The states of a table.

ghost use Rattle.std.specs.Prelude.{◌≡◌, [], map};
ghost use Rattle.fsm_core.specs.Table.{stage_in};
ghost use Rattle.image_form.specs.Reading.{Tells, Gives, many};
ghost use Rattle.image_form.specs.Tables.{next_of as next_by, leads as leads_in, next_parts, next_at, micro_at, state_at};
ghost use Rattle.image_form.specs.Views.{bounds_in};

use crate::fields::{bad, byte, half, word};
use crate::micros::{Limits, micro};
use crate::stop::{Bad, Stop};
use fsm_core::{Micro, Next, State};
use std::alloc::Global;

// Where a state goes on, by a kind, a register and two states; those that it hasn't are 0.
fn next_of(kind: u8, r: u16, i: u32, j: u32) -> Option<Next>
    ensures { result ≡ next_by kind r i j }
{
    match kind {
        0 if r == 0 && j == 0 => Some(Next::Goto(i)),
        1 => Some(Next::Branch(r, i, j)),
        2 if r == 0 && i == 0 && j == 0 => Some(Next::End),
        _ => None,
    }
}

// Whether its register and states are below the counts.
fn leads(limits: Limits, next: Next) -> bool
    ensures { result ≡ leads_in (bounds_in limits) next }
{
    match next {
        Next::Goto(i) => i < limits.states,
        Next::Branch(r, i, j) => (r as u32) < limits.registers
            && i < limits.states
            && j < limits.states,
        Next::End => true,
    }
}

// The parts of a Next in range.
#[tactic(auto, unfolding(crate::specs::Tables::next_parts))]
fn parts(limits: Limits, bytes: &[u8]) -> Result<(Next, &[u8]), Bad>
    ensures { Tells (λ x. (x.0, x.1.now)) result (next_parts (bounds_in limits) bytes.now) }
{
    let (kind, rest) = byte(bytes)?;
    let (r, rest) = half(rest)?;
    let (i, rest) = word(rest)?;
    let (j, rest) = word(rest)?;
    match next_of(kind, r, i, j) {
        Some(next) => {
            if leads(limits, next) {
                Ok((next, rest))
            } else {
                Err(bad(bytes))
            }
        }
        None => Err(bad(bytes)),
    }
}

// Where a state goes on. It is one field.
#[tactic(auto, unfolding(crate::specs::Tables::next_at))]
fn next_state(limits: Limits, bytes: &[u8]) -> Result<(Next, &[u8]), Bad>
    ensures { Tells (λ x. (x.0, x.1.now)) result (next_at (bounds_in limits) bytes.now) }
{
    match parts(limits, bytes) {
        Ok(found) => Ok(found),
        Err(_) => Err(bad(bytes)),
    }
}

// So many micros.
fn micros(
    alloc: Global,
    limits: Limits,
    count: u8,
    bytes: &[u8],
) -> Result<(Vec<Micro>, &[u8]), Stop>
    ensures { Gives (λ x. (x.0.items, x.1.now)) result (many (micro_at (bounds_in limits)) count [] bytes.now) }
{
    let mut micros = Vec::new(alloc);
    let mut rest = bytes;
    for _ in 0..count {
        let (m, after) = micro(limits, &micros, rest)?;
        micros.push(m)?;
        rest = after;
    }
    Ok((micros, rest))
}

// A state: the count of its micros, these, and where it goes on.
#[tactic(auto, unfolding(crate::specs::Tables::state_at))]
fn state(alloc: Global, limits: Limits, bytes: &[u8]) -> Result<(State, &[u8]), Stop>
    ensures { Gives (λ x. (stage_in x.0, x.1.now)) result (state_at (bounds_in limits) bytes.now) }
{
    let (count, rest) = byte(bytes)?;
    let (micros, rest) = micros(alloc, limits, count, rest)?;
    let (next, rest) = next_state(limits, rest)?;
    Ok((State { micros, next }, rest))
}

/// So many states.
pub fn states(
    alloc: Global,
    limits: Limits,
    count: u32,
    bytes: &[u8],
) -> Result<(Vec<State>, &[u8]), Stop>
    ensures { Gives (λ x. (map stage_in x.0.items, x.1.now)) result (many (λ before. state_at (bounds_in limits)) count [] bytes.now) }
{
    let mut states = Vec::new(alloc);
    let mut rest = bytes;
    for _ in 0..count {
        let (state, after) = state(alloc, limits, rest)?;
        states.push(state)?;
        rest = after;
    }
    Ok((states, rest))
}
