//! The schedule of a block.

ghost use Rattle.std.specs.Prelude.{◌≡◌, ℕ, List, OnOk, IfOk, map};
ghost use Rattle.fsm_core.specs.declared.micro.Micro.{Micro};
ghost use Rattle.fsm_core.specs.Page.{Point, run, in_order};
ghost use Rattle.fsm_sched.specs.Earliest.{AllInRange, IsPlaced};
ghost use Rattle.fsm_core.specs.Shapes.{shape_of};
ghost use Rattle.fsm_sched.specs.Rule.{spot, spot_next, placed, scheduled};

use crate::rule::{feeds_some, follows_some, has_room};
use fsm_core::Micro;
use pld_base::NoMemory;
use std::alloc::Global;

// The place of the state that the micro may stand in, where the state s comes after k states in which it may
// stand at best.
fn next_spot(m: Micro, best: Option<usize>, s: &[Micro], k: usize) -> Option<usize>
    ensures { result ≡ spot_next m best s.now k }
{
    if follows_some(m, s) {
        return None;
    }
    let best = if feeds_some(m, s) { None } else { best };
    match best {
        Some(j) => Some(j),
        None => { if has_room(m, s) { Some(k) } else { None } }
    }
}

/// The place of the earliest state that the micro may stand in, if there is one.
fn spot(m: Micro, states: &[Vec<Micro>]) -> Option<usize>
    ensures { result ≡ spot m (map (λ s. s.items) states.now) }
{
    let mut best = None;
    for k in 0..states.len() {
        best = next_spot(m, best, &states[k], k);
    }
    best
}

// Puts one more micro into its place.
fn place(alloc: Global, states: &mut Vec<Vec<Micro>>, m: Micro) -> Result<(), NoMemory>
    ensures { OnOk result (map (λ s. s.items) states.new.items ≡ placed m (map (λ s. s.items) states.old.items)) }
{
    match spot(m, states) {
        Some(k) => {
            states[k].push(m)?;
            Ok(())
        }
        None => {
            let mut state = Vec::new(alloc);
            state.push(m)?;
            states.push(state)?;
            Ok(())
        }
    }
}

// The states of a block's micros.
fn states_by_rule(alloc: Global, block: &[Micro]) -> Result<Vec<Vec<Micro>>, NoMemory>
    ensures { IfOk result (λ states. map (λ s. s.items) states.items ≡ scheduled block.now) }
{
    let mut states = Vec::new(alloc);
    for m in block {
        place(alloc, &mut states, *m)?;
    }
    if states.is_empty() {
        states.push(Vec::new(alloc))?;
    }
    Ok(states)
}

/// The states of a block's micros: they are those of the rule, and made one after the other they have the
/// effects and the events of the micros in order.
pub fn schedule(alloc: Global, block: &[Micro]) -> Result<Vec<Vec<Micro>>, NoMemory>
    ensures states { IfOk result (λ states. map (λ s. s.items) states.items ≡ scheduled block.now) }
    ensures means { IfOk result (λ states. (lengths : List ℕ) (x : Point) → run lengths (map (λ s. s.items) states.items) x ≡ in_order lengths block.now x) }
{
    let states = states_by_rule(alloc, block)?;
    Ok(states)
}

/// The rule: each micro comes into the earliest state, from 0, that meets the five points.
pub fn each_is_placed()
    ensures { (m : Micro) (states : List (List Micro)) → IsPlaced m states (placed m states) }
{}

/// The states have the effects and the events of the micros in order.
pub fn states_mean_the_micros()
    ensures { (lengths : List ℕ) (micros : List Micro) (x : Point) → run lengths (scheduled micros) x ≡ in_order lengths micros x }
{}

/// The states have room for their micros, and no micro's target is an earlier one's in its state.
pub fn states_are_in_range()
    ensures { (micros : List Micro) → AllInRange (scheduled micros) }
{}
