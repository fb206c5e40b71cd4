//! The states of blocks, one block after the other.

ghost use Rattle.std.specs.Prelude.{◌≡◌, ◌≤◌, ◌+◌, ◌++◌, OnOk, IfOk, map, length, slice_index};
ghost use Rattle.fsm_core.specs.Table.{stage_in};
ghost use Rattle.fsm_back.specs.Table.{chained, next_in};
ghost use Rattle.fsm_back.specs.Sequences.{sequence_in, schedule_in, count_states, starts, laid_all, onward};

use fsm_core::{Micro, Next, State};
use fsm_ir::Block;
use fsm_sched::schedule;
use pld_base::NoMemory;
use std::alloc::Global;

/// The states of a block, each as its micros, and the block where it goes on.
#[derive(Drop)]
pub struct Sequence {
    pub states: Vec<Vec<Micro>>,
    pub next: Next,
}

/// Blocks, scheduled.
pub fn sequences(alloc: Global, blocks: &[Block]) -> Result<Vec<Sequence>, NoMemory>
    ensures { IfOk result (λ all. map sequence_in all.items ≡ map schedule_in blocks.now) }
{
    let mut all = Vec::new(alloc);
    for block in blocks {
        let states = schedule(alloc, block.micros.as_slice())?;
        all.push(Sequence {
            states,
            next: block.next,
        })?;
    }
    Ok(all)
}

/// The number of each block's first state.
pub fn first_states(alloc: Global, blocks: &[Sequence]) -> Result<Vec<u32>, NoMemory>
    requires { count_states (map sequence_in blocks.now) ≤ 65535 }
    ensures { IfOk result (λ firsts. firsts.items ≡ starts 0 (map sequence_in blocks.now)) }
{
    let mut firsts = Vec::new(alloc);
    let mut first: u32 = 0;
    for block in blocks {
        firsts.push(first)?;
        first += block.states.len() as u32;
    }
    Ok(firsts)
}

// A block's first state, and 0 where there is no such block.
fn first_of(firsts: &[u32], block: u32) -> u32
    ensures { result ≡ slice_index firsts.now block }
{
    match firsts.get(block as usize) {
        Some(first) => *first,
        None => 0,
    }
}

// A Next of blocks, with their first states in their place.
fn by_states(next: Next, firsts: &[u32]) -> Next
    ensures { result ≡ next_in (slice_index firsts.now) next }
{
    match next {
        Next::Goto(k) => Next::Goto(first_of(firsts, k)),
        Next::Branch(r, i, j) => Next::Branch(r, first_of(firsts, i), first_of(firsts, j)),
        Next::End => Next::End,
    }
}

// Where a state goes on that has so many states of its block after it; the next state is `at`.
fn goes_on(after: usize, at: u32, next: Next) -> Next
    ensures { result ≡ onward after at next }
{
    if after == 0 { next } else { Next::Goto(at) }
}

// The states of a block, each but the last of which goes on at the one after it.
fn put_states(states: &mut Vec<State>, block: Vec<Vec<Micro>>, next: Next) -> Result<(), NoMemory>
    requires { length states.old.items + length block.items ≤ 65535 }
    ensures { OnOk result (map stage_in states.new.items ≡ map stage_in states.old.items ++ chained (length states.old.items) (map (λ m. m.items) block.items) next) }
{
    let mut after = block.len();
    for micros in block {
        after -= 1;
        let at = states.len() as u32 + 1;
        let next = goes_on(after, at, next);
        states.push(State { micros, next })?;
    }
    Ok(())
}

/// The states of all blocks, with these numbers of their first ones.
pub fn put_all(alloc: Global, blocks: Vec<Sequence>, firsts: &[u32]) -> Result<Vec<State>, NoMemory>
    requires { count_states (map sequence_in blocks.items) ≤ 65535 }
    ensures { IfOk result (λ states. map stage_in states.items ≡ laid_all (slice_index firsts.now) 0 (map sequence_in blocks.items)) }
{
    let mut states = Vec::new(alloc);
    for block in blocks {
        put_states(&mut states, block.states, by_states(block.next, firsts))?;
    }
    Ok(states)
}
