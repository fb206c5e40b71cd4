//! A table with what is made of it once.

ghost use Rattle.std.specs.Prelude.{◌≡◌, ◌<◌, length, get_or, map, IfOk};
ghost use Rattle.fsm_core.specs.declared.micro.State.{State};
ghost use Rattle.fsm_core.specs.Stands.{stand_of};

use crate::micro::{State, Table};
use crate::stand::{Stand, stand_of};
use fixed::Fixed;
use pld_base::NoMemory;
use std::alloc::Global;
use std::marker::Model;

/// A table that stays as it is, with where a core stands at each of its states. Nothing of it can grow.
#[derive(Drop)]
pub struct Kept {
    table: Table,
    stands: Fixed<Stand>,
}

impl Model for Kept {
    ghost use Rattle.std.specs.Prelude.{◌≡◌, map};
    ghost use Rattle.fsm_core.specs.declared.micro.Table.{Table};
    ghost use Rattle.fsm_core.specs.Stands.{stand_of};

    ghost Value = { Table };

    ghost view = { λ k. k.table };

    ghost invariant = { λ k. k.stands ≡ map stand_of k.table.states.items };
}

// Where a core stands at each of these states.
fn stands(alloc: Global, states: &[State]) -> Result<Fixed<Stand>, NoMemory>
    ensures { IfOk result (λ stands. stands ≡ map stand_of states.now) }
{
    let mut stands = Vec::new(alloc);
    for state in states {
        stands.push(stand_of(state))?;
    }
    Ok(Fixed::new(stands))
}

impl Kept {
    /// This table.
    pub fn new(alloc: Global, table: Table) -> Result<Kept, NoMemory>
        ensures { IfOk result (λ kept. kept ≡ table) }
    {
        let stands = stands(alloc, &table.states)?;
        Ok(Kept { table, stands })
    }

    /// The table.
    #[inline(always)]
    pub fn table(&self) -> &Table
        ensures { result.now ≡ self.now }
    {
        &self.table
    }

    /// Where a core stands at the i-th state.
    #[tactic(auto, using(crate::proofs::Stood::stand_found))]
    #[inline(always)]
    pub fn stand(&self, i: usize) -> Stand
        requires { i < length self.now.states.items }
        ensures { (s : State) → result ≡ stand_of (get_or self.now.states.items i s) }
    {
        self.stands.as_slice()[i]
    }
}
