//! The rows of all leaves.

ghost use Rattle.std.specs.Prelude.{◌≡◌, ◌<◌, IfOk, List, Option};
ghost use Rattle.leaf_port.specs.Rows.{IsTables, no_rows, row_in, with_entry};

use net_switch::Row;
use pld_base::{NoMemory, PageId};
use std::alloc::Global;
use std::marker::Model;

/// A row for a slot of a leaf. Slots 0 to 7 are those of the out-ports, and 8 to 15 those of the in-ports.
#[derive(Clone, Copy, Debug, PartialEq, Eq)]
pub struct ConfigEntry {
    pub leaf: PageId,
    pub slot: u8,
    pub row: Option<Row>,
}

/// The rows of 64 leaves, of 16 slots each.
#[derive(Drop)]
pub struct Tables {
    leaves: Vec<[Option<Row>; 16]>,
}

impl Model for Tables {
    ghost use Rattle.std.specs.Prelude.{List, Option};
    ghost use Rattle.net_switch.specs.declared.packet.Row.{Row};
    ghost use Rattle.leaf_port.specs.Rows.{IsTables};

    ghost Value = { List (List (Option Row)) };

    ghost view = { λ t. t.leaves.items };

    ghost invariant = { λ t. IsTables t.leaves.items };
}

impl Tables {
    /// Tables without a row.
    pub fn empty(alloc: Global) -> Result<Tables, NoMemory>
        ensures { IfOk result (λ t. t ≡ no_rows) }
    {
        let mut leaves = Vec::with_capacity(alloc, 64)?;
        for _leaf in 0..64usize {
            leaves.push([None; 16])?;
        }
        Ok(Tables { leaves })
    }

    /// The row of a slot, from 0 to 15, of a leaf, from 0 to 63.
    pub fn row(&self, leaf: PageId, slot: u8) -> Option<Row>
        requires leaf { leaf.0 < 64 }
        requires slot { slot < 16 }
        ensures { result ≡ row_in self.now leaf.0 slot }
    {
        self.leaves[leaf.0 as usize][slot as usize]
    }

    /// Sets the row of a slot, from 0 to 15, of a leaf, from 0 to 63.
    pub fn set(&mut self, leaf: PageId, slot: u8, row: Option<Row>)
        requires leaf { leaf.0 < 64 }
        requires slot { slot < 16 }
        ensures { self.new ≡ with_entry self.old leaf.0 slot row }
    {
        self.leaves[leaf.0 as usize][slot as usize] = row;
    }

    /// What all tables keep: there are 64 leaves, of 16 slots each.
    pub fn keeps_size(&self)
        ensures { IsTables self.now }
    {
        let _leaves = &self.leaves;
    }

    /// The same rows once more.
    pub fn copy(&self, alloc: Global) -> Result<Tables, NoMemory>
        ensures { IfOk result (λ t. t ≡ self.now) }
    {
        let leaves = Vec::from_slice(alloc, &self.leaves)?;
        Ok(Tables { leaves })
    }
}
