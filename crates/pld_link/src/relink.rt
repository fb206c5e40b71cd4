//! What differs between two tables of rows.

ghost use Rattle.std.specs.Prelude.{◌≡◌, IfOk, length};
ghost use Rattle.pld_link.specs.Changes.{same_row as same_row_of, changes as changes_of};

use leaf_port::ConfigEntry;
use net_switch::Row;
use pld_base::{NoMemory, PageId};
use std::alloc::Global;

// A leaf's slots.
const SLOTS: usize = 16;

// The slots of all 64 leaves.
const ALL_SLOTS: usize = 1024;

fn is_same(a: &Option<Row>, b: &Option<Row>) -> bool
    ensures { result ≡ same_row_of a.now b.now }
{
    match a {
        Some(one) => match b {
            Some(other) => one.leaf.0 == other.leaf.0 && one.port.0 == other.port.0,
            None => false,
        },
        None => b.is_none(),
    }
}

/// The slots of the leaves from 1 up whose rows differ, by leaf and then by slot, each with its new row; None where a row went.
///
/// Both tables have the rows of 64 leaves, as `tables` gives them.
pub fn changes(
    alloc: Global,
    old: &[Option<Row>],
    new: &[Option<Row>],
) -> Result<Vec<ConfigEntry>, NoMemory>
    requires old { length old.now ≡ 1024 }
    requires new { length new.now ≡ 1024 }
    ensures { IfOk result (λ entries. entries.items ≡ changes_of old.now new.now) }
{
    let mut entries = Vec::new(alloc);
    for k in SLOTS..ALL_SLOTS {
        if !is_same(&old[k], &new[k]) {
            entries.push(ConfigEntry {
                leaf: PageId((k / SLOTS) as u8),
                slot: (k % SLOTS) as u8,
                row: new[k],
            })?;
        }
    }
    Ok(entries)
}
