//! The rows that a run leaves.

ghost use Rattle.std.specs.Prelude.{◌≡◌, ◌<◌, length};
ghost use Rattle.fabric_core.specs.Runs.{setup_for, state_of};
ghost use Rattle.fabric_plan.specs.Standing.{standing_row, standing_rows, AreStanding};

use fabric_core::Fabric;
use net_switch::Row;

// How many slots a leaf has, and how many those of 64 leaves are.
const SLOTS: u16 = 16;

const ALL_SLOTS: u16 = 1024;

// The row of a slot as its leaf holds it. None where the tree doesn't have the leaf.
fn standing(fabric: &Fabric, leaf: u8, slot: u8) -> Option<Row>
    requires { slot < 16 }
    ensures { result ≡ standing_row (setup_for fabric.now) (state_of fabric.now) leaf slot }
{
    let leaves = fabric.plan().leaves();
    if (leaf as usize) < leaves {
        fabric.standing(leaf, slot)
    } else {
        None
    }
}

/// Puts down the rows that stand at the leaves of a run now: slot s of leaf l is row 16·l + s, for 64 leaves with 16 slots each. At
/// leaves that its tree doesn't have there are none, so they may stand as the next run in a tree of the same depth begins. It takes no memory.
pub fn leave_rows(fabric: &Fabric, rows: &mut Vec<Option<Row>>)
    requires { length rows.old.items ≡ 1024 }
    ensures rows { rows.new.items ≡ standing_rows (setup_for fabric.now) (state_of fabric.now) }
    ensures stand { AreStanding fabric.now.plan.depth rows.new.items }
{
    for n in 0..ALL_SLOTS {
        rows[n as usize] = standing(fabric, (n / SLOTS) as u8, (n % SLOTS) as u8);
    }
}
