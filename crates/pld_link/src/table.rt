//! The rows of all leaves.

ghost use Rattle.std.specs.Prelude.{◌≡◌, ◌≤◌, IfOk, length, replicate};
ghost use Rattle.pld_graph.specs.Sound.{IsSound};
ghost use Rattle.pld_link.specs.Seats.{IsPlacement, numbers, from_seat, to_seat};
ghost use Rattle.pld_link.specs.Rows.{rows as rows_of, row};
ghost use Rattle.pld_link.specs.Joining.{with_row, joined};

use crate::seats;
use net_switch::Row;
use pld_base::{NoMemory, PageId};
use pld_graph::{Channel, Graph};
use std::alloc::Global;

// A leaf's slots: its out-ports, and then its in-ports.
const SLOTS: usize = 16;

// How many ports a leaf has on a side.
const PORTS: usize = 8;

// The slots of all 64 leaves.
const ALL_SLOTS: usize = 1024;

// The first slot of out-ports, and that of in-ports.
const OUT: usize = 0;

const IN: usize = 8;

// Sets the row of a port that has a slot.
fn put(rows: &mut Vec<Option<Row>>, first: usize, at: Row, other: Row)
    requires all { length rows.old.items ≡ 1024 }
    requires leaf { at.leaf.0 ≤ 63 }
    requires side { first ≤ 8 }
    ensures { rows.new.items ≡ with_row rows.old.items first at other }
{
    let port = at.port.0 as usize;
    if port < PORTS {
        rows[SLOTS * at.leaf.0 as usize + first + port] = Some(other);
    }
}

// So many slots without a row.
fn no_rows(alloc: Global, count: usize) -> Result<Vec<Option<Row>>, NoMemory>
    ensures { IfOk result (λ rows. rows.items ≡ replicate count None) }
{
    Ok(vec![in alloc; None; count]?)
}

// Sets the rows of a channel's two ends.
fn join(g: &Graph, leaves: &[PageId], channel: &Channel, rows: &mut Vec<Option<Row>>)
    requires sound { IsSound g.now }
    requires placed { IsPlacement g.now (numbers leaves.now) }
    requires all { length rows.old.items ≡ 1024 }
    ensures { rows.new.items ≡ joined (row (from_seat g.now (numbers leaves.now) channel.now.from)) (row (to_seat g.now (numbers leaves.now) channel.now.to)) rows.old.items }
{
    let from = seats::from_seat(g, leaves, &channel.from);
    let to = seats::to_seat(g, leaves, &channel.to);
    put(rows, OUT, from, to);
    put(rows, IN, to, from);
}

/// The rows of the 64 leaves of a tree of pages, where the k-th operator stands on the leaf `leaves[k]` and the host on leaf 0.
///
/// Leaf l's slot s is row 16·l + s. Slot p is that of its out-port p, and slot 8 + p that of its in-port p, for p from 0 to 7; the
/// row names leaf and port of the channel's other end, and there is none where no channel ends. The host's out-port k is the k-th
/// input, and its in-port k the k-th output, in the order of declaration.
pub fn tables(alloc: Global, g: &Graph, leaves: &[PageId]) -> Result<Vec<Option<Row>>, NoMemory>
    requires { IsPlacement g.now (numbers leaves.now) }
    ensures { IfOk result (λ table. table.items ≡ rows_of g.now (numbers leaves.now)) }
{
    let mut rows = no_rows(alloc, ALL_SLOTS)?;
    for k in (0..g.channels()).rev() {
        join(g, leaves, &g.channel(k), &mut rows);
    }
    Ok(rows)
}
