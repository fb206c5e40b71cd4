//! Where the ends of a design's channels stand.

ghost use Rattle.std.specs.Prelude.{◌≡◌, ◌≤◌, ◌<◌, ◌↔◌, IsTrue, length};
ghost use Rattle.pld_graph.specs.Design.{inputs as inputs_of, outputs as outputs_of};
ghost use Rattle.pld_graph.specs.Sound.{IsSound};
ghost use Rattle.pld_link.specs.Seats.{place_in, IsPlacement, HasSlots, numbers, leaf_of as leaf_in, from_seat as from_seat_of, to_seat as to_seat_of};
ghost use Rattle.pld_link.specs.Rows.{row};

use net_switch::Row;
use pld_base::{Name, PageId, PortNo};
use pld_graph::{FromEnd, Graph, ToEnd};

// A leaf has slots for so many ports on a side.
const MOST_PORTS: u8 = 8;

/// Whether each operator has at most eight in-ports and eight out-ports, as many as a leaf has slots for.
pub fn has_slots(g: &Graph) -> bool
    ensures { IsTrue result ↔ HasSlots g.now }
{
    for k in 0..g.operators() {
        let (_, ins, outs) = g.operator(k);
        if ins > MOST_PORTS {
            return false;
        }
        if outs > MOST_PORTS {
            return false;
        }
    }
    true
}

// The leaf of the operator of this name.
fn leaf_of(g: &Graph, leaves: &[PageId], name: &Name) -> PageId
    requires { IsPlacement g.now (numbers leaves.now) }
    ensures value { result.0 ≡ leaf_in g.now (numbers leaves.now) name.now }
    ensures most { result.0 ≤ 63 }
{
    for k in 0..leaves.len() {
        let (operator, _, _) = g.operator(k);
        if operator.is_same(name) {
            return leaves[k];
        }
    }
    PageId(0)
}

// The place of an input among the inputs.
fn input_place(g: &Graph, name: &Name) -> u8
    requires { IsSound g.now }
    ensures { result ≡ place_in (inputs_of g.now.channels) name.now }
{
    let inputs = g.inputs();
    for k in 0..inputs {
        if let Some(input) = g.input_at(k) {
            if input.is_same(name) {
                return k as u8;
            }
        }
    }
    inputs as u8
}

// The place of an output among the outputs.
fn output_place(g: &Graph, name: &Name) -> u8
    requires { IsSound g.now }
    ensures { result ≡ place_in (outputs_of g.now.channels) name.now }
{
    let outputs = g.outputs();
    for k in 0..outputs {
        if let Some(output) = g.output_at(k) {
            if output.is_same(name) {
                return k as u8;
            }
        }
    }
    outputs as u8
}

// The seat from which a channel comes.
pub fn from_seat(g: &Graph, leaves: &[PageId], end: &FromEnd) -> Row
    requires sound { IsSound g.now }
    requires placed { IsPlacement g.now (numbers leaves.now) }
    ensures value { result ≡ row (from_seat_of g.now (numbers leaves.now) end.now) }
    ensures most { result.leaf.0 ≤ 63 }
{
    match end {
        FromEnd::Port(end) => Row {
            leaf: leaf_of(g, leaves, &end.op),
            port: end.port,
        },
        FromEnd::Input(name) => Row {
            leaf: PageId(0),
            port: PortNo(input_place(g, name)),
        },
    }
}

// The seat to which a channel goes.
pub fn to_seat(g: &Graph, leaves: &[PageId], end: &ToEnd) -> Row
    requires sound { IsSound g.now }
    requires placed { IsPlacement g.now (numbers leaves.now) }
    ensures value { result ≡ row (to_seat_of g.now (numbers leaves.now) end.now) }
    ensures most { result.leaf.0 ≤ 63 }
{
    match end {
        ToEnd::Port(end) => Row {
            leaf: leaf_of(g, leaves, &end.op),
            port: end.port,
        },
        ToEnd::Output(name) => Row {
            leaf: PageId(0),
            port: PortNo(output_place(g, name)),
        },
    }
}
