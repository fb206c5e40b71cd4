//! What stands in lists of operators and channels.

ghost use Rattle.std.specs.Prelude.{◌≡◌, ◌==◌, ◌≤◌, ◌<◌, ◌^◌, not, ◌&&◌, true, false, IfSome, MatchOption, MatchResult, [], ◌∷◌, ◌++◌, length, filter, slice_get, option_copied};
ghost use Rattle.std.specs.List.{list_any, find};
ghost use Rattle.pld_graph.specs.Parts.{same_side as same_side_of, same_end as same_end_of, on_side as on_side_of, is_below as is_below_of, is_lost as is_lost_of, is_of as is_of_operator, stands_at, passes, is_host as is_host_of, is_cut as is_cut_of};
ghost use Rattle.pld_graph.specs.Edits.{is_leaf, is_rival as is_rival_of, is_outside as is_outside_of, pattern_of as pattern_of_levels};
ghost use Rattle.pld_graph.specs.Design.{place_from, is_called, is_linked as is_linked_of, open_among, open_of, first_open as first_open_of, inputs as inputs_of, outputs as outputs_of, comes_from as comes_from_input, is_input as is_input_of};

use crate::channels::Channels;
use crate::operators::Operators;
use crate::{Cut, FromEnd, OperatorEntry, ToEnd};
use net_switch::Pattern;
use pld_base::{End, Name, NoMemory, PortNo, Side};

pub fn same_side(a: Side, b: Side) -> bool
    ensures { result ≡ same_side_of a b }
{
    match a {
        Side::In => matches!(b, Side::In),
        Side::Out => matches!(b, Side::Out),
    }
}

fn same_end(a: &End, b: &End) -> bool
    ensures { result ≡ same_end_of a.now b.now }
{
    a.op.is_same(&b.op) && same_side(a.side, b.side) && a.port.0 == b.port.0
}

// How many ports of a side there are, of these counts.
fn on_side(side: Side, ins: u8, outs: u8) -> u8
    ensures { result ≡ on_side_of side ins outs }
{
    match side {
        Side::In => ins,
        Side::Out => outs,
    }
}

// Whether the port is below these counts.
pub fn is_below(ins: u8, outs: u8, end: &End) -> bool
    ensures { result ≡ is_below_of ins outs end.now }
{
    end.port.0 < on_side(end.side, ins, outs)
}

// Whether it is a port of this operator that these counts lack.
fn is_lost(name: &Name, ins: u8, outs: u8, end: &End) -> bool
    ensures { result ≡ is_lost_of name.now ins outs end.now }
{
    end.op.is_same(name) && !is_below(ins, outs, end)
}

// Whether an end of the channel is a port of this operator.
pub fn is_of(from: &FromEnd, to: &ToEnd, name: &Name) -> bool
    ensures { result ≡ stands_at (is_of_operator name.now) (record { from = from.now; to = to.now }) }
{
    let out = match from {
        FromEnd::Port(e) => e.op.is_same(name),
        FromEnd::Input(_) => false,
    };
    let into = match to {
        ToEnd::Port(e) => e.op.is_same(name),
        ToEnd::Output(_) => false,
    };
    out || into
}

// Whether an end of the channel is a port of this operator that these counts lack.
pub fn loses(from: &FromEnd, to: &ToEnd, name: &Name, ins: u8, outs: u8) -> bool
    ensures { result ≡ stands_at (is_lost_of name.now ins outs) (record { from = from.now; to = to.now }) }
{
    let out = match from {
        FromEnd::Port(e) => is_lost(name, ins, outs, e),
        FromEnd::Input(_) => false,
    };
    let into = match to {
        ToEnd::Port(e) => is_lost(name, ins, outs, e),
        ToEnd::Output(_) => false,
    };
    out || into
}

// Of so many ports on a side of an operator, the first one that is in no channel.
fn open_on_side(channels: &Channels, name: &Name, side: Side, count: u8) -> Option<End>
    ensures { result ≡ open_among channels.now name.now side 0 count }
{
    for k in 0..count {
        let end = End {
            op: *name,
            side,
            port: PortNo(k),
        };
        if !channels.is_linked(&end) {
            return Some(end);
        }
    }
    None
}

// An operator's first port that is in no channel.
fn open_on(channels: &Channels, o: &OperatorEntry) -> Option<End>
    ensures { result ≡ open_of channels.now o.now }
{
    match open_on_side(channels, &o.name, Side::In, o.ins) {
        Some(end) => Some(end),
        None => open_on_side(channels, &o.name, Side::Out, o.outs),
    }
}

// The first port that is in no channel.
pub fn first_open(channels: &Channels, operators: &Operators) -> Option<End>
    ensures { result ≡ first_open_of channels.now operators.now }
{
    for k in 0..operators.len() {
        let o = operators.at(k);
        if let Some(end) = open_on(channels, &o) {
            return Some(end);
        }
    }
    None
}

// How many leaves a tree of this depth has.
pub fn leaves(depth: u8) -> u16
    requires { depth ≤ 6 }
    ensures value { result ≡ 2 ^ depth }
    ensures most { result ≤ 64 }
{
    1 << depth
}

// Whether it is a pin to this leaf.
pub fn is_pin(pin: Option<u8>, leaf: u8) -> bool
    ensures { result ≡ passes (λ l. l == leaf) pin }
{
    match pin {
        Some(l) => l == leaf,
        None => false,
    }
}

// Whether the second holds, and the first doesn't.
pub fn is_only_other(own: bool, any: bool) -> bool
    ensures { result ≡ (not own && any) }
{
    !own && any
}

// The leaf of an operator in a tree of this depth; None where there is no such leaf.
pub fn leaf_within(depth: u8, leaf: u16) -> Option<u8>
    requires { depth ≤ 6 }
    ensures leaf { MatchOption result (is_leaf depth leaf ≡ false) (λ l. (is_leaf depth leaf ≡ true) × (l ≡ leaf)) }
    ensures below { IfSome result (λ l. l < 64) }
{
    if leaf > 0 && leaf < leaves(depth) {
        Some(leaf as u8)
    } else {
        None
    }
}

// The pattern of a tree whose levels from 1 up have two upward links for each switch where it is said so.
pub fn pattern_of(levels: &[bool]) -> Pattern
    requires { length levels.now ≤ 5 }
    ensures { result ≡ pattern_of_levels levels.now }
{
    let mut two = [false; 7];
    two[1..levels.len() + 1].copy_from_slice(levels);
    Pattern { two }
}
