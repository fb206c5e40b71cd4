//! The placement of a small design, against leaves and sums that were worked out by hand.

use crate::{Ends, ends, place};
use pld_base::{End, Name, NoMemory, PageId, PortNo, Refused, Side};
use pld_graph::{Graph, GraphFault};
use std::alloc::Global;
use std::test::Fail;

fn name(text: &[u8]) -> Result<Name, Refused<GraphFault>> {
    match Name::of(text) {
        Some(name) => Ok(name),
        None => Err(Refused::NoMemory),
    }
}

fn port(op: &[u8], side: Side) -> Result<End, Refused<GraphFault>> {
    let op = name(op)?;
    Ok(End {
        op,
        side,
        port: PortNo(0),
    })
}

fn add(g: &mut Graph, op: &[u8]) -> Result<(), Refused<GraphFault>> {
    let op = name(op)?;
    g.add(op, 1, 1)
}

fn connect(g: &mut Graph, from: &[u8], to: &[u8]) -> Result<(), Refused<GraphFault>> {
    let from = port(from, Side::Out)?;
    let to = port(to, Side::In)?;
    g.connect(from, to)
}

fn input(g: &mut Graph, op: &[u8]) -> Result<(), Refused<GraphFault>> {
    let input = name(b"x")?;
    let to = port(op, Side::In)?;
    g.input(input, to)
}

fn output(g: &mut Graph, op: &[u8]) -> Result<(), Refused<GraphFault>> {
    let output = name(b"y")?;
    let from = port(op, Side::Out)?;
    g.output(from, output)
}

// Two operators in a ring, and one between the host's input and output, in a tree of three pages.
fn design(alloc: Global) -> Result<Graph, Refused<GraphFault>> {
    let mut g = Graph::new(alloc, 2);
    let ops: [&[u8]; 3] = [b"a", b"b", b"c"];
    for op in ops {
        add(&mut g, op)?;
    }
    connect(&mut g, b"a", b"b")?;
    connect(&mut g, b"b", b"a")?;
    input(&mut g, b"c")?;
    output(&mut g, b"c")?;
    Ok(g)
}

// The leaf of each operator of the design; none where it can't be placed.
fn leaves(alloc: Global) -> Result<Vec<u8>, NoMemory> {
    let mut leaves = Vec::new(alloc);
    let Ok(g) = design(alloc) else {
        return Ok(leaves);
    };
    let Ok(placement) = place(alloc, &g) else {
        return Ok(leaves);
    };
    for leaf in placement.leaf_of() {
        leaves.push(leaf.0)?;
    }
    Ok(leaves)
}

#[test]
fn an_exchange_halves_the_sum(rt: HostRuntime) -> Result<(), Fail> {
    let leaves = leaves(rt.alloc())?;
    assert_eq!(rt; leaves.as_slice(), [3, 2, 1].as_slice());
    Ok(())
}

// The sums of these channels where the operators stand in the order of declaration, before and after an exchange of leaves 1 and 3.
fn sums(channels: &[Ends]) -> (u32, u32) {
    if channels.len() > 256 {
        return (0, 0);
    }
    let first = [PageId(1), PageId(2), PageId(3)];
    let sums = ends::measure(&first, channels, 1, 3);
    (sums.before, sums.after)
}

// How many channels the design has, and their sums.
fn measured(alloc: Global) -> Result<(usize, u32, u32), NoMemory> {
    let Ok(g) = design(alloc) else {
        return Ok((0, 0, 0));
    };
    let channels = ends::ends_of(alloc, &g)?;
    let (before, after) = sums(channels.as_slice());
    Ok((channels.len(), before, after))
}

#[test]
fn sums_are_those_by_hand(rt: HostRuntime) -> Result<(), Fail> {
    assert_eq!(rt; measured(rt.alloc())?, (4, 16, 8));
    Ok(())
}
