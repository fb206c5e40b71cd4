//! Places a design of 63 operators with 256 channels in the deepest tree 100 times, and writes the leaf of each operator.
#![tactic(auto)]

ghost use Rattle.std.specs.Prelude.{◌<◌};

use pld_base::{End, Name, NoMemory, PortNo, Refused, Side};
use pld_graph::{Graph, GraphFault};
use pld_place::{Placement, TooFewPages, place};
use std::alloc::Global;
use std::io;

const OPERATORS: u8 = 63;

// Each operator has so many in-ports and so many out-ports.
const PORTS: u8 = 4;

// So many channels lead from an operator to an operator; then come the inputs with the outputs.
const INNER: u32 = 240;

const HOSTS: u8 = 8;

const TIMES: u32 = 100;

// A name of a letter and two more for the number.
fn name(letter: u8, number: u8) -> Result<Name, Refused<GraphFault>> {
    match Name::of(&[letter, b'a' + number / 16, b'a' + number % 16]) {
        Some(name) => Ok(name),
        None => Err(Refused::NoMemory),
    }
}

// The k-th port of a side, counted over all operators port by port.
fn port(side: Side, k: u32) -> Result<End, Refused<GraphFault>> {
    let op = name(b'p', (k % 63) as u8)?;
    Ok(End {
        op,
        side,
        port: PortNo((k / 63 % 4) as u8),
    })
}

// The in-port to which the channel from the k-th out-port goes.
fn across(k: u32) -> u32
    requires { k < 252 }
{
    (k * 101 + 17) % 252
}

// A channel from one operator to another.
fn join(g: &mut Graph, k: u32) -> Result<(), Refused<GraphFault>>
    requires { k < 252 }
{
    let from = port(Side::Out, k)?;
    let to = port(Side::In, across(k))?;
    g.connect(from, to)
}

// An input and an output.
fn host(g: &mut Graph, k: u32, number: u8) -> Result<(), Refused<GraphFault>>
    requires { k < 252 }
{
    let to = port(Side::In, across(k))?;
    let input = name(b'i', number)?;
    g.input(input, to)?;
    let from = port(Side::Out, k)?;
    let output = name(b'o', number)?;
    g.output(from, output)
}

fn add(g: &mut Graph, number: u8) -> Result<(), Refused<GraphFault>> {
    let op = name(b'p', number)?;
    g.add(op, PORTS, PORTS)
}

fn design(alloc: Global) -> Result<Graph, Refused<GraphFault>> {
    let mut g = Graph::new(alloc, 6);
    for k in 0..OPERATORS {
        add(&mut g, k)?;
    }
    for k in 0..INNER {
        join(&mut g, k)?;
    }
    for k in 0..HOSTS {
        host(&mut g, INNER + k as u32, k)?;
    }
    Ok(g)
}

fn places(alloc: Global, g: &Graph) -> Result<Placement, Refused<TooFewPages>> {
    let mut placement = place(alloc, g)?;
    for _ in 1..TIMES {
        placement = place(alloc, g)?;
    }
    Ok(placement)
}

fn main(rt: HostRuntime) -> io::Result<()> {
    let Ok(g) = design(rt.alloc()) else {
        return println!(rt; "no design");
    };
    let Ok(placement) = places(rt.alloc(), &g) else {
        return println!(rt; "no placement");
    };
    for leaf in placement.leaf_of() {
        println!(rt; "{}", leaf.0)?;
    }
    Ok(())
}
