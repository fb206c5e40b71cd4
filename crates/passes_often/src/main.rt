//! Reads an operator's text from standard input, runs the passes over it 20,000 times, and writes how many nodes the operator and
//! the last result have. It is there to be measured.
#![tactic(auto)]

use pld_base::NoMemory;
use pld_check::Checked;
use pld_opt::opt;
use pld_source::read_operator;
use std::alloc::Global;
use std::io;
use std::io::Read;

const TIMES: u32 = 20_000;

// The nodes of the operator after the passes, each time from the operator itself.
fn nodes_after(alloc: Global, op: &Checked) -> Result<u32, NoMemory> {
    let mut nodes = 0;
    for _ in 0..TIMES {
        let made = opt(alloc, op)?;
        nodes = made.operator().nodes();
    }
    Ok(nodes)
}

fn main(rt: HostRuntime) -> io::Result<()> {
    let alloc = rt.alloc();
    let mut text = Vec::new(alloc);
    rt.reader().read_to_end(&mut text)?;
    let Ok(op) = read_operator(alloc, text.as_slice()) else {
        return println!(rt; "no operator");
    };
    let before = op.operator().nodes();
    match nodes_after(alloc, &op) {
        Ok(after) => println!(rt; "{before} {after}"),
        Err(NoMemory) => println!(rt; "no memory"),
    }
}
