//! Reads operators' texts from standard input, each up to a line `}`, and writes each as it stands after the passes, behind a line
//! with its nodes before and after them. Binary operators stand in brackets, and a literal of type `uint32_t` has a `u` behind it.
#![tactic(auto)]

mod listing;

use pld_base::NoMemory;
use pld_opt::opt;
use pld_source::read_operator;
use std::alloc::Global;
use std::io;
use std::io::{Read, Write};

// What is written of one text.
fn put_case(alloc: Global, out: &mut Vec<u8>, text: &[u8]) -> Result<(), NoMemory> {
    let Ok(op) = read_operator(alloc, text) else {
        return listing::put(out, b"no operator\n");
    };
    let made = opt(alloc, &op)?;
    listing::put_nodes(out, op.operator().nodes(), made.operator().nodes())?;
    listing::put_operator(out, made.operator())
}

// What is written of all texts.
fn cases(alloc: Global, texts: &[u8]) -> Result<Vec<u8>, NoMemory> {
    let mut out = Vec::new(alloc);
    let mut text = Vec::new(alloc);
    for byte in texts {
        text.push(*byte)?;
        if text.as_slice().ends_with(b"\n}\n") {
            put_case(alloc, &mut out, text.as_slice())?;
            text.clear();
        }
    }
    Ok(out)
}

fn main(rt: HostRuntime) -> io::Result<()> {
    let alloc = rt.alloc();
    let mut texts = Vec::new(alloc);
    rt.reader().read_to_end(&mut texts)?;
    match cases(alloc, texts.as_slice()) {
        Ok(out) => io::writer(&rt).write_all(out.as_slice()),
        Err(NoMemory) => Err(io::Error::from(io::ErrorKind::OutOfMemory)),
    }
}
