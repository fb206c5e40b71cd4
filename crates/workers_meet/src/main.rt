//! `pld` with a gate at which two pages wait for one another: no single thread passes it. Behind the replies it tells whether they
//! met.
#![tactic(auto)]

mod meeting;

use meeting::Meeting;
use pld_io::{ReadSource, WriteSink};
use pld_program::program;
use pld_session::Bench;
use std::io;
use std::process::ExitCode;

fn main(rt: HostRuntime) -> io::Result<ExitCode> {
    let mut source = ReadSource::new(rt.reader());
    let mut sink = WriteSink::new(io::writer(&rt));
    let mut errors = WriteSink::new(io::writer(&rt));
    let mut bench = Bench::new(rt.alloc());
    let gate = Meeting::new();
    let code = program(&rt, &mut source, &mut sink, &mut errors, &gate, &mut bench);
    let met = gate.met();
    println!(rt; "met {met}")?;
    Ok(code)
}
