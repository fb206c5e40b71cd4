//! Words that are no command. What `pld` puts on standard error stands on standard output.
#![tactic(auto)]

use pld_io::{OpenGate, ReadSource, WriteSink};
use pld_program::program;
use pld_session::Bench;
use std::io;
use std::process::ExitCode;

fn main(rt: HostRuntime) -> ExitCode {
    let mut source = ReadSource::new(rt.reader());
    let mut sink = WriteSink::new(io::writer(&rt));
    let mut errors = WriteSink::new(io::writer(&rt));
    let mut bench = Bench::new(rt.alloc());
    program(
        &rt,
        &mut source,
        &mut sink,
        &mut errors,
        &OpenGate,
        &mut bench,
    )
}
