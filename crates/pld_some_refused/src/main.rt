//! Sessions of many designs in one text, some of whose statements are refused. What `pld` puts on standard error, here nothing, stands behind the replies.
#![tactic(auto)]

use pld_io::{OpenGate, ReadSource, WriteSink};
use pld_program::program;
use pld_session::Bench;
use std::io;
use std::process::ExitCode;

fn main(rt: HostRuntime) -> ExitCode {
    let mut source = ReadSource::new(rt.reader());
    let mut sink = WriteSink::new(io::writer(&rt));
    let mut errors = WriteSink::new(io::writer(&rt));
    let mut bench = Bench::new(rt.alloc());
    program(
        &rt,
        &mut source,
        &mut sink,
        &mut errors,
        &OpenGate,
        &mut bench,
    )
}
