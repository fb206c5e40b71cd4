//! The program, over any environment, source and sinks: what it does, how it ends, and what standard error says of that.
#![tactic(auto)]

ghost use Rattle.std.specs.Prelude.{◌≡◌, ◌⊎◌, IfErr};
ghost use Rattle.std.specs.Process.{exit_status};
ghost use Rattle.pld_driver.specs.Outcome.{moment_of};
ghost use Rattle.pld_driver.specs.Statuses.{number_of};
ghost use Rattle.pld_session.specs.Headline.{IsFresh};
ghost use Rattle.pld_program.specs.Lines.{line_of, PutsLine};
ghost use Rattle.pld_program.specs.Program.{HasRun, ProgramEnds};

use pld_driver::put_all;
use pld_io::{Gate, Sink, Source};
use pld_session::{Bench, Status, pld};
use pld_words::read_words;
use std::process::ExitCode;
use std::rt::Env;
use std::sync::Wait;
use std::thread::Threads;
use std::{env, io};

/// The words of the command line, without the program's name. Words that are no text are Usage.
fn words<R: Env + AllocGlobal>(rt: &R) -> Result<Vec<String>, Status>
    ensures { IfErr result (λ status. (status ≡ Status.Usage) ⊎ (status ≡ Status.NoMemory)) }
{
    match env::args(rt) {
        Ok(args) => match args.skip(1).collect(rt.alloc()) {
            Ok(words) => Ok(words),
            Err(_) => Err(Status::NoMemory),
        },
        Err(e) => match e.kind() {
            io::ErrorKind::InvalidData => Err(Status::Usage),
            _ => Err(Status::NoMemory),
        },
    }
}

/// Runs the command that the words of the command line say. Where there are no such words, nothing is done.
fn command<R: Env + AllocGlobal + Threads + Wait + Sync, S: Source, K: Sink>(
    rt: &R,
    source: &mut S,
    sink: &mut K,
    gate: &(dyn Gate + Sync),
    bench: &mut Bench,
) -> Status
    requires { IsFresh bench.old }
    ensures { HasRun (moment_of (S.state source.old) (K.state sink.old) bench.old) (moment_of (S.state source.new) (K.state sink.new) bench.new) result }
{
    let words = match words(rt) {
        Ok(words) => words,
        Err(status) => return status,
    };
    let words = words.as_slice();
    // Commands are in range.
    let _command = read_words(words);
    pld(rt, rt.alloc(), words, source, sink, gate, bench)
}

/// What standard error says of a status: a line, or nothing.
fn line(status: Status) -> &'static str
    ensures { result.now ≡ line_of status }
{
    match status {
        Status::Fine | Status::SomeRefused => "",
        Status::Usage => "pld: usage: pld plain|work --workers K|big N [--rounds N]\n",
        Status::ReadFault => "pld: read fault\n",
        Status::WriteFault => "pld: write fault\n",
        Status::NoMemory => "pld: out of memory\n",
        Status::TooLong => "pld: session text too long\n",
    }
}

/// Puts a line, or what the sink takes of it before it fails.
fn put_line<K: Sink>(errors: &mut K, line: &[u8])
    ensures { PutsLine (K.state errors.old) (K.state errors.new) line.now }
{
    match put_all(errors, line) {
        Ok(()) => return,
        Err(_) => return,
    }
}

/// Puts what standard error says of a status, and gives its number.
fn tell<K: Sink>(status: Status, errors: &mut K) -> ExitCode
    ensures code { exit_status result ≡ number_of status }
    ensures line { PutsLine (K.state errors.old) (K.state errors.new) (line_of status) }
{
    put_line(errors, line(status).as_bytes());
    ExitCode::from(status.number())
}

/// The whole program: runs the command that the words of the command line say on a source, a sink and an empty bench, where workers
/// pass the gate with each page that they turn. Workers may wait for one another; no other command waits. Behind that it puts one line on `errors`, or nothing, and its exit status is the number of the status.
pub fn program<R: Env + AllocGlobal + Threads + Wait + Sync, S: Source, K: Sink, L: Sink>(
    rt: &R,
    source: &mut S,
    sink: &mut K,
    errors: &mut L,
    gate: &(dyn Gate + Sync),
    bench: &mut Bench,
) -> ExitCode
    requires { IsFresh bench.old }
    ensures { ProgramEnds (moment_of (S.state source.old) (K.state sink.old) bench.old) (moment_of (S.state source.new) (K.state sink.new) bench.new)
        (L.state errors.old) (L.state errors.new) (exit_status result) }
{
    let status = command(rt, source, sink, gate, bench);
    tell(status, errors)
}
