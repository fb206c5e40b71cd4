//! Large sessions: the program makes their text, and writes one line about their one run.

ghost use Rattle.std.specs.Prelude.{◌≡◌, ◌∷◌, [], All, IfOk, OnErr};
ghost use Rattle.pld_reply.specs.Summary.{summary};
ghost use Rattle.pld_session.specs.Runs.{shown_by};
ghost use Rattle.pld_words.specs.Words.{IsUpTo};
ghost use Rattle.pld_session.specs.Headline.{IsFresh};
ghost use Rattle.pld_session.specs.Large.{TextSession, IsSummed, IsBroken, LargeEnds, IsPlainRun};

use crate::session::Session;
use crate::top::{Bench, Options};
use fabric_core::{Fabric, Record, run_plain};
use fabric_tree::plain_runs_over_the_tree_are_one;
use pld_base::NoMemory;
use pld_driver::{Status, put_all, run};
use pld_io::{MemSink, MemSource, OpenGate, Sink};
use pld_reply::put_summary;
use pld_script::gen_script;
use std::alloc::Global;

/// How many bytes of its text a large session takes at once.
const PIECE: usize = 4096;

/// Room for the replies to a large session.
const ROOM: usize = 65_536;

/// Makes the run again that this record stands for.
fn run_again(alloc: Global, run: Record) -> Result<Fabric, NoMemory>
    requires { IsPlainRun run }
    ensures plan { IfOk result (λ fabric. fabric.plan ≡ run.plan) }
    ensures journal { IfOk result (λ fabric. fabric.journal ≡ run.journal) }
{
    plain_runs_over_the_tree_are_one();
    Ok(run_plain(Fabric::prepare(alloc, run.plan)?))
}

/// The line about the one run of a session that has ended. Its record stays.
fn summed(alloc: Global, number: u8, bench: &mut Bench) -> Result<Vec<u8>, NoMemory>
    requires { All IsPlainRun bench.old.records.items }
    ensures line { IfOk result (λ line. (run : Record) × (bench.old.records.items ≡ run ∷ []) × (bench.new.records.items ≡ run ∷ []) × (line.items ≡ summary number bench.new.permits (shown_by run))) }
    ensures permits { bench.new.permits ≡ bench.old.permits }
{
    if bench.records.len() != 1 {
        return Err(NoMemory);
    }
    let Some(record) = bench.records.pop() else {
        return Err(NoMemory);
    };
    let fabric = run_again(alloc, record)?;
    if fabric.plan().outs() == 0 {
        return Err(NoMemory);
    }
    let mut line = Vec::new(alloc);
    put_summary(&mut line, u64::from(number), bench.permits.count(), &fabric)?;
    bench.records.push(fabric.finish())?;
    Ok(line)
}

/// Makes the session of this text.
fn run_text(
    alloc: Global,
    text: Vec<u8>,
    rounds: u64,
    bench: &mut Bench,
) -> Result<Status, NoMemory>
    requires rounds { IsUpTo 1000000 rounds }
    requires fresh { IsFresh bench.old }
    ensures ok { IfOk result (λ status. TextSession rounds text.items bench.old bench.new.permits bench.new.records.items status) }
    ensures err { OnErr result (bench.new.permits ≡ bench.old.permits) }
{
    let mut source = MemSource::new(text, Vec::new(alloc), PIECE);
    let mut replies = MemSink::new(alloc, Vec::new(alloc), ROOM)?;
    let mut session = Session::new(alloc, rounds);
    Ok(run(
        alloc,
        &mut source,
        &mut replies,
        &OpenGate,
        &mut session,
        bench,
    ))
}

/// Makes the session with this number, and gives the line about its run.
fn run_large(alloc: Global, number: u8, rounds: u64, bench: &mut Bench) -> Result<Vec<u8>, NoMemory>
    requires number { IsUpTo 60 number }
    requires rounds { IsUpTo 1000000 rounds }
    requires fresh { IsFresh bench.old }
    ensures ok { IfOk result (λ line. IsSummed rounds number bench.old bench.new line.items) }
    ensures err { OnErr result (IsBroken rounds number bench.old bench.new) }
{
    let text = gen_script(alloc, u64::from(number))?;
    match run_text(alloc, text, rounds, bench)? {
        Status::Fine => summed(alloc, number, bench),
        _ => Err(NoMemory),
    }
}

/// Makes the session of the text `gen_script(number)`, where number is 1 to 60, and writes one line in place of its replies:
/// `big N compiled C OUTCOME words M sum S`, with the permits that it spent, how its run ended, and how many words its output has,
/// with their sum modulo 2^32. It waits for nobody. Fine comes where the line was written, whatever the outcome; at want of memory
/// nothing was written.
pub fn pld_big<K: Sink>(
    alloc: Global,
    number: u8,
    o: &Options,
    sink: &mut K,
    bench: &mut Bench,
) -> Status
    requires number { IsUpTo 60 number }
    requires rounds { IsUpTo 1000000 o.now.rounds }
    requires fresh { IsFresh bench.old }
    ensures { LargeEnds o.now.rounds number (K.state sink.old) (K.state sink.new) bench.old bench.new result }
{
    let Ok(line) = run_large(alloc, number, o.rounds, bench) else {
        return Status::NoMemory;
    };
    match put_all(sink, line.as_slice()) {
        Ok(()) => Status::Fine,
        Err(_) => Status::WriteFault,
    }
}
