//! The calls that run a session whole.

ghost use Rattle.std.specs.Prelude.{◌≡◌, ◌↔◌, Some, None, map, string_bytes};
ghost use Rattle.pld_driver.specs.Outcome.{moment_of};
ghost use Rattle.pld_words.specs.Words.{IsUpTo, command_of};
ghost use Rattle.pld_words.specs.declared.Command.{Command as Asked};
ghost use Rattle.pld_runner.specs.Orders.{Plain, Any};
ghost use Rattle.pld_session.specs.Headline.{IsFresh, SessionEnds, NothingHappened};
ghost use Rattle.pld_session.specs.Commands.{IsDone};

use crate::engine::WorkSession;
use crate::large::pld_big;
use crate::session::Session;
use fabric_core::Record;
use pld_driver::{Status, run};
use pld_io::{Gate, OpenGate, Sink, Source};
use pld_runner::Workers;
use pld_words::{Command, read_words};
use std::alloc::Global;
use std::sync::Wait;
use std::thread::Threads;

/// What a session leaves: the permits that it gave out, and a record of each run.
pub type Bench = pld_driver::Bench<Record>;

/// How a session is run: how many rounds a run may make, from 1 to 1,000,000, and how many workers
/// make it, from 1 to 8. `pld_plain` ignores the workers.
#[derive(Clone, Copy, Debug, PartialEq, Eq)]
pub struct Options {
    pub rounds: u64,
    pub workers: u8,
}

/// Runs a session on one thread: takes the text in pieces of at most 4,096 bytes, and answers each
/// statement as soon as its last line was taken, up to `quit` or the end. It waits for nobody. At
/// want of memory, and at a fault of the sink, a part of the replies was written; at a fault of the
/// source, and where the text has more than 16,777,216 bytes, all replies to the whole statements
/// before. Once the source or the sink has failed, nothing more is asked of it.
pub fn pld_plain<S: Source, K: Sink>(
    alloc: Global,
    o: &Options,
    src: &mut S,
    sink: &mut K,
    bench: &mut Bench,
) -> Status
    requires rounds { IsUpTo 1000000 o.now.rounds }
    requires fresh { IsFresh bench.old }

    ensures outcome { SessionEnds Plain o.now.rounds (moment_of (S.state src.old) (K.state sink.old) bench.old) (moment_of (S.state src.new) (K.state sink.new) bench.new) result }
{
    let mut session = Session::new(alloc, o.rounds);
    run(alloc, src, sink, &OpenGate, &mut session, bench)
}

/// Runs a session as `pld_plain` does, but for its images, which are compiled on threads, and its runs, each of which 1 to 8
/// workers make on threads of their own: each takes pages out of the run, passes the gate with each, turns it, and brings it back.
/// They may wait for one another, and it is not promised that it returns.
pub fn pld_work<R: Threads + Wait + Sync, S: Source, K: Sink>(
    rt: &R,
    alloc: Global,
    o: &Options,
    src: &mut S,
    sink: &mut K,
    gate: &(dyn Gate + Sync),
    bench: &mut Bench,
) -> Status
    requires rounds { IsUpTo 1000000 o.now.rounds }
    requires workers { IsUpTo 8 o.now.workers }
    requires fresh { IsFresh bench.old }

    ensures outcome { SessionEnds Any o.now.rounds (moment_of (S.state src.old) (K.state sink.old) bench.old) (moment_of (S.state src.new) (K.state sink.new) bench.new) result }
{
    let workers = o.workers;
    let makers = Workers { rt, workers };
    let mut session = WorkSession::new(alloc, makers, o.rounds);
    run(alloc, src, sink, gate, &mut session, bench)
}

/// A run of one worker, which may make so many rounds.
fn of_rounds(rounds: u64) -> Options
    ensures { result.rounds ≡ rounds }
{
    Options { rounds, workers: 1 }
}

/// Runs the command that the words say, without the program's name: `plain` makes the session of the source's text, `work` makes it
/// with workers, who pass the gate, and may wait; `big` makes the one with its number, and asks nothing of the source. Usage comes exactly where they are no command; then nothing is asked of the
/// source and of the sink.
pub fn pld<R: Threads + Wait + Sync, S: Source, K: Sink>(
    rt: &R,
    alloc: Global,
    words: &[String],
    src: &mut S,
    sink: &mut K,
    gate: &(dyn Gate + Sync),
    bench: &mut Bench,
) -> Status
    requires { IsFresh bench.old }

    ensures usage { (result ≡ Status.Usage) ↔ (command_of (map string_bytes words.now) ≡ None) }
    ensures nothing { result ≡ Status.Usage →
        NothingHappened (moment_of (S.state src.old) (K.state sink.old) bench.old) (moment_of (S.state src.new) (K.state sink.new) bench.new) }

    ensures done { (command : Asked) → command_of (map string_bytes words.now) ≡ Some command →
        IsDone command (moment_of (S.state src.old) (K.state sink.old) bench.old) (moment_of (S.state src.new) (K.state sink.new) bench.new) result }
{
    match read_words(words) {
        None => Status::Usage,
        Some(Command::Plain { rounds }) => pld_plain(alloc, &of_rounds(rounds), src, sink, bench),
        Some(Command::Work { workers, rounds }) => {
            let o = Options { rounds, workers };
            pld_work(rt, alloc, &o, src, sink, gate, bench)
        }
        Some(Command::Big { number, rounds }) => {
            pld_big(alloc, number, &of_rounds(rounds), sink, bench)
        }
    }
}
