//! The answers to the statements of a text.
ghost use Rattle.std.specs.Prelude.{◌≡◌, ◌||◌, ◌+◌, ◌≤◌, ◌<◌, ◌^◌, ◌++◌, ℕ, List, [], length, OnOk, OnErr, IfOk, IfErr, true, false};
ghost use Rattle.pld_io.specs.Outside.{Accepts};
ghost use Rattle.pld_script.specs.Statements.{Scanned};
ghost use Rattle.pld_driver.specs.Walk.{is_quit};
ghost use Rattle.pld_driver.specs.Outcome.{WritesPart};
ghost use Rattle.pld_driver.specs.Moments.{Answers, Stops, Ends, IsReady, IsGiven, given_of, held_of, point_of, is_open as is_open_of, done_status as done_status_of, status_of as status_after};

use super::{Bench, Engine, Status};
use pld_base::NoMemory;
use pld_io::{Failed, Gate, Sink};
use pld_script::{Next, Scan, Statement, next_statement};
use std::alloc::Global;

/// How many bytes most replies have at most.
const REPLY: usize = 64;

/// Why answers stop.
#[derive(Clone, Copy, PartialEq, Eq)]
pub enum Stop {
    /// The sink failed.
    WriteFault,
    /// No memory was left.
    NoMemory,
}

/// How far the answers to the statements of a text have come.
#[derive(Clone, Copy, PartialEq, Eq)]
pub enum Flow {
    /// No whole statement is left.
    Open,
    /// A `quit` comes next.
    Quits,
    /// They have stopped at a statement.
    Stopped(Stop),
}

impl Flow {
    /// Whether answers may go on once more bytes have come.
    pub fn is_open(self) -> bool
        ensures { result ≡ is_open_of self }
    {
        match self {
            Flow::Open => true,
            Flow::Quits => false,
            Flow::Stopped(_) => false,
        }
    }

    /// The status of a session that ends here. `refused` says whether a statement was refused.
    pub fn status(self, refused: bool) -> Status
        ensures { result ≡ status_after self refused }
    {
        match self {
            Flow::Open => done_status(refused),
            Flow::Quits => done_status(refused),
            Flow::Stopped(Stop::WriteFault) => Status::WriteFault,
            Flow::Stopped(Stop::NoMemory) => Status::NoMemory,
        }
    }
}

/// The status of a session whose statements were all answered.
fn done_status(refused: bool) -> Status
    ensures { result ≡ done_status_of refused }
{
    if refused {
        Status::SomeRefused
    } else {
        Status::Fine
    }
}

/// Puts the whole piece, in as many puts as the sink needs.
pub fn put_all<K: Sink>(sink: &mut K, piece: &[u8]) -> Result<(), Failed>
    ensures ok { OnOk result (Accepts (K.state sink.old) (K.state sink.new) piece.now) }
    ensures err { OnErr result (WritesPart (K.state sink.old) (K.state sink.new) piece.now) }
{
    let mut done = 0;
    while done < piece.len() {
        let count = sink.put(&piece[done..])?;
        if count == 0 {
            return Err(Failed);
        }
        done += count;
    }
    Ok(())
}

/// Puts each line of the text by itself, with its line end.
fn put_lines<K: Sink>(sink: &mut K, text: &[u8]) -> Result<(), Failed>
    ensures ok { OnOk result (Accepts (K.state sink.old) (K.state sink.new) text.now) }
    ensures err { OnErr result (WritesPart (K.state sink.old) (K.state sink.new) text.now) }
{
    let mut done = 0;
    while done < text.len() {
        let rest = &text[done..];
        let len = line_len(rest);
        match put_all(sink, &rest[..len]) {
            Ok(()) => {}
            Err(_) => return Err(Failed),
        }
        done += len;
    }
    Ok(())
}

/// How long the first line is, with its line end.
fn line_len(text: &[u8]) -> usize
    requires { 0 < length text.now }
    ensures within { result ≤ length text.now }
    ensures some { 0 < result }
{
    for (i, b) in text.iter().enumerate() {
        if *b == b'\n' {
            return i + 1;
        }
    }
    text.len()
}

/// Where in its text a session stands.
#[derive(Drop)]
pub struct Place {
    /// How many bytes were used.
    pub start: usize,
    /// The number of the next line.
    pub number: u64,
    /// Whether a statement was refused.
    pub refused: bool,
    /// How far the bytes behind those were looked at.
    pub scan: Scan,
}

/// Answers a statement, and puts the reply.
fn answer_one<K: Sink, E: Engine>(
    alloc: Global,
    number: u64,
    said: Option<Statement>,
    gate: &(dyn Gate + Sync),
    engine: &mut E,
    bench: &mut Bench<E::Record>,
    sink: &mut K,
) -> Result<bool, Stop>
    requires ready { E.ready }
    requires room { bench.old.permits + 64 < 2 ^ 64 }
    ensures ok { IfOk result (λ refused. Answers E.step E.fits (record { number = number; said = said })
        (held_of engine.old bench.old (K.state sink.old)) (held_of engine.new bench.new (K.state sink.new)) refused) }
    ensures err { IfErr result (λ stop. Stops E.step E.fits (record { number = number; said = said })
        (held_of engine.old bench.old (K.state sink.old)) (held_of engine.new bench.new (K.state sink.new)) stop) }
    ensures few { bench.new.permits ≤ bench.old.permits + 64 }
{
    let mut reply = match Vec::with_capacity(alloc, REPLY) {
        Ok(reply) => reply,
        Err(_) => return Err(Stop::NoMemory),
    };
    let refused = match engine.answer(alloc, number, said, gate, bench, &mut reply) {
        Ok(refused) => refused,
        Err(_) => return Err(Stop::NoMemory),
    };
    match put_lines(sink, reply.as_slice()) {
        Ok(()) => {}
        Err(_) => return Err(Stop::WriteFault),
    }
    Ok(refused)
}

/// A statement, or None for a bad line, with the lines before it, its own, and the bytes that all of these use.
#[derive(Drop)]
pub struct Given {
    /// The statement, or None for a bad line.
    pub said: Option<Statement>,
    /// How many lines before it are skipped.
    pub blank: u64,
    /// How many lines it has.
    pub lines: u64,
    /// How many bytes all these lines use.
    pub used: usize,
}

/// The statement or the bad line, where there is one.
fn given_by(next: Next) -> Option<Given>
    ensures { result ≡ given_of next }
{
    match next {
        Next::Statement(found) => Some(Given {
            said: Some(found.statement),
            blank: found.blank,
            lines: found.lines,
            used: found.used,
        }),
        Next::BadLine(skipped) => Some(Given {
            said: None,
            blank: skipped.blank,
            lines: skipped.lines,
            used: skipped.used,
        }),
        Next::More => None,
        Next::End => None,
    }
}

/// The first statement of bytes that others may follow.
fn next_open(alloc: Global, scan: &mut Scan, rest: &[u8]) -> Result<Option<Given>, NoMemory>
    requires { Scanned rest.now scan.old.line scan.old.seen scan.old.in_text }
    ensures { IfOk result (IsGiven false rest.now scan.new) }
{
    match scan.find(rest) {
        None => Ok(None),
        Some(end) => {
            let next = next_statement(alloc, &rest[..end], false)?;
            Ok(given_by(next))
        }
    }
}

/// The first statement of the bytes that are left.
fn next_given(
    alloc: Global,
    scan: &mut Scan,
    rest: &[u8],
    ended: bool,
) -> Result<Option<Given>, NoMemory>
    requires { Scanned rest.now scan.old.line scan.old.seen scan.old.in_text }
    ensures { IfOk result (IsGiven ended rest.now scan.new) }
{
    if !ended {
        return next_open(alloc, scan, rest);
    }
    let next = next_statement(alloc, rest, true)?;
    Ok(given_by(next))
}

/// Whether this is a `quit`.
fn quits(said: &Option<Statement>) -> bool
    ensures { result ≡ is_quit said.now }
{
    match said {
        Some(Statement::Quit) => true,
        Some(_) => false,
        None => false,
    }
}

/// Whether one of the two holds.
fn either(a: bool, b: bool) -> bool
    ensures { result ≡ (a || b) }
{
    a || b
}

/// Answers the statements of these bytes from this place on, up to a `quit`. `ended` says that nothing follows the bytes.
pub fn answer_whole<K: Sink, E: Engine>(
    alloc: Global,
    bytes: &[u8],
    ended: bool,
    place: &mut Place,
    gate: &(dyn Gate + Sync),
    engine: &mut E,
    bench: &mut Bench<E::Record>,
    sink: &mut K,
) -> Flow
    requires engine { E.ready }
    requires ready { IsReady bytes.now place.old bench.old.permits }
    requires short { length bytes.now < 2 ^ 40 }
    ensures ends { Ends E.step E.fits ended bytes.now (point_of engine.old bench.old (K.state sink.old) place.old)
        (point_of engine.new bench.new (K.state sink.new) place.new) result }
    ensures ready { result ≡ Flow.Open → IsReady bytes.now place.new bench.new.permits }
{
    'statements: while place.start < bytes.len() {
        let given = match next_given(alloc, &mut place.scan, &bytes[place.start..], ended) {
            Ok(Some(given)) => given,
            Ok(None) => return Flow::Open,
            Err(_) => return Flow::Stopped(Stop::NoMemory),
        };
        let number = place.number + given.blank;
        if quits(&given.said) {
            return Flow::Quits;
        }
        match answer_one(alloc, number, given.said, gate, engine, bench, sink) {
            Ok(refused) => {
                place.start += given.used;
                place.number = number + given.lines;
                place.refused = either(place.refused, refused);
                place.scan = Scan::new();
            }
            Err(stop) => return Flow::Stopped(stop),
        }
    }
    Flow::Open
}
