//! A session from its first byte to its end.
ghost use Rattle.std.specs.Prelude.{◌≡◌, ◌⊎◌, ◌+◌, ◌≤◌, ◌<◌, ◌^◌, [], length, take, vec_len, true, false};
ghost use Rattle.pld_driver.specs.Outcome.{Outcome, moment_of};
ghost use Rattle.pld_driver.specs.Reading.{Takes, limit};

use super::answers::{Place, answer_whole};
use super::{Bench, Engine, Status};
use pld_io::{Gate, Sink, Source};
use pld_script::Scan;
use std::alloc::Global;

/// How many bytes a piece has at most.
const PIECE: usize = 4096;

/// What a take of the next piece gave.
#[derive(Clone, Copy, PartialEq, Eq)]
pub enum Piece {
    /// Some bytes.
    Some,
    /// None: the source is at its end.
    End,
    /// The source failed.
    Fault,
    /// No memory was left for the bytes.
    NoMemory,
}

/// How many bytes a session's text may have.
fn most() -> usize
    ensures { result ≡ limit }
{
    16_777_216
}

/// Takes the next piece, at most up to one byte past the most that a text may have.
fn take_piece<S: Source>(source: &mut S, text: &mut Vec<u8>, most: usize) -> Piece
    requires room { vec_len text.old ≤ most }
    requires small { most < 2 ^ 40 }
    ensures takes { Takes (S.state source.old) (S.state source.new) most text.old.items text.new.items result }
{
    let room = PIECE.min(most + 1 - text.len());
    match text.reserve(room) {
        Ok(()) => {}
        Err(_) => return Piece::NoMemory,
    }
    let mut buf = [0u8; PIECE];
    match source.take(&mut buf[..room]) {
        Err(_) => Piece::Fault,
        Ok(0) => Piece::End,
        Ok(count) => {
            text.extend_from_slice(&buf[..count]).unwrap();
            Piece::Some
        }
    }
}

/// The text up to the most bytes that it may have.
fn front(text: &[u8], most: usize) -> &[u8]
    ensures { result.now ≡ take most text.now }
{
    if text.len() <= most {
        text
    } else {
        &text[..most]
    }
}

/// Runs a session: takes its text in pieces of at most 4,096 bytes, and answers each statement as soon as its last line was
/// taken, up to `quit` or the end. Each line of a reply is put by itself.
///
/// `Fine` and `SomeRefused` come where the text was read to its end or to `quit`, and each reply was written; `ReadFault` where
/// the source failed, and `TooLong` where the text has more than 16,777,216 bytes without a `quit`, and each reply to the whole
/// statements before was written; `WriteFault` where the sink failed, `NoMemory` where memory was wanting, and `Usage` never.
/// Once the source or the sink has failed, nothing more is asked of it. The gate is the one that pages pass which are turned on threads.
pub fn run<S: Source, K: Sink, E: Engine>(
    alloc: Global,
    source: &mut S,
    sink: &mut K,
    gate: &(dyn Gate + Sync),
    engine: &mut E,
    bench: &mut Bench<E::Record>,
) -> Status
    requires engine { E.ready }
    requires records { bench.old.records.items ≡ [] }
    requires permits { bench.old.permits ≡ 0 }

    // What the status says of the bytes that were taken, of what was written, and of what the bench holds.
    ensures outcome { Outcome E.step E.fits engine.old (moment_of (S.state source.old) (K.state sink.old) bench.old)
        (moment_of (S.state source.new) (K.state sink.new) bench.new) result }
{
    let most = most();
    let mut text = Vec::new(alloc);
    let mut place = Place {
        start: 0,
        number: 1,
        refused: false,
        scan: Scan::new(),
    };
    'pieces: while text.len() <= most {
        match take_piece(source, &mut text, most) {
            Piece::Some => {}
            Piece::End => {
                let bytes = text.as_slice();
                let last = answer_whole(alloc, bytes, true, &mut place, gate, engine, bench, sink);
                return last.status(place.refused);
            }
            Piece::Fault => return Status::ReadFault,
            Piece::NoMemory => return Status::NoMemory,
        }
        let bytes = front(text.as_slice(), most);
        let flow = answer_whole(alloc, bytes, false, &mut place, gate, engine, bench, sink);
        if !flow.is_open() {
            return flow.status(place.refused);
        }
    }
    Status::TooLong
}
