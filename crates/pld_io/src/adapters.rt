//! Sources and sinks over std's readers and writers. They pass on what these tell, and know the bytes that have passed.

ghost use Rattle.std.specs.Prelude.{◌≡◌, [], false};

use super::{Failed, Passed, Sink, Source};
use std::io::{Read, Write};

/// A reader, the bytes that it has given, whether its last read found the end or failed, and how many reads have failed.
#[derive(Drop)]
pub struct ReadSource<R> {
    pub reader: R,
    given: Passed,
    ended: bool,
    failed: bool,
    pub faults: u64,
}

impl<R> ReadSource<R> {
    /// A source over this reader, which has given nothing and has not failed yet.
    pub fn new(reader: R) -> ReadSource<R>
        ensures reader { result.reader ≡ reader }
        ensures given { result.given.bytes ≡ [] }
        ensures ended { result.ended ≡ false }
        ensures failed { result.failed ≡ false }
        ensures faults { result.faults ≡ 0 }
    {
        ReadSource {
            reader,
            given: Passed::new(),
            ended: false,
            failed: false,
            faults: 0,
        }
    }
}

impl<R: Read> Source for ReadSource<R> {
    ghost state = { λ s. record { given = s.given.bytes; ended = s.ended; failed = s.failed; remaining = R.remaining s.reader; faults = s.faults } };

    fn take(&mut self, buf: &mut [u8]) -> Result<usize, Failed> {
        match self.reader.read(buf) {
            Ok(count) => {
                self.given.add(&buf[..count]);
                self.ended = count == 0 && !buf.is_empty();
                self.failed = false;
                Ok(count)
            }
            Err(_) => {
                self.ended = false;
                self.failed = true;
                self.faults = self.faults.saturating_add(1);
                Err(Failed)
            }
        }
    }
}

/// A writer, the bytes that it has accepted, whether its last write failed, and how many writes have failed. A write that takes
/// nothing of a piece that isn't empty counts as a failure.
#[derive(Drop)]
pub struct WriteSink<W> {
    pub writer: W,
    put: Passed,
    failed: bool,
    pub faults: u64,
}

impl<W> WriteSink<W> {
    /// A sink over this writer, which has accepted nothing and has not failed yet.
    pub fn new(writer: W) -> WriteSink<W>
        ensures writer { result.writer ≡ writer }
        ensures put { result.put.bytes ≡ [] }
        ensures failed { result.failed ≡ false }
        ensures faults { result.faults ≡ 0 }
    {
        WriteSink {
            writer,
            put: Passed::new(),
            failed: false,
            faults: 0,
        }
    }
}

impl<W: Write> Sink for WriteSink<W> {
    ghost state = { λ s. record { put = s.put.bytes; failed = s.failed; written = W.contents s.writer; faults = s.faults } };

    fn put(&mut self, piece: &[u8]) -> Result<usize, Failed> {
        match self.writer.write(piece) {
            Ok(count) => {
                self.put.add(&piece[..count]);
                self.failed = count == 0 && !piece.is_empty();
                if count == 0 && !piece.is_empty() {
                    self.faults = self.faults.saturating_add(1);
                }
                Ok(count)
            }
            Err(_) => {
                self.failed = true;
                self.faults = self.faults.saturating_add(1);
                Err(Failed)
            }
        }
    }
}
