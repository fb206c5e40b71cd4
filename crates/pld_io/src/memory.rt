//! Sources and sinks in memory, which fail at listed calls.

ghost use Rattle.std.specs.Prelude.{◌≡◌, ◌+◌, ◌-◌, ◌^◌, ◌<◌, ◌≤◌, ◌↔◌, ◌⊎◌, ℕ, List, [], ◌++◌, length, min, take, drop, false, Some, IfOk, IsErr, OnOk, OnErr, Contains, vec_len, vec_capacity};
ghost use Rattle.std.specs.Io.{ReadsAtMost, WritesAtMost};
ghost use Rattle.pld_io.specs.Outside.{TakeGives, PutAccepts, TellsEnd};

use super::{Failed, Sink, Source};
use pld_base::NoMemory;
use std::alloc::Global;

/// Bytes in memory. Per call it gives as many as `piece`, the buffer and what is left allow, and it
/// fails at the listed calls alone.
#[derive(Drop)]
pub struct MemSource {
    bytes: Vec<u8>,
    fails: Vec<u64>,
    piece: usize,
    at: usize,
    ended: bool,
    failed: bool,
    calls: u64,
    faults: u64,
    ghost within: { at ≤ vec_len bytes },
    ghost some: { 1 ≤ piece },
}

impl MemSource {
    /// A source of these bytes, at most `piece` of them a call. `fails` lists the calls that are to
    /// fail, counted from 1.
    pub fn new(bytes: Vec<u8>, fails: Vec<u64>, piece: usize) -> MemSource
        requires { 1 ≤ piece }
        ensures given { take result.at result.bytes.items ≡ [] }
        ensures left { drop result.at result.bytes.items ≡ bytes.items }
        ensures ended { result.ended ≡ false }
        ensures failed { result.failed ≡ false }
        ensures fails { result.fails.items ≡ fails.items }
        ensures piece { result.piece ≡ piece }
        ensures calls { result.calls ≡ 0 }
        ensures faults { result.faults ≡ 0 }
    {
        MemSource {
            bytes,
            fails,
            piece,
            at: 0,
            ended: false,
            failed: false,
            calls: 0,
            faults: 0,
        }
    }
}

impl Source for MemSource {
    ghost state = { λ s. record { given = take s.at s.bytes.items; ended = s.ended; failed = s.failed; remaining = Some (drop s.at s.bytes.items); faults = s.faults } };

    /// Fails exactly at a listed call, and then gives no byte and loses none.
    fn take(&mut self, buf: &mut [u8]) -> Result<usize, Failed>
        ensures bound { ReadsAtMost result buf.new }
        ensures bytes { TakeGives (record { given = take self.old.at self.old.bytes.items; ended = self.old.ended; failed = self.old.failed; remaining = Some (drop self.old.at self.old.bytes.items); faults = self.old.faults })
            (record { given = take self.new.at self.new.bytes.items; ended = self.new.ended; failed = self.new.failed; remaining = Some (drop self.new.at self.new.bytes.items); faults = self.new.faults }) result buf.new }
        ensures end { TellsEnd (record { given = take self.new.at self.new.bytes.items; ended = self.new.ended; failed = self.new.failed; remaining = Some (drop self.new.at self.new.bytes.items); faults = self.new.faults }) result buf.new }
        ensures listed { IsErr result ↔ Contains self.old.fails.items self.new.calls }
        ensures calls { self.new.calls ≡ min (self.old.calls + 1) (2 ^ 64 - 1) }
        ensures kept { (self.new.fails.items ≡ self.old.fails.items) × (self.new.piece ≡ self.old.piece) }
        ensures count { IfOk result (λ n. n ≡ min self.old.piece (min (length buf.new) (vec_len self.old.bytes - self.old.at))) }
    {
        self.calls = self.calls.saturating_add(1);
        if self.fails.contains(&self.calls) {
            self.ended = false;
            self.failed = true;
            self.faults = self.faults.saturating_add(1);
            return Err(Failed);
        }
        let left = self.bytes.len() - self.at;
        let count = self.piece.min(buf.len().min(left));
        let at = self.at;
        copy_front(buf, &self.bytes[at..at + count]);
        self.at = at + count;
        self.ended = count == 0 && !buf.is_empty();
        self.failed = false;
        Ok(count)
    }
}

// Writes these bytes over the buffer's first ones.
fn copy_front(buf: &mut [u8], from: &[u8])
    requires { length from.now ≤ length buf.old }
    ensures { buf.new ≡ from.now ++ drop (length from.now) buf.old }
{
    buf[..from.len()].copy_from_slice(from);
}

/// A list of bytes with room for so many. Its memory was all taken when it was made, so that a put
/// never wants memory. It fails at the listed calls, and where a piece has more bytes than the room
/// that is left.
#[derive(Drop)]
pub struct MemSink {
    bytes: Vec<u8>,
    fails: Vec<u64>,
    room: usize,
    failed: bool,
    calls: u64,
    faults: u64,
    ghost within: { vec_len bytes ≤ room },
    ghost reserved: { room ≤ vec_capacity bytes },
}

impl MemSink {
    /// An empty sink with room for `room` bytes. `fails` lists the calls that are to fail, counted
    /// from 1.
    pub fn new(alloc: Global, fails: Vec<u64>, room: usize) -> Result<MemSink, NoMemory>
        ensures empty { IfOk result (λ sink. sink.bytes.items ≡ []) }
        ensures fails { IfOk result (λ sink. sink.fails.items ≡ fails.items) }
        ensures room { IfOk result (λ sink. sink.room ≡ room) }
        ensures counts { IfOk result (λ sink. (sink.calls ≡ 0) × (sink.faults ≡ 0)) }
        ensures failed { IfOk result (λ sink. sink.failed ≡ false) }
    {
        let bytes = Vec::with_capacity(alloc, room)?;
        Ok(MemSink {
            bytes,
            fails,
            room,
            failed: false,
            calls: 0,
            faults: 0,
        })
    }

    /// The bytes that were put.
    pub fn bytes(&self) -> &[u8]
        ensures { result.now ≡ self.now.bytes.items }
    {
        self.bytes.as_slice()
    }
}

impl Sink for MemSink {
    ghost state = { λ s. record { put = s.bytes.items; failed = s.failed; written = Some s.bytes.items; faults = s.faults } };

    /// Takes the whole piece, or fails and takes nothing of it.
    fn put(&mut self, piece: &[u8]) -> Result<usize, Failed>
        ensures bound { WritesAtMost result piece.now }
        ensures bytes { PutAccepts (record { put = self.old.bytes.items; failed = self.old.failed; written = Some self.old.bytes.items; faults = self.old.faults })
            (record { put = self.new.bytes.items; failed = self.new.failed; written = Some self.new.bytes.items; faults = self.new.faults }) result piece.now }
        ensures whole { IfOk result (λ n. n ≡ length piece.now) }
        ensures listed { IsErr result ↔ (Contains self.old.fails.items self.new.calls ⊎ (self.old.room - vec_len self.old.bytes < length piece.now)) }
        ensures calls { self.new.calls ≡ min (self.old.calls + 1) (2 ^ 64 - 1) }
        ensures kept { (self.new.fails.items ≡ self.old.fails.items) × (self.new.room ≡ self.old.room) }
    {
        self.calls = self.calls.saturating_add(1);
        if self.fails.contains(&self.calls) {
            self.failed = true;
            self.faults = self.faults.saturating_add(1);
            return Err(Failed);
        }
        if piece.len() > self.room - self.bytes.len() {
            self.failed = true;
            self.faults = self.faults.saturating_add(1);
            return Err(Failed);
        }
        self.bytes.extend_from_slice(piece).unwrap();
        self.failed = false;
        Ok(piece.len())
    }
}
