//! One session in broken surroundings, and long texts: a line for each says with which status it ended, and how many lines of its replies
//! were put. The session's text is read from standard input.
#![tactic(auto)]

use pld_base::NoMemory;
use pld_io::{MemSink, MemSource};
use pld_session::{Bench, Options, pld_plain};
use std::alloc::Global;
use std::io;
use std::io::{Read, Write};

// A session of this text, whose takes give so many bytes, and in which one take and one put fail, counted from 1. What was put, and
// the status.
fn run(
    alloc: Global,
    text: &[u8],
    piece: usize,
    take: u64,
    put: u64,
) -> Result<(MemSink, u8), NoMemory> {
    let options = Options {
        rounds: 100_000,
        workers: 1,
    };
    let takes = Vec::from_slice(alloc, &[take])?;
    let puts = Vec::from_slice(alloc, &[put])?;
    let mut source = MemSource::new(Vec::from_slice(alloc, text)?, takes, piece.max(1));
    let mut sink = MemSink::new(alloc, puts, 65_536)?;
    let mut bench = Bench::new(alloc);
    let status = pld_plain(alloc, &options, &mut source, &mut sink, &mut bench);
    Ok((sink, status.number()))
}

// The line of a case, whose replies have to begin the whole session's.
fn told(
    alloc: Global,
    out: &mut Vec<u8>,
    name: &str,
    number: u64,
    ran: &(MemSink, u8),
    whole: &[u8],
) -> Result<(), NoMemory> {
    let bytes = ran.0.bytes();
    let lines = bytes.iter().filter(|byte| **byte == b'\n').count();
    let whose = if whole.starts_with(bytes) {
        "of its lines"
    } else {
        "lines of others"
    };
    let status = ran.1;
    let line = format!(in alloc; "{name} {number}: status {status}, {lines} {whose}\n")?;
    out.extend_from_slice(line.as_bytes())?;
    Ok(())
}

// Each put fails in turn, and each take; and then the takes give one byte.
fn faults(alloc: Global, out: &mut Vec<u8>, text: &[u8]) -> Result<(), NoMemory> {
    let whole = run(alloc, text, 4096, 0, 0)?;
    for put in 1..13u64 {
        let ran = run(alloc, text, 4096, 0, put)?;
        told(alloc, out, "put", put, &ran, whole.0.bytes())?;
    }
    for take in 1..4u64 {
        let ran = run(alloc, text, 4096, take, 0)?;
        told(alloc, out, "take", take, &ran, whole.0.bytes())?;
    }
    let ran = run(alloc, text, 1, 0, 0)?;
    told(alloc, out, "byte by byte", 0, &ran, whole.0.bytes())
}

// A text of this front and so many bytes of one kind behind it.
fn long(alloc: Global, front: &[u8], byte: u8, count: usize) -> Result<Vec<u8>, NoMemory> {
    let mut text = Vec::from_slice(alloc, front)?;
    let rest = vec![in alloc; byte; count]?;
    text.extend_from_slice(rest.as_slice())?;
    Ok(text)
}

// Texts that are as long as a session's may be, and longer.
fn long_texts(alloc: Global, out: &mut Vec<u8>) -> Result<(), NoMemory> {
    let refused = b"refused 1 BadLine\n";
    let rows: [(u64, &[u8], u8, usize); 3] = [
        (1, b"op x soft\n", b'a', 16_777_207),
        (2, b"quit", b'\n', 16_777_216),
        (3, b"", 255, 1_000_000),
    ];
    for (number, front, byte, count) in rows {
        let text = long(alloc, front, byte, count)?;
        let ran = run(alloc, text.as_slice(), 4096, 0, 0)?;
        told(alloc, out, "text", number, &ran, refused)?;
    }
    Ok(())
}

fn cases(alloc: Global, text: &[u8]) -> Result<Vec<u8>, NoMemory> {
    let mut out = Vec::new(alloc);
    faults(alloc, &mut out, text)?;
    long_texts(alloc, &mut out)?;
    Ok(out)
}

fn main(rt: HostRuntime) -> io::Result<()> {
    let alloc = rt.alloc();
    let mut text = Vec::new(alloc);
    rt.reader().read_to_end(&mut text)?;
    match cases(alloc, text.as_slice()) {
        Ok(out) => io::writer(&rt).write_all(out.as_slice()),
        Err(NoMemory) => Err(io::Error::from(io::ErrorKind::OutOfMemory)),
    }
}
