//! Reads session texts from standard input, one a line, in which `\n`, `\r` and `\t` stand for line ends and tabs. A line is written
//! for each text: what each of its statements says, behind the lines before it, its own lines, and the bytes of both.
#![tactic(auto)]

mod changes;
mod listing;
mod said;

use pld_base::NoMemory;
use pld_script::{Next, next_statement};
use std::alloc::Global;
use std::io;
use std::io::{Read, Write};

// What is written of the first statement of a text; the bytes that it uses, if there is one.
fn put_next(alloc: Global, out: &mut Vec<u8>, text: &[u8]) -> Result<Option<usize>, NoMemory> {
    match next_statement(alloc, text, true)? {
        Next::Statement(found) => {
            listing::put_counts(out, found.blank, found.lines, found.used)?;
            said::put_statement(out, &found.statement)?;
            Ok(Some(found.used))
        }
        Next::BadLine(skipped) => {
            listing::put_counts(out, skipped.blank, skipped.lines, skipped.used)?;
            listing::put(out, b" bad line")?;
            Ok(Some(skipped.used))
        }
        Next::More => {
            listing::put(out, b"more")?;
            Ok(None)
        }
        Next::End => {
            listing::put(out, b"end")?;
            Ok(None)
        }
    }
}

// What is written of all statements of a text.
fn put_text(alloc: Global, out: &mut Vec<u8>, text: &[u8]) -> Result<(), NoMemory> {
    let mut rest = text;
    for _ in 0..text.len() {
        let Some(used) = put_next(alloc, out, rest)? else {
            break;
        };
        listing::put(out, b"; ")?;
        rest = rest.get(used..).unwrap_or(b"");
    }
    listing::put(out, b"\n")
}

// What a letter behind a backslash stands for.
fn escaped(letter: u8) -> u8 {
    match letter {
        b'n' => b'\n',
        b'r' => b'\r',
        b't' => b'\t',
        other => other,
    }
}

// What is written of all texts.
fn cases(alloc: Global, texts: &[u8]) -> Result<Vec<u8>, NoMemory> {
    let mut out = Vec::new(alloc);
    let mut text = Vec::new(alloc);
    let mut is_escaped = false;
    for byte in texts {
        if *byte == b'\n' {
            put_text(alloc, &mut out, text.as_slice())?;
            text.clear();
        } else if *byte == b'\\' {
            is_escaped = true;
        } else if is_escaped {
            text.push(escaped(*byte))?;
            is_escaped = false;
        } else {
            text.push(*byte)?;
        }
    }
    Ok(out)
}

fn main(rt: HostRuntime) -> io::Result<()> {
    let alloc = rt.alloc();
    let mut texts = Vec::new(alloc);
    rt.reader().read_to_end(&mut texts)?;
    match cases(alloc, texts.as_slice()) {
        Ok(out) => io::writer(&rt).write_all(out.as_slice()),
        Err(NoMemory) => Err(io::Error::from(io::ErrorKind::OutOfMemory)),
    }
}
