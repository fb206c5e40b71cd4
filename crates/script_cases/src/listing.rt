//! Words, names, ports and numbers as they are written.

use itoa::Buffer;
use pld_base::{End, Kind, Name, NoMemory, Side};
use pld_script::Levels;

/// Writes a text.
pub fn put(out: &mut Vec<u8>, text: &[u8]) -> Result<(), NoMemory> {
    out.extend_from_slice(text)?;
    Ok(())
}

fn put_digits(out: &mut Vec<u8>, number: u64) -> Result<(), NoMemory> {
    let mut buffer = Buffer::new();
    put(out, buffer.format(number).as_bytes())
}

/// Writes the skipped lines before a statement, its own lines, and the bytes of both.
pub fn put_counts(out: &mut Vec<u8>, blank: u64, lines: u64, used: usize) -> Result<(), NoMemory> {
    put_digits(out, blank)?;
    put(out, b" ")?;
    put_digits(out, lines)?;
    put(out, b" ")?;
    put_digits(out, used as u64)
}

/// Writes a blank and a word.
pub fn put_word(out: &mut Vec<u8>, word: &[u8]) -> Result<(), NoMemory> {
    put(out, b" ")?;
    put(out, word)
}

/// Writes a blank and a name.
pub fn put_name(out: &mut Vec<u8>, name: &Name) -> Result<(), NoMemory> {
    put_word(out, name.as_bytes())
}

/// Writes a blank and a number.
pub fn put_number(out: &mut Vec<u8>, number: u32) -> Result<(), NoMemory> {
    put(out, b" ")?;
    put_digits(out, u64::from(number))
}

/// Writes a blank and a port.
pub fn put_port(out: &mut Vec<u8>, end: &End) -> Result<(), NoMemory> {
    put_name(out, &end.op)?;
    match end.side {
        Side::In => put(out, b".i")?,
        Side::Out => put(out, b".o")?,
    }
    put_digits(out, u64::from(end.port.0))
}

/// Writes a blank and a kind.
pub fn put_kind(out: &mut Vec<u8>, kind: Kind) -> Result<(), NoMemory> {
    match kind {
        Kind::Soft => put_word(out, b"soft"),
        Kind::Hard => put_word(out, b"hard"),
    }
}

/// Writes a blank and the letters of levels.
pub fn put_levels(out: &mut Vec<u8>, levels: &Levels) -> Result<(), NoMemory> {
    put(out, b" ")?;
    for two in levels.as_slice() {
        out.push(if *two { b'p' } else { b't' })?;
    }
    Ok(())
}

/// Writes a blank and an operator's text, with `\n` for each of its line ends.
pub fn put_body(out: &mut Vec<u8>, text: &[u8]) -> Result<(), NoMemory> {
    put(out, b" ")?;
    for byte in text {
        if *byte == b'\n' {
            put(out, b"\\n")?;
        } else {
            out.push(*byte)?;
        }
    }
    Ok(())
}
