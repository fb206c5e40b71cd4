//! Reads operators' texts from standard input, each up to a line `}`; the numbers in its first line are the words of its in-port.
//! Each is run by its plain meaning and, compiled for both kinds of page, turn by turn. Written are the operator's words by each of
//! the three; of an operator without ports its table for a hardware page, and the image's bytes.
#![tactic(auto)]

mod listing;
mod runs;

use pld_base::{Kind, NoMemory};
use pld_check::Checked;
use pld_image::image_bytes;
use pld_source::read_operator;
use runs::{compiled, made, meant};
use std::alloc::Global;
use std::io;
use std::io::{Read, Write};

// The numbers in the first line of a text.
fn feed_in(alloc: Global, text: &[u8]) -> Result<Vec<u32>, NoMemory> {
    let mut words = Vec::new(alloc);
    let line = text.split(|byte| *byte == b'\n').next().unwrap_or(text);
    let Ok(line) = str::from_utf8(line) else {
        return Ok(words);
    };
    for word in line.split_ascii_whitespace() {
        if let Ok(number) = word.parse::<u32>() {
            words.push(number)?;
        }
    }
    Ok(words)
}

// What a page of this kind writes.
fn put_page(
    alloc: Global,
    out: &mut Vec<u8>,
    kind: Kind,
    op: &Checked,
    feed: &[u32],
) -> Result<(), NoMemory> {
    let Some(image) = compiled(alloc, kind, op)? else {
        return listing::put(out, b"not compiled\n");
    };
    let words = made(alloc, &image, feed)?;
    listing::put_words(out, words.as_slice())
}

// The image's table and its bytes.
fn put_image(alloc: Global, out: &mut Vec<u8>, op: &Checked) -> Result<(), NoMemory> {
    let Some(image) = compiled(alloc, Kind::Hard, op)? else {
        return listing::put(out, b"not compiled\n");
    };
    listing::put_table(out, image.form())?;
    let bytes = image_bytes(alloc, &image)?;
    listing::put_bytes(out, bytes.as_slice())
}

// What is written of one text.
fn put_case(alloc: Global, out: &mut Vec<u8>, text: &[u8]) -> Result<(), NoMemory> {
    let Ok(op) = read_operator(alloc, text) else {
        return listing::put(out, b"no operator\n");
    };
    let tree = op.operator();
    listing::put(out, tree.name.as_bytes())?;
    listing::put(out, b"\n")?;
    if tree.ports.len() == 0 {
        return put_image(alloc, out, &op);
    }
    let feed = feed_in(alloc, text)?;
    let words = meant(alloc, &op, feed.as_slice())?;
    listing::put_words(out, words.as_slice())?;
    put_page(alloc, out, Kind::Soft, &op, feed.as_slice())?;
    put_page(alloc, out, Kind::Hard, &op, feed.as_slice())
}

// What is written of all texts.
fn cases(alloc: Global, texts: &[u8]) -> Result<Vec<u8>, NoMemory> {
    let mut out = Vec::new(alloc);
    let mut text = Vec::new(alloc);
    for byte in texts {
        text.push(*byte)?;
        if text.as_slice().ends_with(b"\n}\n") {
            put_case(alloc, &mut out, text.as_slice())?;
            text.clear();
        }
    }
    Ok(out)
}

fn main(rt: HostRuntime) -> io::Result<()> {
    let alloc = rt.alloc();
    let mut texts = Vec::new(alloc);
    rt.reader().read_to_end(&mut texts)?;
    match cases(alloc, texts.as_slice()) {
        Ok(out) => io::writer(&rt).write_all(out.as_slice()),
        Err(NoMemory) => Err(io::Error::from(io::ErrorKind::OutOfMemory)),
    }
}
