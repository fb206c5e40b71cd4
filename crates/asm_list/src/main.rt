//! Reads an assembly text from standard input, and writes its words.
#![tactic(auto)]

ghost use Rattle.std.specs.Prelude.{OnOk, IfSome};
ghost use Rattle.std.specs.Io.KnownBytes.{Appends};
ghost use Rattle.asm_list.specs.Listing.{listing};

use std::alloc::Global;
use std::io;
use std::io::{Read, Write};

mod answers;

/// Reads a text to its end, and writes what is printed of it.
fn answer<R: Read, W: Write>(alloc: Global, reader: &mut R, writer: &mut W) -> io::Result<()>
    ensures { OnOk result (IfSome (R.remaining reader.old) (λ text. Appends (W.contents writer.old) (W.contents writer.new) (listing text))) }
{
    let mut text = Vec::new(alloc);
    reader.read_to_end(&mut text)?;
    match answers::listing(alloc, text.as_slice()) {
        Ok(said) => writer.write_all(said.as_bytes()),
        Err(_) => Err(io::Error::from(io::ErrorKind::OutOfMemory)),
    }
}

fn main(rt: HostRuntime) -> io::Result<()> {
    answer(rt.alloc(), &mut rt.reader(), &mut io::writer(&rt))
}
