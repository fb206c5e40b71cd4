//! Reads words in hexadecimal from standard input, one a line, and writes the instruction of each.
#![tactic(auto)]

ghost use Rattle.std.specs.Prelude.{OnOk, IfSome};
ghost use Rattle.std.specs.Io.KnownBytes.{Appends};
ghost use Rattle.rv_list.specs.Listing.{listing};

use std::alloc::Global;
use std::io;
use std::io::{Read, Write};

mod line;

/// Reads a text to its end, and writes the answers to its lines.
fn answer<R: Read, W: Write>(alloc: Global, reader: &mut R, writer: &mut W) -> io::Result<()>
    ensures { OnOk result (IfSome (R.remaining reader.old) (λ text. Appends (W.contents writer.old) (W.contents writer.new) (listing text))) }
{
    let mut text = Vec::new(alloc);
    reader.read_to_end(&mut text)?;
    let said = line::listing(alloc, text.as_slice())?;
    writer.write_all(said.as_bytes())
}

fn main(rt: HostRuntime) -> io::Result<()> {
    answer(rt.alloc(), &mut rt.reader(), &mut io::writer(&rt))
}
