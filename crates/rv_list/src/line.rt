//! The lines of the input, and what is printed of them.

ghost use Rattle.std.specs.Prelude.{◌≡◌, Some, IfOk, string_bytes};
ghost use Rattle.rv_list.specs.Listing.{word_in, line_in, shown, listing};

use bstr::ByteSlice;
use hex::FromHex;
use rv_isa::{Instr, decode};
use rv_text::{Style, Text};
use std::alloc::{AllocError, Global};
use std::fmt;
use std::fmt::Write;

/// What a line is.
#[derive(Clone, Copy, PartialEq, Eq, Debug)]
pub enum Line {
    /// The word of this instruction.
    Instruction(Instr),
    /// A word that no instruction has.
    OtherWord,
    /// No word.
    NoWord,
}

impl Line {
    /// What this line is, which has no line feed.
    pub fn of(line: &[u8]) -> Line
        ensures { result ≡ line_in line.now }
    {
        match word(line) {
            None => Line::NoWord,
            Some(w) => match decode(w) {
                None => Line::OtherWord,
                Some(i) => Line::Instruction(i),
            },
        }
    }
}

impl fmt::Display for Line {
    ghost output = { λ l. Some (shown l) };

    fn fmt<W: fmt::Write>(&self, f: &mut fmt::Formatter<W>) -> fmt::Result {
        match self {
            Line::Instruction(i) => Text {
                style: Style::Dump,
                instr: *i,
            }
            .fmt(f),
            Line::OtherWord => write!(f, "-"),
            Line::NoWord => write!(f, "?"),
        }
    }
}

/// The word that a line spells by 8 hexadecimal digits; none where it isn't just these.
fn word(line: &[u8]) -> Option<u32>
    ensures { result ≡ word_in line.now }
{
    match <[u8; 4] as FromHex>::from_hex(line) {
        Ok(bytes) => Some(u32::from_be_bytes(bytes)),
        Err(_) => None,
    }
}

/// The answers to the lines of a text: an instruction in assembler form, `-` for a word that no
/// instruction has, and `?` for a line that is no word.
pub fn listing(alloc: Global, text: &[u8]) -> Result<String, AllocError>
    ensures { IfOk result (λ s. string_bytes s ≡ listing text.now) }
{
    let mut said = String::new(alloc);
    for line in text.lines() {
        let line = Line::of(line);
        writeln!(said, "{line}")?;
    }
    Ok(said)
}
