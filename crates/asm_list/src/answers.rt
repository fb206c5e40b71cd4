//! What is printed of a text.

ghost use Rattle.std.specs.Prelude.{◌≡◌, ◌++◌, IfOk, OnOk, string_bytes, codes, decimal};
ghost use Rattle.std.specs.List.{flat_map};
ghost use Rattle.asm_list.specs.Listing.{word_line, listing as listing_of};

use pld_base::{NoMemory, Refused};
use rv_asm::assemble;
use std::alloc::Global;
use std::fmt::Write;

// Adds words, one a line.
fn put_words(said: &mut String, words: &[u32]) -> Result<(), NoMemory>
    ensures { OnOk result (string_bytes said.new ≡ string_bytes said.old ++ flat_map word_line words.now) }
{
    for word in words {
        match writeln!(said, "{word:x}") {
            Ok(()) => {}
            Err(_) => return Err(NoMemory),
        }
    }
    Ok(())
}

// The line of a fault.
fn put_fault(said: &mut String, line: u32) -> Result<(), NoMemory>
    ensures { OnOk result (string_bytes said.new ≡ string_bytes said.old ++ (codes "fault in line " ++ decimal line ++ codes "\n")) }
{
    match writeln!(said, "fault in line {line}") {
        Ok(()) => Ok(()),
        Err(_) => Err(NoMemory),
    }
}

/// What is printed of an assembly text: the words of its operator in hexadecimal, one a line, or the line of its first fault.
pub fn listing(alloc: Global, text: &[u8]) -> Result<String, NoMemory>
    ensures { IfOk result (λ s. string_bytes s ≡ listing_of text.now) }
{
    let mut said = String::new(alloc);
    match assemble(alloc, text) {
        Ok(op) => put_words(&mut said, op.code.as_slice())?,
        Err(Refused::Fault(fault)) => put_fault(&mut said, fault.line)?,
        Err(Refused::NoMemory) => return Err(NoMemory),
    }
    Ok(said)
}
