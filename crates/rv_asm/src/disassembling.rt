//! From an operator to a text.

ghost use Rattle.std.specs.Prelude.{◌≡◌, ◌++◌, IfOk, OnOk, All, string_bytes};
ghost use Rattle.image_form.specs.Spelling.{IsCode};
ghost use Rattle.rv_asm.specs.Assembly.{op_in};
ghost use Rattle.rv_asm.specs.Printing.{printed, word_line};

use crate::assembling::AsmOp;
use pld_base::NoMemory;
use rv_isa::decode;
use rv_text::{Style, Text};
use std::alloc::Global;
use std::fmt::Write;

// Adds the line of a word.
fn put_line(text: &mut String, word: u32) -> Result<(), NoMemory>
    requires { IsCode word }
    ensures { OnOk result (string_bytes text.new ≡ string_bytes text.old ++ word_line word) }
{
    let Some(instr) = decode(word) else {
        return Ok(());
    };
    let line = Text {
        style: Style::Source,
        instr,
    };
    match writeln!(text, "{line}") {
        Ok(()) => Ok(()),
        Err(_) => Err(NoMemory),
    }
}

/// The operator as a text: the line of the ports with single spaces, then one line for each instruction, with one space behind
/// a mnemonic that has operands, a comma and a space between operands, and numbers and offsets in decimal. Each line has its
/// line end.
pub fn disassemble(alloc: Global, op: &AsmOp) -> Result<Vec<u8>, NoMemory>
    requires { All IsCode op.now.code.items }
    ensures { IfOk result (λ text. text.items ≡ printed (op_in op.now)) }
{
    let mut text = String::new(alloc);
    let (ins, outs) = (op.ins, op.outs);
    let Ok(()) = writeln!(text, "ports {ins} {outs}") else {
        return Err(NoMemory);
    };
    for word in op.code.as_slice() {
        put_line(&mut text, *word)?;
    }
    Ok(text.into_bytes())
}
