//! What is printed assembles to what it was printed from.

ghost use Rattle.std.specs.Prelude.{◌≡◌, ◌≤◌, ◌<◌, ℕ, length, slice_index, MatchResult, All};
ghost use Rattle.image_form.specs.Spelling.{IsCode};
ghost use Rattle.pld_base.specs.declared.memory.Refused.TheVariants as refused;
ghost use Rattle.rv_asm.specs.Assembly.{op_in};
ghost use Rattle.rv_asm.specs.Printing.{printed, word_line, IsSpelled};

use crate::assembling::{AsmOp, assemble};
use crate::disassembling::disassemble;
use pld_base::{Refused, SourceFault};
use rv_isa::decode;
use std::alloc::Global;

// A word that `decode` takes is that of an instruction.
fn spelled(word: u32)
    requires { IsCode word }
    ensures { IsSpelled word }
{
    let _instr = decode(word);
}

fn all_spelled(words: &[u32])
    requires { All IsCode words.now }
    ensures { (k : ℕ) → k < length words.now → IsSpelled (slice_index words.now k) }
{
    for word in words {
        spelled(*word);
    }
}

/// What the text of an operator assembles to: the same operator, if there is memory. The operator has 1 to 2,900 words that `decode`
/// takes, and at most 8 ports of each side.
pub fn disassembled_and_assembled(alloc: Global, op: &AsmOp) -> Result<AsmOp, Refused<SourceFault>>
    requires ins { op.now.ins ≤ 8 }
    requires outs { op.now.outs ≤ 8 }
    requires some { 1 ≤ length op.now.code.items }
    requires few { length op.now.code.items ≤ 2900 }
    requires words { All IsCode op.now.code.items }
    ensures { MatchResult result (λ again. op_in again ≡ op_in op.now) (λ e. e ≡ refused.NoMemory) }
{
    all_spelled(op.code.as_slice());
    match disassemble(alloc, op) {
        Ok(text) => assemble(alloc, text.as_slice()),
        Err(_) => Err(Refused::NoMemory),
    }
}

/// How long the text of an operator is: a line with its line end has at most 22 bytes, and with at most 2,900 words and 8 ports of
/// each side the text has at most 65,536.
pub fn texts_are_short(op: &AsmOp)
    requires ins { op.now.ins ≤ 8 }
    requires outs { op.now.outs ≤ 8 }
    requires few { length op.now.code.items ≤ 2900 }
    requires words { All IsCode op.now.code.items }
    ensures line { All (λ w. length (word_line w) ≤ 22) op.now.code.items }
    ensures text { length (printed (op_in op.now)) ≤ 65536 }
{
    all_spelled(op.code.as_slice());
}
