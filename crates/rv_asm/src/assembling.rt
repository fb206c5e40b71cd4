//! From a text to an operator.

ghost use Rattle.std.specs.Prelude.{◌≡◌, ◌≤◌, ◌+◌, length, All, MatchResult, IfOk, Ok, Err};
ghost use Rattle.image_form.specs.Spelling.{Soft, IsForm, IsCode};
ghost use Rattle.rv_asm.specs.Words.{lines_of};
ghost use Rattle.rv_asm.specs.Assembly.{assembled, op_with, lines_in, op_in, IfFault};

use crate::coding::{code_of_lines, fault_at};
use crate::labels::labels_of;
use crate::lines::{Head, has_instruction, read_head, read_lines};
use pld_base::{FaultKind, Limit, Refused, SourceFault};
use std::alloc::Global;

// The most bytes of a text.
const MOST_BYTES: usize = 65536;

/// A softcore operator: the counts of its in-ports and of its out-ports, each at most 8, and its words of RV32IM code.
#[derive(Debug, Drop)]
pub struct AsmOp {
    pub ins: u8,
    pub outs: u8,
    pub code: Vec<u32>,
}

// The operator of the lines behind that of the ports.
fn op_behind(alloc: Global, head: Head) -> Result<AsmOp, Refused<SourceFault>>
    requires { head.next + length head.behind.now ≤ 65537 }
    ensures value { MatchResult result (λ op. op_with (head.entry.ins, head.entry.outs) head.entry.next (lines_in head.entry.next (lines_of head.entry.behind.now)) ≡ Ok (op_in op)) (λ e. IfFault e (λ f. op_with (head.entry.ins, head.entry.outs) head.entry.next (lines_in head.entry.next (lines_of head.entry.behind.now)) ≡ Err f)) }
    ensures words { IfOk result (λ op. All IsCode op.code.items) }
{
    let lines = read_lines(alloc, head.next, head.behind)?;
    if !has_instruction(lines.as_slice()) {
        let behind = head.next + lines.len() as u32;
        return Err(Refused::Fault(fault_at(behind, FaultKind::BadAsm)));
    }
    let Ok(labels) = labels_of(alloc, head.next, lines.as_slice()) else {
        return Err(Refused::NoMemory);
    };
    match code_of_lines(alloc, &labels, head.next, lines.as_slice()) {
        Err(refused) => Err(refused),
        Ok(code) => Ok(AsmOp {
            ins: head.ins,
            outs: head.outs,
            code,
        }),
    }
}

/// The operator that an assembly text spells.
///
/// `Fault` comes exactly where the text has one of these faults, of which the first applies, each at column 1 of its line:
/// more than 65,536 bytes, `TooLarge(Text)` at line 1; the first line that has no form, `BadAsm`, and where there is no such line and
/// no instruction, `BadAsm` at the line behind the last; the first line with a label that stands before, `NameTwice`, a target
/// without a label, `UnknownName`, or a number out of its range or an offset that is odd, `OutOfRange`.
///
/// The soft form of the code is in range.
pub fn assemble(alloc: Global, text: &[u8]) -> Result<AsmOp, Refused<SourceFault>>
    ensures exact { MatchResult result (λ op. assembled text.now ≡ Ok (op_in op)) (λ e. IfFault e (λ f. assembled text.now ≡ Err f)) }
    ensures in_range { IfOk result (λ op. IsForm (Soft op.ins op.outs op.code.items)) }
{
    if text.len() > MOST_BYTES {
        return Err(Refused::Fault(fault_at(1, FaultKind::TooLarge(Limit::Text))));
    }
    match read_head(text) {
        Err(fault) => Err(Refused::Fault(fault)),
        Ok(head) => op_behind(alloc, head),
    }
}
