//! The lines of a text, read in order.

ghost use Rattle.std.specs.Prelude.{◌≡◌, ◌≤◌, ◌<◌, ◌+◌, ◌==◌, ◌++◌, ◌∷◌, [], not, length, IfOk, OnOk, MatchResult, Ok, Err};
ghost use Rattle.rv_asm.specs.Words.{lines_of};
ghost use Rattle.rv_asm.specs.Assembly.{lines_in, instructions, from_line, op_with, IfFault};

use crate::coding::fault_at;
use crate::line::{is_empty, line, ports};
use crate::words::split_line;
use crate::written::Line;
use pld_base::{FaultKind, NoMemory, Refused, SourceFault};
use std::alloc::Global;

/// The line of the ports, and what stands behind it.
#[derive(Clone, Copy)]
pub struct Head<'a> {
    pub ins: u8,
    pub outs: u8,
    /// The number of the next line.
    pub next: u32,
    pub behind: &'a [u8],
}

/// The line of the ports: the first one that isn't empty.
pub fn read_head(text: &[u8]) -> Result<Head, SourceFault>
    requires { length text.now ≤ 65536 }
    ensures value { MatchResult result (λ h. from_line 1 (lines_of text.now) ≡ op_with (h.ins, h.outs) h.next (lines_in h.next (lines_of h.behind.now))) (λ f. from_line 1 (lines_of text.now) ≡ Err f) }
    ensures bound { IfOk result (λ h. h.next + length h.behind.now ≤ 65537) }
{
    let mut at = 1;
    let mut rest = text;
    while !rest.is_empty() {
        let (first, behind) = split_line(rest);
        if !is_empty(first) {
            return match ports(first) {
                None => Err(fault_at(at, FaultKind::BadAsm)),
                Some((ins, outs)) => Ok(Head {
                    ins,
                    outs,
                    next: at + 1,
                    behind,
                }),
            };
        }
        at += 1;
        rest = behind;
    }
    Err(fault_at(at, FaultKind::BadAsm))
}

// Adds a line.
fn push_line(lines: &mut Vec<Line>, line: Line) -> Result<(), NoMemory>
    ensures { OnOk result (lines.new.items ≡ lines.old.items ++ line ∷ []) }
{
    match line {
        Line::Empty => lines.push(Line::Empty)?,
        Line::Label(name) => lines.push(Line::Label(name))?,
        Line::Instruction(written) => lines.push(Line::Instruction(written))?,
    }
    Ok(())
}

/// The lines of a text that stands behind the line of the ports, of which the first has this number.
pub fn read_lines(alloc: Global, first: u32, text: &[u8]) -> Result<Vec<Line>, Refused<SourceFault>>
    requires { first + length text.now ≤ 65537 }
    ensures value { MatchResult result (λ lines. lines_in first (lines_of text.now) ≡ Ok lines.items) (λ e. IfFault e (λ f. lines_in first (lines_of text.now) ≡ Err f)) }
    ensures bound { IfOk result (λ lines. first + length lines.items ≤ 65537) }
{
    let mut lines = Vec::new(alloc);
    let mut number = first;
    let mut rest = text;
    while !rest.is_empty() {
        let (bytes, behind) = split_line(rest);
        let Some(taken) = line(bytes) else {
            return Err(Refused::Fault(fault_at(number, FaultKind::BadAsm)));
        };
        let Ok(()) = push_line(&mut lines, taken) else {
            return Err(Refused::NoMemory);
        };
        number += 1;
        rest = behind;
    }
    Ok(lines)
}

/// Whether one of the lines is an instruction.
pub fn has_instruction(lines: &[Line]) -> bool
    ensures { result ≡ not (instructions lines.now == 0) }
{
    for entry in lines {
        match entry {
            Line::Empty => {}
            Line::Label(_) => {}
            Line::Instruction(_) => return true,
        }
    }
    false
}
