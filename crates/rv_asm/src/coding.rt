//! From what is written to words.

ghost use Rattle.std.specs.Prelude.{◌≡◌, ◌≤◌, ◌+◌, ◌∷◌, ℕ, suc, List, length, IfOk, OnOk, MatchResult, All, Ok, Err};
ghost use Rattle.std.specs.Str.{bytes_eq};
ghost use Rattle.std.specs.Map.{lookup};
ghost use Rattle.rv_isa.specs.Spelling.{spelling};
ghost use Rattle.rv_text.specs.Forms.{instr_of};
ghost use Rattle.rv_text.specs.declared.form.Form.TheVariants as forms;
ghost use Rattle.image_form.specs.Spelling.{IsCode};
ghost use Rattle.rv_asm.specs.Coding.{within as within_of, is_even as is_even_of, unsigned_of, imm_of, near_of, far_of, offset_of, distance as distance_of, stands_before as stands_before_of, on_value, coded as coded_of, code_of, led, fault_at as fault_of};
ghost use Rattle.rv_asm.specs.Assembly.{IfFault};
ghost use Rattle.rv_asm.specs.declared.written.Line.{Line};

use crate::labels::Seat;
use crate::written::{Line, Target, Written};
use indexmap::IndexMap;
use pld_base::{FaultKind, Name, Refused, SourceFault};
use rv_isa::{Far, Imm, Near, Reg, Shift, Upper, encode};
use rv_text::{AddressName, BranchName, Form, NumberName, ShiftName, StoreName, UpperName};
use std::alloc::Global;

/// A fault of this line.
pub fn fault_at(line: u32, kind: FaultKind) -> SourceFault
    ensures { result ≡ fault_of line kind }
{
    SourceFault {
        kind,
        line,
        column: 1,
    }
}

fn within(low: i64, high: i64, z: i64) -> bool
    ensures { result ≡ within_of low high z }
{
    low <= z && z <= high
}

fn is_even(z: i64) -> bool
    ensures { result ≡ is_even_of z }
{
    z.unsigned_abs() % 2 == 0
}

fn upper(z: i64) -> Result<Upper, FaultKind>
    ensures { result ≡ unsigned_of 1048575 z }
{
    if within(0, 1048575, z) {
        Ok(Upper::new(z as i32))
    } else {
        Err(FaultKind::OutOfRange)
    }
}

fn shift(z: i64) -> Result<Shift, FaultKind>
    ensures { result ≡ unsigned_of 31 z }
{
    if within(0, 31, z) {
        Ok(Shift::new(z as i32))
    } else {
        Err(FaultKind::OutOfRange)
    }
}

fn imm(z: i64) -> Result<Imm, FaultKind>
    ensures { result ≡ imm_of z }
{
    if within(-2048, 2047, z) {
        Ok(Imm::new(z as i32))
    } else {
        Err(FaultKind::OutOfRange)
    }
}

fn near(z: i64) -> Result<Near, FaultKind>
    ensures { result ≡ near_of z }
{
    if within(-4096, 4094, z) && is_even(z) {
        Ok(Near::new(z as i32))
    } else {
        Err(FaultKind::OutOfRange)
    }
}

fn far(z: i64) -> Result<Far, FaultKind>
    ensures { result ≡ far_of z }
{
    if within(-1048576, 1048574, z) && is_even(z) {
        Ok(Far::new(z as i32))
    } else {
        Err(FaultKind::OutOfRange)
    }
}

// From the instruction with so many in front of it to a label.
fn distance(seat: Option<Seat>, here: u32) -> Result<i64, FaultKind>
    ensures { result ≡ distance_of seat here }
{
    match seat {
        Some(seat) => Ok(4 * seat.before as i64 - 4 * here as i64),
        None => Err(FaultKind::UnknownName),
    }
}

// How far a target is from the instruction with so many in front of it.
fn offset(labels: &IndexMap<Name, Seat>, here: u32, target: &Target) -> Result<i64, FaultKind>
    ensures { result ≡ offset_of (λ q. lookup (bytes_eq q) labels.now.entries) here target.now }
{
    match target {
        Target::Label(name) => distance(labels.get(name).copied(), here),
        Target::Offset(bytes) => Ok(*bytes),
    }
}

// Whether the label stands on an earlier line than this one.
fn stands_before(line: u32, seat: Option<Seat>) -> bool
    ensures { result ≡ stands_before_of line seat }
{
    match seat {
        Some(seat) => seat.line < line,
        None => false,
    }
}

// The parts of an instruction, with its number in range.
fn with_upper(name: UpperName, rd: Reg, z: i64) -> Result<Form, FaultKind>
    ensures { result ≡ on_value (unsigned_of 1048575 z) (λ imm. Ok (forms.Upper name rd imm)) }
{
    let imm = upper(z)?;
    Ok(Form::Upper { name, rd, imm })
}

fn with_jump(rd: Reg, z: Result<i64, FaultKind>) -> Result<Form, FaultKind>
    ensures { result ≡ on_value z (λ z. on_value (far_of z) (λ imm. Ok (forms.Jump rd imm))) }
{
    let imm = far(z?)?;
    Ok(Form::Jump { rd, imm })
}

fn with_branch(
    name: BranchName,
    rs1: Reg,
    rs2: Reg,
    z: Result<i64, FaultKind>,
) -> Result<Form, FaultKind>
    ensures { result ≡ on_value z (λ z. on_value (near_of z) (λ imm. Ok (forms.Branch name rs1 rs2 imm))) }
{
    let imm = near(z?)?;
    Ok(Form::Branch {
        name,
        rs1,
        rs2,
        imm,
    })
}

fn with_address(name: AddressName, rd: Reg, rs1: Reg, z: i64) -> Result<Form, FaultKind>
    ensures { result ≡ on_value (imm_of z) (λ imm. Ok (forms.Address name rd rs1 imm)) }
{
    let imm = imm(z)?;
    Ok(Form::Address { name, rd, rs1, imm })
}

fn with_store(name: StoreName, rs1: Reg, rs2: Reg, z: i64) -> Result<Form, FaultKind>
    ensures { result ≡ on_value (imm_of z) (λ imm. Ok (forms.Store name rs1 rs2 imm)) }
{
    let imm = imm(z)?;
    Ok(Form::Store {
        name,
        rs1,
        rs2,
        imm,
    })
}

fn with_shift(name: ShiftName, rd: Reg, rs1: Reg, z: i64) -> Result<Form, FaultKind>
    ensures { result ≡ on_value (unsigned_of 31 z) (λ by. Ok (forms.Shift name rd rs1 by)) }
{
    let by = shift(z)?;
    Ok(Form::Shift { name, rd, rs1, by })
}

fn with_number(name: NumberName, rd: Reg, rs1: Reg, z: i64) -> Result<Form, FaultKind>
    ensures { result ≡ on_value (imm_of z) (λ imm. Ok (forms.Number name rd rs1 imm)) }
{
    let imm = imm(z)?;
    Ok(Form::Number { name, rd, rs1, imm })
}

// What is written so, with so many instructions in front of it.
fn coded(labels: &IndexMap<Name, Seat>, here: u32, written: &Written) -> Result<Form, FaultKind>
    requires { here ≤ 65537 }
    ensures { result ≡ coded_of (λ q. lookup (bytes_eq q) labels.now.entries) here written.now }
{
    match written {
        Written::Upper { name, rd, number } => with_upper(*name, *rd, *number),
        Written::Jump { rd, target } => with_jump(*rd, offset(labels, here, target)),
        Written::Branch {
            name,
            rs1,
            rs2,
            target,
        } => with_branch(*name, *rs1, *rs2, offset(labels, here, target)),
        Written::Address {
            name,
            rd,
            rs1,
            number,
        } => with_address(*name, *rd, *rs1, *number),
        Written::Store {
            name,
            rs1,
            rs2,
            number,
        } => with_store(*name, *rs1, *rs2, *number),
        Written::Shift {
            name,
            rd,
            rs1,
            number,
        } => with_shift(*name, *rd, *rs1, *number),
        Written::Number {
            name,
            rd,
            rs1,
            number,
        } => with_number(*name, *rd, *rs1, *number),
        Written::Registers { name, rd, rs1, rs2 } => Ok(Form::Registers {
            name: *name,
            rd: *rd,
            rs1: *rs1,
            rs2: *rs2,
        }),
        Written::Bare { name } => Ok(Form::Bare { name: *name }),
    }
}

// The word of what is so formed.
fn word_of(form: Form) -> u32
    ensures value { result ≡ spelling (instr_of form) }
    ensures code { IsCode result }
{
    encode(form.instr())
}

// Adds the word of a line with this number and so many instructions in front of it, if it is an instruction; how many stand in
// front of the next one.
fn add_line(
    code: &mut Vec<u32>,
    labels: &IndexMap<Name, Seat>,
    line: &Line,
    number: u32,
    before: u32,
) -> Result<u32, Refused<SourceFault>>
    requires before { before ≤ 65537 }
    requires words { All IsCode code.old.items }
    ensures value { MatchResult result (λ after. (rest : List Line) → led code.new.items (code_of (λ q. lookup (bytes_eq q) labels.now.entries) (suc number) after rest) ≡ led code.old.items (code_of (λ q. lookup (bytes_eq q) labels.now.entries) number before (line.now ∷ rest))) (λ e. IfFault e (λ f. (rest : List Line) → code_of (λ q. lookup (bytes_eq q) labels.now.entries) number before (line.now ∷ rest) ≡ Err f)) }
    ensures bound { IfOk result (λ after. after ≤ before + 1) }
    ensures words { OnOk result (All IsCode code.new.items) }
{
    match line {
        Line::Empty => Ok(before),
        Line::Label(name) => {
            if stands_before(number, labels.get(name).copied()) {
                Err(Refused::Fault(fault_at(number, FaultKind::NameTwice)))
            } else {
                Ok(before)
            }
        }
        Line::Instruction(written) => match coded(labels, before, written) {
            Err(kind) => Err(Refused::Fault(fault_at(number, kind))),
            Ok(form) => match code.push(word_of(form)) {
                Ok(()) => Ok(before + 1),
                Err(_) => Err(Refused::NoMemory),
            },
        },
    }
}

/// The words of lines, of which the first has this number, or the fault of the first line that has one.
pub fn code_of_lines(
    alloc: Global,
    labels: &IndexMap<Name, Seat>,
    first: u32,
    lines: &[Line],
) -> Result<Vec<u32>, Refused<SourceFault>>
    requires { first + length lines.now ≤ 65537 }
    ensures value { MatchResult result (λ code. code_of (λ q. lookup (bytes_eq q) labels.now.entries) first 0 lines.now ≡ Ok code.items) (λ e. IfFault e (λ f. code_of (λ q. lookup (bytes_eq q) labels.now.entries) first 0 lines.now ≡ Err f)) }
    ensures words { IfOk result (λ code. All IsCode code.items) }
{
    let mut code = Vec::new(alloc);
    let mut number = first;
    let mut before = 0;
    for line in lines {
        match add_line(&mut code, labels, line, number, before) {
            Err(refused) => return Err(refused),
            Ok(after) => before = after,
        }
        number += 1;
    }
    Ok(code)
}
