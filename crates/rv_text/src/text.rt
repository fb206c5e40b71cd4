//! Instructions as text.

ghost use Rattle.std.specs.Prelude.{◌≡◌, Some, codes};
ghost use Rattle.std.specs.Fmt.{DisplaysOnOk, signed_decimal};
ghost use Rattle.rv_text.specs.Names.{upper_name, branch_name, address_name, store_name, shift_name, number_name, registers_name, bare_name};
ghost use Rattle.rv_text.specs.Texts.{comma, plain, address, register, two, three, text_of};

use crate::Form;
use rv_isa::{Far, Imm, Instr, Near, Reg, Shift, Upper};
use std::fmt;

/// How operands are written.
#[derive(Clone, Copy, PartialEq, Eq, Debug)]
pub enum Style {
    /// As in a listing: a comma between two operands, and the upper 20 bits and shifts in hexadecimal.
    Dump,
    /// As in a source text: a comma and a space between two operands, and all numbers in decimal.
    Source,
}

impl Style {
    // What stands between two operands.
    fn comma(self) -> &'static str
        ensures { result.now ≡ comma self }
    {
        match self {
            Style::Dump => ",",
            Style::Source => ", ",
        }
    }
}

/// An instruction, shown in assembler form: registers by their numbers, as `x10`, and the targets of branches and
/// jumps as offsets in bytes.
#[derive(Clone, Copy, PartialEq, Eq, Debug)]
pub struct Text {
    pub style: Style,
    pub instr: Instr,
}

// A number without a sign.
#[derive(Clone, Copy, Drop)]
struct Plain {
    style: Style,
    number: u32,
}

impl fmt::Display for Plain {
    ghost output = { λ p. Some (plain p.style p.number) };

    fn fmt<W: fmt::Write>(&self, f: &mut fmt::Formatter<W>) -> fmt::Result {
        let number = self.number;
        match self.style {
            Style::Dump => write!(f, "0x{number:x}"),
            Style::Source => write!(f, "{number}"),
        }
    }
}

impl fmt::Display for Text {
    ghost output = { λ t. Some (text_of t.style t.instr) };

    fn fmt<W: fmt::Write>(&self, f: &mut fmt::Formatter<W>) -> fmt::Result {
        let style = self.style;
        match Form::of(self.instr) {
            Form::Upper { name, rd, imm } => by_upper(f, style, name.text(), rd, imm),
            Form::Jump { rd, imm } => to_far(f, style, "jal", rd, imm),
            Form::Branch {
                name,
                rs1,
                rs2,
                imm,
            } => to_near(f, style, name.text(), rs1, rs2, imm),
            Form::Address { name, rd, rs1, imm } => at_address(f, style, name.text(), rd, rs1, imm),
            Form::Store {
                name,
                rs1,
                rs2,
                imm,
            } => at_address(f, style, name.text(), rs2, rs1, imm),
            Form::Shift { name, rd, rs1, by } => by_shift(f, style, name.text(), rd, rs1, by),
            Form::Number { name, rd, rs1, imm } => by_number(f, style, name.text(), rd, rs1, imm),
            Form::Registers { name, rd, rs1, rs2 } => by_registers(
                f,
                style,
                name.text(),
                rd,
                rs1,
                rs2,
            ),
            Form::Bare { name } => write!(f, "{}", name.text()),
        }
    }
}

// A register and the upper 20 bits.
fn by_upper<W: fmt::Write>(
    f: &mut fmt::Formatter<W>,
    style: Style,
    mnemonic: &str,
    rd: Reg,
    imm: Upper,
) -> fmt::Result
    ensures { DisplaysOnOk W.write_str_gives f.old result (Some (two style mnemonic.now (register rd) (plain style imm))) f.new }
{
    let (comma, rd) = (style.comma(), rd.index());
    let imm = Plain {
        style,
        number: imm.value() as u32,
    };
    write!(f, "{mnemonic} x{rd}{comma}{imm}")
}

// A register and a jump's offset.
fn to_far<W: fmt::Write>(
    f: &mut fmt::Formatter<W>,
    style: Style,
    mnemonic: &str,
    rd: Reg,
    imm: Far,
) -> fmt::Result
    ensures { DisplaysOnOk W.write_str_gives f.old result (Some (two style mnemonic.now (register rd) (signed_decimal imm))) f.new }
{
    let (comma, rd, imm) = (style.comma(), rd.index(), imm.value());
    write!(f, "{mnemonic} x{rd}{comma}{imm}")
}

// Two registers and a branch's offset.
fn to_near<W: fmt::Write>(
    f: &mut fmt::Formatter<W>,
    style: Style,
    mnemonic: &str,
    rs1: Reg,
    rs2: Reg,
    imm: Near,
) -> fmt::Result
    ensures { DisplaysOnOk W.write_str_gives f.old result (Some (three style mnemonic.now (register rs1) (register rs2) (signed_decimal imm))) f.new }
{
    let (comma, rs1, rs2, imm) = (style.comma(), rs1.index(), rs2.index(), imm.value());
    write!(f, "{mnemonic} x{rs1}{comma}x{rs2}{comma}{imm}")
}

// A register that is written or stored, and an address.
fn at_address<W: fmt::Write>(
    f: &mut fmt::Formatter<W>,
    style: Style,
    mnemonic: &str,
    first: Reg,
    rs1: Reg,
    imm: Imm,
) -> fmt::Result
    ensures { DisplaysOnOk W.write_str_gives f.old result (Some (two style mnemonic.now (register first) (address rs1 imm))) f.new }
{
    let (comma, first, rs1, imm) = (style.comma(), first.index(), rs1.index(), imm.value());
    write!(f, "{mnemonic} x{first}{comma}{imm}(x{rs1})")
}

// Two registers and a shift.
fn by_shift<W: fmt::Write>(
    f: &mut fmt::Formatter<W>,
    style: Style,
    mnemonic: &str,
    rd: Reg,
    rs1: Reg,
    by: Shift,
) -> fmt::Result
    ensures { DisplaysOnOk W.write_str_gives f.old result (Some (three style mnemonic.now (register rd) (register rs1) (plain style by))) f.new }
{
    let (comma, rd, rs1) = (style.comma(), rd.index(), rs1.index());
    let by = Plain {
        style,
        number: by.value() as u32,
    };
    write!(f, "{mnemonic} x{rd}{comma}x{rs1}{comma}{by}")
}

// Two registers and a number.
fn by_number<W: fmt::Write>(
    f: &mut fmt::Formatter<W>,
    style: Style,
    mnemonic: &str,
    rd: Reg,
    rs1: Reg,
    imm: Imm,
) -> fmt::Result
    ensures { DisplaysOnOk W.write_str_gives f.old result (Some (three style mnemonic.now (register rd) (register rs1) (signed_decimal imm))) f.new }
{
    let (comma, rd, rs1, imm) = (style.comma(), rd.index(), rs1.index(), imm.value());
    write!(f, "{mnemonic} x{rd}{comma}x{rs1}{comma}{imm}")
}

// Three registers.
fn by_registers<W: fmt::Write>(
    f: &mut fmt::Formatter<W>,
    style: Style,
    mnemonic: &str,
    rd: Reg,
    rs1: Reg,
    rs2: Reg,
) -> fmt::Result
    ensures { DisplaysOnOk W.write_str_gives f.old result (Some (three style mnemonic.now (register rd) (register rs1) (register rs2))) f.new }
{
    let (comma, rd, rs1, rs2) = (style.comma(), rd.index(), rs1.index(), rs2.index());
    write!(f, "{mnemonic} x{rd}{comma}x{rs1}{comma}x{rs2}")
}
