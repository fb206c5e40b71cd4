//! Where the labels of a text stand.

ghost use Rattle.std.specs.Prelude.{◌≡◌, ◌≤◌, ◌+◌, ◌∷◌, ℕ, suc, List, length, cond, IfOk, OnOk, Some, None};
ghost use Rattle.std.specs.Option.{option_or};
ghost use Rattle.std.specs.Str.{bytes_eq};
ghost use Rattle.std.specs.Map.{lookup};
ghost use Rattle.rv_asm.specs.Coding.{first_label};
ghost use Rattle.rv_asm.specs.declared.written.Line.{Line};

use crate::written::Line;
use indexmap::IndexMap;
use pld_base::{Name, NoMemory};
use std::alloc::Global;

/// Where the first label of a name stands: the number of its line, and how many instructions stand in front of it.
#[derive(Clone, Copy)]
pub struct Seat {
    pub line: u32,
    pub before: u32,
}

// Notes where a label stands, unless there is one of that name already.
fn note(labels: &mut IndexMap<Name, Seat>, name: &Name, seat: Seat) -> Result<(), NoMemory>
    ensures { OnOk result ((q : List ℕ) → lookup (bytes_eq q) labels.new.entries ≡ option_or (lookup (bytes_eq q) labels.old.entries) (cond (bytes_eq name.now q) (Some seat) None)) }
{
    if labels.get(name).is_none() {
        labels.insert(*name, seat)?;
    }
    Ok(())
}

// Notes a line with this number and so many instructions in front of it; how many stand in front of the next one.
fn note_line(
    labels: &mut IndexMap<Name, Seat>,
    line: &Line,
    number: u32,
    before: u32,
) -> Result<u32, NoMemory>
    requires { before ≤ 65537 }
    ensures labels { IfOk result (λ after. (q : List ℕ) (rest : List Line) → option_or (lookup (bytes_eq q) labels.new.entries) (first_label q (suc number) after rest) ≡ option_or (lookup (bytes_eq q) labels.old.entries) (first_label q number before (line.now ∷ rest))) }
    ensures bound { IfOk result (λ after. after ≤ before + 1) }
{
    match line {
        Line::Empty => Ok(before),
        Line::Label(name) => {
            let seat = Seat {
                line: number,
                before,
            };
            note(labels, name, seat)?;
            Ok(before)
        }
        Line::Instruction(_) => Ok(before + 1),
    }
}

/// The labels of lines, of which the first has this number.
pub fn labels_of(
    alloc: Global,
    first: u32,
    lines: &[Line],
) -> Result<IndexMap<Name, Seat>, NoMemory>
    requires { first + length lines.now ≤ 65537 }
    ensures { IfOk result (λ labels. (q : List ℕ) → lookup (bytes_eq q) labels.entries ≡ first_label q first 0 lines.now) }
{
    let mut labels = IndexMap::new(alloc);
    let mut number = first;
    let mut before = 0;
    for line in lines {
        before = note_line(&mut labels, line, number, before)?;
        number += 1;
    }
    Ok(labels)
}
