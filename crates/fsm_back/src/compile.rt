//! Operators, compiled for hardware pages.

ghost use Rattle.std.specs.Prelude.{◌≡◌, IfOk, map};
ghost use Rattle.pld_base.specs.Process.{WritesWords};
ghost use Rattle.pld_kahn.specs.Realises.{Realises};
ghost use Rattle.pld_ast.specs.Meaning.{trace};
ghost use Rattle.pld_ast.specs.Resolve.{program_of};
ghost use Rattle.fsm_core.specs.Table.{plan_in, stage_in};
ghost use Rattle.pld_image.specs.Processes.{process_of};
ghost use Rattle.pld_image.specs.Traps.{NeverTraps};
ghost use Rattle.fsm_back.specs.Form.{hard_form};

use crate::laws::{tables_are_in_range, tables_keep_the_meaning};
use crate::sequence::{first_states, put_all, sequences};
use fsm_core::{State, Table};
use fsm_ir::lower;
use pld_ast::Array;
use pld_base::{NoMemory, Permit};
use pld_check::Checked;
use pld_image::{Image, ImageForm};
use std::alloc::Global;

// The lengths of arrays.
fn lengths(alloc: Global, arrays: &[Array]) -> Result<Vec<u32>, NoMemory>
    ensures { IfOk result (λ lengths. lengths.items ≡ map (λ a. a.len) arrays.now) }
{
    let mut lengths = Vec::new(alloc);
    for array in arrays {
        lengths.push(array.len)?;
    }
    Ok(lengths)
}

// The table of an operator with these lengths of its arrays, so many registers and these states.
fn table_of(checked: &Checked, arrays: Vec<u32>, registers: u32, states: Vec<State>) -> Table
    ensures { plan_in result ≡ record { ins = (program_of checked.now).ins; outs = (program_of checked.now).outs; arrays = arrays.items; registers = registers; states = map stage_in states.items } }
{
    Table {
        ins: checked.ins(),
        outs: checked.outs(),
        arrays,
        registers,
        states,
    }
}

/// Compiles an operator for a hardware page. The permit is spent. The image has the operator's table,
/// which is in range. It does what the operator means: no more, no less, it returns where that returns and
/// starves where that starves. It never traps, and it writes words.
pub fn compile_hard(alloc: Global, permit: Permit, checked: &Checked) -> Result<Image, NoMemory>
    ensures form { IfOk result (λ image. image ≡ hard_form checked.now) }
    ensures realises { IfOk result (λ image. Realises (process_of image) (trace (program_of checked.now))) }
    ensures never_traps { IfOk result (λ image. NeverTraps image) }
    ensures writes_words { IfOk result (λ image. WritesWords (process_of image)) }
{
    tables_are_in_range();
    tables_keep_the_meaning();
    let op = checked.operator();
    let lowered = lower(alloc, checked)?;
    let blocks = sequences(alloc, lowered.blocks.as_slice())?;
    let firsts = first_states(alloc, blocks.as_slice())?;
    let states = put_all(alloc, blocks, firsts.as_slice())?;
    let arrays = lengths(alloc, op.arrays.as_slice())?;
    let table = table_of(checked, arrays, lowered.registers as u32, states);
    Ok(Image::of(permit, ImageForm::Hard { table }))
}
