//! A run of an operator on lists of words.

ghost use Rattle.std.specs.Prelude.{◌≡◌, ℕ, List, [], map, get_or, length, slice_index, IfOk};
ghost use Rattle.pld_ast.specs.Meaning.{State, trace, trace_of};
ghost use Rattle.pld_ast.specs.Resolve.{program_of};
ghost use Rattle.pld_mean.specs.Run.{outcome_of, ended_in, IsTraced, inputs_of};

use crate::exec::block;
use crate::vars::{CEnd, Flow, Vars};
use pld_base::{Event, NoMemory};
use pld_check::Checked;
use std::alloc::Global;

/// A run of an operator: its reads and writes in order, and how it ended.
#[derive(Drop)]
pub struct CRun {
    pub events: Vec<Event>,
    pub end: CEnd,
}

// How a run ends after its last statement.
fn ended(flow: Flow) -> CEnd
    ensures { (st : State) → trace_of (outcome_of flow st) ≡ ended_in st result }
{
    match flow {
        Flow::Goes => CEnd::Returned,
        Flow::Over(end) => end,
    }
}

/// Runs an operator on the words of its in-ports, in their order. Each execution of a loop makes at
/// most so many turns; a loop that wants another one ends the run.
pub fn run_c(alloc: Global, op: &Checked, ins: &[Vec<u32>], turns: u64) -> Result<CRun, NoMemory>
    requires { length ins.now ≡ (program_of op.now).ins }
    ensures { IfOk result (λ run. IsTraced run (trace (program_of op.now) (inputs_of (map (λ v. v.items) ins.now)) turns)) }
{
    let tree = op.operator();
    let mut vars = Vars::new(alloc, tree)?;
    let flow = block(tree, ins, turns, &mut vars, tree.body.as_slice())?;
    let end = ended(flow);
    Ok(CRun {
        events: vars.into_events(),
        end,
    })
}
