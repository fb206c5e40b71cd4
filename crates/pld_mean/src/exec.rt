//! What statements do.

ghost use Rattle.std.specs.Prelude.{◌≡◌, ◌<◌, ◌≤◌, ℕ, List, map, IfOk, OnOk};
ghost use Rattle.pld_ast.specs.Program.{Write as write_of};
ghost use Rattle.pld_ast.specs.Meaning.{Goes, value_of, turns as turns_of};
ghost use Rattle.pld_ast.specs.Resolve.{value_in, action_in, block_in, declared_in, program_of, assigned, read_to, place_in};
ghost use Rattle.pld_ast.specs.Sound.{IsSound, IsKnownValue};
ghost use Rattle.pld_check.specs.Known.{IsKnownTarget};
ghost use Rattle.pld_mean.specs.Vars.{state_of, sizes_of, sizes_in, IsSpot};
ghost use Rattle.pld_mean.specs.Targets.{spot_of};
ghost use Rattle.pld_mean.specs.Run.{outcome_of, Does};

use crate::eval::{eval, index_at};
use crate::vars::{CEnd, Flow, Spot, Vars};
use pld_ast::{Expr, Operator, Stmt, Target, place_of, port_place};
use pld_base::{Event, Name, NoMemory, PortNo, Side};

// The variable that a target stands for now.
fn spot(op: &Operator, vars: &Vars, to: &Target) -> Spot
    requires { IsSound (program_of op.now) }
    ensures value { (ins : List (List ℕ)) → IsKnownTarget op.now to.now → result ≡ spot_of (declared_in op.now) (program_of op.now).lengths to.now (state_of ins vars.now) }
    ensures there { IsKnownTarget op.now to.now → IsSpot (sizes_in (program_of op.now)) result }
{
    match to {
        Target::Scalar(u) => Spot::Scalar(place_of(op.scalars.as_slice(), &u.name)),
        Target::Element(u, i) => {
            let arrays = op.arrays.as_slice();
            let t = place_of(arrays, &u.name);
            Spot::Element(t, index_at(arrays, t, eval(op, vars, i)))
        }
    }
}

// An assignment.
fn assign(op: &Operator, vars: &mut Vars, to: &Target, e: &Expr) -> Flow
    requires sound { IsSound (program_of op.now) }
    requires sized { sizes_of vars.old ≡ sizes_in (program_of op.now) }
    ensures does { (ins : List (List ℕ)) (n : ℕ) → Does (program_of op.now) ins n (assigned (declared_in op.now) to.now e.now) vars.old result vars.new }
    ensures sizes { sizes_of vars.new ≡ sizes_of vars.old }
{
    let spot = spot(op, vars, to);
    let v = eval(op, vars, e);
    vars.put(spot, v);
    Flow::Goes
}

// A read of the in-port with this name.
fn read(
    op: &Operator,
    ins: &[Vec<u32>],
    vars: &mut Vars,
    to: &Target,
    port: &Name,
) -> Result<Flow, NoMemory>
    requires sound { IsSound (program_of op.now) }
    requires sized { sizes_of vars.old ≡ sizes_in (program_of op.now) }
    ensures does { (n : ℕ) → IfOk result (λ flow. Does (program_of op.now) (map (λ v. v.items) ins.now) n (read_to (declared_in op.now) to.now (place_in (declared_in op.now).ins port.now)) vars.old flow vars.new) }
    ensures sizes { OnOk result (sizes_of vars.new ≡ sizes_of vars.old) }
{
    let p = port_place(op.ports.as_slice(), Side::In, port);
    let spot = spot(op, vars, to);
    let taken = vars.take(ins, p)?;
    match taken {
        None => Ok(Flow::Over(CEnd::Starved(PortNo(p as u8)))),
        Some(word) => {
            vars.put(spot, word);
            Ok(Flow::Goes)
        }
    }
}

// A write to the out-port with this name.
fn write(op: &Operator, vars: &mut Vars, port: &Name, e: &Expr) -> Result<Flow, NoMemory>
    requires sound { IsSound (program_of op.now) }
    ensures does { (ins : List (List ℕ)) (n : ℕ) → IfOk result (λ flow. Does (program_of op.now) ins n (write_of (place_in (declared_in op.now).outs port.now) (value_in (declared_in op.now) e.now)) vars.old flow vars.new) }
    ensures sizes { OnOk result (sizes_of vars.new ≡ sizes_of vars.old) }
{
    let p = port_place(op.ports.as_slice(), Side::Out, port);
    let v = eval(op, vars, e);
    vars.note(Event::Write(PortNo(p as u8), v))?;
    Ok(Flow::Goes)
}

// Where no turn is left, a loop ends, or is cut.
fn without_turns(op: &Operator, vars: &Vars, e: &Expr) -> Flow
    requires { IsSound (program_of op.now) }
    ensures { (ins : List (List ℕ)) → IsKnownValue (program_of op.now) (value_in (declared_in op.now) e.now) → outcome_of result (state_of ins vars.now) ≡ turns_of 0 (value_of (program_of op.now).lengths (value_in (declared_in op.now) e.now)) Goes (state_of ins vars.now) }
{
    if eval(op, vars, e) == 0 {
        Flow::Goes
    } else {
        Flow::Over(CEnd::Cut)
    }
}

// A statement, where a loop makes at most so many turns.
#[cycle(exec)]
fn statement(
    op: &Operator,
    ins: &[Vec<u32>],
    turns: u64,
    vars: &mut Vars,
    s: &Stmt,
) -> Result<Flow, NoMemory>
    requires sound { IsSound (program_of op.now) }
    requires sized { sizes_of vars.old ≡ sizes_in (program_of op.now) }
    ensures does { IfOk result (λ flow. Does (program_of op.now) (map (λ v. v.items) ins.now) turns (action_in (declared_in op.now) s.now) vars.old flow vars.new) }
    ensures sizes { OnOk result (sizes_of vars.new ≡ sizes_of vars.old) }
{
    match s {
        Stmt::Assign(to, e) => Ok(assign(op, vars, to, e)),
        Stmt::Read(to, port) => read(op, ins, vars, to, &port.name),
        Stmt::Write(port, e) => write(op, vars, &port.name, e),
        Stmt::If(e, a, b) => {
            if eval(op, vars, e) == 0 {
                block(op, ins, turns, vars, b.as_slice())
            } else {
                block(op, ins, turns, vars, a.as_slice())
            }
        }
        Stmt::While(e, a) => {
            for _turn in 0..turns {
                if eval(op, vars, e) == 0 {
                    return Ok(Flow::Goes);
                }
                let flow = block(op, ins, turns, vars, a.as_slice())?;
                if let Flow::Over(end) = flow {
                    return Ok(Flow::Over(end));
                }
            }
            Ok(without_turns(op, vars, e))
        }
        Stmt::Return => Ok(Flow::Over(CEnd::Returned)),
    }
}

/// Statements, one after the other, where each execution of a loop makes at most so many turns.
#[cycle(exec)]
pub fn block(
    op: &Operator,
    ins: &[Vec<u32>],
    turns: u64,
    vars: &mut Vars,
    body: &[Stmt],
) -> Result<Flow, NoMemory>
    requires sound { IsSound (program_of op.now) }
    requires sized { sizes_of vars.old ≡ sizes_in (program_of op.now) }
    ensures does { IfOk result (λ flow. Does (program_of op.now) (map (λ v. v.items) ins.now) turns (block_in (declared_in op.now) body.now) vars.old flow vars.new) }
    ensures sizes { OnOk result (sizes_of vars.new ≡ sizes_of vars.old) }
{
    for s in body {
        let flow = statement(op, ins, turns, vars, s)?;
        if let Flow::Over(end) = flow {
            return Ok(Flow::Over(end));
        }
    }
    Ok(Flow::Goes)
}
