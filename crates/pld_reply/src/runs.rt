//! The reply to a run.

ghost use Rattle.std.specs.Prelude.{◌≡◌, ◌+◌, ◌<◌, ◌≤◌, ◌++◌, OnOk, OnErr, decimal, codes, length, vec_len, vec_capacity};
ghost use Rattle.fabric_core.specs.Runs.{setup_for, state_of};
ghost use Rattle.fabric_run.specs.Replay.{outcome, blocked};
ghost use Rattle.fabric_run.specs.World.{out_at};
ghost use Rattle.fabric_run.specs.Shown.{shown};
ghost use Rattle.fabric_run.specs.Reply.{outcome_line, at_line, at_lines, out_line, spaced, lines_below, name_in, reply as run_reply};

use crate::put::{put_number, put_text};
use fabric_core::Fabric;
use fabric_run::{Blocked, Outcome};
use pld_base::{Name, NoMemory, Side};

/// Writes how a run ended.
fn put_outcome(reply: &mut Vec<u8>, rounds: u64, end: Option<Outcome>) -> Result<(), NoMemory>
    ensures text { OnOk result (reply.new.items ≡ reply.old.items ++ outcome_line end rounds) }
    ensures room { vec_capacity reply.old ≤ vec_capacity reply.new }
    ensures full { OnErr result (vec_capacity reply.old < vec_len reply.old + length (outcome_line end rounds)) }
{
    match end {
        None => Ok(()),
        Some(Outcome::Done) => put_text(reply, b"done\n"),
        Some(Outcome::Stalled) => put_text(reply, b"stalled\n"),
        Some(Outcome::Spent) => {
            put_text(reply, b"spent ")?;
            put_number(reply, rounds)?;
            put_text(reply, b"\n")
        }
    }
}

/// Writes the port at which an operator stands, if it stands at one.
fn put_port(reply: &mut Vec<u8>, name: &Name, at: Option<Blocked>) -> Result<(), NoMemory>
    ensures text { OnOk result (reply.new.items ≡ reply.old.items ++ at_line name.now at) }
    ensures room { vec_capacity reply.old ≤ vec_capacity reply.new }
    ensures full { OnErr result (vec_capacity reply.old < vec_len reply.old + length (at_line name.now at)) }
{
    let Some(at) = at else {
        return Ok(());
    };
    put_text(reply, b"at ")?;
    put_text(reply, name.as_bytes())?;
    match at.side {
        Side::In => {
            put_text(reply, b".i")?;
            put_number(reply, u64::from(at.port.0))?;
            put_text(reply, b" empty\n")
        }
        Side::Out => {
            put_text(reply, b".o")?;
            put_number(reply, u64::from(at.port.0))?;
            put_text(reply, b" full\n")
        }
    }
}

/// Writes each word behind a space.
fn put_words(reply: &mut Vec<u8>, words: &[u32]) -> Result<(), NoMemory>
    ensures text { OnOk result (reply.new.items ≡ reply.old.items ++ spaced words.now) }
    ensures room { vec_capacity reply.old ≤ vec_capacity reply.new }
    ensures full { OnErr result (vec_capacity reply.old < vec_len reply.old + length (spaced words.now)) }
{
    for word in words {
        put_text(reply, b" ")?;
        put_number(reply, u64::from(*word))?;
    }
    Ok(())
}

/// Writes the words of an output.
fn put_out(reply: &mut Vec<u8>, name: &Name, words: &[u32]) -> Result<(), NoMemory>
    ensures text { OnOk result (reply.new.items ≡ reply.old.items ++ out_line name.now words.now) }
    ensures room { vec_capacity reply.old ≤ vec_capacity reply.new }
    ensures full { OnErr result (vec_capacity reply.old < vec_len reply.old + length (out_line name.now words.now)) }
{
    put_text(reply, b"out ")?;
    put_text(reply, name.as_bytes())?;
    put_text(reply, b" ")?;
    put_number(reply, words.len() as u64)?;
    put_words(reply, words)?;
    put_text(reply, b"\n")
}

/// Writes the ports at which the operators stand, where the run is stalled.
fn put_ports(reply: &mut Vec<u8>, names: &[Name], fabric: &Fabric) -> Result<(), NoMemory>
    requires { length names.now ≡ length fabric.now.plan.pages }
    ensures text { OnOk result (reply.new.items ≡ reply.old.items ++ at_lines (name_in names.now) (outcome (setup_for fabric.now) (state_of fabric.now)) (blocked (setup_for fabric.now) (state_of fabric.now)) (length names.now)) }
    ensures room { vec_capacity reply.old ≤ vec_capacity reply.new }
    ensures full { OnErr result (vec_capacity reply.old < vec_len reply.old + length (at_lines (name_in names.now) (outcome (setup_for fabric.now) (state_of fabric.now)) (blocked (setup_for fabric.now) (state_of fabric.now)) (length names.now))) }
{
    match fabric.over() {
        None => Ok(()),
        Some(Outcome::Done) => Ok(()),
        Some(Outcome::Stalled) => put_stalled(reply, names, fabric),
        Some(Outcome::Spent) => Ok(()),
    }
}

/// Writes the ports at which the operators stand.
fn put_stalled(reply: &mut Vec<u8>, names: &[Name], fabric: &Fabric) -> Result<(), NoMemory>
    requires { length names.now ≡ length fabric.now.plan.pages }
    ensures text { OnOk result (reply.new.items ≡ reply.old.items ++ lines_below (λ k. at_line (name_in names.now k) (blocked (setup_for fabric.now) (state_of fabric.now) k)) (length names.now)) }
    ensures room { vec_capacity reply.old ≤ vec_capacity reply.new }
    ensures full { OnErr result (vec_capacity reply.old < vec_len reply.old + length (lines_below (λ k. at_line (name_in names.now k) (blocked (setup_for fabric.now) (state_of fabric.now) k)) (length names.now))) }
{
    for k in 0..names.len() {
        put_port(reply, &names[k], fabric.blocked(k))?;
    }
    Ok(())
}

/// Writes the words of the outputs.
fn put_outs(reply: &mut Vec<u8>, outputs: &[Name], fabric: &Fabric) -> Result<(), NoMemory>
    requires { length outputs.now ≡ fabric.now.plan.outs }
    ensures text { OnOk result (reply.new.items ≡ reply.old.items ++ lines_below (λ k. out_line (name_in outputs.now k) (out_at (state_of fabric.now) k)) (length outputs.now)) }
    ensures room { vec_capacity reply.old ≤ vec_capacity reply.new }
    ensures full { OnErr result (vec_capacity reply.old < vec_len reply.old + length (lines_below (λ k. out_line (name_in outputs.now k) (out_at (state_of fabric.now) k)) (length outputs.now))) }
{
    for k in 0..outputs.len() {
        put_out(reply, &outputs[k], fabric.out(k))?;
    }
    Ok(())
}

/// Writes the reply to a run, for the names of its operators and of its outputs: `done`, `stalled` or `spent ROUNDS` with the
/// rounds that were made; where it is stalled, the port at which each operator stands; and the words of each output. It fails only
/// where there is no room for all of it.
pub fn put_run(
    reply: &mut Vec<u8>,
    names: &[Name],
    outputs: &[Name],
    fabric: &Fabric,
) -> Result<(), NoMemory>
    requires names { length names.now ≡ length fabric.now.plan.pages }
    requires outputs { length outputs.now ≡ fabric.now.plan.outs }
    ensures text { OnOk result (reply.new.items ≡ reply.old.items ++ run_reply (name_in names.now) (name_in outputs.now) (length fabric.now.plan.pages) fabric.now.plan.outs (shown (setup_for fabric.now) (state_of fabric.now))) }
    ensures room { vec_capacity reply.old ≤ vec_capacity reply.new }
    ensures full { OnErr result (vec_capacity reply.old < vec_len reply.old + length (run_reply (name_in names.now) (name_in outputs.now) (length fabric.now.plan.pages) fabric.now.plan.outs (shown (setup_for fabric.now) (state_of fabric.now)))) }
{
    put_outcome(reply, fabric.counts().rounds, fabric.over())?;
    put_ports(reply, names, fabric)?;
    put_outs(reply, outputs, fabric)
}
