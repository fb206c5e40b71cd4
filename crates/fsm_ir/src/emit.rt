//! From the tree of an operator to its blocks.

ghost use Rattle.std.specs.Prelude.{◌≡◌, ◌≤◌, ◌<◌, IfOk, OnOk, map};
ghost use Rattle.pld_ast.specs.Resolve.{scalar_no, array_no, value_in, action_in, block_in, program_of, assigned, read_to, declared_in};
ghost use Rattle.fsm_ir.specs.Blocks.{blocks_of, whole};
ghost use Rattle.fsm_ir.specs.Building.{made_in, piece_in, after, HasRoom, HasTemps, IsPut, HasSpace};

use crate::block::{Block, Lowered};
use crate::builder::Builder;
use fsm_core::Next;
use pld_ast::{Expr, Operator, Stmt, Target, Used, place_of, port_place, type_in};
use pld_base::{NoMemory, Side};
use pld_check::Checked;
use std::alloc::Global;

// A scalar's register.
fn register_of(op: &Operator, used: &Used) -> u16
    requires { HasRoom op.now }
    ensures { result ≡ scalar_no (declared_in op.now) used.now.name }
{
    place_of(op.scalars.as_slice(), &used.name) as u16
}

// An array's number.
fn array_of(op: &Operator, used: &Used) -> u8
    requires { HasRoom op.now }
    ensures { result ≡ array_no (declared_in op.now) used.now.name }
{
    place_of(op.arrays.as_slice(), &used.name) as u8
}

// The micros of an expression, and the register that it is left in.
fn put_value(b: &mut Builder, op: &Operator, e: &Expr) -> Result<u16, NoMemory>
    requires { HasRoom op.now }
    ensures { IfOk result (λ r. HasTemps (made_in b.old) (value_in (declared_in op.now) e.now) → IsPut (value_in (declared_in op.now) e.now) (made_in b.old) (made_in b.new) r) }
{
    match e {
        Expr::Lit(v, _) => b.put_number(*v),
        Expr::Var(u) => Ok(register_of(op, u)),
        Expr::Element(u, i) => {
            let index = put_value(b, op, i.get())?;
            b.put_load(array_of(op, u), index)
        }
        Expr::Unary(o, x) => {
            let operand = put_value(b, op, x.get())?;
            b.put_unary(*o, operand)
        }
        Expr::Binary(o, x, y) => {
            let left = x.get();
            let right = y.get();
            let first = put_value(b, op, left)?;
            let second = put_value(b, op, right)?;
            b.put_binary(*o, type_in(op, left), type_in(op, right), first, second)
        }
        Expr::Cast(_, x) => put_value(b, op, x.get()),
    }
}

// The micros of an assignment.
fn put_assign(b: &mut Builder, op: &Operator, to: &Target, e: &Expr) -> Result<(), NoMemory>
    requires { HasRoom op.now }
    ensures { OnOk result (HasSpace (made_in b.old) (assigned (declared_in op.now) to.now e.now) → made_in b.new ≡ after (made_in b.old) (assigned (declared_in op.now) to.now e.now)) }
{
    match to {
        Target::Scalar(u) => {
            let value = put_value(b, op, e)?;
            b.put_move(register_of(op, u), value)
        }
        Target::Element(u, i) => {
            let index = put_value(b, op, i)?;
            let value = put_value(b, op, e)?;
            b.put_store(array_of(op, u), index, value)
        }
    }
}

// The micros of a read from an in-port.
fn put_input(b: &mut Builder, op: &Operator, to: &Target, port: u8) -> Result<(), NoMemory>
    requires { HasRoom op.now }
    ensures { OnOk result (HasSpace (made_in b.old) (read_to (declared_in op.now) to.now port) → made_in b.new ≡ after (made_in b.old) (read_to (declared_in op.now) to.now port)) }
{
    match to {
        Target::Scalar(u) => b.put_read(register_of(op, u), port),
        Target::Element(u, i) => {
            let index = put_value(b, op, i)?;
            let word = b.put_taken(port)?;
            b.put_store(array_of(op, u), index, word)
        }
    }
}

// The blocks of a statement.
#[cycle(statements)]
fn put_statement(alloc: Global, b: &mut Builder, op: &Operator, s: &Stmt) -> Result<(), NoMemory>
    requires { HasRoom op.now }
    ensures { OnOk result (HasSpace (made_in b.old) (action_in (declared_in op.now) s.now) → made_in b.new ≡ after (made_in b.old) (action_in (declared_in op.now) s.now)) }
{
    match s {
        Stmt::Assign(to, e) => put_assign(b, op, to, e),
        Stmt::Read(to, port) => {
            let place = port_place(op.ports.as_slice(), Side::In, &port.name) as u8;
            put_input(b, op, to, place)
        }
        Stmt::Write(port, e) => {
            let value = put_value(b, op, e)?;
            let place = port_place(op.ports.as_slice(), Side::Out, &port.name) as u8;
            b.put_write(place, value)
        }
        Stmt::If(test, yes, no) => {
            let register = put_value(b, op, test)?;
            let tested = b.number();
            b.end(alloc, Next::End)?;
            let first = b.number();
            put_block(alloc, b, op, yes.as_slice())?;
            let passed = b.number();
            b.end(alloc, Next::End)?;
            let second = b.number();
            put_block(alloc, b, op, no.as_slice())?;
            let behind = b.number().saturating_add(1);
            b.end(alloc, Next::Goto(behind))?;
            b.aim(passed, Next::Goto(behind));
            b.aim(tested, Next::Branch(register, first, second));
            Ok(())
        }
        Stmt::While(test, body) => {
            let start = b.number().saturating_add(1);
            b.end(alloc, Next::Goto(start))?;
            let register = put_value(b, op, test)?;
            b.end(alloc, Next::End)?;
            let first = b.number();
            put_block(alloc, b, op, body.as_slice())?;
            b.end(alloc, Next::Goto(start))?;
            b.aim(start, Next::Branch(register, first, b.number()));
            Ok(())
        }
        Stmt::Return => b.end(alloc, Next::End),
    }
}

// The blocks of a list of statements. They are right where there is space for them.
#[cycle(statements)]
fn put_block(alloc: Global, b: &mut Builder, op: &Operator, body: &[Stmt]) -> Result<(), NoMemory>
    requires { HasRoom op.now }
    ensures { OnOk result (HasSpace (made_in b.old) (block_in (declared_in op.now) body.now) → made_in b.new ≡ after (made_in b.old) (block_in (declared_in op.now) body.now)) }
{
    for s in body {
        put_statement(alloc, b, op, s)?;
    }
    Ok(())
}

/// The blocks of an operator, in the order of their numbers, and how many registers they take. Block 0 is the
/// first one that is made; scalars are registers from 0 on, temporaries registers from 64 on.
pub fn lower(alloc: Global, checked: &Checked) -> Result<Lowered, NoMemory>
    ensures blocks { IfOk result (λ lowered. map piece_in lowered.blocks.items ≡ blocks_of (program_of checked.now)) }
    ensures registers { IfOk result (λ lowered. lowered.registers ≡ (whole (program_of checked.now)).temps) }
{
    let op = checked.operator();
    let mut b = Builder::new(alloc);
    put_block(alloc, &mut b, op, op.body.as_slice())?;
    b.end(alloc, Next::End)?;
    Ok(Lowered {
        blocks: b.ended,
        registers: b.temps,
    })
}

/// The blocks alone.
pub fn blocks(alloc: Global, checked: &Checked) -> Result<Vec<Block>, NoMemory>
    ensures { IfOk result (λ blocks. map piece_in blocks.items ≡ blocks_of (program_of checked.now)) }
{
    Ok(lower(alloc, checked)?.blocks)
}
