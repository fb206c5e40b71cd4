//! From the tree of an operator to the softcore's instructions.

ghost use Rattle.std.specs.Prelude.{◌≡◌, ◌≤◌, [], ◌∷◌, ◌++◌, OnOk, pos, map, sum};
ghost use Rattle.pld_ast.specs.Resolve.{Names, value_in, action_in, block_in, program_of, assigned, read_to, declared_in};
ghost use Rattle.rv_back.specs.Code.{address, action_code, is_short as is_short_value};
ghost use Rattle.rv_back.specs.Form.{HasRoom, HasSpace, expr_code, stmt_code, block_code};

use crate::jumps::{close_choice, close_loop, jump_forward, put_open};
use crate::places::{base_of, length_of};
use crate::templates::{
    put, put_aside, put_back, put_const, put_end, put_get, put_load, put_op1, put_op2, put_pop,
    put_push, put_read, put_read_at, put_set, put_store, put_write,
};
use pld_ast::{Array, Expr, Operator, Stmt, Target, place_of, port_place, type_in};
use pld_base::{NoMemory, Side};
use rv_isa::{Instr, Reg, Shift};

// A literal or a scalar.
fn is_short(e: &Expr) -> bool
    ensures { (d : Names) → result ≡ is_short_value (value_in d e.now) }
{
    match e {
        Expr::Lit(..) => true,
        Expr::Var(_) => true,
        Expr::Element(..) => false,
        Expr::Unary(..) => false,
        Expr::Binary(..) => false,
        Expr::Cast(..) => false,
    }
}

// From an index in x10 to the address of that element.
fn put_address(code: &mut Vec<Instr>, arrays: &[Array], t: usize) -> Result<(), NoMemory>
    requires { sum (map (λ a. a.len) arrays.now) ≤ 8192 }
    ensures { OnOk result (code.new.items ≡ code.old.items ++ address (map (λ a. a.len) arrays.now) t) }
{
    let rd = Reg::new(10);
    let rs2 = Reg::new(11);
    put_const(code, rs2, length_of(arrays, t))?;
    put(code, Instr::Remu { rd, rs1: rd, rs2 })?;
    put(
        code,
        Instr::Slli {
            rd,
            rs1: rd,
            by: Shift::new(2),
        },
    )?;
    put_const(code, rs2, 0x2_0000 + 4 * base_of(arrays, t))?;
    put(code, Instr::Add { rd, rs1: rd, rs2 })
}

/// The code of an expression, which leaves its value in x10.
pub fn put_value(code: &mut Vec<Instr>, op: &Operator, e: &Expr) -> Result<(), NoMemory>
    requires { HasRoom op.now }
    ensures { OnOk result (code.new.items ≡ code.old.items ++ expr_code op.now e.now) }
{
    match e {
        Expr::Lit(v, _) => put_const(code, Reg::new(10), *v),
        Expr::Var(u) => put_get(code, place_of(op.scalars.as_slice(), &u.name)),
        Expr::Element(u, i) => {
            put_value(code, op, i.get())?;
            let arrays = op.arrays.as_slice();
            put_address(code, arrays, place_of(arrays, &u.name))?;
            put_load(code)
        }
        Expr::Unary(o, a) => {
            put_value(code, op, a.get())?;
            put_op1(code, *o)
        }
        Expr::Binary(o, a, b) => {
            let left = a.get();
            let right = b.get();
            let short = is_short(right);
            put_value(code, op, left)?;
            put_aside(code, short)?;
            put_value(code, op, right)?;
            put_back(code, short)?;
            put_op2(code, *o, type_in(op, left), type_in(op, right))
        }
        Expr::Cast(_, a) => put_value(code, op, a.get()),
    }
}

// The code of an assignment.
fn put_assign(code: &mut Vec<Instr>, op: &Operator, to: &Target, e: &Expr) -> Result<(), NoMemory>
    requires { HasRoom op.now }
    ensures { OnOk result (code.new.items ≡ code.old.items ++ action_code (program_of op.now).lengths (assigned (declared_in op.now) to.now e.now)) }
{
    match to {
        Target::Scalar(u) => {
            put_value(code, op, e)?;
            put_set(code, place_of(op.scalars.as_slice(), &u.name))
        }
        Target::Element(u, i) => {
            put_value(code, op, i)?;
            let arrays = op.arrays.as_slice();
            put_address(code, arrays, place_of(arrays, &u.name))?;
            put_push(code)?;
            put_value(code, op, e)?;
            put_pop(code)?;
            put_store(code)
        }
    }
}

// The code of a read from an in-port.
fn put_input(code: &mut Vec<Instr>, op: &Operator, to: &Target, port: usize) -> Result<(), NoMemory>
    requires room { HasRoom op.now }
    requires port { port ≤ 8 }
    ensures { OnOk result (code.new.items ≡ code.old.items ++ action_code (program_of op.now).lengths (read_to (declared_in op.now) to.now port)) }
{
    match to {
        Target::Scalar(u) => put_read(code, place_of(op.scalars.as_slice(), &u.name), port),
        Target::Element(u, i) => {
            put_value(code, op, i)?;
            let arrays = op.arrays.as_slice();
            put_address(code, arrays, place_of(arrays, &u.name))?;
            put_read_at(code, port)
        }
    }
}

// The code of a statement.
#[cycle(statements)]
fn put_statement(code: &mut Vec<Instr>, op: &Operator, s: &Stmt) -> Result<(), NoMemory>
    requires { HasRoom op.now }
    ensures { OnOk result (HasSpace code.old.items (action_in (declared_in op.now) s.now) → code.new.items ≡ code.old.items ++ stmt_code op.now s.now) }
{
    match s {
        Stmt::Assign(to, e) => put_assign(code, op, to, e),
        Stmt::Read(to, port) => {
            put_input(
                code,
                op,
                to,
                port_place(op.ports.as_slice(), Side::In, &port.name),
            )
        }
        Stmt::Write(port, e) => {
            put_value(code, op, e)?;
            put_write(code, port_place(op.ports.as_slice(), Side::Out, &port.name))
        }
        Stmt::If(test, yes, no) => {
            put_value(code, op, test)?;
            let tested = code.len();
            put_open(code)?;
            put_block(code, op, yes.as_slice())?;
            let first = code.len();
            put(code, jump_forward(0))?;
            put_block(code, op, no.as_slice())?;
            close_choice(code, tested, first);
            Ok(())
        }
        Stmt::While(test, body) => {
            let start = code.len();
            put_value(code, op, test)?;
            let tested = code.len();
            put_open(code)?;
            put_block(code, op, body.as_slice())?;
            close_loop(code, start, tested)
        }
        Stmt::Return => put_end(code),
    }
}

/// The code of a list of statements. It is right where there is space for it: 12,005 instructions hold
/// the code so far and 12 for each node of the statements.
#[cycle(statements)]
pub fn put_block(code: &mut Vec<Instr>, op: &Operator, body: &[Stmt]) -> Result<(), NoMemory>
    requires { HasRoom op.now }
    ensures { OnOk result (HasSpace code.old.items (block_in (declared_in op.now) body.now) → code.new.items ≡ code.old.items ++ block_code op.now body.now) }
{
    for s in body {
        put_statement(code, op, s)?;
    }
    Ok(())
}
