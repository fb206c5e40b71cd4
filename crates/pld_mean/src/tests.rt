//! Small operators, built as trees. What they do is written by hand.

use crate::{CEnd, CRun, run_c};
use pld_ast::{Array, BinOp, Expr, Operator, Port, Scalar, Stmt, Target, Ty, Used};
use pld_base::{Event, Name, NoMemory, Place, PortNo, Side};
use pld_check::Checked;
use sqlite_items::{Boxed, Items};
use std::alloc::Global;
use std::test::Fail;

const AT: Place = Place { line: 1, column: 1 };

fn used(name: &Name) -> Used {
    Used {
        name: *name,
        at: AT,
    }
}

fn number(v: u32) -> Expr {
    Expr::Lit(v, Ty::Int)
}

fn pair(alloc: Global, o: BinOp, a: Expr, b: Expr) -> Result<Expr, NoMemory> {
    Ok(Expr::Binary(o, Boxed::new(alloc, a)?, Boxed::new(alloc, b)?))
}

// void f(in a, out b) { int32_t x, u[3]; .. }
fn operator(
    alloc: Global,
    a: &Name,
    b: &Name,
    x: &Name,
    u: &Name,
    body: Items<Stmt>,
) -> Result<Operator, NoMemory> {
    let input = Port {
        name: *a,
        side: Side::In,
        at: AT,
    };
    let output = Port {
        name: *b,
        side: Side::Out,
        at: AT,
    };
    let scalar = Scalar {
        name: *x,
        ty: Ty::Int,
        at: AT,
    };
    let array = Array {
        name: *u,
        ty: Ty::Int,
        len: 3,
        at: AT,
    };
    Ok(Operator {
        name: *x,
        at: AT,
        ports: Items::from_slice(alloc, &[input, output])?,
        scalars: Items::from_slice(alloc, &[scalar])?,
        arrays: Items::from_slice(alloc, &[array])?,
        body,
    })
}

// The run of an operator with one in-port, if it is sound.
fn ran(alloc: Global, op: Operator, words: &[u32], turns: u64) -> Result<Option<CRun>, NoMemory> {
    let Some(op) = Checked::of(op) else {
        return Ok(None);
    };
    let mut ins = Vec::new(alloc);
    ins.push(words.to_vec(alloc)?)?;
    if op.ins() as usize != ins.len() {
        return Ok(None);
    }
    let run = run_c(alloc, &op, &ins, turns)?;
    Ok(Some(run))
}

const LEAST: u32 = 0x8000_0000;

const MINUS_1: u32 = 0xFFFF_FFFF;

const MINUS_3: u32 = 0xFFFF_FFFD;

const MINUS_7: u32 = 0xFFFF_FFF9;

#[test]
fn gives_values(rt: HostRuntime) -> Result<(), Fail> {
    let alloc = rt.alloc();
    let a = Name::of(b"a").ok_or("no name")?;
    let b = Name::of(b"b").ok_or("no name")?;
    let x = Name::of(b"x").ok_or("no name")?;
    let u = Name::of(b"u").ok_or("no name")?;
    let rows: [(BinOp, Ty, u32, Ty, u32, u32); 24] = [
        (BinOp::Div, Ty::Int, 7, Ty::Int, MINUS_1 - 1, MINUS_3),
        (BinOp::Div, Ty::Int, MINUS_7, Ty::Int, 2, MINUS_3),
        (BinOp::Div, Ty::Int, 7, Ty::Int, 0, MINUS_1),
        (BinOp::Div, Ty::Int, LEAST, Ty::Int, MINUS_1, LEAST),
        (BinOp::Div, Ty::Uint, MINUS_7, Ty::Int, 2, 0x7FFF_FFFC),
        (BinOp::Div, Ty::Uint, 7, Ty::Uint, 0, MINUS_1),
        (BinOp::Rem, Ty::Int, MINUS_7, Ty::Int, 2, MINUS_1),
        (BinOp::Rem, Ty::Int, 7, Ty::Int, MINUS_1 - 1, 1),
        (BinOp::Rem, Ty::Int, MINUS_7, Ty::Int, 0, MINUS_7),
        (BinOp::Rem, Ty::Int, LEAST, Ty::Int, MINUS_1, 0),
        (BinOp::Rem, Ty::Int, MINUS_7, Ty::Uint, 2, 1),
        (BinOp::Shr, Ty::Int, MINUS_7, Ty::Int, 1, MINUS_3 - 1),
        (BinOp::Shr, Ty::Int, MINUS_7, Ty::Uint, 33, MINUS_3 - 1),
        (BinOp::Shr, Ty::Uint, MINUS_7, Ty::Int, 1, 0x7FFF_FFFC),
        (BinOp::Shl, Ty::Int, 3, Ty::Int, 33, 6),
        (BinOp::Lt, Ty::Int, MINUS_1, Ty::Int, 1, 1),
        (BinOp::Lt, Ty::Int, MINUS_1, Ty::Uint, 1, 0),
        (BinOp::Gt, Ty::Uint, MINUS_1, Ty::Int, 1, 1),
        (BinOp::Le, Ty::Int, LEAST, Ty::Int, LEAST, 1),
        (BinOp::Ge, Ty::Int, LEAST, Ty::Int, 0, 0),
        (BinOp::Sub, Ty::Int, 0, Ty::Int, 7, MINUS_7),
        (BinOp::Mul, Ty::Int, MINUS_1, Ty::Int, 7, MINUS_7),
        (BinOp::AndAlso, Ty::Int, 2, Ty::Int, 4, 1),
        (BinOp::OrElse, Ty::Int, 0, Ty::Int, 0, 0),
    ];
    for (o, s, left, t, right, want) in rows {
        let value = pair(alloc, o, Expr::Lit(left, s), Expr::Lit(right, t))?;
        let mut body = Items::new(alloc);
        body.push(Stmt::Write(used(&b), value))?;
        let op = operator(alloc, &a, &b, &x, &u, body)?;
        let run = ran(alloc, op, &[], 0)?.ok_or("not sound")?;
        let events: &[Event] = &[Event::Write(PortNo(0), want)];
        assert_eq!(rt;
            run.events.as_slice(),
            events,
            "{o:?} {s:?} {left} {t:?} {right}"
        );
        assert_eq!(rt; run.end, CEnd::Returned);
    }
    Ok(())
}

// while (x < 3) { x = x + 1; u[x + 1] = read(a); write(b, u[x - 2]); }
fn copies(alloc: Global, a: &Name, b: &Name, x: &Name, u: &Name) -> Result<Operator, NoMemory> {
    let more = pair(alloc, BinOp::Add, Expr::Var(used(x)), number(1))?;
    let there = pair(alloc, BinOp::Add, Expr::Var(used(x)), number(1))?;
    let same = pair(alloc, BinOp::Sub, Expr::Var(used(x)), number(2))?;
    let mut inner = Items::new(alloc);
    inner.push(Stmt::Assign(Target::Scalar(used(x)), more))?;
    inner.push(Stmt::Read(Target::Element(used(u), there), used(a)))?;
    inner.push(Stmt::Write(used(b), Expr::Element(used(u), Boxed::new(alloc, same)?)))?;
    let test = pair(alloc, BinOp::Lt, Expr::Var(used(x)), number(3))?;
    let mut body = Items::new(alloc);
    body.push(Stmt::While(test, inner))?;
    operator(alloc, a, b, x, u, body)
}

#[test]
fn runs_loops(rt: HostRuntime) -> Result<(), Fail> {
    let alloc = rt.alloc();
    let a = Name::of(b"a").ok_or("no name")?;
    let b = Name::of(b"b").ok_or("no name")?;
    let x = Name::of(b"x").ok_or("no name")?;
    let u = Name::of(b"u").ok_or("no name")?;
    let p = PortNo(0);
    let events: &[Event] = &[
        Event::Read(p, 5),
        Event::Write(p, 0),
        Event::Read(p, 6),
        Event::Write(p, 6),
        Event::Read(p, 7),
        Event::Write(p, 7),
    ];
    let rows: [(&[u32], u64, usize, CEnd); 5] = [
        (&[5, 6, 7, 8], 3, 6, CEnd::Returned),
        (&[5, 6, 7, 8], 2, 4, CEnd::Cut),
        (&[5, 6, 7, 8], 0, 0, CEnd::Cut),
        (&[5, 6], 100, 4, CEnd::Starved(p)),
        (&[], 1, 0, CEnd::Starved(p)),
    ];
    for (words, turns, many, end) in rows {
        let op = copies(alloc, &a, &b, &x, &u)?;
        let run = ran(alloc, op, words, turns)?.ok_or("not sound")?;
        assert_eq!(rt;
            run.events.as_slice(),
            &events[..many.min(events.len())],
            "after {turns}"
        );
        assert_eq!(rt; run.end, end);
    }
    Ok(())
}
