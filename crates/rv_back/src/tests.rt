//! Small operators, built as trees and compiled. Their words are worked out by hand.

use crate::compile_soft;
use pld_ast::{BinOp, Expr, Operator, Port, Scalar, Stmt, Target, Ty, Used};
use pld_base::{Name, NoMemory, Permits, Place, PortNo, Side};
use pld_check::Checked;
use pld_image::{Image, ImageForm, PageCore, TurnEnd, image_bytes};
use sqlite_items::{Boxed, Items};
use std::alloc::Global;
use std::test::Fail;

const AT: Place = Place { line: 1, column: 1 };

// void f(out b) { int32_t x; x = x + 1; write(b, x); }
fn next_number(alloc: Global, f: Name, b: Name, x: Name) -> Result<Operator, NoMemory> {
    let used = Used { name: x, at: AT };
    let left = Boxed::new(alloc, Expr::Var(Used { name: x, at: AT }))?;
    let right = Boxed::new(alloc, Expr::Lit(1, Ty::Int))?;
    let sum = Expr::Binary(BinOp::Add, left, right);
    let mut body = Items::new(alloc);
    body.push(Stmt::Assign(Target::Scalar(used), sum))?;
    let value = Expr::Var(Used { name: x, at: AT });
    body.push(Stmt::Write(Used { name: b, at: AT }, value))?;
    let port = Port {
        name: b,
        side: Side::Out,
        at: AT,
    };
    let scalar = Scalar {
        name: x,
        ty: Ty::Int,
        at: AT,
    };
    Ok(Operator {
        name: f,
        at: AT,
        ports: Items::from_slice(alloc, &[port])?,
        scalars: Items::from_slice(alloc, &[scalar])?,
        arrays: Items::new(alloc),
        body,
    })
}

// The words of that operator.
const NEXT_NUMBER: [u32; 13] = [
    // lui x8, 0x20
    0x0002_0437,
    // lui x9, 0x80000
    0x8000_04b7,
    // lui x2, 0x28
    0x0002_8137,
    // addi x2, x2, 256
    0x1001_0113,
    // addi x10, x12, 0
    0x0006_0513,
    // addi x11, x10, 0
    0x0005_0593,
    // lui x10, 0
    0x0000_0537,
    // addi x10, x10, 1
    0x0015_0513,
    // add x10, x11, x10
    0x00a5_8533,
    // addi x12, x10, 0
    0x0005_0613,
    // addi x10, x12, 0
    0x0006_0513,
    // sw x10, 256(x9)
    0x10a4_a023,
    // ebreak
    0x0010_0073,
];

// The image of `void f() { }`.
const EMPTY: [u8; 32] = [
    0x50, 0x4c, 0x44, 0x49, 0x53, 0, 0, 0, 5, 0, 0, 0, 0x37, 0x04, 0x02, 0, 0xb7, 0x04, 0, 0x80,
    0x37, 0x81, 0x02, 0, 0x13, 0x01, 0x01, 0x10, 0x73, 0, 0x10, 0,
];

fn compiled(alloc: Global, op: &Checked) -> Result<Option<Image>, NoMemory> {
    let Some(permit) = Permits::new().issue(alloc, 1)?.pop() else {
        return Ok(None);
    };
    Ok(Some(compile_soft(alloc, permit, op)?))
}

fn next_image(alloc: Global) -> Result<Image, Fail> {
    let f = Name::of(b"f").ok_or("no name")?;
    let b = Name::of(b"b").ok_or("no name")?;
    let x = Name::of(b"x").ok_or("no name")?;
    let op = Checked::of(next_number(alloc, f, b, x)?).ok_or("not sound")?;
    let image = compiled(alloc, &op)?.ok_or("not built")?;
    Ok(image)
}

// The words of a softcore's image; a table has none.
fn words(image: &Image) -> &[u32] {
    match image.form() {
        ImageForm::Soft { code, .. } => code.as_slice(),
        ImageForm::Hard { .. } => &[],
    }
}

#[test]
fn the_words_are_those_by_hand(rt: HostRuntime) -> Result<(), Fail> {
    let image = next_image(rt.alloc())?;
    let want: &[u32] = &NEXT_NUMBER;
    assert_eq!(rt; words(&image), want);
    Ok(())
}

#[test]
fn writes_the_next_number(rt: HostRuntime) -> Result<(), Fail> {
    let alloc = rt.alloc();
    let image = next_image(alloc)?;
    let mut core = PageCore::load(alloc, &image)?;
    match core.turn() {
        TurnEnd::AtWrite(port, word) => {
            assert_eq!(rt; port, PortNo(0));
            assert_eq!(rt; word, 1);
            core.resume_write();
        }
        _ => return Err("no write".into()),
    }
    assert_eq!(rt; core.turn(), TurnEnd::Ended);
    Ok(())
}

#[test]
fn an_empty_operator_is_five_words(rt: HostRuntime) -> Result<(), Fail> {
    let alloc = rt.alloc();
    let op = Operator {
        name: Name::of(b"f").ok_or("no name")?,
        at: AT,
        ports: Items::new(alloc),
        scalars: Items::new(alloc),
        arrays: Items::new(alloc),
        body: Items::new(alloc),
    };
    let op = Checked::of(op).ok_or("not sound")?;
    let image = compiled(alloc, &op)?.ok_or("not built")?;
    let bytes = image_bytes(alloc, &image)?;
    let want: &[u8] = &EMPTY;
    assert_eq!(rt; bytes.as_slice(), want);
    Ok(())
}
