//! Small operators, and what `check` says of each, written by hand.

use crate::check;
use crate::checked::are_filled;
use crate::roles::Role;
use crate::scope::Scoped;
use pld_ast::{Array, BinOp, Expr, Operator, Port, Scalar, Stmt, Target, Ty, UnOp, Used};
use pld_base::{FaultKind, Limit, Name, NoMemory, Place, Refused, Side, SourceFault};
use sqlite_items::{Boxed, Items};
use std::alloc::Global;
use std::test::Fail;

// void f(in a, out b) { int32_t x; int32_t t[4]; .. }, with names and statements more.
#[derive(Clone, Copy)]
struct More {
    scalars: u16,
    arrays: u16,
    words: u32,
    ins: u16,
    outs: u16,
    returns: u16,
}

const NONE: More = More {
    scalars: 0,
    arrays: 0,
    words: 1,
    ins: 0,
    outs: 0,
    returns: 0,
};

fn place(line: u32, column: u32) -> Place {
    Place { line, column }
}

fn at(kind: FaultKind, line: u32, column: u32) -> Option<SourceFault> {
    Some(SourceFault { kind, line, column })
}

fn name(text: &[u8]) -> Result<Name, Fail> {
    Ok(Name::of(text).ok_or("no name")?)
}

// A letter and three digits.
fn numbered(letter: u8, n: u16) -> Result<Name, Fail> {
    name(&[
        letter,
        b'0' + (n / 100 % 10) as u8,
        b'0' + (n / 10 % 10) as u8,
        b'0' + (n % 10) as u8,
    ])
}

fn ports(alloc: Global, more: &More) -> Result<Items<Port>, Fail> {
    let mut ports = Items::new(alloc);
    ports.push(Port {
        name: name(b"a")?,
        side: Side::In,
        at: place(1, 10),
    })?;
    ports.push(Port {
        name: name(b"b")?,
        side: Side::Out,
        at: place(1, 17),
    })?;
    for i in 0..more.ins {
        ports.push(Port {
            name: numbered(b'i', i)?,
            side: Side::In,
            at: place(1, 100 + i as u32),
        })?;
    }
    for i in 0..more.outs {
        ports.push(Port {
            name: numbered(b'o', i)?,
            side: Side::Out,
            at: place(1, 200 + i as u32),
        })?;
    }
    Ok(ports)
}

fn scalars(alloc: Global, more: &More, second: u8, there: Place) -> Result<Items<Scalar>, Fail> {
    let mut scalars = Items::new(alloc);
    scalars.push(Scalar {
        name: name(b"x")?,
        ty: Ty::Int,
        at: place(2, 9),
    })?;
    if second != b' ' {
        scalars.push(Scalar {
            name: name(&[second])?,
            ty: Ty::Int,
            at: there,
        })?;
    }
    for i in 0..more.scalars {
        scalars.push(Scalar {
            name: numbered(b's', i)?,
            ty: Ty::Uint,
            at: place(3, 100 + i as u32),
        })?;
    }
    Ok(scalars)
}

fn arrays(alloc: Global, more: &More) -> Result<Items<Array>, Fail> {
    let mut arrays = Items::new(alloc);
    arrays.push(Array {
        name: name(b"t")?,
        ty: Ty::Int,
        len: 4,
        at: place(4, 9),
    })?;
    for i in 0..more.arrays {
        arrays.push(Array {
            name: numbered(b't', i)?,
            ty: Ty::Uint,
            len: more.words,
            at: place(5, 100 + i as u32),
        })?;
    }
    Ok(arrays)
}

// A statement that uses a name as this.
fn statement(alloc: Global, role: Role, u: Used, x: Used) -> Result<Stmt, NoMemory> {
    let one = Boxed::new(alloc, Expr::Lit(1, Ty::Int))?;
    match role {
        Role::Scalar => {
            let sum = Expr::Binary(BinOp::Add, one, Boxed::new(alloc, Expr::Var(u))?);
            Ok(Stmt::If(sum, Items::new(alloc), Items::new(alloc)))
        }
        Role::Array => Ok(Stmt::Assign(
            Target::Scalar(x),
            Expr::Unary(UnOp::Neg, Boxed::new(alloc, Expr::Element(u, one))?),
        )),
        Role::Input => Ok(Stmt::Read(Target::Scalar(x), u)),
        Role::Output => Ok(Stmt::Write(u, Expr::Cast(Ty::Uint, one))),
    }
}

fn body(alloc: Global, more: &More, uses: &[(Role, u8, u32, u32)]) -> Result<Items<Stmt>, Fail> {
    let mut body = Items::new(alloc);
    for (role, used, line, column) in uses {
        let u = Used {
            name: name(&[*used])?,
            at: place(*line, *column),
        };
        let x = Used {
            name: name(b"x")?,
            at: place(9, 9),
        };
        body.push(statement(alloc, *role, u, x)?)?;
    }
    for _ in 0..more.returns {
        body.push(Stmt::Return)?;
    }
    Ok(body)
}

fn fault_of(alloc: Global, op: Operator) -> Result<Option<SourceFault>, Fail> {
    if !are_filled(op.arrays.as_slice()) {
        return Err("an empty array".into());
    }
    match check(Scoped::of(alloc, op)?) {
        Ok(_) => Ok(None),
        Err(Refused::Fault(fault)) => Ok(Some(fault)),
        Err(Refused::NoMemory) => Err("no memory".into()),
    }
}

fn told(
    alloc: Global,
    more: &More,
    second: u8,
    there: Place,
    uses: &[(Role, u8, u32, u32)],
) -> Result<Option<SourceFault>, Fail> {
    let op = Operator {
        name: name(b"f")?,
        at: place(1, 6),
        ports: ports(alloc, more)?,
        scalars: scalars(alloc, more, second, there)?,
        arrays: arrays(alloc, more)?,
        body: body(alloc, more, uses)?,
    };
    fault_of(alloc, op)
}

#[test]
fn tells_wrong_names(rt: HostRuntime) -> Result<(), Fail> {
    let alloc = rt.alloc();
    let kind = FaultKind::WrongKind;
    let way = FaultKind::WrongDirection;
    let twice = FaultKind::NameTwice;
    let unknown = FaultKind::UnknownName;
    let all: &[(Role, u8, u32, u32)] = &[
        (Role::Scalar, b'x', 9, 1),
        (Role::Array, b't', 9, 2),
        (Role::Input, b'a', 9, 3),
        (Role::Output, b'b', 9, 4),
    ];
    let rows: [(u8, u32, u32, &[(Role, u8, u32, u32)], Option<SourceFault>); 19] = [
        (b' ', 0, 0, &[], None),
        (b' ', 0, 0, all, None),
        (b'f', 3, 9, all, None),
        (b' ', 0, 0, &[(Role::Scalar, b'f', 9, 1)], at(unknown, 9, 1)),
        (b' ', 0, 0, &[(Role::Scalar, b't', 9, 1)], at(kind, 9, 1)),
        (b' ', 0, 0, &[(Role::Array, b'x', 9, 1)], at(kind, 9, 1)),
        (b' ', 0, 0, &[(Role::Scalar, b'a', 9, 1)], at(kind, 9, 1)),
        (b' ', 0, 0, &[(Role::Array, b'b', 9, 1)], at(kind, 9, 1)),
        (b' ', 0, 0, &[(Role::Input, b'x', 9, 1)], at(kind, 9, 1)),
        (b' ', 0, 0, &[(Role::Output, b'x', 9, 1)], at(kind, 9, 1)),
        (b' ', 0, 0, &[(Role::Input, b'b', 9, 1)], at(way, 9, 1)),
        (b' ', 0, 0, &[(Role::Output, b'a', 9, 1)], at(way, 9, 1)),
        (b' ', 0, 0, &[(Role::Output, b'y', 9, 1)], at(unknown, 9, 1)),
        (b'a', 3, 9, &[], at(twice, 3, 9)),
        (b't', 3, 9, &[(Role::Array, b't', 9, 1)], at(twice, 4, 9)),
        (b'x', 6, 9, &[(Role::Scalar, b'y', 5, 1)], at(unknown, 5, 1)),
        (b'y', 3, 9, &[(Role::Scalar, b'y', 3, 8)], at(unknown, 3, 8)),
        (b'y', 3, 9, &[(Role::Scalar, b'y', 3, 13)], None),
        (
            b' ',
            0,
            0,
            &[(Role::Scalar, b'y', 9, 30), (Role::Scalar, b'z', 9, 20)],
            at(unknown, 9, 20),
        ),
    ];
    for (second, line, column, uses, fault) in rows {
        let found = told(alloc, &NONE, second, place(line, column), uses)?;
        assert_eq!(rt; found, fault, "{second} {uses:?}");
    }
    Ok(())
}

fn too_large(limit: Limit, line: u32, column: u32) -> Option<SourceFault> {
    at(FaultKind::TooLarge(limit), line, column)
}

#[test]
fn tells_limits(rt: HostRuntime) -> Result<(), Fail> {
    let alloc = rt.alloc();
    // scalars, arrays, words of each, in-ports, out-ports and returns more
    let rows: [([u16; 5], u32, Option<SourceFault>); 16] = [
        ([63, 15, 7, 7, 1000], 545, None),
        ([0, 0, 0, 0, 1001], 1, too_large(Limit::Nodes, 1, 6)),
        ([64, 16, 8, 8, 1001], 9000, too_large(Limit::Nodes, 1, 6)),
        ([64, 0, 0, 0, 0], 1, too_large(Limit::Scalars, 3, 163)),
        ([99, 16, 8, 8, 0], 9000, too_large(Limit::Scalars, 3, 163)),
        ([0, 16, 0, 0, 0], 1, too_large(Limit::Arrays, 5, 115)),
        ([0, 17, 8, 8, 0], 9000, too_large(Limit::Arrays, 5, 115)),
        ([0, 1, 0, 0, 0], 8188, None),
        ([0, 1, 8, 8, 0], 8189, too_large(Limit::ArrayWords, 5, 100)),
        ([0, 15, 0, 0, 0], 546, too_large(Limit::ArrayWords, 5, 114)),
        (
            [0, 2, 0, 0, 0],
            u32::MAX,
            too_large(Limit::ArrayWords, 5, 100),
        ),
        ([0, 0, 7, 7, 0], 1, None),
        ([0, 0, 8, 8, 0], 1, too_large(Limit::InPorts, 1, 107)),
        ([0, 0, 0, 8, 0], 1, too_large(Limit::OutPorts, 1, 207)),
        ([0, 0, 7, 9, 0], 1, too_large(Limit::OutPorts, 1, 207)),
        ([0, 0, 0, 0, 1000], 1, None),
    ];
    for ([scalars, arrays, ins, outs, returns], words, fault) in rows {
        let more = More {
            scalars,
            arrays,
            words,
            ins,
            outs,
            returns,
        };
        let found = told(alloc, &more, b' ', place(0, 0), &[])?;
        assert_eq!(rt;
            found,
            fault,
            "{scalars} {arrays} {words} {ins} {outs} {returns}"
        );
    }
    Ok(())
}
