//! An operator as a text again, with a line for each statement.

use itoa::Buffer;
use pld_ast::{Array, BinOp, Expr, Operator, Port, Scalar, Stmt, Target, Ty, UnOp};
use pld_base::{NoMemory, Side};

/// Writes a text.
pub fn put(out: &mut Vec<u8>, text: &[u8]) -> Result<(), NoMemory> {
    out.extend_from_slice(text)?;
    Ok(())
}

fn put_number(out: &mut Vec<u8>, number: u32) -> Result<(), NoMemory> {
    let mut buffer = Buffer::new();
    put(out, buffer.format(number).as_bytes())
}

/// Writes the line with the nodes before the passes and after them.
pub fn put_nodes(out: &mut Vec<u8>, before: u32, after: u32) -> Result<(), NoMemory> {
    put(out, b"// ")?;
    put_number(out, before)?;
    put(out, b" nodes, then ")?;
    put_number(out, after)?;
    put(out, b"\n")
}

fn infix(o: BinOp) -> &'static [u8] {
    match o {
        BinOp::OrElse => b" || ",
        BinOp::AndAlso => b" && ",
        BinOp::Or => b" | ",
        BinOp::Xor => b" ^ ",
        BinOp::And => b" & ",
        BinOp::Eq => b" == ",
        BinOp::Ne => b" != ",
        BinOp::Lt => b" < ",
        BinOp::Le => b" <= ",
        BinOp::Gt => b" > ",
        BinOp::Ge => b" >= ",
        BinOp::Shl => b" << ",
        BinOp::Shr => b" >> ",
        BinOp::Add => b" + ",
        BinOp::Sub => b" - ",
        BinOp::Mul => b" * ",
        BinOp::Div => b" / ",
        BinOp::Rem => b" % ",
    }
}

fn prefix(o: UnOp) -> &'static [u8] {
    match o {
        UnOp::Neg => b"-",
        UnOp::Plus => b"+",
        UnOp::BitNot => b"~",
        UnOp::Not => b"!",
    }
}

fn type_name(ty: Ty) -> &'static [u8] {
    match ty {
        Ty::Int => b"int32_t",
        Ty::Uint => b"uint32_t",
    }
}

fn put_literal(out: &mut Vec<u8>, word: u32, ty: Ty) -> Result<(), NoMemory> {
    put_number(out, word)?;
    match ty {
        Ty::Int => Ok(()),
        Ty::Uint => put(out, b"u"),
    }
}

fn put_value(out: &mut Vec<u8>, e: &Expr) -> Result<(), NoMemory> {
    match e {
        Expr::Lit(word, ty) => put_literal(out, *word, *ty),
        Expr::Var(used) => put(out, used.name.as_bytes()),
        Expr::Element(used, index) => {
            put(out, used.name.as_bytes())?;
            put(out, b"[")?;
            put_value(out, index.get())?;
            put(out, b"]")
        }
        Expr::Unary(o, x) => {
            put(out, prefix(*o))?;
            put_value(out, x.get())
        }
        Expr::Binary(o, x, y) => {
            put(out, b"(")?;
            put_value(out, x.get())?;
            put(out, infix(*o))?;
            put_value(out, y.get())?;
            put(out, b")")
        }
        Expr::Cast(ty, x) => {
            put(out, b"(")?;
            put(out, type_name(*ty))?;
            put(out, b")")?;
            put_value(out, x.get())
        }
    }
}

fn put_target(out: &mut Vec<u8>, target: &Target) -> Result<(), NoMemory> {
    match target {
        Target::Scalar(used) => put(out, used.name.as_bytes()),
        Target::Element(used, index) => {
            put(out, used.name.as_bytes())?;
            put(out, b"[")?;
            put_value(out, index)?;
            put(out, b"]")
        }
    }
}

// A word with a value in brackets behind it, and the block behind that opened.
fn put_test(out: &mut Vec<u8>, word: &[u8], e: &Expr) -> Result<(), NoMemory> {
    put(out, word)?;
    put(out, b" (")?;
    put_value(out, e)?;
    put(out, b") {\n")
}

// An assignment, a read, a write or a return.
fn put_simple(out: &mut Vec<u8>, s: &Stmt) -> Result<(), NoMemory> {
    match s {
        Stmt::Assign(target, e) => {
            put_target(out, target)?;
            put(out, b" = ")?;
            put_value(out, e)?;
            put(out, b";\n")
        }
        Stmt::Read(target, port) => {
            put_target(out, target)?;
            put(out, b" = read(")?;
            put(out, port.name.as_bytes())?;
            put(out, b");\n")
        }
        Stmt::Write(port, e) => {
            put(out, b"write(")?;
            put(out, port.name.as_bytes())?;
            put(out, b", ")?;
            put_value(out, e)?;
            put(out, b");\n")
        }
        _ => put(out, b"return;\n"),
    }
}

#[cycle(blocks)]
fn put_statement(out: &mut Vec<u8>, s: &Stmt) -> Result<(), NoMemory> {
    match s {
        Stmt::If(e, yes, no) => {
            put_test(out, b"if", e)?;
            put_block(out, yes.as_slice())?;
            put(out, b"} else {\n")?;
            put_block(out, no.as_slice())?;
            put(out, b"}\n")
        }
        Stmt::While(e, body) => {
            put_test(out, b"while", e)?;
            put_block(out, body.as_slice())?;
            put(out, b"}\n")
        }
        simple => put_simple(out, simple),
    }
}

#[cycle(blocks)]
fn put_block(out: &mut Vec<u8>, body: &[Stmt]) -> Result<(), NoMemory> {
    for s in body {
        put_statement(out, s)?;
    }
    Ok(())
}

fn put_port(out: &mut Vec<u8>, port: &Port) -> Result<(), NoMemory> {
    match port.side {
        Side::In => put(out, b" in ")?,
        Side::Out => put(out, b" out ")?,
    }
    put(out, port.name.as_bytes())
}

fn put_scalar(out: &mut Vec<u8>, scalar: &Scalar) -> Result<(), NoMemory> {
    put(out, type_name(scalar.ty))?;
    put(out, b" ")?;
    put(out, scalar.name.as_bytes())?;
    put(out, b";\n")
}

fn put_array(out: &mut Vec<u8>, array: &Array) -> Result<(), NoMemory> {
    put(out, type_name(array.ty))?;
    put(out, b" ")?;
    put(out, array.name.as_bytes())?;
    put(out, b"[")?;
    put_number(out, array.len)?;
    put(out, b"];\n")
}

fn put_declarations(out: &mut Vec<u8>, op: &Operator) -> Result<(), NoMemory> {
    for port in op.ports.as_slice() {
        put_port(out, port)?;
    }
    put(out, b" {\n")?;
    for scalar in op.scalars.as_slice() {
        put_scalar(out, scalar)?;
    }
    for array in op.arrays.as_slice() {
        put_array(out, array)?;
    }
    Ok(())
}

/// Writes an operator: its name and ports, its variables, and its statements.
pub fn put_operator(out: &mut Vec<u8>, op: &Operator) -> Result<(), NoMemory> {
    put(out, op.name.as_bytes())?;
    put_declarations(out, op)?;
    put_block(out, op.body.as_slice())?;
    put(out, b"}\n")
}
