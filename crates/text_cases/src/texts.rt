//! Operators' texts and their faults, worked out by hand from what the language says of them.

use pld_base::{FaultKind, Limit, NoMemory, Refused, SourceFault};
use pld_source::read_operator;
use std::alloc::Global;
use std::test::Fail;

/// A text, and its fault if it has one.
type Row = (&'static [u8], Option<SourceFault>);

fn at(kind: FaultKind, line: u32, column: u32) -> Option<SourceFault> {
    Some(SourceFault { kind, line, column })
}

fn fault_of(alloc: Global, text: &[u8]) -> Result<Option<SourceFault>, NoMemory> {
    match read_operator(alloc, text) {
        Ok(_) => Ok(None),
        Err(Refused::Fault(fault)) => Ok(Some(fault)),
        Err(Refused::NoMemory) => Err(NoMemory),
    }
}

#[test]
fn tokens_and_literals(rt: HostRuntime) -> Result<(), Fail> {
    let rows: [Row; 18] = [
        (b"void f() { }\n", None),
        (b"void f() { /*/ }\n", at(FaultKind::BadToken, 1, 12)),
        (
            b"void f(out b) { write(b, 08); }\n",
            at(FaultKind::BadToken, 1, 26),
        ),
        (
            b"void f(out b) { write(b, 0x); }\n",
            at(FaultKind::BadToken, 1, 26),
        ),
        (
            b"void f(out b) { write(b, 1uu); }\n",
            at(FaultKind::BadToken, 1, 26),
        ),
        (
            b"void f(out b) { write(b, 12ab); }\n",
            at(FaultKind::BadToken, 1, 26),
        ),
        (
            b"void f(out b) { write(b, 5ul); }\n",
            at(FaultKind::BadToken, 1, 26),
        ),
        (
            b"void f(out b) { write(b, 0xu); }\n",
            at(FaultKind::BadToken, 1, 26),
        ),
        (
            b"void f(out b) { write(b, 0u + 0X1U + 0x00000000001); }\n",
            None,
        ),
        (b"void f() { $ }\n", at(FaultKind::BadToken, 1, 12)),
        (
            b"void f() { } /* never closed\n",
            at(FaultKind::BadToken, 1, 14),
        ),
        (b"void f() { } // to the end\n", None),
        (
            b"void f(out b) {\n  write(b, 4294967296);\n}\n",
            at(FaultKind::LiteralTooLarge, 2, 12),
        ),
        (
            b"void f(out b) { write(b, 0x100000000); }\n",
            at(FaultKind::LiteralTooLarge, 1, 26),
        ),
        (b"void f(out b) { write(b, 4294967295); }\n", None),
        (b"void a2345678901234567890123456789012() { }\n", None),
        (
            b"void a23456789012345678901234567890123() { }\n",
            at(FaultKind::TooLarge(Limit::Ident), 1, 6),
        ),
        (
            b"void f() { /* any\n$ */ return; \r\n}\n",
            at(FaultKind::BadToken, 2, 14),
        ),
    ];
    for row in rows {
        assert_eq!(rt; fault_of(rt.alloc(), row.0)?, row.1);
    }
    Ok(())
}

#[test]
fn headers_and_ends(rt: HostRuntime) -> Result<(), Fail> {
    let rows: [Row; 17] = [
        (b"", at(FaultKind::Syntax, 1, 1)),
        (b"void f() {\n", at(FaultKind::Syntax, 2, 1)),
        (b"void f() { return;", at(FaultKind::Syntax, 1, 19)),
        (b"void if() { }\n", at(FaultKind::Syntax, 1, 6)),
        (b"void f(in a) { return }\n", at(FaultKind::Syntax, 1, 23)),
        (b"void f(in a,) { }\n", at(FaultKind::Syntax, 1, 13)),
        (b"void f(int32_t a) { }\n", at(FaultKind::Syntax, 1, 8)),
        (b"void f() { int32_t ; }\n", at(FaultKind::Syntax, 1, 20)),
        (
            b"void f() { int32_t t[0]; }\n",
            at(FaultKind::Syntax, 1, 22),
        ),
        (
            b"void f() { int32_t t[0u]; }\n",
            at(FaultKind::Syntax, 1, 22),
        ),
        (
            b"void f() { int32_t t[0x0]; }\n",
            at(FaultKind::Syntax, 1, 22),
        ),
        (
            b"void f() { int32_t t[4] = 3; }\n",
            at(FaultKind::Syntax, 1, 25),
        ),
        (
            b"void f() { int32_t x; x = 1; int32_t y; }\n",
            at(FaultKind::Syntax, 1, 30),
        ),
        (b"void f() { else { } }\n", at(FaultKind::Syntax, 1, 12)),
        (
            b"void f() { int32_t x; if (1) { } else x = 1; }\n",
            at(FaultKind::Syntax, 1, 39),
        ),
        (b"void f() { while 1 { } }\n", at(FaultKind::Syntax, 1, 18)),
        (b"void f() { return; } }\n", at(FaultKind::Syntax, 1, 22)),
    ];
    for row in rows {
        assert_eq!(rt; fault_of(rt.alloc(), row.0)?, row.1);
    }
    Ok(())
}

#[test]
fn statements(rt: HostRuntime) -> Result<(), Fail> {
    let rows: [Row; 15] = [
        (
            b"void f() { int32_t x; for (x = 0; x < 3; x++;) { } }\n",
            at(FaultKind::Syntax, 1, 45),
        ),
        (
            b"void f() { int32_t x; for (; x < 3; x++) { } }\n",
            at(FaultKind::Syntax, 1, 28),
        ),
        (
            b"void f() { int32_t x; x == 1; }\n",
            at(FaultKind::Syntax, 1, 25),
        ),
        (
            b"void f() { int32_t x; x = 1 2; }\n",
            at(FaultKind::Syntax, 1, 29),
        ),
        (
            b"void f() { int32_t x; x = (1 + 2; }\n",
            at(FaultKind::Syntax, 1, 33),
        ),
        (
            b"void f() { int32_t x; x = * 2; }\n",
            at(FaultKind::Syntax, 1, 27),
        ),
        (
            b"void f() { int32_t x; x = x--x; }\n",
            at(FaultKind::Syntax, 1, 28),
        ),
        (b"void f() { int32_t x; x = x - -x; x--; x <<= 2; }\n", None),
        (
            b"void f(out b) { write(b); }\n",
            at(FaultKind::Syntax, 1, 24),
        ),
        (b"void f(in a) { read(a); }\n", at(FaultKind::Syntax, 1, 16)),
        (
            b"void f(in a) { int32_t x; x = read(a) + 1; }\n",
            at(FaultKind::Syntax, 1, 39),
        ),
        (
            b"void f(in a) { int32_t x; x += read(a); }\n",
            at(FaultKind::Syntax, 1, 32),
        ),
        (
            b"void f() { int32_t x; x = (uint32_t x); }\n",
            at(FaultKind::Syntax, 1, 37),
        ),
        (
            b"void f() { int32_t x; x = (int x); }\n",
            at(FaultKind::Syntax, 1, 32),
        ),
        (
            b"void f() { int32_t x; x = (uint32_t)x >= 3; if (x) { } else if (1) { } else { } }\n",
            None,
        ),
    ];
    for row in rows {
        assert_eq!(rt; fault_of(rt.alloc(), row.0)?, row.1);
    }
    Ok(())
}

#[test]
fn names_and_directions(rt: HostRuntime) -> Result<(), Fail> {
    let rows: [Row; 17] = [
        (
            b"void f(in a, out a) { }\n",
            at(FaultKind::NameTwice, 1, 18),
        ),
        (
            b"void f() { int32_t x; uint32_t x; }\n",
            at(FaultKind::NameTwice, 1, 32),
        ),
        (
            b"void f() { int32_t x = y; int32_t y; }\n",
            at(FaultKind::UnknownName, 1, 24),
        ),
        (b"void f() { int32_t x = x; }\n", None),
        (
            b"void f(in a) { x = 1; }\n",
            at(FaultKind::UnknownName, 1, 16),
        ),
        (
            b"void f(in a) { write(a, 1); }\n",
            at(FaultKind::WrongDirection, 1, 22),
        ),
        (
            b"void f() { int32_t x; x[0] = 1; }\n",
            at(FaultKind::WrongKind, 1, 23),
        ),
        (
            b"void f() { int32_t t[2]; t = 1; }\n",
            at(FaultKind::WrongKind, 1, 26),
        ),
        (
            b"void f(in a) { a = 1; }\n",
            at(FaultKind::WrongKind, 1, 16),
        ),
        (
            b"void f() { int32_t x; write(x, 1); }\n",
            at(FaultKind::WrongKind, 1, 29),
        ),
        (
            b"void f(out b) { int32_t x; x = read(b); }\n",
            at(FaultKind::WrongDirection, 1, 37),
        ),
        (
            b"void f(in a) { int32_t x; x = a; }\n",
            at(FaultKind::WrongKind, 1, 31),
        ),
        (
            b"void f() { int32_t x; for (x = 0; x < 3; p++) { q = 1; } }\n",
            at(FaultKind::UnknownName, 1, 42),
        ),
        (b"void f() { u = v; }\n", at(FaultKind::UnknownName, 1, 12)),
        (
            b"void f() { int32_t t[2]; t[i] = read(p); }\n",
            at(FaultKind::UnknownName, 1, 28),
        ),
        (b"void f() { int32_t f; f = 1; }\n", None),
        (b"void f() { f = 1; }\n", at(FaultKind::UnknownName, 1, 12)),
    ];
    for row in rows {
        assert_eq!(rt; fault_of(rt.alloc(), row.0)?, row.1);
    }
    Ok(())
}

/// A text with so many `if`s, in whose last block stands a statement with so many brackets `(`.
#[derive(Clone, Copy)]
struct Deep {
    ifs: usize,
    before: &'static [u8],
    brackets: usize,
    inner: &'static [u8],
}

fn text_of(alloc: Global, deep: &Deep) -> Result<Vec<u8>, NoMemory> {
    let mut text = Vec::new(alloc);
    text.extend_from_slice(b"void f(in a, out b) {\nuint32_t x; uint32_t t[4];\n")?;
    for _ in 0..deep.ifs {
        text.extend_from_slice(b"if (x) {")?;
    }
    text.extend_from_slice(deep.before)?;
    for _ in 0..deep.brackets {
        text.extend_from_slice(b"(")?;
    }
    text.extend_from_slice(deep.inner)?;
    for _ in 0..deep.brackets {
        text.extend_from_slice(b")")?;
    }
    text.extend_from_slice(b";")?;
    for _ in 0..deep.ifs {
        text.extend_from_slice(b"}")?;
    }
    text.extend_from_slice(b"\n}\n")?;
    Ok(text)
}

fn deep_text(ifs: usize, before: &'static [u8], brackets: usize, inner: &'static [u8]) -> Deep {
    Deep {
        ifs,
        before,
        brackets,
        inner,
    }
}

/// At most 32 brackets are open at once. A keyword that must open one is itself the fault where 32 are open.
#[test]
fn brackets_open_at_once(rt: HostRuntime) -> Result<(), Fail> {
    let rows: [(Deep, Option<SourceFault>); 24] = [
        (deep_text(0, b"x = ", 31, b"1"), None),
        (
            deep_text(0, b"x = ", 32, b"1"),
            at(FaultKind::TooLarge(Limit::Nesting), 3, 36),
        ),
        (
            deep_text(0, b"x = ", 31, b"t[0]"),
            at(FaultKind::TooLarge(Limit::Nesting), 3, 37),
        ),
        (deep_text(0, b"x = ", 30, b"t[0]"), None),
        (
            deep_text(0, b"x = ", 31, b"(int32_t)1"),
            at(FaultKind::TooLarge(Limit::Nesting), 3, 36),
        ),
        (deep_text(0, b"x = ", 30, b"(int32_t)1"), None),
        (deep_text(31, b"x = 1", 0, b""), None),
        (deep_text(31, b"return", 0, b""), None),
        (
            deep_text(31, b"if (x) { } x++", 0, b""),
            at(FaultKind::TooLarge(Limit::Nesting), 3, 249),
        ),
        (deep_text(30, b"if (x) { } x++", 0, b""), None),
        (
            deep_text(31, b"while (x) { } x++", 0, b""),
            at(FaultKind::TooLarge(Limit::Nesting), 3, 249),
        ),
        (deep_text(30, b"while (x) { } x++", 0, b""), None),
        (
            deep_text(31, b"for (x = 0; x; x++) { } x++", 0, b""),
            at(FaultKind::TooLarge(Limit::Nesting), 3, 249),
        ),
        (deep_text(30, b"for (x = 0; x; x++) { } x++", 0, b""), None),
        (
            deep_text(31, b"write(b, 1)", 0, b""),
            at(FaultKind::TooLarge(Limit::Nesting), 3, 249),
        ),
        (deep_text(30, b"write(b, 1)", 0, b""), None),
        (
            deep_text(31, b"x = read(a)", 0, b""),
            at(FaultKind::TooLarge(Limit::Nesting), 3, 253),
        ),
        (deep_text(30, b"x = read(a)", 0, b""), None),
        (
            deep_text(31, b"t[0] = 1", 0, b""),
            at(FaultKind::TooLarge(Limit::Nesting), 3, 250),
        ),
        (deep_text(30, b"t[0] = 1", 0, b""), None),
        (
            deep_text(31, b"x = ", 1, b"1"),
            at(FaultKind::TooLarge(Limit::Nesting), 3, 253),
        ),
        (deep_text(31, b"", 0, b""), at(FaultKind::Syntax, 3, 249)),
        (
            deep_text(31, b"x = ", 0, b""),
            at(FaultKind::Syntax, 3, 253),
        ),
        (
            deep_text(32, b"x = 1", 0, b""),
            at(FaultKind::TooLarge(Limit::Nesting), 3, 249),
        ),
    ];
    for row in rows {
        let text = text_of(rt.alloc(), &row.0)?;
        assert_eq!(rt; fault_of(rt.alloc(), text.as_slice())?, row.1);
    }
    Ok(())
}

/// A text that repeats a part.
fn repeated(
    alloc: Global,
    first: &[u8],
    part: &[u8],
    count: usize,
    last: &[u8],
) -> Result<Vec<u8>, NoMemory> {
    let mut text = Vec::new(alloc);
    text.extend_from_slice(first)?;
    for _ in 0..count {
        text.extend_from_slice(part)?;
    }
    text.extend_from_slice(last)?;
    Ok(text)
}

/// Limits, each reached and passed by one; long chains are read on the ordinary stack.
#[test]
fn limits_of_texts(rt: HostRuntime) -> Result<(), Fail> {
    let nodes = at(FaultKind::TooLarge(Limit::Nodes), 1, 6);
    let tokens = at(FaultKind::TooLarge(Limit::Tokens), 1, 8198);
    let bad = at(FaultKind::BadToken, 1, 8200);
    let long = at(FaultKind::TooLarge(Limit::Text), 1, 1);
    let minus: &[u8] = b"void f() { int32_t x; x = ";
    let writes: &[u8] = b"void f(out b) { ";
    let rows: [(&[u8], &[u8], usize, &[u8], Option<SourceFault>); 10] = [
        (writes, b"write(b, 1); ", 500, b"}", None),
        (writes, b"write(b, 1); ", 500, b"return; }", nodes),
        (minus, b"- ", 4083, b"1; }", nodes),
        (minus, b"- ", 4084, b"1; }", tokens),
        (minus, b"- ", 4084, b"1; } $", bad),
        (minus, b"- ", 900, b"1; }", None),
        (
            b"void f() { int32_t x; ",
            b"if (x) { } else ",
            400,
            b"{ } }",
            None,
        ),
        (b"void f() { int32_t x; x = 1", b" + 1", 498, b"; }", None),
        (b"void f() { }", b" ", 65_524, b"", None),
        (b"void f() { }", b" ", 65_525, b"", long),
    ];
    for row in rows {
        let text = repeated(rt.alloc(), row.0, row.1, row.2, row.3)?;
        assert_eq!(rt; fault_of(rt.alloc(), text.as_slice())?, row.4);
    }
    Ok(())
}

/// Declarations, each kind at its limit and one past it.
#[test]
fn limits_of_declarations(rt: HostRuntime) -> Result<(), Fail> {
    let rows: [(&[u8], Option<SourceFault>); 6] = [
        (
            b"void f(in a, in b, in c, in d, in e, in g, in h, in i) { }\n",
            None,
        ),
        (
            b"void f(in a, in b, in c, in d, in e, in g, in h, in i, in j) { }\n",
            at(FaultKind::TooLarge(Limit::InPorts), 1, 59),
        ),
        (
            b"void f(out a, out b, out c, out d, out e, out g, out h, out i) { }\n",
            None,
        ),
        (
            b"void f(out a, out b, out c, out d, out e, out g, out h, out i, out j) { }\n",
            at(FaultKind::TooLarge(Limit::OutPorts), 1, 68),
        ),
        (b"void f() { uint32_t t[8191]; uint32_t u[1]; }\n", None),
        (
            b"void f() { uint32_t t[8191]; uint32_t u[2]; }\n",
            at(FaultKind::TooLarge(Limit::ArrayWords), 1, 39),
        ),
    ];
    for row in rows {
        assert_eq!(rt; fault_of(rt.alloc(), row.0)?, row.1);
    }
    Ok(())
}
