//! Texts, and the tokens or the fault of each, written by hand.

use crate::{Token, TokenKind, tokens};
use pld_ast::Ty;
use pld_base::{FaultKind, Limit, Place, Refused, SourceFault};
use std::alloc::Global;
use std::test::Fail;

fn fault_of(alloc: Global, text: &[u8]) -> Option<SourceFault> {
    match tokens(alloc, text) {
        Err(Refused::Fault(fault)) => Some(fault),
        Err(Refused::NoMemory) => None,
        Ok(_) => None,
    }
}

fn tokens_of(alloc: Global, text: &[u8]) -> Option<Vec<Token>> {
    match tokens(alloc, text) {
        Ok(found) => Some(found),
        Err(_) => None,
    }
}

fn at(kind: FaultKind, line: u32, column: u32) -> Option<SourceFault> {
    Some(SourceFault { kind, line, column })
}

#[test]
fn tells_faults(rt: HostRuntime) -> Result<(), Fail> {
    let alloc = rt.alloc();
    let bad = FaultKind::BadToken;
    let large = FaultKind::LiteralTooLarge;
    let long = FaultKind::TooLarge(Limit::Ident);
    let rows: [(&[u8], FaultKind, u32, u32); 23] = [
        (b"/*/", bad, 1, 1),
        (b"a /* b\n*", bad, 1, 3),
        (b"08", bad, 1, 1),
        (b"00", bad, 1, 1),
        (b"0x", bad, 1, 1),
        (b"0xu", bad, 1, 1),
        (b"1uu", bad, 1, 1),
        (b"12ab", bad, 1, 1),
        (b"5ul", bad, 1, 1),
        (b"0xg", bad, 1, 1),
        (b"99999999999z", bad, 1, 1),
        (b"4294967296", large, 1, 1),
        (b"0x100000000", large, 1, 1),
        (b"99999999999999999999999999u", large, 1, 1),
        (b"a\r\nb", bad, 1, 2),
        (b"a\n\tb @", bad, 2, 4),
        (b"// \r @\n  $", bad, 2, 3),
        (b"/* \n\n */ \"", bad, 3, 5),
        (b"a1234567890123456789012345678901x", long, 1, 1),
        (b"x a1234567890123456789012345678901x", long, 1, 3),
        (b"\\", bad, 1, 1),
        (b"a.b", bad, 1, 2),
        (b"08 4294967296", bad, 1, 1),
    ];
    for (text, kind, line, column) in rows {
        assert_eq!(rt; fault_of(alloc, text), at(kind, line, column), "{text:?}");
    }
    Ok(())
}

#[test]
fn cuts_texts(rt: HostRuntime) -> Result<(), Fail> {
    let alloc = rt.alloc();
    let rows: [(&[u8], &[&[u8]], u32, u32); 15] = [
        (b"a--b", &[b"a", b"--", b"b"], 1, 4),
        (b"a - -b", &[b"a", b"-", b"-", b"b"], 1, 6),
        (b"a>=b", &[b"a", b">=", b"b"], 1, 4),
        (b"a>>=b", &[b"a", b">>=", b"b"], 1, 5),
        (b"a>>>=b", &[b"a", b">>", b">=", b"b"], 1, 6),
        (b"<<=<<<=", &[b"<<=", b"<<", b"<="], 1, 6),
        (b"a+++b", &[b"a", b"++", b"+", b"b"], 1, 5),
        (b"a/b", &[b"a", b"/", b"b"], 1, 3),
        (b"a//b", &[b"a"], 1, 1),
        (b"a/=/*b*/c", &[b"a", b"/=", b"c"], 1, 9),
        (b"/***/a/**//* / */\n  b", &[b"a", b"b"], 2, 3),
        (b"//\n//x", &[], 0, 0),
        (b"a // \xff\n\nb", &[b"a", b"b"], 3, 1),
        (
            b"a1234567890123456789012345678901",
            &[b"a1234567890123456789012345678901"],
            1,
            1,
        ),
        (
            b"while1 _x(0u,0X1U)",
            &[b"while1", b"_x", b"(", b"0u", b",", b"0X1U", b")"],
            1,
            18,
        ),
    ];
    for (text, slices, line, column) in rows {
        let found = tokens_of(alloc, text).ok_or("a fault")?;
        assert_eq!(rt; found.len(), slices.len(), "{text:?}");
        for (token, slice) in found.iter().zip(slices) {
            assert_eq!(rt; text.get(token.start..token.end), Some(*slice), "{text:?}");
        }
        if let Some(last) = found.last() {
            let at = Place { line, column };
            assert_eq!(rt; last.at, at, "{text:?}");
        }
    }
    Ok(())
}

#[test]
fn reads_numbers(rt: HostRuntime) -> Result<(), Fail> {
    let alloc = rt.alloc();
    let rows: [(&[u8], u32, Ty); 13] = [
        (b"0", 0, Ty::Int),
        (b"0u", 0, Ty::Uint),
        (b"0x0", 0, Ty::Int),
        (b"0X1U", 1, Ty::Uint),
        (b"0x00000000001", 1, Ty::Int),
        (b"10", 10, Ty::Int),
        (b"2147483647", 2147483647, Ty::Int),
        (b"2147483648", 2147483648, Ty::Uint),
        (b"4294967295", 4294967295, Ty::Uint),
        (b"0x7fffFFFF", 2147483647, Ty::Int),
        (b"0x80000000", 2147483648, Ty::Uint),
        (b"0xffffffff", 4294967295, Ty::Uint),
        (b"0xDEADbeefU", 3735928559, Ty::Uint),
    ];
    for (text, value, ty) in rows {
        let found = tokens_of(alloc, text).ok_or("a fault")?;
        let token = found.first().ok_or("no token")?;
        match &token.kind {
            TokenKind::Number(v, t) => {
                assert_eq!(rt; *v, value, "{text:?}");
                assert_eq!(rt; *t, ty, "{text:?}");
            }
            _ => return Err("no number".into()),
        }
    }
    Ok(())
}

// So many semicolons, and then these bytes.
fn semicolons(alloc: Global, many: usize, end: &[u8]) -> Result<Vec<u8>, Fail> {
    let mut text = Vec::new(alloc);
    for _ in 0..many {
        text.push(b';')?;
    }
    text.extend_from_slice(end)?;
    Ok(text)
}

#[test]
fn keeps_to_limits(rt: HostRuntime) -> Result<(), Fail> {
    let alloc = rt.alloc();
    let many = FaultKind::TooLarge(Limit::Tokens);
    let rows: [(usize, &[u8], Option<SourceFault>); 6] = [
        (4096, b"", None),
        (4096, b" \n", None),
        (4097, b"", at(many, 1, 4097)),
        (4096, b"\n /**/ a b", at(many, 2, 7)),
        (4097, b" @", at(FaultKind::BadToken, 1, 4099)),
        (65537, b"", at(FaultKind::TooLarge(Limit::Text), 1, 1)),
    ];
    for (semis, end, fault) in rows {
        let text = semicolons(alloc, semis, end)?;
        assert_eq!(rt; fault_of(alloc, text.as_slice()), fault, "{semis} {end:?}");
    }
    Ok(())
}
