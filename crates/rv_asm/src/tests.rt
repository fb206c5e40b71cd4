use crate::{AsmOp, asm_image, assemble, disassemble, disassembled_and_assembled};
use image_form::ImageForm;
use pld_base::{FaultKind, NoMemory, Permits, Refused};
use std::alloc::Global;
use std::test::Fail;

// The line of a text's fault, if it has one of this kind, and else 0.
fn line_of(alloc: Global, text: &[u8], kind: FaultKind) -> u32 {
    match assemble(alloc, text) {
        Err(Refused::Fault(fault)) => {
            if fault.kind == kind && fault.column == 1 {
                fault.line
            } else {
                0
            }
        }
        _ => 0,
    }
}

#[test]
fn lines_without_a_form(rt: HostRuntime) {
    let rows = [
        (b"".as_slice(), 1),
        (b" \t\n#".as_slice(), 3),
        (b"ports 1 1".as_slice(), 2),
        (b"ports 1 1\n\n".as_slice(), 3),
        (b"\nports 0 9\necall".as_slice(), 2),
        (b"ecall".as_slice(), 1),
        (b"ports 0 0\necall x1".as_slice(), 2),
        (b"ports 0 0\nadd x1,x01,x2".as_slice(), 2),
        (b"ports 0 0\n\nlw x1,0 (x2)\nb:\nb:".as_slice(), 3),
    ];
    for (text, line) in rows {
        assert!(rt; line_of(rt.alloc(), text, FaultKind::BadAsm) == line);
    }
}

#[test]
fn numbers_past_their_ranges(rt: HostRuntime) {
    let rows = [
        b"ports 0 0\naddi x1, x0, 2048".as_slice(),
        b"ports 0 0\nlw x1, -2049(x0)".as_slice(),
        b"ports 0 0\nlui x1, 1048576".as_slice(),
        b"ports 0 0\nslli x1, x1, -1".as_slice(),
        b"ports 0 0\nslli x1, x1, 32".as_slice(),
        b"ports 0 0\nbeq x1, x1, 4096".as_slice(),
        b"ports 0 0\nbeq x1, x1, -4098".as_slice(),
        b"ports 0 0\njal x1, 1048576".as_slice(),
        b"ports 0 0\njal x1, 3".as_slice(),
    ];
    for text in rows {
        assert!(rt; line_of(rt.alloc(), text, FaultKind::OutOfRange) == 2);
    }
}

#[test]
fn labels_that_are_twice_or_unknown(rt: HostRuntime) {
    let twice = b"ports 0 0\na:\n\n#\na: ecall\na:\necall\naddi x1, x0, 2048".as_slice();
    assert!(rt; line_of(rt.alloc(), twice, FaultKind::BadAsm) == 5);
    let twice = b"ports 0 0\na:\n\n#\na: #\necall\naddi x1, x0, 2048".as_slice();
    assert!(rt; line_of(rt.alloc(), twice, FaultKind::NameTwice) == 5);
    let unknown = b"ports 0 0\nb:\njal x0, a\nb:".as_slice();
    assert!(rt; line_of(rt.alloc(), unknown, FaultKind::UnknownName) == 3);
}

// The words of the manual's formats, by hand.
#[test]
fn a_loop_and_back(rt: HostRuntime) -> Result<(), Fail> {
    let text =
        b"ports 1 1\nlui x9, 0x80000\nagain:\nlw x10, 0(x9)\nadd x10, x10, x10\nsw x10, 256(x9)\njal x0, again\n";
    let op = assemble(rt.alloc(), text)?;
    let words = [
        0x8000_04b7,
        0x0004_a503,
        0x00a5_0533,
        0x10a4_a023,
        0xff5f_f06f,
    ];
    assert!(rt; op.ins == 1 && op.outs == 1);
    assert!(rt; op.code.as_slice() == words.as_slice());
    Ok(())
}
