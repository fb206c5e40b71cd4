//! Words of the manual's formats, computed by hand.

use crate::{Far, Imm, Instr, Near, Reg, Upper, decode, encode};
use std::test::Fail;

fn decodes_to(word: u32, instr: &Instr) -> bool {
    match decode(word) {
        Some(found) => found == *instr,
        None => false,
    }
}

#[test]
fn numbers_have_their_words(rt: HostRuntime) -> Result<(), Fail> {
    let x2 = Reg::new(2);
    let x10 = Reg::new(10);
    let x11 = Reg::new(11);
    let words = [
        (
            0x0002_0437,
            Instr::Lui {
                rd: Reg::new(8),
                imm: Upper::new(0x20),
            },
        ),
        (
            0x8000_04b7,
            Instr::Lui {
                rd: Reg::new(9),
                imm: Upper::new(0x80000),
            },
        ),
        (
            0x0002_8137,
            Instr::Lui {
                rd: x2,
                imm: Upper::new(0x28),
            },
        ),
        (
            0x1001_0113,
            Instr::Addi {
                rd: x2,
                rs1: x2,
                imm: Imm::new(256),
            },
        ),
        (0x0010_0073, Instr::Ebreak),
        (
            0x00a5_8533,
            Instr::Add {
                rd: x10,
                rs1: x11,
                rs2: x10,
            },
        ),
        (
            0x02b5_7533,
            Instr::Remu {
                rd: x10,
                rs1: x10,
                rs2: x11,
            },
        ),
    ];
    for (word, instr) in words {
        assert!(rt; decodes_to(word, &instr));
        assert_eq!(rt; encode(instr), word);
    }
    Ok(())
}

#[test]
fn offsets_have_their_words(rt: HostRuntime) -> Result<(), Fail> {
    let x0 = Reg::new(0);
    let x9 = Reg::new(9);
    let x10 = Reg::new(10);
    let words = [
        (
            0x0004_a503,
            Instr::Lw {
                rd: x10,
                rs1: x9,
                imm: Imm::new(0),
            },
        ),
        (
            0x10a4_a023,
            Instr::Sw {
                rs1: x9,
                rs2: x10,
                imm: Imm::new(256),
            },
        ),
        (
            0x0005_1463,
            Instr::Bne {
                rs1: x10,
                rs2: x0,
                imm: Near::new(8),
            },
        ),
        (
            0xffdf_f06f,
            Instr::Jal {
                rd: x0,
                imm: Far::new(-4),
            },
        ),
    ];
    for (word, instr) in words {
        assert!(rt; decodes_to(word, &instr));
        assert_eq!(rt; encode(instr), word);
    }
    Ok(())
}

// No instruction, FENCE.I and MRET.
#[test]
fn other_words_are_none(rt: HostRuntime) -> Result<(), Fail> {
    for word in [0x0000_0000, 0x0000_100f, 0x3020_0073] {
        assert_eq!(rt; decode(word), None);
    }
    Ok(())
}
