//! What a line is.

ghost use Rattle.std.specs.Prelude.{◌≡◌, ◌≤◌, Some, MatchOption, IfSome, None};
ghost use Rattle.rv_asm.specs.Words.{words_of};
ghost use Rattle.rv_asm.specs.Numbers.{ended as ended_of};
ghost use Rattle.rv_asm.specs.Forms.{two_in, three_in, written_in, label_in, name_by, line_in, is_empty_line, port_count as port_count_of, ports_in};
ghost use Rattle.rv_asm.specs.declared.mnemonic.Mnemonic.TheVariants as mnemonics;

use crate::mnemonic::Mnemonic;
use crate::numbers::{number, register};
use crate::operands::{address, ended, target};
use crate::words::split_word;
use crate::written::{Line, Written};
use pld_base::Name;
use rv_text::{
    AddressName, BareName, BranchName, NumberName, RegistersName, ShiftName, StoreName, UpperName,
};

// Two operands, with a comma between them.
fn two(words: &[u8]) -> Option<(&[u8], &[u8])>
    ensures { MatchOption result (two_in (words_of words.now) ≡ None) (λ o. two_in (words_of words.now) ≡ Some (o.0.now, o.1.now)) }
{
    let Some((first, behind)) = split_word(words) else {
        return None;
    };
    let Some((comma, behind)) = split_word(behind) else {
        return None;
    };
    let Some((second, behind)) = split_word(behind) else {
        return None;
    };
    if split_word(behind).is_none() && comma == b",".as_slice() {
        Some((first, second))
    } else {
        None
    }
}

// Three operands, with commas between them.
fn three(words: &[u8]) -> Option<(&[u8], &[u8], &[u8])>
    ensures { MatchOption result (three_in (words_of words.now) ≡ None) (λ o. three_in (words_of words.now) ≡ Some (o.0.now, o.1.now, o.2.now)) }
{
    let Some((first, behind)) = split_word(words) else {
        return None;
    };
    let Some((comma, behind)) = split_word(behind) else {
        return None;
    };
    if comma != b",".as_slice() {
        return None;
    }
    match two(behind) {
        Some((second, third)) => Some((first, second, third)),
        None => None,
    }
}

fn upper(name: UpperName, words: &[u8]) -> Option<Written>
    ensures { result ≡ written_in (mnemonics.Upper name) (words_of words.now) }
{
    let Some((a, b)) = two(words) else {
        return None;
    };
    let Some(rd) = register(a) else {
        return None;
    };
    let Some(number) = number(b) else {
        return None;
    };
    Some(Written::Upper { name, rd, number })
}

fn jump(words: &[u8]) -> Option<Written>
    ensures { result ≡ written_in mnemonics.Jump (words_of words.now) }
{
    let Some((a, b)) = two(words) else {
        return None;
    };
    let Some(rd) = register(a) else {
        return None;
    };
    let Some(target) = target(b) else {
        return None;
    };
    Some(Written::Jump { rd, target })
}

fn branch(name: BranchName, words: &[u8]) -> Option<Written>
    ensures { result ≡ written_in (mnemonics.Branch name) (words_of words.now) }
{
    let Some((a, b, c)) = three(words) else {
        return None;
    };
    let Some(rs1) = register(a) else {
        return None;
    };
    let Some(rs2) = register(b) else {
        return None;
    };
    let Some(target) = target(c) else {
        return None;
    };
    Some(Written::Branch {
        name,
        rs1,
        rs2,
        target,
    })
}

fn load(name: AddressName, words: &[u8]) -> Option<Written>
    ensures { result ≡ written_in (mnemonics.Address name) (words_of words.now) }
{
    let Some((a, b)) = two(words) else {
        return None;
    };
    let Some(rd) = register(a) else {
        return None;
    };
    let Some((number, rs1)) = address(b) else {
        return None;
    };
    Some(Written::Address {
        name,
        rd,
        rs1,
        number,
    })
}

fn store(name: StoreName, words: &[u8]) -> Option<Written>
    ensures { result ≡ written_in (mnemonics.Store name) (words_of words.now) }
{
    let Some((a, b)) = two(words) else {
        return None;
    };
    let Some(rs2) = register(a) else {
        return None;
    };
    let Some((number, rs1)) = address(b) else {
        return None;
    };
    Some(Written::Store {
        name,
        rs1,
        rs2,
        number,
    })
}

fn shift(name: ShiftName, words: &[u8]) -> Option<Written>
    ensures { result ≡ written_in (mnemonics.Shift name) (words_of words.now) }
{
    let Some((a, b, c)) = three(words) else {
        return None;
    };
    let Some(rd) = register(a) else {
        return None;
    };
    let Some(rs1) = register(b) else {
        return None;
    };
    let Some(number) = number(c) else {
        return None;
    };
    Some(Written::Shift {
        name,
        rd,
        rs1,
        number,
    })
}

fn with_number(name: NumberName, words: &[u8]) -> Option<Written>
    ensures { result ≡ written_in (mnemonics.Number name) (words_of words.now) }
{
    let Some((a, b, c)) = three(words) else {
        return None;
    };
    let Some(rd) = register(a) else {
        return None;
    };
    let Some(rs1) = register(b) else {
        return None;
    };
    let Some(number) = number(c) else {
        return None;
    };
    Some(Written::Number {
        name,
        rd,
        rs1,
        number,
    })
}

fn registers(name: RegistersName, words: &[u8]) -> Option<Written>
    ensures { result ≡ written_in (mnemonics.Registers name) (words_of words.now) }
{
    let Some((a, b, c)) = three(words) else {
        return None;
    };
    let Some(rd) = register(a) else {
        return None;
    };
    let Some(rs1) = register(b) else {
        return None;
    };
    let Some(rs2) = register(c) else {
        return None;
    };
    Some(Written::Registers { name, rd, rs1, rs2 })
}

fn bare(name: BareName, words: &[u8]) -> Option<Written>
    ensures { result ≡ written_in (mnemonics.Bare name) (words_of words.now) }
{
    match split_word(words) {
        None => Some(Written::Bare { name }),
        Some(_) => None,
    }
}

// The instruction with this mnemonic and these operands.
fn written(mnemonic: Mnemonic, words: &[u8]) -> Option<Written>
    ensures { result ≡ written_in mnemonic (words_of words.now) }
{
    match mnemonic {
        Mnemonic::Upper(name) => upper(name, words),
        Mnemonic::Jump => jump(words),
        Mnemonic::Branch(name) => branch(name, words),
        Mnemonic::Address(name) => load(name, words),
        Mnemonic::Store(name) => store(name, words),
        Mnemonic::Shift(name) => shift(name, words),
        Mnemonic::Number(name) => with_number(name, words),
        Mnemonic::Registers(name) => registers(name, words),
        Mnemonic::Bare(name) => bare(name, words),
    }
}

// The name of a label, without the colon behind it.
fn label_name(word: &[u8]) -> Option<Name>
    ensures { result ≡ name_by (ended_of 58 word.now) }
{
    match ended(b':', word) {
        Some(front) => Name::of(front),
        None => None,
    }
}

// The label that this word is, where no word stands behind it.
fn label(word: &[u8], behind: &[u8]) -> Option<Line>
    ensures { result ≡ label_in word.now (words_of behind.now) }
{
    if split_word(behind).is_some() {
        return None;
    }
    match label_name(word) {
        Some(name) => Some(Line::Label(name)),
        None => None,
    }
}

/// What a line behind that of the ports is. None where it has no form.
pub fn line(bytes: &[u8]) -> Option<Line>
    ensures { result ≡ line_in bytes.now }
{
    let Some((word, behind)) = split_word(bytes) else {
        return Some(Line::Empty);
    };
    match Mnemonic::of(word) {
        None => label(word, behind),
        Some(mnemonic) => match written(mnemonic, behind) {
            Some(written) => Some(Line::Instruction(written)),
            None => None,
        },
    }
}

/// Whether blanks and a comment are all that the line has.
pub fn is_empty(bytes: &[u8]) -> bool
    ensures { result ≡ is_empty_line bytes.now }
{
    split_word(bytes).is_none()
}

// A digit from 0 to 8.
fn port_count(word: &[u8]) -> Option<u8>
    ensures value { result ≡ port_count_of word.now }
    ensures few { IfSome result (λ n. n ≤ 8) }
{
    match word {
        [b] => {
            if b'0' <= *b && *b <= b'8' {
                Some(*b - b'0')
            } else {
                None
            }
        }
        _ => None,
    }
}

/// The counts of the in-ports and of the out-ports, each at most 8. None where the line isn't `ports` with these two.
pub fn ports(bytes: &[u8]) -> Option<(u8, u8)>
    ensures value { result ≡ ports_in bytes.now }
    ensures few { IfSome result (λ p. (p.0 ≤ 8) × (p.1 ≤ 8)) }
{
    let Some((word, behind)) = split_word(bytes) else {
        return None;
    };
    let Some((ins, behind)) = split_word(behind) else {
        return None;
    };
    let Some((outs, behind)) = split_word(behind) else {
        return None;
    };
    if split_word(behind).is_some() || word != b"ports".as_slice() {
        return None;
    }
    let Some(ins) = port_count(ins) else {
        return None;
    };
    match port_count(outs) {
        Some(outs) => Some((ins, outs)),
        None => None,
    }
}
