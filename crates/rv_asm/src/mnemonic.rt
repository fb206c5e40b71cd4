//! The mnemonics.

ghost use Rattle.std.specs.Prelude.{◌≡◌, option_map};
ghost use Rattle.std.specs.Option.{option_or};
ghost use Rattle.rv_text.specs.Names.{upper_named, branch_named, address_named, store_named, shift_named, number_named, registers_named, bare_named};
ghost use Rattle.rv_asm.specs.Forms.{mnemonic_in, jump_named, later_named, last_named};

use rv_text::{
    AddressName, BareName, BranchName, NumberName, RegistersName, ShiftName, StoreName, UpperName,
};

/// A mnemonic, by the operands that stand behind it.
#[derive(Clone, Copy)]
pub enum Mnemonic {
    Upper(UpperName),
    /// `jal`.
    Jump,
    Branch(BranchName),
    Address(AddressName),
    Store(StoreName),
    Shift(ShiftName),
    Number(NumberName),
    Registers(RegistersName),
    Bare(BareName),
}

// `jal`.
fn jump(text: &[u8]) -> Option<Mnemonic>
    ensures { result ≡ jump_named text.now }
{
    if text == b"jal".as_slice() {
        Some(Mnemonic::Jump)
    } else {
        None
    }
}

// The last ones, by the order in which they are tried.
fn last(text: &[u8]) -> Option<Mnemonic>
    ensures { result ≡ last_named text.now }
{
    if let Some(name) = NumberName::of(text) {
        return Some(Mnemonic::Number(name));
    }
    if let Some(name) = RegistersName::of(text) {
        return Some(Mnemonic::Registers(name));
    }
    match BareName::of(text) {
        Some(name) => Some(Mnemonic::Bare(name)),
        None => None,
    }
}

fn later(text: &[u8]) -> Option<Mnemonic>
    ensures { result ≡ later_named text.now }
{
    if let Some(name) = AddressName::of(text) {
        return Some(Mnemonic::Address(name));
    }
    if let Some(name) = StoreName::of(text) {
        return Some(Mnemonic::Store(name));
    }
    match ShiftName::of(text) {
        Some(name) => Some(Mnemonic::Shift(name)),
        None => last(text),
    }
}

impl Mnemonic {
    /// The mnemonic with this text, in lower case. None where none has it.
    pub fn of(text: &[u8]) -> Option<Mnemonic>
        ensures { result ≡ mnemonic_in text.now }
    {
        if let Some(name) = UpperName::of(text) {
            return Some(Mnemonic::Upper(name));
        }
        if let Some(mnemonic) = jump(text) {
            return Some(mnemonic);
        }
        match BranchName::of(text) {
            Some(name) => Some(Mnemonic::Branch(name)),
            None => later(text),
        }
    }
}
