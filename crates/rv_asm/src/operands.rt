//! Addresses and targets, and how many operands a line has.

ghost use Rattle.std.specs.Prelude.{◌≡◌, option_map, option_copied};
ghost use Rattle.rv_asm.specs.Numbers.{ended as ended_of, address_in, target_in, register_before as register_before_of};
ghost use Rattle.rv_asm.specs.Forms.{two_in, three_in};
ghost use Rattle.rv_asm.specs.Words.{words_of};

use crate::numbers::{number, register};
use crate::words::{place_of, split_word};
use crate::written::Target;
use pld_base::Name;
use rv_isa::Reg;

/// The word without its last byte, if that is this one.
pub fn ended(b: u8, word: &[u8]) -> Option<&[u8]>
    ensures { option_copied result ≡ ended_of b word.now }
{
    let length = word.len();
    if 1 <= length && word[length - 1] == b {
        Some(&word[..length - 1])
    } else {
        None
    }
}

// The register in front of this byte, which ends the word.
fn register_before(b: u8, word: &[u8]) -> Option<Reg>
    ensures { result ≡ register_before_of b (ended_of b word.now) }
{
    match ended(b, word) {
        Some(front) => register(front),
        None => None,
    }
}

/// The number and the register of an address, as `4(x2)`. None where the word is none.
pub fn address(word: &[u8]) -> Option<(i64, Reg)>
    ensures { result ≡ address_in word.now }
{
    let open = place_of(b'(', word);
    let Some(number) = number(&word[..open]) else {
        return None;
    };
    let behind = if open < word.len() {
        &word[open + 1..]
    } else {
        &word[open..]
    };
    match register_before(b')', behind) {
        Some(register) => Some((number, register)),
        None => None,
    }
}

/// The target that is written so: a label, or a number that is the offset. None where the word is neither.
pub fn target(word: &[u8]) -> Option<Target>
    ensures { result ≡ target_in word.now }
{
    match Name::of(word) {
        Some(name) => Some(Target::Label(name)),
        None => match number(word) {
            Some(bytes) => Some(Target::Offset(bytes)),
            None => None,
        },
    }
}
