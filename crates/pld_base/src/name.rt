//! Names of operators, ports, variables, inputs and outputs.

ghost use Rattle.std.specs.Prelude.{◌≡◌, ◌≤◌, ◌&&◌, length, true};
ghost use Rattle.std.specs.Str.{bytes_eq};
ghost use Rattle.std.specs.List.{list_all};
ghost use Rattle.pld_base.specs.Names.{name_in, is_letter as is_letter_of, is_letter_or_digit as is_letter_or_digit_of, is_identifier as is_identifier_of};
ghost use Rattle.std.specs.Prelude.{[], ◌∷◌};
ghost use Rattle.std.proofs.Common.{rules};
ghost use Rattle.std.specs.Cmp.Rules.{comparing, hashing};

use std::hash::{Hash, Hasher};
use std::marker::Model;

/// An identifier of 1 to 32 bytes: a letter or `_`, then letters, digits and `_`.
/// Contracts see it as the list of its bytes.
#[derive(Clone, Copy, Debug)]
pub struct Name {
    bytes: [u8; 32],
    len: usize,
}

impl Model for Name {
    ghost use Rattle.std.specs.Prelude.{◌≡◌, ◌≤◌, ℕ, List, ◌++◌, ◌-◌, length, take, drop, replicate, true};
    ghost use Rattle.std.specs.Coded.{coded_list, coded_ℕ};

    ghost Value = { List ℕ };

    ghost coded = { coded_list coded_ℕ };

    ghost use Rattle.pld_base.specs.Names.{padded, padded_gives_back, is_identifier};

    ghost view = { λ n. take n.len n.bytes };

    ghost invariant = { λ n. (n.len ≤ 32) × (length n.bytes ≡ 32) × (drop n.len n.bytes ≡ replicate (32 - n.len) 0) × (is_identifier (take n.len n.bytes) ≡ true) };

    ghost inverse = { λ l. record { bytes = padded l; len = length l } };

    ghost inverse_ok = { λ a h. padded_gives_back a h.0 h.1 h.2 };
}

fn is_letter(b: u8) -> bool
    ensures { result ≡ is_letter_of b }
{
    b.is_ascii_alphabetic() || b == b'_'
}

fn is_letter_or_digit(b: u8) -> bool
    ensures { result ≡ is_letter_or_digit_of b }
{
    b.is_ascii_alphanumeric() || b == b'_'
}

fn are_letters_or_digits(text: &[u8]) -> bool
    ensures { result ≡ list_all is_letter_or_digit_of text.now }
{
    text.iter().all(|b| is_letter_or_digit(*b))
}

fn is_identifier(text: &[u8]) -> bool
    ensures { result ≡ is_identifier_of text.now }
{
    match text {
        [] => false,
        [first, rest @ ..] => is_letter(*first) && are_letters_or_digits(rest),
    }
}

impl Name {
    /// The name with this text, in a field of 32 bytes.
    fn padded(text: &[u8]) -> Name
        requires within { length text.now ≤ 32 }
        requires identifier { is_identifier_of text.now ≡ true }
        ensures { result ≡ text.now }
    {
        let mut bytes = [0; 32];
        bytes[..text.len()].copy_from_slice(text);
        Name {
            bytes,
            len: text.len(),
        }
    }

    /// The name with this text. None exactly where the text is no identifier, or has more than 32 bytes.
    pub fn of(text: &[u8]) -> Option<Name>
        ensures { result ≡ name_in text.now }
    {
        if text.len() > 32 || !is_identifier(text) {
            return None;
        }
        Some(Name::padded(text))
    }

    /// The text.
    pub fn as_bytes(&self) -> &[u8]
        ensures { result.now ≡ self.now }
    {
        &self.bytes[..self.len]
    }

    /// How many bytes it has, 1 to 32.
    pub fn len(&self) -> usize
        ensures value { result ≡ length self.now }
        ensures most { result ≤ 32 }
    {
        self.len
    }

    /// Whether both are the same text.
    pub fn is_same(&self, other: &Name) -> bool
        ensures { result ≡ bytes_eq self.now other.now }
    {
        self.bytes[..self.len] == other.bytes[..other.len]
    }
}

impl PartialEq for Name {
    ghost eq = { bytes_eq };

    ghost laws = { Prim.search (comparing, rules) };

    fn eq(&self, other: &Name) -> bool {
        self.is_same(other)
    }
}

impl Eq for Name {
    ghost laws = { Prim.search (comparing, rules) };
}

// A name is hashed as its text.
impl Hash for Name {
    ghost hash_input = { λ name. name ∷ [] };

    ghost respects_eq = { Prim.search (hashing, rules) };

    fn hash<H: Hasher>(&self, state: &mut H) {
        state.write(self.as_bytes());
    }
}
