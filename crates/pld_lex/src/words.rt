//! Identifiers, keywords and numbers.

ghost use Rattle.std.specs.Prelude.{◌≡◌, ◌≤◌, ◌<◌, ◌+◌, ◌^◌, length, min, ◌||◌, ◌==◌, IsTrue};
ghost use Rattle.std.specs.List.{list_all};
ghost use Rattle.pld_base.specs.Names.{is_digit, is_letter as is_letter_byte, is_letter_or_digit as is_letter_or_digit_byte, name_in};
ghost use Rattle.pld_lex.specs.Words.{word_length as word_length_of, has_suffix as has_suffix_of, is_hex_digit as is_hex_digit_byte, is_hexadecimal as is_hexadecimal_word, is_decimal as is_decimal_word, digit_value as digit_value_of, value_behind, type_for as type_of_literal, unsuffixed as unsuffixed_word, sized as sized_number, number_of, ident_of, name_or_keyword as word_of};

use crate::marks::keyword;
use crate::token::TokenKind;
use pld_ast::Ty;
use pld_base::{FaultKind, Limit, Name};

// One more than the largest literal.
const BOUND: u64 = 4294967296;

// The largest literal that is signed without a suffix.
const LARGEST_INT: u64 = 2147483647;

/// Whether it is a letter of either case, or `_`.
pub fn is_letter(b: u8) -> bool
    ensures { result ≡ is_letter_byte b }
{
    b.is_ascii_alphabetic() || b == b'_'
}

fn is_letter_or_digit(b: u8) -> bool
    ensures { result ≡ is_letter_or_digit_byte b }
{
    b.is_ascii_alphanumeric() || b == b'_'
}

/// How many letters, digits and `_` the text begins with.
pub fn word_length(text: &[u8]) -> usize
    ensures value { result ≡ word_length_of text.now }
    ensures within { result ≤ length text.now }
{
    for (i, b) in text.iter().enumerate() {
        if !is_letter_or_digit(*b) {
            return i;
        }
    }
    text.len()
}

fn is_suffix(b: u8) -> bool
    ensures { result ≡ (b == 117 || b == 85) }
{
    b == b'u' || b == b'U'
}

// Whether the last byte is a `u` or `U`.
fn has_suffix(word: &[u8]) -> bool
    ensures { result ≡ has_suffix_of word.now }
{
    match word.last() {
        Some(last) => is_suffix(*last),
        None => false,
    }
}

fn is_hex_digit(b: u8) -> bool
    ensures { result ≡ is_hex_digit_byte b }
{
    b.is_ascii_hexdigit()
}

fn are_hex_digits(digits: &[u8]) -> bool
    ensures { result ≡ list_all is_hex_digit_byte digits.now }
{
    digits.iter().all(|b| is_hex_digit(*b))
}

fn are_digits(digits: &[u8]) -> bool
    ensures { result ≡ list_all is_digit digits.now }
{
    digits.iter().all(|b| b.is_ascii_digit())
}

fn is_x(b: u8) -> bool
    ensures { result ≡ (b == 120 || b == 88) }
{
    b == b'x' || b == b'X'
}

// Whether it is `0x` or `0X`, and then one hexadecimal digit or more.
fn is_hexadecimal(word: &[u8]) -> bool
    ensures value { result ≡ is_hexadecimal_word word.now }
    ensures prefix { IsTrue result → 2 ≤ length word.now }
{
    match word {
        [z, x, _, ..] => *z == b'0' && is_x(*x) && are_hex_digits(&word[2..]),
        _ => false,
    }
}

// Whether it is `0`, or decimal digits that don't begin with 0.
fn is_decimal(word: &[u8]) -> bool
    ensures { result ≡ is_decimal_word word.now }
{
    match word {
        [] => false,
        [b] => b.is_ascii_digit(),
        [b, ..] => *b != b'0' && are_digits(word),
    }
}

// What a digit is worth: 0 to 9, 10 to 15 for letters of either case.
fn digit_value(b: u8) -> u8
    ensures { result ≡ digit_value_of b }
{
    if b <= b'9' {
        b.saturating_sub(b'0')
    } else if b >= b'a' {
        b - 87
    } else {
        b - 55
    }
}

// The number that these digits make, and 2^32 where it is larger.
fn value_of(base: u64, digits: &[u8]) -> u64
    requires low { 1 ≤ base }
    requires high { base ≤ 16 }
    ensures value { result ≡ min (value_behind base 0 digits.now) 4294967296 }
    ensures bound { result ≤ 4294967296 }
{
    let mut value: u64 = 0;
    for b in digits {
        let next = value * base + digit_value(*b) as u64;
        value = next.min(BOUND);
    }
    value
}

// The type of a literal.
fn type_for(suffixed: bool, value: u64) -> Ty
    ensures { result ≡ type_of_literal suffixed value }
{
    if suffixed || value > LARGEST_INT {
        Ty::Uint
    } else {
        Ty::Int
    }
}

// The token of this value.
fn sized(suffixed: bool, value: u64) -> Result<TokenKind, FaultKind>
    ensures { result ≡ sized_number suffixed value }
{
    if value < BOUND {
        Ok(TokenKind::Number(value as u32, type_for(suffixed, value)))
    } else {
        Err(FaultKind::LiteralTooLarge)
    }
}

// The word without its suffix.
fn unsuffixed(word: &[u8]) -> &[u8]
    ensures { result.now ≡ unsuffixed_word word.now }
{
    if has_suffix(word) {
        &word[..word.len() - 1]
    } else {
        word
    }
}

/// The number that is spelled so. BadToken where it is no number, LiteralTooLarge where it is 2^32 or more.
pub fn number(word: &[u8]) -> Result<TokenKind, FaultKind>
    ensures { result ≡ number_of word.now }
{
    let digits = unsuffixed(word);
    if is_hexadecimal(digits) {
        sized(has_suffix(word), value_of(16, &digits[2..]))
    } else if is_decimal(digits) {
        sized(has_suffix(word), value_of(10, digits))
    } else {
        Err(FaultKind::BadToken)
    }
}

// The identifier that is this word.
fn ident(word: &[u8]) -> Result<TokenKind, FaultKind>
    ensures { result ≡ ident_of (name_in word.now) }
{
    match Name::of(word) {
        Some(name) => Ok(TokenKind::Ident(name)),
        None => Err(FaultKind::TooLarge(Limit::Ident)),
    }
}

/// The keyword or the identifier that is this word. TooLarge(Ident) where it is longer than 32 bytes.
pub fn name_or_keyword(word: &[u8]) -> Result<TokenKind, FaultKind>
    ensures { result ≡ word_of word.now }
{
    match keyword(word) {
        Some(kind) => Ok(kind),
        None => ident(word),
    }
}
