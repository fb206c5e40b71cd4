//! Numbers and registers, as words of a line.

ghost use Rattle.std.specs.Prelude.{◌≡◌, ◌≤◌, ◌<◌, ◌^◌, length, min, map, IsTrue, option_map, pos, ◌≤ℤ◌, negsuc, IfSome};
ghost use Rattle.std.specs.List.{list_all};
ghost use Rattle.std.specs.Char.{is_digit as is_digit_of, digit_value as value_of_digit};
ghost use Rattle.std.specs.Str.Parse.{digits_value};
ghost use Rattle.rv_asm.specs.Numbers.{is_numeral as is_numeral_word, numeral_in, number_in, has_leading_zero as has_leading_zero_in, up_to_31 as up_to_31_of, register_number as register_number_in, register_in};

use rv_isa::Reg;

// No numeral of at most 10 digits reaches this: it is 16^10.
const BOUND: u64 = 1099511627776;

// The value of a digit or a letter, and 36 for any other byte.
fn digit_value(b: u8) -> u64
    ensures value { result ≡ value_of_digit b }
    ensures bound { result ≤ 36 }
{
    match b {
        b'0'..=b'9' => (b - 48) as u64,
        b'A'..=b'Z' => (b - 55) as u64,
        b'a'..=b'z' => (b - 87) as u64,
        _ => 36,
    }
}

fn is_digit(radix: u64, b: u8) -> bool
    ensures { result ≡ is_digit_of b radix }
{
    digit_value(b) < radix
}

fn are_digits(radix: u64, word: &[u8]) -> bool
    ensures { result ≡ list_all (λ b. is_digit_of b radix) word.now }
{
    word.iter().all(|b| is_digit(radix, *b))
}

fn is_numeral(radix: u64, most: usize, word: &[u8]) -> bool
    ensures { result ≡ is_numeral_word radix most word.now }
{
    1 <= word.len() && word.len() <= most && are_digits(radix, word)
}

// The number that these digits make, and `BOUND` where it is larger.
fn value_of(radix: u64, digits: &[u8]) -> u64
    requires low { 1 ≤ radix }
    requires high { radix ≤ 16 }
    ensures { result ≡ min (digits_value radix digits.now) 1099511627776 }
{
    let mut value: u64 = 0;
    for b in digits {
        let next = value * radix + digit_value(*b);
        value = next.min(BOUND);
    }
    value
}

// The value of digits, of which there may be so many.
fn numeral(radix: u64, most: usize, word: &[u8]) -> Option<u64>
    requires low { 1 ≤ radix }
    requires high { radix ≤ 16 }
    requires few { most ≤ 10 }
    ensures value { result ≡ numeral_in radix most word.now }
    ensures bound { IfSome result (λ n. n ≤ 1099511627776) }
{
    if is_numeral(radix, most, word) {
        Some(value_of(radix, word))
    } else {
        None
    }
}

/// The number that is written so: `-` and 1 to 10 decimal digits, `0x` and 1 to 8 hexadecimal ones of either case, or 1 to 10
/// decimal digits alone. None where the word is none of these.
pub fn number(word: &[u8]) -> Option<i64>
    ensures { result ≡ number_in word.now }
{
    match word {
        [b'-', digits @ ..] => match numeral(10, 10, digits) {
            Some(n) => Some(-(n as i64)),
            None => None,
        },
        [b'0', b'x', digits @ ..] => match numeral(16, 8, digits) {
            Some(n) => Some(n as i64),
            None => None,
        },
        digits => match numeral(10, 10, digits) {
            Some(n) => Some(n as i64),
            None => None,
        },
    }
}

fn has_leading_zero(word: &[u8]) -> bool
    ensures { result ≡ has_leading_zero_in word.now }
{
    2 <= word.len() && word[0] == b'0'
}

fn up_to_31(n: u64) -> Option<Reg>
    ensures { result ≡ up_to_31_of n }
{
    if n <= 31 {
        Some(Reg::new(n as i32))
    } else {
        None
    }
}

// The register with this number.
fn register_number(word: &[u8]) -> Option<Reg>
    ensures { result ≡ register_number_in word.now }
{
    if is_numeral(10, 2, word) && !has_leading_zero(word) {
        up_to_31(value_of(10, word))
    } else {
        None
    }
}

/// The register that is written so: `x0` to `x31`. None where the word is none.
pub fn register(word: &[u8]) -> Option<Reg>
    ensures { result ≡ register_in word.now }
{
    match word {
        [b'x', digits @ ..] => register_number(digits),
        _ => None,
    }
}
