//! Numbers, as words of a line.

ghost use Rattle.std.specs.Prelude.{◌≡◌, ◌≤◌, ◌<◌, ◌^◌, MatchOption, None, Some, IfSome};
ghost use Rattle.pld_script.specs.Numbers.{below as below_of, digit_in, number_in, capped, unsigned_of, negative_of, hexadecimal_in, short_number_in, word_in};

/// The first value that no word has: values from here on need not be told apart.
const TOO_LARGE: u64 = 0x1_0000_0000;

fn below(base: u64, digit: u8) -> Option<u64>
    ensures value { result ≡ below_of base digit }
    ensures small { IfSome result (λ d. d < base) }
{
    if u64::from(digit) < base {
        Some(u64::from(digit))
    } else {
        None
    }
}

/// The value of a digit. The letters, of either case, stand for the values from 10 on.
fn digit_of(base: u64, b: u8) -> Option<u64>
    ensures value { result ≡ digit_in base b }
    ensures small { IfSome result (λ d. d < base) }
{
    match b {
        b'0'..=b'9' => below(base, b - b'0'),
        b'a'..=b'f' => below(base, b - 87),
        b'A'..=b'F' => below(base, b - 55),
        _ => None,
    }
}

/// The value of these digits, which stays at `TOO_LARGE` once it is there.
fn number(base: u64, digits: &[u8]) -> Option<u64>
    requires some { 1 ≤ base }
    requires few { base ≤ 16 }
    ensures { result ≡ capped (number_in base digits.now) }
{
    if digits.is_empty() {
        return None;
    }
    let mut value = 0;
    for b in digits {
        match digit_of(base, *b) {
            None => return None,
            Some(digit) => value = (base * value + digit).min(TOO_LARGE),
        }
    }
    Some(value)
}

/// A value below 2^32.
fn unsigned(value: Option<u64>) -> Option<u32>
    ensures { result ≡ unsigned_of value }
{
    match value {
        Some(n) if n < TOO_LARGE => Some(n as u32),
        _ => None,
    }
}

/// A value up to 2^31, with a sign.
fn negative(value: Option<u64>) -> Option<u32>
    ensures { result ≡ negative_of value }
{
    match value {
        None => None,
        Some(0) => Some(0),
        Some(n) => {
            if n <= 0x8000_0000 {
                Some((TOO_LARGE - n) as u32)
            } else {
                None
            }
        }
    }
}

fn hexadecimal(digits: &[u8]) -> Option<u32>
    ensures { result ≡ hexadecimal_in digits.now }
{
    if digits.len() <= 8 {
        unsigned(number(16, digits))
    } else {
        None
    }
}

/// The value of one to three decimal digits, which is below 1,000. None where the word is anything else.
pub fn short_number_of(word: &[u8]) -> Option<u16>
    ensures { result ≡ short_number_in word.now }
{
    if word.len() > 3 {
        return None;
    }
    Some(number(10, word)? as u16)
}

/// The value of a number: decimal digits with a value below 2^32, a minus sign and decimal digits
/// with a value up to 2^31, which is taken modulo 2^32, or `0x` and one to eight hexadecimal digits.
/// None where the word is none of these.
pub fn word_of(word: &[u8]) -> Option<u32>
    ensures { result ≡ word_in word.now }
{
    match word {
        [b'-', digits @ ..] => negative(number(10, digits)),
        [b'0', b'x', digits @ ..] => hexadecimal(digits),
        digits => unsigned(number(10, digits)),
    }
}
