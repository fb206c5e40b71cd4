//! Numbers, as words of a command line.

ghost use Rattle.std.specs.Prelude.{◌≡◌, ◌≤◌, ◌<◌, length, IfSome};
ghost use Rattle.pld_words.specs.Words.{digit_of, number_from, number_of, at_most, IsUpTo};

fn digit(b: u8) -> Option<u64>
    ensures value { result ≡ digit_of b }
    ensures small { IfSome result (λ d. d < 10) }
{
    match b {
        b'0'..=b'9' => Some(u64::from(b - b'0')),
        _ => None,
    }
}

/// The value of up to 9 digits.
fn digits(word: &[u8]) -> Option<u64>
    requires { length word.now ≤ 9 }
    ensures { result ≡ number_from 0 word.now }
{
    let mut value: u64 = 0;
    for b in word {
        match digit(*b) {
            None => return None,
            Some(digit) => value = 10 * value + digit,
        }
    }
    Some(value)
}

/// The value of 1 to 7 decimal digits. None where the word is anything else.
fn number(word: &[u8]) -> Option<u64>
    ensures { result ≡ number_of word.now }
{
    match word.len() {
        1..=7 => digits(word),
        _ => None,
    }
}

/// The number that a word is, from 1 to `most`. None where it is no such number.
pub fn number_up_to(most: u64, word: &[u8]) -> Option<u64>
    ensures value { result ≡ at_most most (number_of word.now) }
    ensures range { IfSome result (IsUpTo most) }
{
    let n = number(word)?;
    if 1 <= n && n <= most { Some(n) } else { None }
}
