//! Fields at the front of bytes.

ghost use Rattle.std.specs.Prelude.{◌≡◌, ◌≤◌, length, IfOk};
ghost use Rattle.image_form.specs.Reading.{Tells, byte_at, half_at, word_at, byte_in as byte_of, word_in as word_of, kind_at, code_at};

use crate::stop::Bad;
use pld_base::Kind;
use rv_isa::decode;

// A bad field at the front of these bytes.
pub(crate) fn bad(bytes: &[u8]) -> Bad
    ensures { result ≡ record { left = length bytes.now } }
{
    Bad { left: bytes.len() }
}

/// A byte.
pub fn byte(bytes: &[u8]) -> Result<(u8, &[u8]), Bad>
    ensures { Tells (λ x. (x.0, x.1.now)) result (byte_at bytes.now) }
{
    match bytes {
        [first, rest @ ..] => Ok((*first, rest)),
        [] => Err(Bad { left: 0 }),
    }
}

/// 16 bits, the lowest byte first.
pub fn half(bytes: &[u8]) -> Result<(u16, &[u8]), Bad>
    ensures { Tells (λ x. (x.0, x.1.now)) result (half_at bytes.now) }
{
    if bytes.len() < 2 {
        return Err(bad(bytes));
    }
    let (front, rest) = bytes.split_at(2);
    let value = u16::from_le_bytes([front[0], front[1]]);
    Ok((value, rest))
}

/// A word, the lowest byte first.
pub fn word(bytes: &[u8]) -> Result<(u32, &[u8]), Bad>
    ensures { Tells (λ x. (x.0, x.1.now)) result (word_at bytes.now) }
{
    if bytes.len() < 4 {
        return Err(bad(bytes));
    }
    let (front, rest) = bytes.split_at(4);
    let word = u32::from_le_bytes([front[0], front[1], front[2], front[3]]);
    Ok((word, rest))
}

/// A byte from `low` to `high`.
#[tactic(auto, unfolding(crate::specs::Reading::byte_in))]
pub fn byte_in(low: u8, high: u8, bytes: &[u8]) -> Result<(u8, &[u8]), Bad>
    ensures { Tells (λ x. (x.0, x.1.now)) result (byte_of low high bytes.now) }
{
    let (value, rest) = byte(bytes)?;
    if low <= value && value <= high {
        Ok((value, rest))
    } else {
        Err(bad(bytes))
    }
}

/// A word from `low` to `high`.
#[tactic(auto, unfolding(crate::specs::Reading::word_in))]
pub fn word_in(low: u32, high: u32, bytes: &[u8]) -> Result<(u32, &[u8]), Bad>
    ensures value { Tells (λ x. (x.0, x.1.now)) result (word_of low high bytes.now) }
    ensures bound { IfOk result (λ x. x.0 ≤ high) }
{
    let (value, rest) = word(bytes)?;
    if low <= value && value <= high {
        Ok((value, rest))
    } else {
        Err(bad(bytes))
    }
}

/// The kind of the page.
#[tactic(auto, unfolding(crate::specs::Reading::kind_at))]
pub fn kind(bytes: &[u8]) -> Result<(Kind, &[u8]), Bad>
    ensures { Tells (λ x. (x.0, x.1.now)) result (kind_at bytes.now) }
{
    let (value, rest) = byte(bytes)?;
    if value == b'S' {
        Ok((Kind::Soft, rest))
    } else if value == b'H' {
        Ok((Kind::Hard, rest))
    } else {
        Err(bad(bytes))
    }
}

/// The word of an instruction.
#[tactic(auto, unfolding(crate::specs::Reading::code_at))]
pub fn code_word(bytes: &[u8]) -> Result<(u32, &[u8]), Bad>
    ensures { Tells (λ x. (x.0, x.1.now)) result (code_at bytes.now) }
{
    let (value, rest) = word(bytes)?;
    if decode(value).is_some() {
        Ok((value, rest))
    } else {
        Err(bad(bytes))
    }
}
