//! Texts and numbers.

ghost use Rattle.std.specs.Prelude.{◌≡◌, ◌+◌, ◌<◌, ◌≤◌, ◌++◌, OnOk, OnErr, decimal, length, vec_len, vec_capacity};

use itoa::Buffer;
use pld_base::NoMemory;

/// Writes a text. It fails only where there is no room for it.
pub(crate) fn put_text(reply: &mut Vec<u8>, text: &[u8]) -> Result<(), NoMemory>
    ensures text { OnOk result (reply.new.items ≡ reply.old.items ++ text.now) }
    ensures room { vec_capacity reply.old ≤ vec_capacity reply.new }
    ensures full { OnErr result (vec_capacity reply.old < vec_len reply.old + length text.now) }
{
    reply.extend_from_slice(text)?;
    Ok(())
}

/// Writes a number in decimal digits.
pub(crate) fn put_number(reply: &mut Vec<u8>, number: u64) -> Result<(), NoMemory>
    ensures text { OnOk result (reply.new.items ≡ reply.old.items ++ decimal number) }
    ensures room { vec_capacity reply.old ≤ vec_capacity reply.new }
    ensures full { OnErr result (vec_capacity reply.old < vec_len reply.old + length (decimal number)) }
{
    let mut buffer = Buffer::new();
    put_text(reply, buffer.format(number).as_bytes())
}
