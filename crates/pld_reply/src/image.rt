//! The bytes of an image.

ghost use Rattle.std.specs.Prelude.{◌≡◌, ◌++◌, ◌<◌, OnOk, decimal, codes};
ghost use Rattle.pld_reply.specs.Replies.{hex_digit, hex_byte, hex, image_reply};

use crate::put::{put_number, put_text};
use pld_base::{Name, NoMemory};

/// The digit of a value below 16, in ASCII.
fn digit(value: u8) -> u8
    requires { value < 16 }
    ensures { result ≡ hex_digit value }
{
    if value < 10 { 48 + value } else { 87 + value }
}

/// Writes a byte, the high digit first.
fn put_byte(reply: &mut Vec<u8>, byte: u8) -> Result<(), NoMemory>
    ensures { OnOk result (reply.new.items ≡ reply.old.items ++ hex_byte byte) }
{
    put_text(reply, &[digit(byte / 16), digit(byte % 16)])
}

/// Writes each byte in two digits.
fn put_hex(reply: &mut Vec<u8>, bytes: &[u8]) -> Result<(), NoMemory>
    ensures { OnOk result (reply.new.items ≡ reply.old.items ++ hex bytes.now) }
{
    for byte in bytes {
        put_byte(reply, *byte)?;
    }
    Ok(())
}

/// Writes the line `image NAME COUNT HEX`: the count of the image's bytes, and the bytes in lower-case hexadecimal, two
/// digits each, without spaces between.
pub fn put_image(reply: &mut Vec<u8>, name: &Name, bytes: &[u8]) -> Result<(), NoMemory>
    ensures { OnOk result (reply.new.items ≡ reply.old.items ++ image_reply name.now bytes.now) }
{
    put_text(reply, b"image ")?;
    put_text(reply, name.as_bytes())?;
    put_text(reply, b" ")?;
    put_number(reply, bytes.len() as u64)?;
    put_text(reply, b" ")?;
    put_hex(reply, bytes)?;
    put_text(reply, b"\n")
}
