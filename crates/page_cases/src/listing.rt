//! Texts, words and bytes as they are written.

use fsm_core::{Next, State};
use itoa::Buffer;
use pld_base::NoMemory;
use pld_image::ImageForm;

/// Writes a text.
pub fn put(out: &mut Vec<u8>, text: &[u8]) -> Result<(), NoMemory> {
    out.extend_from_slice(text)?;
    Ok(())
}

fn put_number(out: &mut Vec<u8>, number: u32) -> Result<(), NoMemory> {
    let mut buffer = Buffer::new();
    put(out, b" ")?;
    put(out, buffer.format(number).as_bytes())
}

/// Writes words in a line.
pub fn put_words(out: &mut Vec<u8>, words: &[u32]) -> Result<(), NoMemory> {
    for word in words {
        put_number(out, *word)?;
    }
    put(out, b"\n")
}

/// Writes bytes in a line.
pub fn put_bytes(out: &mut Vec<u8>, bytes: &[u8]) -> Result<(), NoMemory> {
    for byte in bytes {
        put_number(out, u32::from(*byte))?;
    }
    put(out, b"\n")
}

fn put_count(out: &mut Vec<u8>, count: usize, what: &[u8]) -> Result<(), NoMemory> {
    let mut buffer = Buffer::new();
    put(out, buffer.format(count).as_bytes())?;
    put(out, what)
}

// How many micros a state has, and whether the run ends behind it.
fn put_state(out: &mut Vec<u8>, state: &State) -> Result<(), NoMemory> {
    put_count(out, state.micros.len(), b" micros")?;
    match state.next {
        Next::End => put(out, b", the end\n"),
        _ => put(out, b"\n"),
    }
}

/// Writes how many registers and states a table has, and a line for each state.
pub fn put_table(out: &mut Vec<u8>, form: &ImageForm) -> Result<(), NoMemory> {
    let ImageForm::Hard { table } = form else {
        return put(out, b"code\n");
    };
    put_count(out, table.registers as usize, b" registers, ")?;
    put_count(out, table.states.len(), b" states\n")?;
    for state in table.states.as_slice() {
        put_state(out, state)?;
    }
    Ok(())
}
