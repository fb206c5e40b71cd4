//! The states of a table as bytes.

ghost use Rattle.std.specs.Prelude.{◌≡◌, [], ◌∷◌, ◌++◌, ◌≤◌, length, map, All, OnOk};
ghost use Rattle.std.specs.List.{flat_map};
ghost use Rattle.fsm_core.specs.Table.{stage_in};
ghost use Rattle.image_form.specs.Spelling.{half, word, micro_bytes, next_bytes, state_bytes};

use crate::ops::number_of;
use fsm_core::{Micro, Next, State};
use pld_base::NoMemory;

// 16 bits, the lowest byte first.
fn put_half(out: &mut Vec<u8>, value: u16) -> Result<(), NoMemory>
    ensures { OnOk result (out.new.items ≡ out.old.items ++ half value) }
{
    out.extend_from_slice(&value.to_le_bytes())?;
    Ok(())
}

/// A word, the lowest byte first.
pub fn put_word(out: &mut Vec<u8>, value: u32) -> Result<(), NoMemory>
    ensures { OnOk result (out.new.items ≡ out.old.items ++ word value) }
{
    out.extend_from_slice(&value.to_le_bytes())?;
    Ok(())
}

// A micro.
fn put_micro(out: &mut Vec<u8>, m: Micro) -> Result<(), NoMemory>
    ensures { OnOk result (out.new.items ≡ out.old.items ++ micro_bytes m) }
{
    out.extend_from_slice(&[number_of(m.op), m.unit])?;
    put_half(out, m.t)?;
    put_half(out, m.a)?;
    put_half(out, m.b)?;
    put_word(out, m.value)
}

// Micros, one behind the other.
fn put_micros(out: &mut Vec<u8>, micros: &[Micro]) -> Result<(), NoMemory>
    ensures { OnOk result (out.new.items ≡ out.old.items ++ flat_map micro_bytes micros.now) }
{
    for m in micros {
        put_micro(out, *m)?;
    }
    Ok(())
}

// A kind, a register and two states.
fn put_parts(out: &mut Vec<u8>, kind: u8, r: u16, i: u32, j: u32) -> Result<(), NoMemory>
    ensures { OnOk result (out.new.items ≡ out.old.items ++ (kind ∷ []) ++ half r ++ word i ++ word j) }
{
    out.push(kind)?;
    put_half(out, r)?;
    put_word(out, i)?;
    put_word(out, j)
}

// Where a state goes on.
fn put_next(out: &mut Vec<u8>, next: Next) -> Result<(), NoMemory>
    ensures { OnOk result (out.new.items ≡ out.old.items ++ next_bytes next) }
{
    match next {
        Next::Goto(i) => put_parts(out, 0, 0, i, 0),
        Next::Branch(r, i, j) => put_parts(out, 1, r, i, j),
        Next::End => put_parts(out, 2, 0, 0, 0),
    }
}

// A state.
fn put_state(out: &mut Vec<u8>, state: &State) -> Result<(), NoMemory>
    requires { length state.now.micros.items ≤ 255 }
    ensures { OnOk result (out.new.items ≡ out.old.items ++ state_bytes (stage_in state.now)) }
{
    out.push(state.micros.len() as u8)?;
    put_micros(out, &state.micros)?;
    put_next(out, state.next)
}

/// States, one behind the other.
pub fn put_states(out: &mut Vec<u8>, states: &[State]) -> Result<(), NoMemory>
    requires { All (λ s. length s.micros.items ≤ 255) states.now }
    ensures { OnOk result (out.new.items ≡ out.old.items ++ flat_map state_bytes (map stage_in states.now)) }
{
    for state in states {
        put_state(out, state)?;
    }
    Ok(())
}
