//! The one spelling of an image.

ghost use Rattle.std.specs.Prelude.{◌≡◌, ◌++◌, ◌<◌, ◌^◌, length, IfOk, OnOk};
ghost use Rattle.std.specs.List.{flat_map};
ghost use Rattle.fsm_core.specs.Table.{plan_in, IsTable};
ghost use Rattle.image_form.specs.Spelling.{form_in, IsForm, bytes_of, header, letter as letter_of, word, table_bytes};

use crate::form::ImageForm;
use crate::put::{put_states, put_word};
use fsm_core::Table;
use pld_base::{Kind, NoMemory};
use std::alloc::Global;

// The byte of a kind.
fn letter(kind: Kind) -> u8
    ensures { result ≡ letter_of kind }
{
    match kind {
        Kind::Soft => b'S',
        Kind::Hard => b'H',
    }
}

// `PLDI`, the kind, the ports, and 0.
fn put_header(out: &mut Vec<u8>, kind: Kind, ins: u8, outs: u8) -> Result<(), NoMemory>
    ensures { OnOk result (out.new.items ≡ out.old.items ++ header kind ins outs) }
{
    out.extend_from_slice(b"PLDI")?;
    out.extend_from_slice(&[letter(kind), ins, outs, 0])?;
    Ok(())
}

// Words, one behind the other.
fn put_words(out: &mut Vec<u8>, words: &[u32]) -> Result<(), NoMemory>
    ensures { OnOk result (out.new.items ≡ out.old.items ++ flat_map word words.now) }
{
    for value in words {
        put_word(out, *value)?;
    }
    Ok(())
}

// A table.
fn put_table(out: &mut Vec<u8>, table: &Table) -> Result<(), NoMemory>
    requires { IsTable (plan_in table.now) }
    ensures { OnOk result (out.new.items ≡ out.old.items ++ table_bytes (plan_in table.now)) }
{
    put_word(out, table.arrays.len() as u32)?;
    put_words(out, &table.arrays)?;
    put_word(out, table.registers)?;
    put_word(out, table.states.len() as u32)?;
    put_states(out, &table.states)
}

/// The one spelling of an image in range.
pub fn image_bytes(alloc: Global, form: &ImageForm) -> Result<Vec<u8>, NoMemory>
    requires { IsForm (form_in form.now) }
    ensures { IfOk result (λ bytes. bytes.items ≡ bytes_of (form_in form.now)) }
{
    let mut out = Vec::new(alloc);
    match form {
        ImageForm::Soft { ins, outs, code } => {
            put_header(&mut out, Kind::Soft, *ins, *outs)?;
            put_word(&mut out, code.len() as u32)?;
            put_words(&mut out, code)?;
        }
        ImageForm::Hard { table } => {
            put_header(&mut out, Kind::Hard, table.ins, table.outs)?;
            put_table(&mut out, table)?;
        }
    }
    Ok(out)
}
