//! What statements say, in words.

use crate::changes::put_change;
use crate::listing::{put_body, put_kind, put_name, put_number, put_word};
use pld_base::NoMemory;
use pld_script::{Edit, Statement};

// What the edit does, in words.
fn put_edit(out: &mut Vec<u8>, edit: &Edit) -> Result<(), NoMemory> {
    match edit {
        Edit::Op(name, kind, text) => {
            put_word(out, b"op")?;
            put_name(out, name)?;
            put_kind(out, *kind)?;
            put_body(out, text.as_slice())
        }
        Edit::Replace(name, kind, text) => {
            put_word(out, b"replace")?;
            put_name(out, name)?;
            put_kind(out, *kind)?;
            put_body(out, text.as_slice())
        }
        Edit::Feed(name, words) => {
            put_word(out, b"feed")?;
            put_name(out, name)?;
            for n in words.as_slice() {
                put_number(out, *n)?;
            }
            Ok(())
        }
        Edit::Clear(name) => {
            put_word(out, b"clear")?;
            put_name(out, name)
        }
        change => put_change(out, change),
    }
}

/// What the statement says, in words.
pub fn put_statement(out: &mut Vec<u8>, statement: &Statement) -> Result<(), NoMemory> {
    match statement {
        Statement::Edit(edit) => put_edit(out, edit),
        Statement::Build => put_word(out, b"build"),
        Statement::Run => put_word(out, b"run"),
        Statement::DumpImage(name) => {
            put_word(out, b"dump image")?;
            put_name(out, name)
        }
        Statement::DumpTables => put_word(out, b"dump tables"),
        Statement::Stats => put_word(out, b"stats"),
        Statement::Quit => put_word(out, b"quit"),
    }
}
