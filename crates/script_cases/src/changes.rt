//! What edits of channels, pins and the tree say.

use crate::listing::{put_levels, put_name, put_number, put_port, put_word};
use pld_base::NoMemory;
use pld_graph::Cut;
use pld_script::Edit;

// What the edit does to the tree and to the window of the channels, in words.
fn put_tree(out: &mut Vec<u8>, edit: &Edit) -> Result<(), NoMemory> {
    match edit {
        Edit::Pages(count) => {
            put_word(out, b"pages")?;
            put_number(out, u32::from(count.levels()))
        }
        Edit::Levels(levels) => {
            put_word(out, b"pattern")?;
            put_levels(out, levels)
        }
        Edit::Window(window) => {
            put_word(out, b"window")?;
            put_number(out, u32::from(window.words()))
        }
        _ => Ok(()),
    }
}

/// What the edit does to channels and pins, in words.
pub fn put_change(out: &mut Vec<u8>, edit: &Edit) -> Result<(), NoMemory> {
    match edit {
        Edit::Remove(name) => {
            put_word(out, b"remove")?;
            put_name(out, name)
        }
        Edit::Connect(from, to) => {
            put_word(out, b"connect")?;
            put_port(out, from)?;
            put_port(out, to)
        }
        Edit::Disconnect(Cut::Port(end)) => {
            put_word(out, b"disconnect the port")?;
            put_port(out, end)
        }
        Edit::Disconnect(Cut::Host(name)) => {
            put_word(out, b"disconnect the host's")?;
            put_name(out, name)
        }
        Edit::Input(name, to) => {
            put_word(out, b"input")?;
            put_name(out, name)?;
            put_port(out, to)
        }
        Edit::Output(from, name) => {
            put_word(out, b"output")?;
            put_port(out, from)?;
            put_name(out, name)
        }
        Edit::Pin(name, leaf) => {
            put_word(out, b"pin")?;
            put_name(out, name)?;
            put_number(out, u32::from(*leaf))
        }
        Edit::Unpin(name) => {
            put_word(out, b"unpin")?;
            put_name(out, name)
        }
        tree => put_tree(out, tree),
    }
}
