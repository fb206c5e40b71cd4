//! Where pages stand, and the rows of the leaves.

ghost use Rattle.std.specs.Prelude.{◌≡◌, ◌++◌, ◌+◌, ◌<◌, OnOk, decimal, codes, length};
ghost use Rattle.fabric_run.specs.Plan.{row_in};
ghost use Rattle.fabric_run.specs.Reply.{lines_below};
ghost use Rattle.pld_reply.specs.Tables.{kind_word, page_line, page_lines, side_letter, seat_text, link_line, row_line, row_lines, all_pages, all_rows, tables_reply};

use crate::put::{put_number, put_text};
use net_switch::Row;
use pld_base::{Kind, Name, NoMemory, PageId, Side};

/// A page of a network: its leaf, the name of its operator, and its kind.
#[derive(Clone, Copy, Debug, PartialEq, Eq)]
pub struct PlacedPage {
    pub leaf: PageId,
    pub name: Name,
    pub kind: Kind,
}

/// Writes the kind of a page.
fn put_kind(reply: &mut Vec<u8>, kind: Kind) -> Result<(), NoMemory>
    ensures { OnOk result (reply.new.items ≡ reply.old.items ++ kind_word kind) }
{
    match kind {
        Kind::Soft => put_text(reply, b"soft"),
        Kind::Hard => put_text(reply, b"hard"),
    }
}

/// Writes a page, where it stands on this leaf.
fn put_page(reply: &mut Vec<u8>, leaf: u8, page: &PlacedPage) -> Result<(), NoMemory>
    ensures { OnOk result (reply.new.items ≡ reply.old.items ++ page_line leaf page.now) }
{
    if page.leaf.0 != leaf {
        return Ok(());
    }
    put_text(reply, b"page ")?;
    put_number(reply, u64::from(leaf))?;
    put_text(reply, b" ")?;
    put_text(reply, page.name.as_bytes())?;
    put_text(reply, b" ")?;
    put_kind(reply, page.kind)?;
    put_text(reply, b"\n")
}

/// Writes the pages of a leaf.
fn put_leaf_pages(reply: &mut Vec<u8>, leaf: u8, pages: &[PlacedPage]) -> Result<(), NoMemory>
    ensures { OnOk result (reply.new.items ≡ reply.old.items ++ page_lines pages.now leaf) }
{
    for page in pages {
        put_page(reply, leaf, page)?;
    }
    Ok(())
}

/// Writes the pages of leaves 1 to 63.
fn put_pages(reply: &mut Vec<u8>, pages: &[PlacedPage]) -> Result<(), NoMemory>
    ensures { OnOk result (reply.new.items ≡ reply.old.items ++ all_pages pages.now) }
{
    for i in 0..63u8 {
        put_leaf_pages(reply, 1 + i, pages)?;
    }
    Ok(())
}

/// Writes a leaf and a port of it, as `3 o0`.
fn put_seat(reply: &mut Vec<u8>, leaf: u8, side: Side, port: u8) -> Result<(), NoMemory>
    ensures { OnOk result (reply.new.items ≡ reply.old.items ++ seat_text leaf side port) }
{
    put_number(reply, u64::from(leaf))?;
    match side {
        Side::In => put_text(reply, b" i")?,
        Side::Out => put_text(reply, b" o")?,
    }
    put_number(reply, u64::from(port))
}

/// Writes a leaf's port, and the port of the other side that its row names.
fn put_link(
    reply: &mut Vec<u8>,
    leaf: u8,
    side: Side,
    port: u8,
    row: Row,
    other: Side,
) -> Result<(), NoMemory>
    ensures { OnOk result (reply.new.items ≡ reply.old.items ++ link_line leaf side port row other) }
{
    put_text(reply, b"row ")?;
    put_seat(reply, leaf, side, port)?;
    put_text(reply, b" ")?;
    put_seat(reply, row.leaf.0, other, row.port.0)?;
    put_text(reply, b"\n")
}

/// Writes the row of a slot, if it has one. Slots 0 to 7 are out-ports, and 8 to 15 in-ports.
fn put_row(reply: &mut Vec<u8>, leaf: u8, slot: u8, row: Option<Row>) -> Result<(), NoMemory>
    ensures { OnOk result (reply.new.items ≡ reply.old.items ++ row_line leaf slot row) }
{
    let Some(row) = row else {
        return Ok(());
    };
    if slot < 8 {
        put_link(reply, leaf, Side::Out, slot, row, Side::In)
    } else {
        put_link(reply, leaf, Side::In, slot - 8, row, Side::Out)
    }
}

/// Writes the rows of a leaf.
fn put_leaf_rows(reply: &mut Vec<u8>, leaf: u8, rows: &[Option<Row>]) -> Result<(), NoMemory>
    requires leaf { leaf < 64 }
    requires rows { length rows.now ≡ 1024 }
    ensures { OnOk result (reply.new.items ≡ reply.old.items ++ row_lines rows.now leaf) }
{
    for slot in 0..16u8 {
        put_row(reply, leaf, slot, rows[16 * leaf as usize + slot as usize])?;
    }
    Ok(())
}

/// Writes the rows of leaves 0 to 63.
fn put_rows(reply: &mut Vec<u8>, rows: &[Option<Row>]) -> Result<(), NoMemory>
    requires { length rows.now ≡ 1024 }
    ensures { OnOk result (reply.new.items ≡ reply.old.items ++ all_rows rows.now) }
{
    for leaf in 0..64u8 {
        put_leaf_rows(reply, leaf, rows)?;
    }
    Ok(())
}

/// Writes where pages stand and how their ports are linked: for each leaf from 1 to 63 the line `page LEAF NAME KIND` of each
/// page on it, where KIND is `soft` or `hard`; and then for each slot with a row, leaf by leaf from 0 to 63, the line
/// `row LEAF oK LEAF iK` of an out-port or `row LEAF iK LEAF oK` of an in-port: its leaf and port, and those that the row
/// names. Slot s of leaf l is row 16 l + s; slots 0 to 7 are out-ports, and 8 to 15 in-ports.
pub fn put_tables(
    reply: &mut Vec<u8>,
    pages: &[PlacedPage],
    rows: &[Option<Row>],
) -> Result<(), NoMemory>
    requires { length rows.now ≡ 1024 }
    ensures { OnOk result (reply.new.items ≡ reply.old.items ++ tables_reply pages.now rows.now) }
{
    put_pages(reply, pages)?;
    put_rows(reply, rows)
}
