//! The next statement.

ghost use Rattle.std.specs.Prelude.{◌≡◌, ◌+◌, ◌≤◌, ◌<◌, [], ◌∷◌, length, IfOk, false, flat_map};
ghost use Rattle.pld_script.specs.Statements.{Reads, IsNext, next_of};

use super::grammar::{said_by, said_with};
use super::line::{closes_text, first_line, kind_of};
use super::{LineKind, Statement};
use pld_base::NoMemory;
use std::alloc::Global;

/// A statement, and where it stands.
#[derive(Drop)]
pub struct Found {
    pub statement: Statement,
    /// How many skipped lines stand before it.
    pub blank: u64,
    /// How many lines it has, from its first to its last.
    pub lines: u64,
    /// How many bytes the skipped lines and its own have.
    pub used: usize,
}

/// A bad line, with the lines of its text where it opens one.
#[derive(Drop)]
pub struct Skipped {
    /// How many skipped lines stand before it.
    pub blank: u64,
    /// How many lines it has, with those of its text.
    pub lines: u64,
    /// How many bytes the skipped lines and its own have.
    pub used: usize,
}

/// What comes first in some bytes.
#[derive(Drop)]
pub enum Next {
    /// A whole statement.
    Statement(Found),
    /// Lines that are in no statement's grammar, or a text without its end where the bytes have ended.
    BadLine(Skipped),
    /// No whole statement, and more bytes may follow.
    More,
    /// No statement, and no more bytes follow.
    End,
}

/// How a statement, or a bad line, is told.
fn told(said: Option<Statement>, blank: u64, lines: u64, used: usize) -> Next
    ensures { result ≡ next_of said blank lines used }
{
    match said {
        Some(statement) => Next::Statement(Found {
            statement,
            blank,
            lines,
            used,
        }),
        None => Next::BadLine(Skipped { blank, lines, used }),
    }
}

/// The statement whose first line, which opens a text, ends before `start`.
fn statement_with_text(
    alloc: Global,
    bytes: &[u8],
    ended: bool,
    head: &[u8],
    blank: u64,
    start: usize,
) -> Result<Next, NoMemory>
    requires { Reads ended bytes.now blank (head.now ∷ []) start }
    ensures { IfOk result (IsNext ended bytes.now) }
{
    let mut text = Vec::new(alloc);
    let mut lines = 1u64;
    let mut at = start;
    while let Some((line, used)) = first_line(&bytes[at..], ended) {
        at += used;
        lines += 1;
        if closes_text(line) {
            let said = said_with(head, text);
            return Ok(told(said, blank, lines, at));
        }
        text.extend_from_slice(line)?;
        text.push(10)?;
    }
    if ended {
        Ok(told(None, blank, lines, at))
    } else {
        Ok(Next::More)
    }
}

/// The first statement of these bytes, whatever follows them. `ended` says that nothing does; then
/// the last line needs no line end. It looks at each byte that it uses a few times, however long a
/// text is.
pub fn next_statement(alloc: Global, bytes: &[u8], ended: bool) -> Result<Next, NoMemory>
    ensures { IfOk result (IsNext ended bytes.now) }
{
    let mut blank = 0u64;
    let mut at = 0;
    while let Some((line, used)) = first_line(&bytes[at..], ended) {
        match kind_of(line) {
            LineKind::Skipped => {
                blank += 1;
                at += used;
            }
            LineKind::Single => {
                let said = said_by(alloc, line)?;
                return Ok(told(said, blank, 1, at + used));
            }
            LineKind::Opens => {
                return statement_with_text(alloc, bytes, ended, line, blank, at + used);
            }
        }
    }
    if ended { Ok(Next::End) } else { Ok(Next::More) }
}
