//! A reader that looks for whole statements in bytes that grow, and looks at each byte once.
ghost use Rattle.std.specs.Prelude.{◌≡◌, ◌+◌, ◌≤◌, length, take, false, MatchOption};
ghost use Rattle.pld_script.specs.Statements.{Scanned, HoldsOne, HoldsNone, after_line as after};

use super::LineKind;
use super::line::{closes_text, kind_of, line_end, stripped};

/// How far a reader has come in bytes that grow.
#[derive(Drop)]
pub struct Scan {
    /// Where the first line begins that isn't whole yet. No whole statement stands before it.
    pub line: usize,
    /// Up to where these bytes were looked at: from `line` on no line end stands before it.
    pub seen: usize,
    /// Whether the text of a statement is open there.
    pub in_text: bool,
}

/// Whether a text is open behind this line. None where the line ends a statement.
fn after_line(in_text: bool, line: &[u8]) -> Option<bool>
    ensures { result ≡ after in_text line.now }
{
    if in_text {
        return if closes_text(line) { None } else { Some(true) };
    }
    match kind_of(line) {
        LineKind::Skipped => Some(false),
        LineKind::Opens => Some(true),
        LineKind::Single => None,
    }
}

impl Scan {
    /// Nothing was looked at yet.
    pub fn new() -> Scan
        ensures line { result.line ≡ 0 }
        ensures seen { result.seen ≡ 0 }
        ensures in_text { result.in_text ≡ false }
    {
        Scan {
            line: 0,
            seen: 0,
            in_text: false,
        }
    }

    /// Looks on. Where a whole statement stands in front, with the lines that are skipped before it, it gives the place behind
    /// its last line; a new `Scan` then looks on from there. Otherwise no whole statement stands in the bytes, and the same
    /// `Scan` looks on once they have grown. Each byte is looked at once.
    pub fn find(&mut self, bytes: &[u8]) -> Option<usize>
        requires { Scanned bytes.now self.old.line self.old.seen self.old.in_text }
        ensures { MatchOption result (Scanned bytes.now self.new.line self.new.seen self.new.in_text × HoldsNone false bytes.now)
            (λ end. (end ≤ length bytes.now) × HoldsOne (take end bytes.now)) }
    {
        while self.seen < bytes.len() {
            let end = self.seen + line_end(&bytes[self.seen..]);
            if end == bytes.len() {
                self.seen = end;
                return None;
            }
            match after_line(self.in_text, stripped(&bytes[self.line..end])) {
                None => return Some(end + 1),
                Some(in_text) => {
                    self.in_text = in_text;
                    self.line = end + 1;
                    self.seen = end + 1;
                }
            }
        }
        None
    }
}
