//! Lines and their words.

ghost use Rattle.std.specs.Prelude.{◌≡◌, ◌≢◌, ◌≤◌, ◌<◌, ℕ, length, slice_index, MatchOption, IfSome, [], ◌∷◌, true, false};
ghost use Rattle.pld_script.specs.Lines.{stripped as stripped_of, lines};
ghost use Rattle.pld_script.specs.Words.{is_blank, begins_word, words_of, are_only};
ghost use Rattle.pld_script.specs.Grammar.{starts_comment, opens_text as opens, kind_of as kind, closes_text as closes};
ghost use Rattle.pld_script.specs.Statements.{IsLine};

/// What a line is, where no text is open.
#[derive(Clone, Copy, PartialEq, Eq)]
pub enum LineKind {
    /// It is passed over, and only counted.
    Skipped,
    /// It opens a text, up to the line `end`.
    Opens,
    /// It is a whole statement, or a bad line.
    Single,
}

fn is_blank_byte(b: u8) -> bool
    ensures { result ≡ is_blank b }
{
    b == b' ' || b == b'\t'
}

/// The line from its first word on.
fn without_blanks(line: &[u8]) -> &[u8]
    ensures words { words_of result.now ≡ words_of line.now }
    ensures within { length result.now ≤ length line.now }
    ensures begins { 0 < length result.now → begins_word result.now ≡ true }
{
    let mut rest = line;
    while let Some((b, others)) = rest.split_first() {
        if !is_blank_byte(*b) {
            return rest;
        }
        rest = others;
    }
    rest
}

/// The place of the first blank, or the length where there is none.
fn word_len(line: &[u8]) -> usize
    ensures within { result ≤ length line.now }
    ensures before { (k : ℕ) → k < result → is_blank (slice_index line.now k) ≡ false }
    ensures found { result < length line.now → is_blank (slice_index line.now result) ≡ true }
{
    for (i, b) in line.iter().enumerate() {
        if is_blank_byte(*b) {
            return i;
        }
    }
    line.len()
}

/// The first word and what stands behind it. None where the line has no word.
pub fn split_word(line: &[u8]) -> Option<(&[u8], &[u8])>
    ensures words { MatchOption result (words_of line.now ≡ []) (λ found. words_of line.now ≡ found.0.now ∷ words_of found.1.now) }
    ensures shorter { IfSome result (λ found. length found.1.now < length line.now) }
{
    let rest = without_blanks(line);
    if rest.is_empty() {
        return None;
    }
    Some(rest.split_at(word_len(rest)))
}

/// Whether the line has one word, and it is this one.
pub fn is_only_word(line: &[u8], word: &[u8]) -> bool
    ensures { result ≡ are_only word.now (words_of line.now) }
{
    match split_word(line) {
        None => false,
        Some((first, rest)) => first == word && split_word(rest).is_none(),
    }
}

fn is_comment(word: &[u8]) -> bool
    ensures { result ≡ starts_comment word.now }
{
    match word.first() {
        Some(b) => *b == b'#',
        None => false,
    }
}

/// Whether a line whose first word is this one opens a text.
fn opens_text(first: &[u8]) -> bool
    ensures { result ≡ opens first.now }
{
    first == b"op".as_slice() || first == b"replace".as_slice()
}

/// What the line is, where no text is open. Of a comment only the first byte is looked at.
pub fn kind_of(line: &[u8]) -> LineKind
    ensures { result ≡ kind line.now }
{
    let rest = without_blanks(line);
    if is_comment(rest) {
        return LineKind::Skipped;
    }
    match split_word(rest) {
        None => LineKind::Skipped,
        Some((first, _)) => {
            if opens_text(first) {
                LineKind::Opens
            } else {
                LineKind::Single
            }
        }
    }
}

/// Whether the line ends a text.
pub fn closes_text(line: &[u8]) -> bool
    ensures { result ≡ closes line.now }
{
    is_only_word(line, b"end")
}

/// The line without the byte 13 at its end.
pub fn stripped(line: &[u8]) -> &[u8]
    ensures { result.now ≡ stripped_of line.now }
{
    let len = line.len();
    if len > 0 && line[len - 1] == 13 {
        &line[..len - 1]
    } else {
        line
    }
}

/// The place of the first line end, or the length where there is none.
pub fn line_end(bytes: &[u8]) -> usize
    ensures within { result ≤ length bytes.now }
    ensures before { (k : ℕ) → k < result → slice_index bytes.now k ≢ 10 }
    ensures found { result < length bytes.now → slice_index bytes.now result ≡ 10 }
{
    for (i, b) in bytes.iter().enumerate() {
        if *b == 10 {
            return i;
        }
    }
    bytes.len()
}

/// The first line and the number of bytes that it uses. None where no line is whole.
pub fn first_line(bytes: &[u8], ended: bool) -> Option<(&[u8], usize)>
    ensures { MatchOption result (lines ended bytes.now ≡ []) (λ found. IsLine ended bytes.now found.0.now found.1) }
{
    let end = line_end(bytes);
    if end < bytes.len() {
        Some((stripped(&bytes[..end]), end + 1))
    } else if ended && !bytes.is_empty() {
        Some((bytes, bytes.len()))
    } else {
        None
    }
}
