//! The lines of a text, and the words of a line.

ghost use Rattle.std.specs.Prelude.{◌≡◌, ◌≤◌, ◌<◌, ◌+◌, ◌==◌, ℕ, length, slice_get, false, MatchOption, Some, [], ◌∷◌};
ghost use Rattle.std.specs.List.{position_or_len};
ghost use Rattle.rv_asm.specs.Words.{is_blank as is_blank_byte, is_apart as is_apart_byte, words_of, lines_of};

fn is_blank(b: u8) -> bool
    ensures { result ≡ is_blank_byte b }
{
    b == b' ' || b == b'\t'
}

fn is_apart(b: u8) -> bool
    ensures { result ≡ is_apart_byte b }
{
    is_blank(b) || b == b',' || b == b'#'
}

/// The place of the first such byte, or the length where there is none.
pub fn place_of(b: u8, bytes: &[u8]) -> usize
    ensures value { result ≡ position_or_len (λ x. x == b) bytes.now }
    ensures within { result ≤ length bytes.now }
{
    for (i, x) in bytes.iter().enumerate() {
        if *x == b {
            return i;
        }
    }
    bytes.len()
}

/// The first line of a text that has one, without its line end, and the text behind it.
pub fn split_line(text: &[u8]) -> (&[u8], &[u8])
    requires { 0 < length text.now }
    ensures lines { lines_of text.now ≡ result.0.now ∷ lines_of result.1.now }
    ensures shorter { length result.0.now + length result.1.now < length text.now + 1 }
    ensures rest { length result.1.now < length text.now }
{
    let end = place_of(b'\n', text);
    if end < text.len() {
        (&text[..end], &text[end + 1..])
    } else {
        (text, &text[end..])
    }
}

// The line from its first byte on that isn't blank.
fn without_blanks(line: &[u8]) -> &[u8]
    ensures words { words_of result.now ≡ words_of line.now }
    ensures begins { (b : ℕ) → slice_get result.now 0 ≡ Some b → is_blank_byte b ≡ false }
{
    let mut rest = line;
    while let Some((b, others)) = rest.split_first() {
        if !is_blank(*b) {
            return rest;
        }
        rest = others;
    }
    rest
}

// The place of the first byte that belongs to no word, or the length where there is none.
fn word_length(line: &[u8]) -> usize
    ensures value { result ≡ position_or_len is_apart_byte line.now }
    ensures within { result ≤ length line.now }
{
    for (i, b) in line.iter().enumerate() {
        if is_apart(*b) {
            return i;
        }
    }
    line.len()
}

/// The first word of a line and what stands behind it. None where the line has no word.
pub fn split_word(line: &[u8]) -> Option<(&[u8], &[u8])>
    ensures { MatchOption result (words_of line.now ≡ []) (λ found. words_of line.now ≡ found.0.now ∷ words_of found.1.now) }
{
    let rest = without_blanks(line);
    let Some(first) = rest.first() else {
        return None;
    };
    if *first == b'#' {
        return None;
    }
    if *first == b',' {
        return Some(rest.split_at(1));
    }
    Some(rest.split_at(word_length(rest)))
}
