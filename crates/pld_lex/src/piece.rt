//! What a text begins with.

ghost use Rattle.std.specs.Prelude.{◌≡◌, ◌≤◌, ◌<◌, ◌+◌, length, drop, false, None, Ok, IfOk, IfSome};
ghost use Rattle.pld_lex.specs.Lexed.{is_blank as is_blank_byte, line_length as line_length_of, closed_after, gap as gap_of, comment as comment_if, token_if, comment_of, token_of, piece_of};

use crate::marks::mark;
use crate::token::TokenKind;
use crate::words::{is_letter, name_or_keyword, number, word_length};
use pld_base::FaultKind;

/// The first bytes of a text: a token of this kind, or, without a kind, separators.
#[derive(Clone, Copy)]
pub struct Piece {
    pub kind: Option<TokenKind>,
    pub length: usize,
}

fn is_blank(b: u8) -> bool
    ensures { result ≡ is_blank_byte b }
{
    b == b' ' || b == b'\t' || b == b'\n'
}

// How many bytes stand before the next line end.
fn line_length(text: &[u8]) -> usize
    ensures value { result ≡ line_length_of text.now }
    ensures within { result ≤ length text.now }
{
    for (i, b) in text.iter().enumerate() {
        if *b == b'\n' {
            return i;
        }
    }
    text.len()
}

// How many bytes it takes until `*/` has come.
fn comment_length(text: &[u8]) -> Option<usize>
    ensures value { result ≡ closed_after false text.now }
    ensures within { IfSome result (λ n. n ≤ length text.now) }
{
    let mut star = false;
    for (i, b) in text.iter().enumerate() {
        if star && *b == b'/' {
            return Some(i + 1);
        }
        star = *b == b'*';
    }
    None
}

// Bytes that separate tokens.
fn gap(length: usize) -> Piece
    ensures { Ok result ≡ gap_of length }
{
    Piece { kind: None, length }
}

// A token of these bytes, if they are well formed.
fn token(length: usize, kind: Result<TokenKind, FaultKind>) -> Result<Piece, FaultKind>
    ensures { result ≡ token_if length kind }
{
    Ok(Piece {
        kind: Some(kind?),
        length,
    })
}

// A comment up to the end of the line.
fn line_comment(text: &[u8]) -> Piece
    requires { 2 ≤ length text.now }
    ensures value { result ≡ record { kind = None; length = 2 + line_length_of (drop 2 text.now) } }
    ensures within { result.length ≤ length text.now }
{
    gap(2 + line_length(&text[2..]))
}

// A comment up to its `*/`.
fn block_comment(text: &[u8]) -> Result<Piece, FaultKind>
    requires { 2 ≤ length text.now }
    ensures value { result ≡ comment_if (closed_after false (drop 2 text.now)) }
    ensures within { IfOk result (λ piece. piece.length ≤ length text.now) }
{
    match comment_length(&text[2..]) {
        Some(n) => Ok(gap(2 + n)),
        None => Err(FaultKind::BadToken),
    }
}

// The comment that the text begins with.
fn comment(text: &[u8]) -> Option<Result<Piece, FaultKind>>
    ensures value { result ≡ comment_of text.now }
{
    match text {
        [b'/', b'/', ..] => Some(Ok(line_comment(text))),
        [b'/', b'*', ..] => Some(block_comment(text)),
        _ => None,
    }
}

// The token that the text begins with, by its first byte.
fn token_at(first: u8, text: &[u8]) -> Result<Piece, FaultKind>
    ensures value { result ≡ token_of first text.now }
{
    let length = word_length(text);
    if first.is_ascii_digit() {
        token(length, number(&text[..length]))
    } else if is_letter(first) {
        token(length, name_or_keyword(&text[..length]))
    } else {
        match mark(text) {
            Some((kind, length)) => token(length, Ok(kind)),
            None => Err(FaultKind::BadToken),
        }
    }
}

// What the text begins with.
fn piece_at(text: &[u8]) -> Result<Piece, FaultKind>
    ensures { result ≡ piece_of text.now }
{
    let Some(first) = text.first() else {
        return Ok(gap(0));
    };
    if is_blank(*first) {
        return Ok(gap(1));
    }
    match comment(text) {
        Some(found) => found,
        None => token_at(*first, text),
    }
}

/// What the text begins with: separators, or a token. BadToken where it is neither, and the fault of a number or an identifier.
pub fn first_piece(text: &[u8]) -> Result<Piece, FaultKind>
    requires { 0 < length text.now }
    ensures value { result ≡ piece_of text.now }
    ensures some { IfOk result (λ piece. 1 ≤ piece.length) }
    ensures within { IfOk result (λ piece. piece.length ≤ length text.now) }
{
    piece_at(text)
}
