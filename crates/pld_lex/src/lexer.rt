//! The tokens of a text.

ghost use Rattle.std.specs.Prelude.{◌≡◌, ◌≤◌, ◌<◌, ◌+◌, ◌++◌, length, Ok, Err, OnOk, MatchResult};
ghost use Rattle.pld_lex.specs.Lexed.{lexed, scan as scan_of, place_after as place_after_of, first_place, fault_at as fault_at_of, token_from, IfFault};

use crate::piece::{Piece, first_piece};
use crate::token::{Token, TokenKind};
use pld_base::{FaultKind, Limit, NoMemory, Place, Refused, SourceFault};
use std::alloc::Global;

// The most bytes of a text.
const MOST_BYTES: usize = 65536;

// The most tokens of a text.
const MOST_TOKENS: usize = 4096;

// The place of a text's first byte.
const FIRST: Place = Place { line: 1, column: 1 };

// The place behind these bytes.
fn place_after(at: Place, bytes: &[u8]) -> Place
    requires line { at.line ≤ 65537 }
    requires column { at.column ≤ 65537 }
    requires length { length bytes.now ≤ 65536 }
    ensures { result ≡ place_after_of at bytes.now }
{
    let mut line = at.line;
    let mut column = at.column;
    for b in bytes {
        if *b == b'\n' {
            line += 1;
            column = 1;
        } else {
            column += 1;
        }
    }
    Place { line, column }
}

// A fault of this kind at this place.
fn fault_at(kind: FaultKind, at: Place) -> SourceFault
    ensures { result ≡ fault_at_of kind at }
{
    SourceFault {
        kind,
        line: at.line,
        column: at.column,
    }
}

// Adds the token of these bytes, if they are one.
fn add(
    tokens: &mut Vec<Token>,
    kind: Option<TokenKind>,
    start: usize,
    length: usize,
    at: Place,
) -> Result<(), NoMemory>
    requires { start + length ≤ 65536 }
    ensures { OnOk result (tokens.new.items ≡ tokens.old.items ++ token_from start at kind length) }
{
    if let Some(kind) = kind {
        tokens.push(Token {
            kind,
            start,
            end: start + length,
            at,
        })?;
    }
    Ok(())
}

// The tokens of a text, however many they are.
fn scan(alloc: Global, text: &[u8]) -> Result<Vec<Token>, Refused<SourceFault>>
    requires { length text.now ≤ 65536 }
    ensures { MatchResult result (λ ts. scan_of 0 0 first_place text.now ≡ Ok ts.items) (λ e. IfFault e (λ f. scan_of 0 0 first_place text.now ≡ Err f)) }
{
    let mut tokens = Vec::new(alloc);
    let mut start = 0;
    let mut at = FIRST;
    while start < text.len() {
        let rest = &text[start..];
        let Piece { kind, length } = match first_piece(rest) {
            Ok(piece) => piece,
            Err(fault) => return Err(Refused::Fault(fault_at(fault, at))),
        };
        let Ok(()) = add(&mut tokens, kind, start, length, at) else {
            return Err(Refused::NoMemory);
        };
        at = place_after(at, &rest[..length]);
        start += length;
    }
    Ok(tokens)
}

/// The tokens of an operator's text, in order. Spaces, tabs, line ends and comments separate tokens and are none.
///
/// `Fault` comes exactly where the text has one of these faults, in this order: more than 65,536 bytes, `TooLarge(Text)` at line 1,
/// column 1; the first token that is bad (`BadToken`), a literal of 2^32 or more (`LiteralTooLarge`), or an identifier of more than
/// 32 bytes (`TooLarge(Ident)`), at its first byte; more than 4,096 tokens, `TooLarge(Tokens)` at the 4,097th.
pub fn tokens(alloc: Global, text: &[u8]) -> Result<Vec<Token>, Refused<SourceFault>>
    ensures exact { MatchResult result (λ ts. lexed text.now ≡ Ok ts.items) (λ e. IfFault e (λ f. lexed text.now ≡ Err f)) }
{
    if text.len() > MOST_BYTES {
        return Err(Refused::Fault(fault_at(FaultKind::TooLarge(Limit::Text), FIRST)));
    }
    let tokens = scan(alloc, text)?;
    match tokens.get(MOST_TOKENS) {
        Some(token) => Err(Refused::Fault(fault_at(FaultKind::TooLarge(Limit::Tokens), token.at))),
        None => Ok(tokens),
    }
}

/// The place one behind the last byte of a text: line and column, from 1.
pub fn place_behind(text: &[u8]) -> Place
    requires { length text.now ≤ 65536 }
    ensures { result ≡ place_after_of first_place text.now }
{
    place_after(FIRST, text)
}
