//! Where a text opens a bracket too many.

ghost use Rattle.std.specs.Prelude.{◌≡◌, ◌≤◌};
ghost use Rattle.pld_base.specs.declared.event.Place.{Place};
ghost use Rattle.pld_grammar.specs.Symbols.{symbol_at, symbols};
ghost use Rattle.pld_grammar.specs.Fault.{open_after};
ghost use Rattle.pld_grammar.specs.Machine.{crowds as crowds_of, is_crowded as is_crowded_at};
ghost use Rattle.pld_parse.specs.Faults.{crowded_at};

use crate::token::first;
use pld_lex::{Token, TokenKind};

/// How many brackets may be open at once.
pub const MAX_DEPTH: usize = 32;

// Whether it is an opening bracket, or a keyword behind which one has to be opened.
fn crowds(kind: &TokenKind) -> bool
    ensures { (at : Place) → result ≡ crowds_of (symbol_at at kind.now) }
{
    match kind {
        TokenKind::Open => true,
        TokenKind::OpenBracket => true,
        TokenKind::OpenBrace => true,
        TokenKind::If => true,
        TokenKind::Else => true,
        TokenKind::While => true,
        TokenKind::For => true,
        TokenKind::Read => true,
        TokenKind::Write => true,
        _ => false,
    }
}

// Whether a token takes a bracket too many where so many are open.
fn is_crowded(depth: usize, kind: &TokenKind) -> bool
    ensures { (at : Place) → result ≡ is_crowded_at MAX_DEPTH depth (symbol_at at kind.now) }
{
    if crowds(kind) {
        MAX_DEPTH <= depth
    } else {
        false
    }
}

// How many brackets are open behind a token.
fn depth_after(depth: usize, kind: &TokenKind) -> usize
    requires { depth ≤ MAX_DEPTH }
    ensures { (at : Place) → result ≡ open_after depth (symbol_at at kind.now) }
{
    match kind {
        TokenKind::Open => depth + 1,
        TokenKind::OpenBracket => depth + 1,
        TokenKind::OpenBrace => depth + 1,
        TokenKind::Close => depth.saturating_sub(1),
        TokenKind::CloseBracket => depth.saturating_sub(1),
        TokenKind::CloseBrace => depth.saturating_sub(1),
        _ => depth,
    }
}

/// How many tokens are left at the first that takes a bracket too many.
pub fn crowded(tokens: &[Token]) -> Option<usize>
    ensures { result ≡ crowded_at MAX_DEPTH 0 (symbols tokens.now) }
{
    let mut depth = 0;
    let mut rest = tokens;
    while let Some((kind, _, more)) = first(rest) {
        if is_crowded(depth, kind) {
            return Some(rest.len());
        }
        depth = depth_after(depth, kind);
        rest = more;
    }
    None
}
