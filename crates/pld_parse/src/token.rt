//! Tokens, taken from the front of a list.

ghost use Rattle.std.specs.Prelude.{ℕ, ◌≡◌, [], ◌∷◌, length, MatchOption, MatchResult, Some};
ghost use Rattle.pld_grammar.specs.Symbols.{symbol_at, symbols, Ident};
ghost use Rattle.pld_base.specs.declared.event.Place.{Place};
ghost use Rattle.pld_parse.specs.declared.token.Mark.{Mark};
ghost use Rattle.pld_grammar.specs.Machine.{Needs};
ghost use Rattle.pld_parse.specs.Reading.{stuck, Failed, symbol_of_mark, BeginsOtherwise, IsAskedFor, exactly, a_name};

use pld_ast::Used;
use pld_base::{NoMemory, Place};
use pld_lex::{Token, TokenKind};
use std::alloc::{AllocError, AllocFailed};

/// Why reading stopped: no memory was left, or a token may not come, from which on so many are left.
/// With none left the tokens end too early.
#[derive(Clone, Copy, PartialEq, Eq, Debug)]
pub enum Stuck {
    NoMemory,
    At(usize),
}

impl From<AllocError> for Stuck {
    ghost use Rattle.std.specs.Prelude.{◌≡◌};
    ghost use Rattle.pld_parse.specs.declared.token.Stuck.TheVariants.{NoMemory};

    ghost from_gives = { λ _ e. e ≡ NoMemory };

    fn from(_e: AllocError) -> Stuck {
        Stuck::NoMemory
    }
}

impl From<NoMemory> for Stuck {
    ghost use Rattle.std.specs.Prelude.{◌≡◌};
    ghost use Rattle.pld_parse.specs.declared.token.Stuck.TheVariants.{NoMemory};

    ghost from_gives = { λ _ e. e ≡ NoMemory };

    fn from(_e: NoMemory) -> Stuck {
        Stuck::NoMemory
    }
}

impl<T: Drop> From<AllocFailed<T>> for Stuck {
    ghost use Rattle.std.specs.Prelude.{◌≡◌};
    ghost use Rattle.pld_parse.specs.declared.token.Stuck.TheVariants.{NoMemory};

    ghost from_gives = { λ _ e. e ≡ NoMemory };

    fn from(_e: AllocFailed<T>) -> Stuck {
        Stuck::NoMemory
    }
}

/// A mark or a keyword.
#[derive(Clone, Copy, PartialEq, Eq, Debug)]
pub enum Mark {
    Void,
    Open,
    Close,
    OpenBracket,
    CloseBracket,
    OpenBrace,
    CloseBrace,
    Comma,
    Semicolon,
    Assign,
    Else,
    If,
    Read,
    For,
}

/// The kind and the place of the first token, and what stands behind it.
pub fn first(tokens: &[Token]) -> Option<(&TokenKind, Place, &[Token])>
    ensures { MatchOption result (symbols tokens.now ≡ []) (λ x. symbols tokens.now ≡ symbol_at x.1 x.0.now ∷ symbols x.2.now) }
{
    let (token, rest) = tokens.split_first()?;
    Some((&token.kind, token.at, rest))
}

/// The mark of a token that is one.
fn mark_of(kind: &TokenKind) -> Option<Mark>
    ensures { (at : Place) → MatchOption result ((m : Mark) → symbol_at at kind.now ≡ symbol_of_mark m → ⊥) (λ m. symbol_at at kind.now ≡ symbol_of_mark m) }
{
    match kind {
        TokenKind::Void => Some(Mark::Void),
        TokenKind::Open => Some(Mark::Open),
        TokenKind::Close => Some(Mark::Close),
        TokenKind::OpenBracket => Some(Mark::OpenBracket),
        TokenKind::CloseBracket => Some(Mark::CloseBracket),
        TokenKind::OpenBrace => Some(Mark::OpenBrace),
        TokenKind::CloseBrace => Some(Mark::CloseBrace),
        TokenKind::Comma => Some(Mark::Comma),
        TokenKind::Semicolon => Some(Mark::Semicolon),
        TokenKind::Assign => Some(Mark::Assign),
        TokenKind::Else => Some(Mark::Else),
        TokenKind::If => Some(Mark::If),
        TokenKind::Read => Some(Mark::Read),
        TokenKind::For => Some(Mark::For),
        _ => None,
    }
}

/// What stands behind this mark, if the tokens begin with it.
#[tactic(auto, using(crate::proofs::Marks::other_mark_otherwise))]
pub fn behind(mark: Mark, tokens: &[Token]) -> Option<&[Token]>
    ensures { MatchOption result (BeginsOtherwise mark (symbols tokens.now)) (λ rest. symbols tokens.now ≡ symbol_of_mark mark ∷ symbols rest.now) }
{
    let Some((kind, _, rest)) = first(tokens) else {
        return None;
    };
    let Some(found) = mark_of(kind) else {
        return None;
    };
    if found == mark { Some(rest) } else { None }
}

/// What stands behind the mark that has to come.
pub fn expect(mark: Mark, tokens: &[Token]) -> Result<&[Token], Stuck>
    requires { IsAskedFor mark }
    ensures { MatchResult result (λ rest. symbols tokens.now ≡ symbol_of_mark mark ∷ symbols rest.now) (λ e. Failed (exactly mark) (symbols tokens.now) e) }
{
    match behind(mark, tokens) {
        Some(rest) => Ok(rest),
        None => Err(Stuck::At(tokens.len())),
    }
}

/// The name that the tokens begin with, with its place, and what stands behind it.
pub fn name_first(tokens: &[Token]) -> Option<(Used, &[Token])>
    ensures { MatchOption result ((ns : Needs) → stuck (symbols tokens.now) (a_name ns) ≡ Some (length tokens.now)) (λ x. symbols tokens.now ≡ Ident x.0 ∷ symbols x.1.now) }
{
    match first(tokens) {
        Some((TokenKind::Ident(name), at, rest)) => Some((Used { name: *name, at }, rest)),
        _ => None,
    }
}
