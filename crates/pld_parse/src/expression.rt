//! Expressions, level by level.

ghost use Rattle.std.specs.Prelude.{ℕ, ◌≡◌, ◌≤◌, ◌<◌, ◌∷◌, MatchOption, MatchResult};
ghost use Rattle.pld_ast.specs.declared.tree.BinOp.{BinOp};
ghost use Rattle.pld_base.specs.declared.event.Place.{Place};
ghost use Rattle.pld_grammar.specs.Symbols.{symbol_at, symbols, Ident, Open};
ghost use Rattle.pld_grammar.specs.Grammar.{IsOperator, Prefix};
ghost use Rattle.pld_parse.specs.Reading.{Failed, Parsed, operand, after, exactly, on, IsAskedFor, NoType, NoPrefix, NoOperatorAt, BeginsWithOperator, LevelPart, ClosedPart, closing};

use crate::prefix::{apply, prefixes};
use crate::token::{Mark, Stuck, behind, expect, first};
use pld_ast::{BinOp, Expr, Used};
use pld_lex::{Token, TokenKind};
use sqlite_items::Boxed;
use std::alloc::Global;

/// How many levels of binary operators there are.
const LEVELS: usize = 10;

/// The operator of a kind of token, with its level: 0 binds the tightest.
fn operator_of(kind: &TokenKind) -> Option<(usize, BinOp)>
    ensures { (at : Place) → MatchOption result ((k : ℕ) (o : BinOp) → IsOperator k (symbol_at at kind.now) o → ⊥) (λ x. IsOperator x.0 (symbol_at at kind.now) x.1) }
{
    match kind {
        TokenKind::OrOr => Some((9, BinOp::OrElse)),
        TokenKind::AndAnd => Some((8, BinOp::AndAlso)),
        TokenKind::Bar => Some((7, BinOp::Or)),
        TokenKind::Hat => Some((6, BinOp::Xor)),
        TokenKind::Ampersand => Some((5, BinOp::And)),
        TokenKind::EqualEqual => Some((4, BinOp::Eq)),
        TokenKind::NotEqual => Some((4, BinOp::Ne)),
        TokenKind::Less => Some((3, BinOp::Lt)),
        TokenKind::LessEqual => Some((3, BinOp::Le)),
        TokenKind::Greater => Some((3, BinOp::Gt)),
        TokenKind::GreaterEqual => Some((3, BinOp::Ge)),
        TokenKind::ShiftLeft => Some((2, BinOp::Shl)),
        TokenKind::ShiftRight => Some((2, BinOp::Shr)),
        TokenKind::Plus => Some((1, BinOp::Add)),
        TokenKind::Minus => Some((1, BinOp::Sub)),
        TokenKind::Star => Some((0, BinOp::Mul)),
        TokenKind::Slash => Some((0, BinOp::Div)),
        TokenKind::Percent => Some((0, BinOp::Rem)),
        _ => None,
    }
}

/// The operator of this level that begins the tokens, and what stands behind it.
fn operator_first(level: usize, tokens: &[Token]) -> Option<(BinOp, &[Token])>
    ensures { MatchOption result (NoOperatorAt level (symbols tokens.now)) (λ x. BeginsWithOperator level (symbols tokens.now) x.0 (symbols x.1.now)) }
{
    let Some((kind, _, rest)) = first(tokens) else {
        return None;
    };
    let Some((found, operator)) = operator_of(kind) else {
        return None;
    };
    if found == level {
        Some((operator, rest))
    } else {
        None
    }
}

/// An expression and the mark that has to stand behind it.
#[cycle(expression)]
pub fn closed(alloc: Global, mark: Mark, tokens: &[Token]) -> Result<(Expr, &[Token]), Stuck>
    requires { IsAskedFor mark }
    ensures { MatchResult result (λ x. Parsed (ClosedPart mark) (closing mark) on (symbols tokens.now) (symbols x.1.now) x.0) (Failed (closing mark) (symbols tokens.now)) }
{
    let (value, rest) = levels(alloc, LEVELS, tokens)?;
    let rest = expect(mark, rest)?;
    Ok((value, rest))
}

// An expression whose operators outside brackets are of so many of the tightest levels.
#[cycle(expression)]
fn levels(alloc: Global, count: usize, tokens: &[Token]) -> Result<(Expr, &[Token]), Stuck>
    requires { count ≤ LEVELS }
    ensures { MatchResult result (λ x. Parsed (LevelPart count) operand after (symbols tokens.now) (symbols x.1.now) x.0) (Failed operand (symbols tokens.now)) }
{
    if count == 0 {
        return prefixed(alloc, tokens);
    }
    let level = count - 1;
    let (mut value, mut rest) = levels(alloc, level, tokens)?;
    while let Some((operator, more)) = operator_first(level, rest) {
        let (right, behind) = levels(alloc, level, more)?;
        value = Expr::Binary(
            operator,
            Boxed::new(alloc, value)?,
            Boxed::new(alloc, right)?,
        );
        rest = behind;
    }
    Ok((value, rest))
}

// Prefix operators, and what they stand before.
#[cycle(expression)]
fn prefixed(alloc: Global, tokens: &[Token]) -> Result<(Expr, &[Token]), Stuck>
    ensures { MatchResult result (λ x. Parsed (LevelPart 0) operand after (symbols tokens.now) (symbols x.1.now) x.0) (Failed operand (symbols tokens.now)) }
{
    let (forms, rest) = prefixes(alloc, tokens)?;
    let (inner, rest) = primary(alloc, rest)?;
    Ok((apply(alloc, forms, inner)?, rest))
}

// A number, a variable, an element, or an expression in brackets.
#[cycle(expression)]
fn primary(alloc: Global, tokens: &[Token]) -> Result<(Expr, &[Token]), Stuck>
    requires { NoPrefix (symbols tokens.now) }
    ensures { MatchResult result (λ x. Parsed Prefix operand after (symbols tokens.now) (symbols x.1.now) x.0) (Failed operand (symbols tokens.now)) }
{
    let Some((kind, at, rest)) = first(tokens) else {
        return Err(Stuck::At(tokens.len()));
    };
    match kind {
        TokenKind::Number(n, ty) => Ok((Expr::Lit(*n, *ty), rest)),
        TokenKind::Ident(name) => named(alloc, Used { name: *name, at }, rest),
        TokenKind::Open => group(alloc, rest),
        _ => Err(Stuck::At(tokens.len())),
    }
}

// Behind a name: a variable, or an element.
#[cycle(expression)]
fn named(alloc: Global, name: Used, tokens: &[Token]) -> Result<(Expr, &[Token]), Stuck>
    ensures { MatchResult result (λ x. Parsed Prefix operand after (Ident name ∷ symbols tokens.now) (symbols x.1.now) x.0) (Failed operand (Ident name ∷ symbols tokens.now)) }
{
    let Some(rest) = behind(Mark::OpenBracket, tokens) else {
        return Ok((Expr::Var(name), tokens));
    };
    let (index, rest) = closed(alloc, Mark::CloseBracket, rest)?;
    Ok((Expr::Element(name, Boxed::new(alloc, index)?), rest))
}

// Behind an open bracket: an expression, and the bracket's end.
#[cycle(expression)]
fn group(alloc: Global, tokens: &[Token]) -> Result<(Expr, &[Token]), Stuck>
    requires { NoType (symbols tokens.now) }
    ensures { MatchResult result (λ x. Parsed Prefix operand after (Open ∷ symbols tokens.now) (symbols x.1.now) x.0) (Failed operand (Open ∷ symbols tokens.now)) }
{
    closed(alloc, Mark::Close, tokens)
}
