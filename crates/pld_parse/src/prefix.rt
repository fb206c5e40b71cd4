//! Prefix operators: signs and casts.

ghost use Rattle.std.specs.Prelude.{◌≡◌, ◌∷◌, MatchOption, MatchResult, IfOk};
ghost use Rattle.std.specs.Prelude.{List};
ghost use Rattle.pld_ast.specs.declared.tree.UnOp.{UnOp};
ghost use Rattle.pld_grammar.specs.Symbols.{Symbol, symbols};
ghost use Rattle.pld_parse.specs.declared.token.Stuck.TheVariants.{NoMemory};
ghost use Rattle.pld_parse.specs.declared.prefix.PrefixForm.{PrefixForm};
ghost use Rattle.pld_parse.specs.Reading.{Failed, operand, symbol_of_type, symbol_of_sign, NoType, NoPrefix, written, applied, all_written, all_applied};

use crate::token::{Mark, Stuck, behind, expect, first};
use pld_ast::{Expr, Ty, UnOp};
use pld_lex::{Token, TokenKind};
use sqlite_items::{Boxed, Items};
use std::alloc::Global;

/// A prefix operator: a sign, or a cast to a type.
#[derive(Clone, Copy, PartialEq, Eq, Debug)]
pub enum PrefixForm {
    Sign(UnOp),
    CastTo(Ty),
}

/// The type that begins the tokens, and what stands behind it.
pub fn type_first(tokens: &[Token]) -> Option<(Ty, &[Token])>
    ensures { MatchOption result (NoType (symbols tokens.now)) (λ x. symbols tokens.now ≡ symbol_of_type x.0 ∷ symbols x.1.now) }
{
    match first(tokens) {
        Some((TokenKind::Int, _, rest)) => Some((Ty::Int, rest)),
        Some((TokenKind::Uint, _, rest)) => Some((Ty::Uint, rest)),
        _ => None,
    }
}

/// The sign that begins the tokens, and what stands behind it.
fn sign_first(tokens: &[Token]) -> Option<(UnOp, &[Token])>
    ensures { MatchOption result ((o : UnOp) (rest : List Symbol) → symbols tokens.now ≡ symbol_of_sign o ∷ rest → ⊥) (λ x. symbols tokens.now ≡ symbol_of_sign x.0 ∷ symbols x.1.now) }
{
    match first(tokens) {
        Some((TokenKind::Minus, _, rest)) => Some((UnOp::Neg, rest)),
        Some((TokenKind::Plus, _, rest)) => Some((UnOp::Plus, rest)),
        Some((TokenKind::Tilde, _, rest)) => Some((UnOp::BitNot, rest)),
        Some((TokenKind::Bang, _, rest)) => Some((UnOp::Not, rest)),
        _ => None,
    }
}

/// The prefix operator that begins the tokens, and what stands behind it. A type behind an open bracket makes
/// a cast.
fn prefix_first(tokens: &[Token]) -> Result<Option<(PrefixForm, &[Token])>, Stuck>
    ensures { MatchResult result (λ found. MatchOption found (NoPrefix (symbols tokens.now)) (λ x. symbols tokens.now ≡ written x.0 (symbols x.1.now))) (λ e. Failed operand (symbols tokens.now) e) }
{
    if let Some((sign, rest)) = sign_first(tokens) {
        return Ok(Some((PrefixForm::Sign(sign), rest)));
    }
    let Some(rest) = behind(Mark::Open, tokens) else {
        return Ok(None);
    };
    let Some((ty, rest)) = type_first(rest) else {
        return Ok(None);
    };
    let rest = expect(Mark::Close, rest)?;
    Ok(Some((PrefixForm::CastTo(ty), rest)))
}

/// The prefix operators that begin the tokens, from the outermost on, and what stands behind them.
pub fn prefixes(alloc: Global, tokens: &[Token]) -> Result<(Items<PrefixForm>, &[Token]), Stuck>
    ensures { MatchResult result (λ x. NoPrefix (symbols x.1.now) × (symbols tokens.now ≡ all_written x.0 (symbols x.1.now))) (λ e. Failed operand (symbols tokens.now) e) }
{
    let mut forms = Items::new(alloc);
    let mut rest = tokens;
    while let Some((form, behind)) = prefix_first(rest)? {
        forms.push(form)?;
        rest = behind;
    }
    Ok((forms, rest))
}

/// The expression behind a prefix operator, with it.
fn with_prefix(alloc: Global, form: PrefixForm, inner: Expr) -> Result<Expr, Stuck>
    ensures { MatchResult result (λ e. e ≡ applied form inner) (λ e. e ≡ NoMemory) }
{
    match form {
        PrefixForm::Sign(sign) => Ok(Expr::Unary(sign, Boxed::new(alloc, inner)?)),
        PrefixForm::CastTo(ty) => Ok(Expr::Cast(ty, Boxed::new(alloc, inner)?)),
    }
}

/// The expression behind prefix operators, with them.
pub fn apply(alloc: Global, forms: Items<PrefixForm>, inner: Expr) -> Result<Expr, Stuck>
    ensures { MatchResult result (λ e. e ≡ all_applied forms inner) (λ e. e ≡ NoMemory) }
{
    let mut value = inner;
    let mut left = forms;
    while let Some(form) = left.pop() {
        value = with_prefix(alloc, form, value)?;
    }
    Ok(value)
}
