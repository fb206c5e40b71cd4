//! Statements without a block: assignments, reads and writes.

ghost use Rattle.std.specs.Prelude.{ℕ, ◌≡◌, ◌∷◌, Some, None, length, MatchOption, MatchResult};
ghost use Rattle.pld_base.specs.declared.event.Place.{Place};
ghost use Rattle.pld_grammar.specs.Symbols.{symbol_at, symbols, Ident, Open, Close, Semicolon, Assign as AssignSymbol, Read as ReadSymbol, Write as WriteSymbol};
ghost use Rattle.pld_grammar.specs.Rewritings.{value_at, updated};
ghost use Rattle.pld_grammar.specs.Machine.{Needs, AfterSimpleElement, change_needs};
ghost use Rattle.pld_parse.specs.declared.token.Stuck.TheVariants.{NoMemory as NoMemoryLeft};
ghost use Rattle.pld_parse.specs.Reading.{stuck, Failed, Parsed, on, IsAskedFor, TargetRead, TargetFailed, IsChange, BeginsWithChange, Changed, changing, SimplePart, simply, NoRead, Assigned, after_element, in_block, StatementPart};

use crate::expression::closed;
use crate::token::{Mark, Stuck, behind, expect, first, name_first};
use pld_ast::{BinOp, Expr, Stmt, Target, Ty, Used};
use pld_lex::{Token, TokenKind};
use sqlite_items::Boxed;
use std::alloc::Global;

/// What changes a target: `=`, an operator with `=`, or `++` and `--`, which add and subtract 1.
#[derive(Clone, Copy, PartialEq, Eq, Debug)]
pub enum Change {
    Set,
    Update(BinOp),
    Count(BinOp),
}

/// Behind a name: the rest of a target, which may be nothing.
fn target(alloc: Global, name: Used, tokens: &[Token]) -> Result<(Target, &[Token]), Stuck>
    ensures { MatchResult result (λ x. TargetRead name (symbols tokens.now) (symbols x.1.now) x.0) (λ e. TargetFailed (symbols tokens.now) e) }
{
    let Some(inner) = behind(Mark::OpenBracket, tokens) else {
        return Ok((Target::Scalar(name), tokens));
    };
    let (index, rest) = closed(alloc, Mark::CloseBracket, inner)?;
    Ok((Target::Element(name, index), rest))
}

// The value of a target.
fn value_of(alloc: Global, target: &Target) -> Result<Expr, Stuck>
    ensures { MatchResult result (λ e. e ≡ value_at target.now) (λ e. e ≡ NoMemoryLeft) }
{
    match target {
        Target::Scalar(name) => Ok(Expr::Var(*name)),
        Target::Element(name, index) => {
            Ok(Expr::Element(*name, Boxed::new(alloc, index.copy(alloc)?)?))
        }
    }
}

// The assignment of a target's value, changed by an operator.
fn update(alloc: Global, target: Target, operator: BinOp, by: Expr) -> Result<Stmt, Stuck>
    ensures { MatchResult result (λ s. s ≡ updated target operator by) (λ e. e ≡ NoMemoryLeft) }
{
    let old = Boxed::new(alloc, value_of(alloc, &target)?)?;
    let by = Boxed::new(alloc, by)?;
    Ok(Stmt::Assign(target, Expr::Binary(operator, old, by)))
}

// What a kind of token changes a target by.
fn change_of(kind: &TokenKind) -> Option<Change>
    ensures { (at : Place) → MatchOption result ((ns : Needs) → change_needs (symbol_at at kind.now) ns ≡ None) (λ c. IsChange (symbol_at at kind.now) c) }
{
    match kind {
        TokenKind::Assign => Some(Change::Set),
        TokenKind::PlusAssign => Some(Change::Update(BinOp::Add)),
        TokenKind::MinusAssign => Some(Change::Update(BinOp::Sub)),
        TokenKind::StarAssign => Some(Change::Update(BinOp::Mul)),
        TokenKind::SlashAssign => Some(Change::Update(BinOp::Div)),
        TokenKind::PercentAssign => Some(Change::Update(BinOp::Rem)),
        TokenKind::AndAssign => Some(Change::Update(BinOp::And)),
        TokenKind::OrAssign => Some(Change::Update(BinOp::Or)),
        TokenKind::XorAssign => Some(Change::Update(BinOp::Xor)),
        TokenKind::ShlAssign => Some(Change::Update(BinOp::Shl)),
        TokenKind::ShrAssign => Some(Change::Update(BinOp::Shr)),
        TokenKind::PlusPlus => Some(Change::Count(BinOp::Add)),
        TokenKind::MinusMinus => Some(Change::Count(BinOp::Sub)),
        _ => None,
    }
}

// The token that changes a target, and what stands behind it.
fn change_first(tokens: &[Token]) -> Option<(Change, &[Token])>
    ensures { MatchOption result ((ns : Needs) → stuck (symbols tokens.now) (AfterSimpleElement ∷ ns) ≡ Some (length tokens.now)) (λ x. BeginsWithChange (symbols tokens.now) x.0 (symbols x.1.now)) }
{
    let Some((kind, _, rest)) = first(tokens) else {
        return None;
    };
    let Some(change) = change_of(kind) else {
        return None;
    };
    Some((change, rest))
}

// Behind a target: its change, and the mark that ends it.
fn changed(
    alloc: Global,
    target: Target,
    mark: Mark,
    tokens: &[Token],
) -> Result<(Stmt, &[Token]), Stuck>
    requires { IsAskedFor mark }
    ensures { MatchResult result (λ x. Changed target mark (symbols tokens.now) (symbols x.1.now) x.0) (Failed (changing mark) (symbols tokens.now)) }
{
    let Some((change, rest)) = change_first(tokens) else {
        return Err(Stuck::At(tokens.len()));
    };
    match change {
        Change::Set => {
            let (value, rest) = closed(alloc, mark, rest)?;
            Ok((Stmt::Assign(target, value), rest))
        }
        Change::Update(operator) => {
            let (by, rest) = closed(alloc, mark, rest)?;
            Ok((update(alloc, target, operator, by)?, rest))
        }
        Change::Count(operator) => {
            let rest = expect(mark, rest)?;
            Ok((
                update(alloc, target, operator, Expr::Lit(1, Ty::Int))?,
                rest,
            ))
        }
    }
}

/// A statement that stands alone or in the head of a `for`, and the mark that ends it.
pub fn simple(alloc: Global, mark: Mark, tokens: &[Token]) -> Result<(Stmt, &[Token]), Stuck>
    requires { IsAskedFor mark }
    ensures { MatchResult result (λ x. Parsed (SimplePart mark) (simply mark) on (symbols tokens.now) (symbols x.1.now) x.0) (Failed (simply mark) (symbols tokens.now)) }
{
    let Some((name, rest)) = name_first(tokens) else {
        return Err(Stuck::At(tokens.len()));
    };
    let (target, rest) = target(alloc, name, rest)?;
    changed(alloc, target, mark, rest)
}

// What stands behind `= read`, if the tokens begin so.
fn read_first(tokens: &[Token]) -> Option<&[Token]>
    ensures { MatchOption result (NoRead (symbols tokens.now)) (λ rest. symbols tokens.now ≡ AssignSymbol ∷ ReadSymbol ∷ symbols rest.now) }
{
    let Some(assigned) = behind(Mark::Assign, tokens) else {
        return None;
    };
    behind(Mark::Read, assigned)
}

// Behind `read`: the port, and what ends the statement.
fn read_statement(target: Target, tokens: &[Token]) -> Result<(Stmt, &[Token]), Stuck>
    ensures { MatchResult result (λ x. Assigned target (AssignSymbol ∷ ReadSymbol ∷ symbols tokens.now) (symbols x.1.now) x.0) (Failed after_element (AssignSymbol ∷ ReadSymbol ∷ symbols tokens.now)) }
{
    let rest = expect(Mark::Open, tokens)?;
    let Some((port, rest)) = name_first(rest) else {
        return Err(Stuck::At(rest.len()));
    };
    let rest = expect(Mark::Close, rest)?;
    let rest = expect(Mark::Semicolon, rest)?;
    Ok((Stmt::Read(target, port), rest))
}

// Behind the target of a statement: a read or a change.
fn assigned(alloc: Global, target: Target, tokens: &[Token]) -> Result<(Stmt, &[Token]), Stuck>
    ensures { MatchResult result (λ x. Assigned target (symbols tokens.now) (symbols x.1.now) x.0) (Failed after_element (symbols tokens.now)) }
{
    match read_first(tokens) {
        Some(read) => read_statement(target, read),
        None => changed(alloc, target, Mark::Semicolon, tokens),
    }
}

/// Behind the name that begins a statement.
pub fn assignment(alloc: Global, name: Used, tokens: &[Token]) -> Result<(Stmt, &[Token]), Stuck>
    ensures { MatchResult result (λ x. Parsed StatementPart in_block in_block (Ident name ∷ symbols tokens.now) (symbols x.1.now) x.0) (Failed in_block (Ident name ∷ symbols tokens.now)) }
{
    let (target, rest) = target(alloc, name, tokens)?;
    assigned(alloc, target, rest)
}

/// Behind `write`: the port, the value, and what ends the statement.
pub fn write_statement(alloc: Global, tokens: &[Token]) -> Result<(Stmt, &[Token]), Stuck>
    ensures { MatchResult result (λ x. Parsed StatementPart in_block in_block (WriteSymbol ∷ symbols tokens.now) (symbols x.1.now) x.0) (Failed in_block (WriteSymbol ∷ symbols tokens.now)) }
{
    let rest = expect(Mark::Open, tokens)?;
    let Some((port, rest)) = name_first(rest) else {
        return Err(Stuck::At(rest.len()));
    };
    let rest = expect(Mark::Comma, rest)?;
    let (value, rest) = closed(alloc, Mark::Close, rest)?;
    let rest = expect(Mark::Semicolon, rest)?;
    Ok((Stmt::Write(port, value), rest))
}
