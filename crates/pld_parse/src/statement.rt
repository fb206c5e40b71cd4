//! Statements with blocks.

ghost use Rattle.std.specs.Prelude.{ℕ, ◌≡◌, ◌∷◌, List, MatchResult};
ghost use Rattle.pld_grammar.specs.Grammar.{Block};
ghost use Rattle.pld_grammar.specs.Symbols.{symbols, If, While, For};
ghost use Rattle.pld_parse.specs.declared.token.Stuck.TheVariants.{NoMemory as NoMemoryLeft};
ghost use Rattle.pld_parse.specs.declared.token.Mark.TheVariants.{CloseBrace, For as ForMark};
ghost use Rattle.pld_parse.specs.Reading.{Failed, Parsed, on, BeginsOtherwise, in_block, StatementPart, testing, TestRead, heading, HeadRead, BlockPart, bracing, Added, chained};

use crate::expression::closed;
use crate::simple::{assignment, simple, write_statement};
use crate::token::{Mark, Stuck, behind, expect, first};
use pld_ast::{Expr, Stmt, Used};
use pld_lex::{Token, TokenKind};
use sqlite_items::Items;
use std::alloc::Global;

/// A test, and what is done where it isn't 0.
#[derive(Drop)]
pub struct Arm {
    pub test: Expr,
    pub body: Items<Stmt>,
}

// A test in brackets, and the brace behind it.
fn condition(alloc: Global, tokens: &[Token]) -> Result<(Expr, &[Token]), Stuck>
    ensures { MatchResult result (λ x. TestRead (symbols tokens.now) (symbols x.1.now) x.0) (Failed testing (symbols tokens.now)) }
{
    let rest = expect(Mark::Open, tokens)?;
    let (test, rest) = closed(alloc, Mark::Close, rest)?;
    let rest = expect(Mark::OpenBrace, rest)?;
    Ok((test, rest))
}

// The head of a `for`, and the brace behind it: its first statement, its test, and its last statement.
fn for_head(alloc: Global, tokens: &[Token]) -> Result<(Stmt, Expr, Stmt, &[Token]), Stuck>
    ensures { MatchResult result (λ x. HeadRead (symbols tokens.now) (symbols x.3.now) x.0 x.1 x.2) (Failed heading (symbols tokens.now)) }
{
    let rest = expect(Mark::Open, tokens)?;
    let (start, rest) = simple(alloc, Mark::Semicolon, rest)?;
    let (test, rest) = closed(alloc, Mark::Semicolon, rest)?;
    let (step, rest) = simple(alloc, Mark::Close, rest)?;
    let rest = expect(Mark::OpenBrace, rest)?;
    Ok((start, test, step, rest))
}

// The statement of an `if` behind arms, each of which has the next one in its else block.
fn chain(alloc: Global, arms: Items<Arm>, last: Stmt) -> Result<Stmt, Stuck>
    ensures { MatchResult result (λ s. s ≡ chained arms last) (λ e. e ≡ NoMemoryLeft) }
{
    let mut statement = last;
    let mut left = arms;
    while let Some(arm) = left.pop() {
        let mut otherwise = Items::new(alloc);
        otherwise.push(statement)?;
        statement = Stmt::If(arm.test, arm.body, otherwise);
    }
    Ok(statement)
}

/// Behind an open brace: the statements up to the brace that closes the block.
#[cycle(block)]
pub fn block(alloc: Global, tokens: &[Token]) -> Result<(Items<Stmt>, &[Token]), Stuck>
    ensures { MatchResult result (λ x. Parsed BlockPart in_block on (symbols tokens.now) (symbols x.1.now) x.0) (Failed in_block (symbols tokens.now)) }
{
    let mut body = Items::new(alloc);
    let mut rest = tokens;
    loop {
        if let Some(end) = behind(Mark::CloseBrace, rest) {
            return Ok((body, end));
        }
        rest = statement(alloc, rest, &mut body)?;
    }
}

// A block with its braces.
#[cycle(block)]
fn braced(alloc: Global, tokens: &[Token]) -> Result<(Items<Stmt>, &[Token]), Stuck>
    ensures { MatchResult result (λ x. Parsed Block bracing on (symbols tokens.now) (symbols x.1.now) x.0) (Failed bracing (symbols tokens.now)) }
{
    let rest = expect(Mark::OpenBrace, tokens)?;
    block(alloc, rest)
}

// A statement, which is added to the list.
#[cycle(block)]
fn statement<'a>(
    alloc: Global,
    tokens: &'a [Token],
    body: &mut Items<Stmt>,
) -> Result<&'a [Token], Stuck>
    requires { BeginsOtherwise CloseBrace (symbols tokens.now) }
    ensures { MatchResult result (λ rest. Added body.old body.new (symbols tokens.now) (symbols rest.now)) (Failed in_block (symbols tokens.now)) }
{
    if let Some(head) = behind(Mark::For, tokens) {
        return counted(alloc, head, body);
    }
    let (step, rest) = single(alloc, tokens)?;
    body.push(step)?;
    Ok(rest)
}

// A statement that isn't a `for`.
#[cycle(block)]
fn single(alloc: Global, tokens: &[Token]) -> Result<(Stmt, &[Token]), Stuck>
    requires open { BeginsOtherwise CloseBrace (symbols tokens.now) }
    requires other { BeginsOtherwise ForMark (symbols tokens.now) }
    ensures { MatchResult result (λ x. Parsed StatementPart in_block in_block (symbols tokens.now) (symbols x.1.now) x.0) (Failed in_block (symbols tokens.now)) }
{
    let Some((kind, at, rest)) = first(tokens) else {
        return Err(Stuck::At(tokens.len()));
    };
    match kind {
        TokenKind::Ident(name) => assignment(alloc, Used { name: *name, at }, rest),
        TokenKind::Write => write_statement(alloc, rest),
        TokenKind::If => choice(alloc, rest),
        TokenKind::While => repeat(alloc, rest),
        TokenKind::Return => {
            let rest = expect(Mark::Semicolon, rest)?;
            Ok((Stmt::Return, rest))
        }
        _ => Err(Stuck::At(tokens.len())),
    }
}

// Behind `if`: arms with `else if` between them, and maybe a last `else`.
#[cycle(block)]
fn choice(alloc: Global, tokens: &[Token]) -> Result<(Stmt, &[Token]), Stuck>
    ensures { MatchResult result (λ x. Parsed StatementPart in_block in_block (If ∷ symbols tokens.now) (symbols x.1.now) x.0) (Failed in_block (If ∷ symbols tokens.now)) }
{
    let mut arms = Items::new(alloc);
    let mut rest = tokens;
    loop {
        let (test, inner) = condition(alloc, rest)?;
        let (body, end) = block(alloc, inner)?;
        let Some(more) = behind(Mark::Else, end) else {
            let last = Stmt::If(test, body, Items::new(alloc));
            return Ok((chain(alloc, arms, last)?, end));
        };
        let Some(next) = behind(Mark::If, more) else {
            let (otherwise, end) = braced(alloc, more)?;
            let last = Stmt::If(test, body, otherwise);
            return Ok((chain(alloc, arms, last)?, end));
        };
        arms.push(Arm { test, body })?;
        rest = next;
    }
}

// Behind `while`.
#[cycle(block)]
fn repeat(alloc: Global, tokens: &[Token]) -> Result<(Stmt, &[Token]), Stuck>
    ensures { MatchResult result (λ x. Parsed StatementPart in_block in_block (While ∷ symbols tokens.now) (symbols x.1.now) x.0) (Failed in_block (While ∷ symbols tokens.now)) }
{
    let (test, inner) = condition(alloc, tokens)?;
    let (body, rest) = block(alloc, inner)?;
    Ok((Stmt::While(test, body), rest))
}

// Behind `for`: the loop that it means, with its last statement at the end of each turn, is added to the list
// behind its first statement.
#[cycle(block)]
fn counted<'a>(
    alloc: Global,
    tokens: &'a [Token],
    body: &mut Items<Stmt>,
) -> Result<&'a [Token], Stuck>
    ensures { MatchResult result (λ rest. Added body.old body.new (For ∷ symbols tokens.now) (symbols rest.now)) (Failed in_block (For ∷ symbols tokens.now)) }
{
    let (start, test, step, inner) = for_head(alloc, tokens)?;
    let (mut turn, rest) = block(alloc, inner)?;
    turn.push(step)?;
    body.push(start)?;
    body.push(Stmt::While(test, turn))?;
    Ok(rest)
}
