//! Operators from tokens, with the exact fault.

ghost use Rattle.std.specs.Prelude.{◌≡◌, ◌≤◌, ◌-◌, ◌+◌, Some, None, length, IfOk, IfErr, slice_get};
ghost use Rattle.pld_grammar.specs.Symbols.{symbols};
ghost use Rattle.pld_grammar.specs.Grammar.{Syntax};
ghost use Rattle.pld_grammar.specs.Fault.{IsNarrow};
ghost use Rattle.pld_grammar.specs.Machine.{Fine, verdict, start};
ghost use Rattle.pld_parse.specs.declared.nesting.TheConstants.{MAX_DEPTH};
ghost use Rattle.pld_parse.specs.Reading.{stuck};
ghost use Rattle.pld_parse.specs.Faults.{crowded_at, place_of, IsFaultOf, Judges, IsJudged, told};

use crate::nesting::crowded;
use crate::operator::operator;
use crate::token::Stuck;
use pld_ast::Operator;
use pld_base::{FaultKind, Limit, Place, Refused, SourceFault};
use pld_grammar::verdicts_are_exact;
use pld_lex::Token;
use std::alloc::Global;

// The place of the token from which on so many are left, and behind the text where none is.
fn place(tokens: &[Token], behind: Place, left: usize) -> Place
    requires { left ≤ length tokens.now }
    ensures { result ≡ place_of tokens.now behind left }
{
    match tokens.get(tokens.len() - left) {
        Some(token) => token.at,
        None => behind,
    }
}

// A fault of this kind at that place.
fn fault_at(tokens: &[Token], behind: Place, kind: FaultKind, left: usize) -> SourceFault
    requires { left ≤ length tokens.now }
    ensures kind { result.kind ≡ kind }
    ensures line { result.line ≡ (place_of tokens.now behind left).line }
    ensures column { result.column ≡ (place_of tokens.now behind left).column }
{
    let at = place(tokens, behind, left);
    SourceFault {
        kind,
        line: at.line,
        column: at.column,
    }
}

// The operator of tokens that never open a bracket too many.
fn roomy_text(
    alloc: Global,
    tokens: &[Token],
    behind: Place,
) -> Result<Operator, Refused<SourceFault>>
    requires { crowded_at MAX_DEPTH 0 (symbols tokens.now) ≡ None }
    ensures found { IfOk result (λ op. Syntax (symbols tokens.now) op × verdict MAX_DEPTH (symbols tokens.now) 0 start ≡ Fine) }
    ensures fault { IfErr result (λ e. IsJudged MAX_DEPTH tokens.now behind e) }
{
    match operator(alloc, tokens) {
        Ok(op) => Ok(op),
        Err(Stuck::NoMemory) => Err(Refused::NoMemory),
        Err(Stuck::At(left)) => {
            let fault = fault_at(tokens, behind, FaultKind::Syntax, left);
            Err(Refused::Fault(fault))
        }
    }
}

// The fault of tokens that open a bracket too many where so many are left, and that are stuck where so many are
// left of those up to there.
fn cut_fault(tokens: &[Token], behind: Place, left: usize, short: usize) -> SourceFault
    requires crowded { crowded_at MAX_DEPTH 0 (symbols tokens.now) ≡ Some left }
    requires within { short + left ≤ length tokens.now + 1 }
    requires told { verdict MAX_DEPTH (symbols tokens.now) 0 start ≡ told (Some short) left }
    ensures { Judges MAX_DEPTH tokens.now behind result }
{
    if short == 0 {
        fault_at(tokens, behind, FaultKind::TooLarge(Limit::Nesting), left)
    } else {
        fault_at(tokens, behind, FaultKind::Syntax, short - 1 + left)
    }
}

// The fault of tokens that open a bracket too many where so many are left.
fn crowded_text(alloc: Global, tokens: &[Token], behind: Place, left: usize) -> Refused<SourceFault>
    requires { crowded_at MAX_DEPTH 0 (symbols tokens.now) ≡ Some left }
    ensures { IsJudged MAX_DEPTH tokens.now behind result }
{
    let front = &tokens[..tokens.len() - (left - 1)];
    match operator(alloc, front) {
        Ok(_) => Refused::Fault(cut_fault(tokens, behind, left, 0)),
        Err(Stuck::NoMemory) => Refused::NoMemory,
        Err(Stuck::At(short)) => Refused::Fault(cut_fault(tokens, behind, left, short)),
    }
}

/// The operator that the tokens are the text of, where never more than 32 brackets are open at once. `behind` is the
/// place one after the text's last byte. A fault stands at the first token after which no such text goes on: it
/// is `TooLarge(Nesting)` where one with more brackets does, and else `Syntax`. Where such a text goes on behind
/// all the tokens, which are none by themselves, it is `Syntax` at `behind`. `NoMemory` may come instead of any answer.
pub fn parse_tokens(
    alloc: Global,
    tokens: &[Token],
    behind: Place,
) -> Result<Operator, Refused<SourceFault>>
    ensures found { IfOk result (λ op. Syntax (symbols tokens.now) op × IsNarrow MAX_DEPTH 0 (symbols tokens.now)) }
    ensures fault { IfErr result (λ e. IsFaultOf MAX_DEPTH tokens.now behind e) }
{
    verdicts_are_exact();
    match crowded(tokens) {
        None => roomy_text(alloc, tokens, behind),
        Some(left) => Err(crowded_text(alloc, tokens, behind, left)),
    }
}
