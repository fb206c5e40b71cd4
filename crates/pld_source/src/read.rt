//! Operators from their texts.

ghost use Rattle.std.specs.Prelude.{◌≡◌, Ok, Some, None, MatchResult};
ghost use Rattle.pld_ast.specs.Resolve.{program_of};
ghost use Rattle.pld_check.specs.Known.{AreFilled};
ghost use Rattle.pld_check.specs.Faults.{check_fault};
ghost use Rattle.pld_lex.specs.Lexed.{lexed, IfFault};
ghost use Rattle.pld_source.specs.Reading.{reading, Faulty, Reads};

use pld_ast::Operator;
use pld_base::{NoMemory, Refused, SourceFault};
use pld_check::{Checked, Scoped, check};
use pld_lex::{Token, place_behind, tokens};
use pld_parse::parse_tokens;
use std::alloc::Global;

// The operator, if its names are right and it is within the limits.
fn checked(alloc: Global, op: Operator) -> Result<Checked, Refused<SourceFault>>
    requires { AreFilled (program_of op).lengths }
    ensures { MatchResult result (λ checked. (checked ≡ op) × (check_fault op ≡ None)) (λ e. IfFault e (λ fault. check_fault op ≡ Some fault)) }
{
    match Scoped::of(alloc, op) {
        Ok(scoped) => check(scoped),
        Err(NoMemory) => Err(Refused::NoMemory),
    }
}

// The operator of a text with these tokens.
fn read_tokens(
    alloc: Global,
    text: &[u8],
    tokens: &[Token],
) -> Result<Checked, Refused<SourceFault>>
    requires { lexed text.now ≡ Ok tokens.now }
    ensures exact { MatchResult result (λ checked. reading text.now ≡ Reads checked) (λ e. IfFault e (λ fault. reading text.now ≡ Faulty fault)) }
{
    match parse_tokens(alloc, tokens, place_behind(text)) {
        Ok(op) => checked(alloc, op),
        Err(refused) => Err(refused),
    }
}

/// Reads an operator's text, and checks its names and limits. A fault comes exactly where the text has one: first
/// in its tokens, then in its syntax, then in its names and limits, each at its place. Works in time linear in the text: a
/// name is found by its hash.
pub fn read_operator(alloc: Global, text: &[u8]) -> Result<Checked, Refused<SourceFault>>
    ensures exact { MatchResult result (λ checked. reading text.now ≡ Reads checked) (λ e. IfFault e (λ fault. reading text.now ≡ Faulty fault)) }
{
    match tokens(alloc, text) {
        Ok(tokens) => read_tokens(alloc, text, tokens.as_slice()),
        Err(refused) => Err(refused),
    }
}
