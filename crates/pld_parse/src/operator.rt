//! Ports, declarations, and whole operators.

ghost use Rattle.std.specs.Prelude.{ℕ, ◌≡◌, ◌∷◌, Some, None, length, MatchOption, MatchResult};
ghost use Rattle.pld_grammar.specs.Grammar.{Ports, Syntax};
ghost use Rattle.pld_grammar.specs.Symbols.{symbols};
ghost use Rattle.pld_grammar.specs.Machine.{Needs, NextPort, start};
ghost use Rattle.pld_grammar.specs.Machine as machine;
ghost use Rattle.pld_parse.specs.declared.token.Mark.TheVariants.{OpenBracket};
ghost use Rattle.pld_parse.specs.Reading.{stuck, Failed, Parsed, on, BeginsOtherwise, symbol_of_side, a_port, PortAdded, some_ports, BeginsWithNumber, NoNumber, BeginsWithLength, sizing, ArrayAdded, declaring, after_variable, VariableAdded, DeclarationAdded, in_body, DeclarationsRead, ContentsRead, whole_text};

use crate::expression::closed;
use crate::prefix::type_first;
use crate::statement::block;
use crate::token::{Mark, Stuck, behind, expect, first, name_first};
use pld_ast::{Array, Operator, Port, Scalar, Stmt, Target, Ty, Used};
use pld_base::Side;
use pld_lex::{Token, TokenKind};
use sqlite_items::Items;
use std::alloc::Global;

/// The variables of an operator, and its statements. An initializer stands among the statements.
#[derive(Drop)]
pub struct Declarations {
    pub scalars: Items<Scalar>,
    pub arrays: Items<Array>,
    pub body: Items<Stmt>,
}

// The side that begins the tokens, and what stands behind it.
fn side_first(tokens: &[Token]) -> Option<(Side, &[Token])>
    ensures { MatchOption result ((ns : Needs) → stuck (symbols tokens.now) (a_port ns) ≡ Some (length tokens.now)) (λ x. symbols tokens.now ≡ symbol_of_side x.0 ∷ symbols x.1.now) }
{
    match first(tokens) {
        Some((TokenKind::In, _, rest)) => Some((Side::In, rest)),
        Some((TokenKind::Out, _, rest)) => Some((Side::Out, rest)),
        _ => None,
    }
}

// A port, which is added to the list.
fn port<'a>(tokens: &'a [Token], ports: &mut Items<Port>) -> Result<&'a [Token], Stuck>
    ensures { MatchResult result (λ rest. PortAdded ports.old ports.new (symbols tokens.now) (symbols rest.now)) (Failed a_port (symbols tokens.now)) }
{
    let Some((side, rest)) = side_first(tokens) else {
        return Err(Stuck::At(tokens.len()));
    };
    let Some((name, rest)) = name_first(rest) else {
        return Err(Stuck::At(rest.len()));
    };
    ports.push(Port {
        name: name.name,
        side,
        at: name.at,
    })?;
    Ok(rest)
}

// Behind the open bracket of the header: the ports, and the bracket that closes them.
fn ports(alloc: Global, tokens: &[Token]) -> Result<(Items<Port>, &[Token]), Stuck>
    ensures { MatchResult result (λ x. Parsed Ports some_ports on (symbols tokens.now) (symbols x.1.now) x.0) (Failed some_ports (symbols tokens.now)) }
{
    let mut ports = Items::new(alloc);
    if let Some(rest) = behind(Mark::Close, tokens) {
        return Ok((ports, rest));
    }
    let mut rest = port(tokens, &mut ports)?;
    while let Some(more) = behind(Mark::Comma, rest) {
        rest = port(more, &mut ports)?;
    }
    let rest = expect(Mark::Close, rest)?;
    Ok((ports, rest))
}

// The number that begins the tokens, and what stands behind it.
fn number_first(tokens: &[Token]) -> Option<(u32, &[Token])>
    ensures { MatchOption result (NoNumber (symbols tokens.now)) (λ x. BeginsWithNumber x.0 (symbols tokens.now) (symbols x.1.now)) }
{
    match first(tokens) {
        Some((TokenKind::Number(n, _), _, rest)) => Some((*n, rest)),
        _ => None,
    }
}

// The length of an array that begins the tokens: a number other than zero.
fn length_first(tokens: &[Token]) -> Option<(u32, &[Token])>
    ensures { MatchOption result ((ns : Needs) → stuck (symbols tokens.now) (machine.Exactly machine.ALength ∷ ns) ≡ Some (length tokens.now)) (λ x. BeginsWithLength x.0 (symbols tokens.now) (symbols x.1.now)) }
{
    let Some((n, rest)) = number_first(tokens) else {
        return None;
    };
    if n == 0 { None } else { Some((n, rest)) }
}

// Behind the open bracket of a declaration: an array's length and the end. The array is added to the list.
fn array<'a>(
    ty: Ty,
    name: Used,
    tokens: &'a [Token],
    arrays: &mut Items<Array>,
) -> Result<&'a [Token], Stuck>
    ensures { MatchResult result (λ rest. ArrayAdded ty name arrays.old arrays.new (symbols tokens.now) (symbols rest.now)) (Failed sizing (symbols tokens.now)) }
{
    let Some((len, rest)) = length_first(tokens) else {
        return Err(Stuck::At(tokens.len()));
    };
    let rest = expect(Mark::CloseBracket, rest)?;
    let rest = expect(Mark::Semicolon, rest)?;
    arrays.push(Array {
        name: name.name,
        ty,
        len,
        at: name.at,
    })?;
    Ok(rest)
}

// Behind the name of a scalar: the end, or an initializer. Both are added.
fn scalar<'a>(
    alloc: Global,
    ty: Ty,
    name: Used,
    tokens: &'a [Token],
    made: &mut Declarations,
) -> Result<&'a [Token], Stuck>
    requires { BeginsOtherwise OpenBracket (symbols tokens.now) }
    ensures { MatchResult result (λ rest. VariableAdded ty name made.old made.new (symbols tokens.now) (symbols rest.now)) (Failed after_variable (symbols tokens.now)) }
{
    made.scalars.push(Scalar {
        name: name.name,
        ty,
        at: name.at,
    })?;
    let Some(more) = behind(Mark::Assign, tokens) else {
        return expect(Mark::Semicolon, tokens);
    };
    let (value, rest) = closed(alloc, Mark::Semicolon, more)?;
    let target = Target::Scalar(Used {
        name: name.name,
        at: name.at,
    });
    made.body.push(Stmt::Assign(target, value))?;
    Ok(rest)
}

// Behind the type of a declaration. What it declares is added.
fn declaration<'a>(
    alloc: Global,
    ty: Ty,
    tokens: &'a [Token],
    made: &mut Declarations,
) -> Result<&'a [Token], Stuck>
    ensures { MatchResult result (λ rest. DeclarationAdded ty made.old made.new (symbols tokens.now) (symbols rest.now)) (Failed declaring (symbols tokens.now)) }
{
    let Some((name, rest)) = name_first(tokens) else {
        return Err(Stuck::At(tokens.len()));
    };
    match behind(Mark::OpenBracket, rest) {
        Some(length) => array(ty, name, length, &mut made.arrays),
        None => scalar(alloc, ty, name, rest, made),
    }
}

// The declarations that begin the tokens.
fn all_declarations(alloc: Global, tokens: &[Token]) -> Result<(Declarations, &[Token]), Stuck>
    ensures { MatchResult result (λ x. DeclarationsRead (symbols tokens.now) (symbols x.1.now) x.0) (Failed in_body (symbols tokens.now)) }
{
    let mut made = Declarations {
        scalars: Items::new(alloc),
        arrays: Items::new(alloc),
        body: Items::new(alloc),
    };
    let mut rest = tokens;
    while let Some((ty, more)) = type_first(rest) {
        rest = declaration(alloc, ty, more, &mut made)?;
    }
    Ok((made, rest))
}

// Behind the brace of the header: declarations, statements, and the brace that closes them.
fn contents(alloc: Global, tokens: &[Token]) -> Result<(Declarations, &[Token]), Stuck>
    ensures { MatchResult result (λ x. ContentsRead (symbols tokens.now) (symbols x.1.now) x.0) (Failed in_body (symbols tokens.now)) }
{
    let (mut made, rest) = all_declarations(alloc, tokens)?;
    let (more, rest) = block(alloc, rest)?;
    made.body.append(more)?;
    Ok((made, rest))
}

/// The operator that the tokens are the text of, whatever its brackets.
pub fn operator(alloc: Global, tokens: &[Token]) -> Result<Operator, Stuck>
    ensures { MatchResult result (λ op. Syntax (symbols tokens.now) op × stuck (symbols tokens.now) start ≡ None) (Failed whole_text (symbols tokens.now)) }
{
    let rest = expect(Mark::Void, tokens)?;
    let Some((name, rest)) = name_first(rest) else {
        return Err(Stuck::At(rest.len()));
    };
    let rest = expect(Mark::Open, rest)?;
    let (ports, rest) = ports(alloc, rest)?;
    let rest = expect(Mark::OpenBrace, rest)?;
    let (made, rest) = contents(alloc, rest)?;
    match first(rest) {
        Some(_) => Err(Stuck::At(rest.len())),
        None => Ok(Operator {
            name: name.name,
            at: name.at,
            ports,
            scalars: made.scalars,
            arrays: made.arrays,
            body: made.body,
        }),
    }
}
