//! Refusals, and their texts.

ghost use Rattle.std.specs.Prelude.{◌≡◌, ◌++◌, OnOk, decimal, codes};
ghost use Rattle.pld_reply.specs.Refusals.{limit_text, kind_text, source_text, graph_text, end_text, pages_text, refusal_text, refused_reply};

use crate::put::{put_number, put_text};
use pld_base::{End, FaultKind, Limit, NoMemory, Side, SourceFault};
use pld_graph::{GraphFault, OpenPort};

/// Why a statement is refused.
#[derive(Clone, Copy, Debug, PartialEq, Eq)]
pub enum Refusal {
    /// It isn't of the form of a statement.
    BadLine,
    /// The operator's text has this fault.
    Source(SourceFault),
    /// The design can't be changed so.
    Graph(GraphFault),
    /// The feed would have too many words.
    TooManyWords,
    /// The session has made all the runs that it may.
    TooManyRuns,
    /// The design has no operators.
    Empty,
    /// This port of an operator is in no channel.
    OpenPort(OpenPort),
    /// The design has more operators than its network has pages.
    TooFewPages { operators: u64, pages: u64 },
    /// No build has succeeded since the last edit.
    NotBuilt,
    /// No run was made yet.
    NotRun,
}

/// Writes which limit of the language was passed.
fn put_limit(reply: &mut Vec<u8>, limit: Limit) -> Result<(), NoMemory>
    ensures { OnOk result (reply.new.items ≡ reply.old.items ++ limit_text limit) }
{
    match limit {
        Limit::Text => put_text(reply, b"Text"),
        Limit::Ident => put_text(reply, b"Ident"),
        Limit::Tokens => put_text(reply, b"Tokens"),
        Limit::Nesting => put_text(reply, b"Nesting"),
        Limit::Nodes => put_text(reply, b"Nodes"),
        Limit::Scalars => put_text(reply, b"Scalars"),
        Limit::Arrays => put_text(reply, b"Arrays"),
        Limit::ArrayWords => put_text(reply, b"ArrayWords"),
        Limit::InPorts => put_text(reply, b"InPorts"),
        Limit::OutPorts => put_text(reply, b"OutPorts"),
    }
}

/// Writes what is wrong with an operator's text.
fn put_kind(reply: &mut Vec<u8>, kind: FaultKind) -> Result<(), NoMemory>
    ensures { OnOk result (reply.new.items ≡ reply.old.items ++ kind_text kind) }
{
    match kind {
        FaultKind::BadToken => put_text(reply, b"BadToken"),
        FaultKind::LiteralTooLarge => put_text(reply, b"LiteralTooLarge"),
        FaultKind::Syntax => put_text(reply, b"Syntax"),
        FaultKind::UnknownName => put_text(reply, b"UnknownName"),
        FaultKind::NameTwice => put_text(reply, b"NameTwice"),
        FaultKind::WrongKind => put_text(reply, b"WrongKind"),
        FaultKind::WrongDirection => put_text(reply, b"WrongDirection"),
        FaultKind::BadAsm => put_text(reply, b"BadAsm"),
        FaultKind::OutOfRange => put_text(reply, b"OutOfRange"),
        FaultKind::TooLarge(limit) => {
            put_text(reply, b"TooLarge(")?;
            put_limit(reply, limit)?;
            put_text(reply, b")")
        }
    }
}

/// Writes what is wrong with an operator's text, and at which line and column.
fn put_source(reply: &mut Vec<u8>, fault: SourceFault) -> Result<(), NoMemory>
    ensures { OnOk result (reply.new.items ≡ reply.old.items ++ source_text fault) }
{
    put_text(reply, b"Source ")?;
    put_kind(reply, fault.kind)?;
    put_text(reply, b" ")?;
    put_number(reply, u64::from(fault.line))?;
    put_text(reply, b" ")?;
    put_number(reply, u64::from(fault.column))
}

/// Writes why a design can't be changed so.
fn put_graph(reply: &mut Vec<u8>, fault: GraphFault) -> Result<(), NoMemory>
    ensures { OnOk result (reply.new.items ≡ reply.old.items ++ graph_text fault) }
{
    match fault {
        GraphFault::UnknownOperator => put_text(reply, b"UnknownOperator"),
        GraphFault::UnknownPort => put_text(reply, b"UnknownPort"),
        GraphFault::WrongDirection => put_text(reply, b"WrongDirection"),
        GraphFault::PortTaken => put_text(reply, b"PortTaken"),
        GraphFault::NameTaken => put_text(reply, b"NameTaken"),
        GraphFault::LeafTaken => put_text(reply, b"LeafTaken"),
        GraphFault::LeafRange => put_text(reply, b"LeafRange"),
        GraphFault::NotLinked => put_text(reply, b"NotLinked"),
        GraphFault::TooMany => put_text(reply, b"TooMany"),
        GraphFault::LevelCount => put_text(reply, b"LevelCount"),
    }
}

/// Writes a port as a session names it, as `inc.i0`.
fn put_end(reply: &mut Vec<u8>, end: &End) -> Result<(), NoMemory>
    ensures { OnOk result (reply.new.items ≡ reply.old.items ++ end_text end.now) }
{
    put_text(reply, end.op.as_bytes())?;
    match end.side {
        Side::In => put_text(reply, b".i")?,
        Side::Out => put_text(reply, b".o")?,
    }
    put_number(reply, u64::from(end.port.0))
}

/// Writes how many operators stand, and for how many there are pages.
fn put_pages(reply: &mut Vec<u8>, operators: u64, pages: u64) -> Result<(), NoMemory>
    ensures { OnOk result (reply.new.items ≡ reply.old.items ++ pages_text operators pages) }
{
    put_text(reply, b"TooFewPages ")?;
    put_number(reply, operators)?;
    put_text(reply, b" ")?;
    put_number(reply, pages)
}

/// Writes why a statement is refused.
fn put_refusal(reply: &mut Vec<u8>, refusal: &Refusal) -> Result<(), NoMemory>
    ensures { OnOk result (reply.new.items ≡ reply.old.items ++ refusal_text refusal.now) }
{
    match refusal {
        Refusal::BadLine => put_text(reply, b"BadLine"),
        Refusal::Source(fault) => put_source(reply, *fault),
        Refusal::Graph(fault) => put_graph(reply, *fault),
        Refusal::TooManyWords => put_text(reply, b"TooManyWords"),
        Refusal::TooManyRuns => put_text(reply, b"TooManyRuns"),
        Refusal::Empty => put_text(reply, b"Empty"),
        Refusal::OpenPort(open) => {
            put_text(reply, b"OpenPort ")?;
            put_end(reply, &open.end)
        }
        Refusal::TooFewPages { operators, pages } => put_pages(reply, *operators, *pages),
        Refusal::NotBuilt => put_text(reply, b"NotBuilt"),
        Refusal::NotRun => put_text(reply, b"NotRun"),
    }
}

/// Writes the line `refused LINE TEXT`: the statement whose first line has this number is refused, and why.
pub fn put_refused(reply: &mut Vec<u8>, number: u64, refusal: &Refusal) -> Result<(), NoMemory>
    ensures { OnOk result (reply.new.items ≡ reply.old.items ++ refused_reply number refusal.now) }
{
    put_text(reply, b"refused ")?;
    put_number(reply, number)?;
    put_text(reply, b" ")?;
    put_refusal(reply, refusal)?;
    put_text(reply, b"\n")
}
