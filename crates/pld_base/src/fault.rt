//! The faults of an operator's text.

/// A limit of the language that a text has passed.
#[derive(Clone, Copy, Debug, PartialEq, Eq)]
pub enum Limit {
    Text,
    Ident,
    Tokens,
    Nesting,
    Nodes,
    Scalars,
    Arrays,
    ArrayWords,
    InPorts,
    OutPorts,
}

/// What is wrong with a text.
#[derive(Clone, Copy, Debug, PartialEq, Eq)]
pub enum FaultKind {
    BadToken,
    LiteralTooLarge,
    Syntax,
    UnknownName,
    NameTwice,
    WrongKind,
    WrongDirection,
    BadAsm,
    OutOfRange,
    TooLarge(Limit),
}

/// What is wrong with a text, and where: line and column, in bytes, counted from 1.
#[derive(Clone, Copy, Debug, PartialEq, Eq)]
pub struct SourceFault {
    pub kind: FaultKind,
    pub line: u32,
    pub column: u32,
}
