//! Tokens, each with its slice of the text and its place.

use pld_ast::Ty;
use pld_base::{Name, Place};

/// What a token is: an identifier, a number with its type, a keyword, or a mark.
#[derive(Clone, Copy, Debug)]
pub enum TokenKind {
    Ident(Name),
    Number(u32, Ty),
    Void,
    In,
    Out,
    Int,
    Uint,
    If,
    Else,
    While,
    For,
    Return,
    Read,
    Write,
    ShlAssign,
    ShrAssign,
    PlusAssign,
    MinusAssign,
    StarAssign,
    SlashAssign,
    PercentAssign,
    AndAssign,
    OrAssign,
    XorAssign,
    PlusPlus,
    MinusMinus,
    AndAnd,
    OrOr,
    EqualEqual,
    NotEqual,
    LessEqual,
    GreaterEqual,
    ShiftLeft,
    ShiftRight,
    Plus,
    Minus,
    Star,
    Slash,
    Percent,
    Ampersand,
    Bar,
    Hat,
    Tilde,
    Bang,
    Less,
    Greater,
    Assign,
    Open,
    Close,
    OpenBrace,
    CloseBrace,
    OpenBracket,
    CloseBracket,
    Comma,
    Semicolon,
}

/// A token: its kind, the bytes from `start` to just before `end` of the text, and the line and column of its
/// first byte, both from 1, columns in bytes.
#[derive(Clone, Copy, Debug)]
pub struct Token {
    pub kind: TokenKind,
    pub start: usize,
    pub end: usize,
    pub at: Place,
}
