//! Keywords and marks.

ghost use Rattle.std.specs.Prelude.{◌≡◌, ◌≤◌, length, IfSome};
ghost use Rattle.std.specs.Str.{bytes_eq};
ghost use Rattle.pld_lex.specs.Marks.{keywords, triple_marks, double_marks, other_double_marks, single_marks, other_single_marks, or_else, spelled_as, begins as begins_with, mark_among, mark_of};

use crate::token::TokenKind;

fn is_same(word: &[u8], other: &[u8]) -> bool
    ensures { result ≡ bytes_eq word.now other.now }
{
    word == other
}

/// The keyword that is this word.
pub fn keyword(word: &[u8]) -> Option<TokenKind>
    ensures { result ≡ spelled_as keywords word.now }
{
    if is_same(word, b"void") {
        Some(TokenKind::Void)
    } else if is_same(word, b"in") {
        Some(TokenKind::In)
    } else if is_same(word, b"out") {
        Some(TokenKind::Out)
    } else if is_same(word, b"int32_t") {
        Some(TokenKind::Int)
    } else if is_same(word, b"uint32_t") {
        Some(TokenKind::Uint)
    } else if is_same(word, b"if") {
        Some(TokenKind::If)
    } else if is_same(word, b"else") {
        Some(TokenKind::Else)
    } else if is_same(word, b"while") {
        Some(TokenKind::While)
    } else if is_same(word, b"for") {
        Some(TokenKind::For)
    } else if is_same(word, b"return") {
        Some(TokenKind::Return)
    } else if is_same(word, b"read") {
        Some(TokenKind::Read)
    } else if is_same(word, b"write") {
        Some(TokenKind::Write)
    } else {
        None
    }
}

// Whether the text begins with these bytes.
fn begins(text: &[u8], mark: &[u8]) -> bool
    ensures { result ≡ begins_with text.now mark.now }
{
    text.get(..mark.len()) == Some(mark)
}

// The mark of three bytes that the text begins with.
fn triple_mark(text: &[u8]) -> Option<(TokenKind, usize)>
    ensures { result ≡ mark_among triple_marks text.now }
{
    if begins(text, b"<<=") {
        Some((TokenKind::ShlAssign, 3))
    } else if begins(text, b">>=") {
        Some((TokenKind::ShrAssign, 3))
    } else {
        None
    }
}

// A mark of two bytes that assigns nothing.
fn other_double_mark(text: &[u8]) -> Option<(TokenKind, usize)>
    ensures { result ≡ mark_among other_double_marks text.now }
{
    if begins(text, b"++") {
        Some((TokenKind::PlusPlus, 2))
    } else if begins(text, b"--") {
        Some((TokenKind::MinusMinus, 2))
    } else if begins(text, b"&&") {
        Some((TokenKind::AndAnd, 2))
    } else if begins(text, b"||") {
        Some((TokenKind::OrOr, 2))
    } else if begins(text, b"==") {
        Some((TokenKind::EqualEqual, 2))
    } else if begins(text, b"!=") {
        Some((TokenKind::NotEqual, 2))
    } else if begins(text, b"<=") {
        Some((TokenKind::LessEqual, 2))
    } else if begins(text, b">=") {
        Some((TokenKind::GreaterEqual, 2))
    } else if begins(text, b"<<") {
        Some((TokenKind::ShiftLeft, 2))
    } else if begins(text, b">>") {
        Some((TokenKind::ShiftRight, 2))
    } else {
        None
    }
}

// The mark of two bytes that the text begins with.
fn double_mark(text: &[u8]) -> Option<(TokenKind, usize)>
    ensures { result ≡ mark_among double_marks text.now }
{
    if begins(text, b"+=") {
        Some((TokenKind::PlusAssign, 2))
    } else if begins(text, b"-=") {
        Some((TokenKind::MinusAssign, 2))
    } else if begins(text, b"*=") {
        Some((TokenKind::StarAssign, 2))
    } else if begins(text, b"/=") {
        Some((TokenKind::SlashAssign, 2))
    } else if begins(text, b"%=") {
        Some((TokenKind::PercentAssign, 2))
    } else if begins(text, b"&=") {
        Some((TokenKind::AndAssign, 2))
    } else if begins(text, b"|=") {
        Some((TokenKind::OrAssign, 2))
    } else if begins(text, b"^=") {
        Some((TokenKind::XorAssign, 2))
    } else {
        other_double_mark(text)
    }
}

// A mark of one byte that is neither an arithmetic nor a bitwise operator.
fn other_single_mark(text: &[u8]) -> Option<(TokenKind, usize)>
    ensures { result ≡ mark_among other_single_marks text.now }
{
    if begins(text, b"<") {
        Some((TokenKind::Less, 1))
    } else if begins(text, b">") {
        Some((TokenKind::Greater, 1))
    } else if begins(text, b"=") {
        Some((TokenKind::Assign, 1))
    } else if begins(text, b"(") {
        Some((TokenKind::Open, 1))
    } else if begins(text, b")") {
        Some((TokenKind::Close, 1))
    } else if begins(text, b"{") {
        Some((TokenKind::OpenBrace, 1))
    } else if begins(text, b"}") {
        Some((TokenKind::CloseBrace, 1))
    } else if begins(text, b"[") {
        Some((TokenKind::OpenBracket, 1))
    } else if begins(text, b"]") {
        Some((TokenKind::CloseBracket, 1))
    } else if begins(text, b",") {
        Some((TokenKind::Comma, 1))
    } else if begins(text, b";") {
        Some((TokenKind::Semicolon, 1))
    } else {
        None
    }
}

// The mark of one byte that the text begins with.
fn single_mark(text: &[u8]) -> Option<(TokenKind, usize)>
    ensures { result ≡ mark_among single_marks text.now }
{
    if begins(text, b"+") {
        Some((TokenKind::Plus, 1))
    } else if begins(text, b"-") {
        Some((TokenKind::Minus, 1))
    } else if begins(text, b"*") {
        Some((TokenKind::Star, 1))
    } else if begins(text, b"/") {
        Some((TokenKind::Slash, 1))
    } else if begins(text, b"%") {
        Some((TokenKind::Percent, 1))
    } else if begins(text, b"&") {
        Some((TokenKind::Ampersand, 1))
    } else if begins(text, b"|") {
        Some((TokenKind::Bar, 1))
    } else if begins(text, b"^") {
        Some((TokenKind::Hat, 1))
    } else if begins(text, b"~") {
        Some((TokenKind::Tilde, 1))
    } else if begins(text, b"!") {
        Some((TokenKind::Bang, 1))
    } else {
        other_single_mark(text)
    }
}

// The first of the two that is there.
fn first_of(
    a: Option<(TokenKind, usize)>,
    b: Option<(TokenKind, usize)>,
) -> Option<(TokenKind, usize)>
    ensures { result ≡ or_else a b }
{
    match a {
        Some(mark) => Some(mark),
        None => b,
    }
}

/// The longest mark that the text begins with, and its length.
pub fn mark(text: &[u8]) -> Option<(TokenKind, usize)>
    ensures value { result ≡ mark_of text.now }
{
    first_of(
        triple_mark(text),
        first_of(double_mark(text), single_mark(text)),
    )
}
