//! The tokens of an operator's text.
#![tactic(auto)]

mod laws;
mod lexer;
mod marks;
mod piece;
#[cfg(test)]
mod tests;
mod token;
mod words;

pub use laws::texts_read_as_their_tokens;
pub use lexer::{place_behind, tokens};
pub use token::{Token, TokenKind};
