//! A law of tokens.

ghost use Rattle.std.specs.Prelude.{ℕ, List, ◌≡◌, Ok};
ghost use Rattle.pld_lex.specs.declared.token.Token.{Token};
ghost use Rattle.pld_lex.specs.Lexed.{lexed};
ghost use Rattle.pld_lex.specs.Reads.{Reads};

/// A text reads as its tokens, in order: the spans don't overlap, the bytes of each spell a token of its kind, its place is that of
/// its first byte, and between them, before them and behind them stand separators alone.
pub fn texts_read_as_their_tokens()
    ensures { (text : List ℕ) (ts : List Token) → lexed text ≡ Ok ts → Reads text 0 ts }
{}
