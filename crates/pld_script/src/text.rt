//! Bytes and words that contracts see as lists.

ghost use Rattle.std.specs.Prelude.{◌≡◌, ◌↔◌, ◌++◌, [], length, IsTrue, MatchResult};

use pld_base::NoMemory;
use std::marker::Model;

/// The text of an operator: its bytes.
#[derive(Drop)]
pub struct Text {
    bytes: Vec<u8>,
}

impl Model for Text {
    ghost use Rattle.std.specs.Prelude.{List, ℕ};

    ghost Value = { List ℕ };

    ghost view = { λ t. t.bytes.items };
}

impl Text {
    /// The text with these bytes.
    pub fn of(bytes: Vec<u8>) -> Text
        ensures { result ≡ bytes.items }
    {
        Text { bytes }
    }

    /// The bytes.
    pub fn as_slice(&self) -> &[u8]
        ensures { result.now ≡ self.now }
    {
        self.bytes.as_slice()
    }
}

/// Words of 32 bits, in order.
#[derive(Drop)]
pub struct WordList {
    words: Vec<u32>,
}

impl Model for WordList {
    ghost use Rattle.std.specs.Prelude.{List, ℕ};

    ghost Value = { List ℕ };

    ghost view = { λ l. l.words.items };
}

impl WordList {
    /// The list of these words.
    pub fn of(words: Vec<u32>) -> WordList
        ensures { result ≡ words.items }
    {
        WordList { words }
    }

    /// The words.
    pub fn as_slice(&self) -> &[u32]
        ensures { result.now ≡ self.now }
    {
        self.words.as_slice()
    }

    /// Appends words; where memory is wanting, the list stays.
    pub fn append(&mut self, more: &WordList) -> Result<(), NoMemory>
        ensures { MatchResult result (λ _done. self.new ≡ self.old ++ more.now) (λ _e. self.new ≡ self.old) }
    {
        self.words.extend_from_slice(more.words.as_slice())?;
        Ok(())
    }

    /// Takes all words away.
    pub fn clear(&mut self)
        ensures { self.new ≡ [] }
    {
        self.words.clear();
    }

    /// How many words there are.
    pub fn len(&self) -> usize
        ensures { result ≡ length self.now }
    {
        self.words.len()
    }

    /// Whether there is no word.
    pub fn is_empty(&self) -> bool
        ensures { IsTrue result ↔ (self.now ≡ []) }
    {
        self.words.is_empty()
    }
}
