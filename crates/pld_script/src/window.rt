//! The window of a channel.

ghost use Rattle.std.specs.Prelude.{◌≡◌, ◌≤◌};
ghost use Rattle.pld_script.specs.Numbers.{window_of};

use std::marker::Model;

/// How many words a channel holds, from 1 to 64. Contracts see the number.
#[derive(Clone, Copy, Debug)]
pub struct Window {
    words: u8,
}

impl Model for Window {
    ghost use Rattle.std.specs.Prelude.{◌≤◌, ℕ};

    ghost Value = { ℕ };

    ghost view = { λ w. w.words };

    ghost invariant = { λ w. (1 ≤ w.words) × (w.words ≤ 64) };

    ghost inverse = { λ n. record { words = n } };
}

impl Window {
    /// The window of so many words; none below 1 and past 64.
    pub fn of(words: u16) -> Option<Window>
        ensures { result ≡ window_of words }
    {
        match words {
            1..=64 => Some(Window { words: words as u8 }),
            _ => None,
        }
    }

    /// How many words there are.
    pub fn words(self) -> u8
        ensures value { result ≡ self }
        ensures least { 1 ≤ result }
        ensures most { result ≤ 64 }
    {
        self.words
    }
}
