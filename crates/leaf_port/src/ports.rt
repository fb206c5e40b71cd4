//! The ports of a leaf.

ghost use Rattle.std.specs.Prelude.{◌≡◌, ◌+◌, ◌%◌, ◌<◌, ◌≤◌, length, is_some, if◌then◌else◌};
ghost use Rattle.leaf_port.specs.Ports.{InState, fresh_in, next_of, taken, filled_at, credited};

use crate::masks::Mask;
use std::marker::Model;

/// The sending end of a channel.
#[derive(Clone, Copy, Debug, PartialEq, Eq)]
pub struct OutPort {
    /// How many words may still be written.
    pub credits: u8,
    /// The number of the next word.
    pub next: u8,
}

/// A word that was written, and waits to be offered.
#[derive(Clone, Copy, Debug, PartialEq, Eq)]
pub struct Waiting {
    /// The out-port.
    pub port: u8,
    pub number: u8,
    pub word: u32,
}

/// The receiving end of a channel: a slot for each number of the window.
#[derive(Drop)]
pub struct InPort {
    // under its number, each word that has come and isn't read
    words: [u32; 64],
    // the numbers of these words
    filled: Mask,
    // how many slots there are
    window: u8,
    next: u8,
    freed: u8,
}

impl Model for InPort {
    ghost use Rattle.std.specs.Prelude.{◌≡◌, ◌<◌, ◌≤◌, length};
    ghost use Rattle.leaf_port.specs.Ports.{InState};
    ghost use Rattle.leaf_port.specs.Masks.{slots_from};

    ghost Value = { InState };

    ghost view = { λ q. record { slots = slots_from q.filled.bits q.words 0 q.window; next = q.next; freed = q.freed } };

    ghost invariant = { λ q. (q.next < q.window) × (q.window ≤ 64) × (length q.words ≡ 64) };
}

impl InPort {
    // A port as a run begins, for a window of 1 to 64 words.
    pub(crate) fn new(window: u8) -> InPort
        requires some { 0 < window }
        requires most { window ≤ 64 }
        ensures { result ≡ fresh_in window }
    {
        InPort {
            words: [0; 64],
            filled: Mask::empty(),
            window,
            next: 0,
            freed: 0,
        }
    }

    // The word in the slot of the next number.
    pub(crate) fn next_word(&self) -> Option<u32>
        ensures { result ≡ next_of self.now }
    {
        if self.filled.has(self.next) {
            Some(self.words[self.next as usize])
        } else {
            None
        }
    }

    // Takes the word in the slot of the next number, and frees its room.
    pub(crate) fn take(&mut self) -> Option<u32>
        requires { self.old.freed ≤ 64 }
        ensures word { result ≡ next_of self.old }
        ensures state { self.new ≡ (if is_some (next_of self.old) then taken (length self.old.slots) self.old else self.old) }
    {
        if !self.filled.has(self.next) {
            return None;
        }
        let word = self.words[self.next as usize];
        self.filled = self.filled.without(self.next);
        self.next = number_after(self.next, self.window);
        self.freed += 1;
        Some(word)
    }

    // Puts a word into the slot of its number.
    pub(crate) fn put(&mut self, number: u8, word: u32)
        requires { number < length self.old.slots }
        ensures { self.new ≡ filled_at number word self.old }
    {
        self.words[number as usize] = word;
        self.filled = self.filled.with(number);
    }

    // Takes the freed room, to give it back.
    pub(crate) fn give_back(&mut self) -> u8
        ensures count { result ≡ self.old.freed }
        ensures state { self.new ≡ credited self.old }
    {
        let count = self.freed;
        self.freed = 0;
        count
    }
}

// The number of the word that follows in its channel, for a window of at most 64 words.
pub(crate) fn number_after(number: u8, window: u8) -> u8
    requires below { number < window }
    requires most { window ≤ 64 }
    ensures { result ≡ (number + 1) % window }
{
    let next = number + 1;
    if next == window { 0 } else { next }
}
