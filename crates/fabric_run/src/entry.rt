//! The journal of a run.

ghost use Rattle.std.specs.Prelude.{◌≡◌, ◌<◌, ◌^◌, length, OnSome, slice_get};
ghost use Rattle.fabric_run.specs.Entries.{stored, IsEntry, entry_of};

use std::marker::Model;

/// One entry of a journal: the seat that made it, from 0 to 15, and the leaf of the page.
#[derive(Clone, Copy, Debug, PartialEq, Eq)]
pub enum Entry {
    /// The seat has taken the page.
    Take(u8, u8),
    /// The page has made a turn and its port operation, if that could be done, and is home again.
    Give(u8, u8),
    /// A round was made.
    Net(u8),
}

/// An entry as it is stored: the page in bits 0 to 7, the seat in bits 8 to 11, the kind in bits 12 and 13.
pub fn store(entry: Entry) -> u16
    requires { IsEntry entry }
    ensures { result ≡ stored entry }
{
    match entry {
        Entry::Take(seat, leaf) => seat as u16 * 256 + leaf as u16,
        Entry::Give(seat, leaf) => 4096 + seat as u16 * 256 + leaf as u16,
        Entry::Net(seat) => 8192 + seat as u16 * 256,
    }
}

/// The entry that is stored so.
fn restore(word: u16) -> Entry
    ensures { result ≡ entry_of word }
{
    let seat = (word / 256 % 16) as u8;
    let leaf = (word % 256) as u8;
    if word / 4096 == 0 {
        Entry::Take(seat, leaf)
    } else if word / 4096 == 1 {
        Entry::Give(seat, leaf)
    } else {
        Entry::Net(seat)
    }
}

/// The entries of a run, in the order in which they were made. Anyone can replay them.
#[derive(Drop)]
pub struct Journal {
    words: Vec<u16>,
}

impl Model for Journal {
    ghost use Rattle.std.specs.Prelude.{List, map};
    ghost use Rattle.fabric_run.specs.Entries.{entry_of};
    ghost use Rattle.fabric_run.specs.declared.entry.Entry.{Entry};

    ghost Value = { List Entry };

    ghost view = { λ j. map entry_of j.words.items };
}

impl Journal {
    ghost use Rattle.std.specs.Prelude.{map};

    /// The journal that these words spell.
    pub fn of(words: Vec<u16>) -> Journal
        ensures { result ≡ map entry_of words.items }
    {
        Journal { words }
    }

    /// How many entries it has.
    pub fn len(&self) -> usize
        ensures { result ≡ length self.now }
    {
        self.words.len()
    }

    /// The k-th entry, from 0.
    pub fn get(&self, k: usize) -> Option<Entry>
        ensures { result ≡ slice_get self.now k }
    {
        if k < self.words.len() {
            Some(restore(self.words[k]))
        } else {
            None
        }
    }
}
