//! The upward links of a tree of switches, level by level.

ghost use Rattle.std.specs.Prelude.{◌≡◌, ◌<◌, ◌++◌, ◌∷◌, [], length};
ghost use Rattle.pld_script.specs.Grammar.{links_in, levels_in};

use std::marker::Model;

/// The most levels that a tree has below its topmost.
const MOST: usize = 5;

/// Of up to five levels of a tree, from the leaves' up, whether each of a level's switches has two upward links or one. Contracts
/// see a list with true for two.
#[derive(Drop)]
pub struct Levels {
    two: [bool; MOST],
    count: usize,
}

impl Model for Levels {
    ghost use Rattle.std.specs.Prelude.{◌≤◌, List, Bool, take};

    ghost Value = { List Bool };

    ghost view = { λ l. take l.count l.two };

    ghost invariant = { λ l. l.count ≤ 5 };
}

/// Whether there are two upward links: `t` stands for one, `p` for two.
fn links_of(b: u8) -> Option<bool>
    ensures { result ≡ links_in b }
{
    match b {
        b't' => Some(false),
        b'p' => Some(true),
        _ => None,
    }
}

impl Levels {
    /// One level more, above these.
    fn push(&mut self, two: bool)
        requires { length self.old < 5 }
        ensures { self.new ≡ self.old ++ two ∷ [] }
    {
        self.two[self.count] = two;
        self.count += 1;
    }

    /// The levels of these letters, from the leaves' up: `t` for one upward link, `p` for two. None where the word is anything but
    /// one to five such letters.
    pub fn of(word: &[u8]) -> Option<Levels>
        ensures { result ≡ levels_in word.now }
    {
        if word.is_empty() || word.len() > MOST {
            return None;
        }
        let mut levels = Levels {
            two: [false; MOST],
            count: 0,
        };
        for b in word {
            levels.push(links_of(*b)?);
        }
        Some(levels)
    }

    /// Of each level, from the leaves' up, whether its switches have two upward links.
    pub fn as_slice(&self) -> &[bool]
        ensures { result.now ≡ self.now }
    {
        &self.two[..self.count]
    }
}
