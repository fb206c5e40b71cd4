//! The depth of a tree of switches.

ghost use Rattle.std.specs.Prelude.{◌≡◌, ◌≤◌};
ghost use Rattle.pld_script.specs.Numbers.{depth_in};

use std::marker::Model;

/// How many levels of switches a tree has, from 1 to 6. Contracts see the number.
#[derive(Clone, Copy, Debug)]
pub struct Depth {
    levels: u8,
}

impl Model for Depth {
    ghost use Rattle.std.specs.Prelude.{◌≤◌, ℕ};

    ghost Value = { ℕ };

    ghost view = { λ d. d.levels };

    ghost invariant = { λ d. (1 ≤ d.levels) × (d.levels ≤ 6) };

    ghost inverse = { λ n. record { levels = n } };
}

impl Depth {
    /// The depth of so many levels; none below 1 and past 6.
    pub fn of(levels: u16) -> Option<Depth>
        ensures { result ≡ depth_in levels }
    {
        match levels {
            1..=6 => Some(Depth {
                levels: levels as u8,
            }),
            _ => None,
        }
    }

    /// How many levels there are.
    pub fn levels(self) -> u8
        ensures value { result ≡ self }
        ensures least { 1 ≤ result }
        ensures most { result ≤ 6 }
    {
        self.levels
    }
}
