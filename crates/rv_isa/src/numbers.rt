//! The numbers that stand in an instruction, each in its range.

ghost use Rattle.std.specs.Prelude.{◌≡◌, ◌≤◌, ◌≤ℤ◌, pos, negsuc, nat_abs};
ghost use Rattle.rv_isa.specs.Ranges.{IsEven};

use std::marker::Model;

/// A register's number, from 0 to 31.
#[derive(Clone, Copy, PartialEq, Eq, Debug)]
pub struct Reg {
    number: u8,
}

impl Model for Reg {
    ghost use Rattle.std.specs.Prelude.{ℕ, ◌≤◌};

    ghost Value = { ℕ };

    ghost view = { λ r. r.number };

    ghost invariant = { λ r. r.number ≤ 31 };

    ghost inverse = { λ n. record { number = n } };
}

impl Reg {
    /// The register with this number, which is from 0 to 31.
    pub fn new(v: i32) -> Self
        requires low { pos 0 ≤ℤ v }
        requires high { v ≤ℤ pos 31 }
        ensures { result ≡ nat_abs v }
    {
        Reg { number: v as u8 }
    }

    /// Its number, from 0 to 31.
    pub fn value(&self) -> i32
        ensures value { result ≡ pos self.now }
        ensures high { self.now ≤ 31 }
    {
        self.number as i32
    }

    /// Its number, from 0 to 31, as a place in a list of registers.
    pub fn index(self) -> usize
        ensures value { result ≡ self }
        ensures high { self ≤ 31 }
    {
        self.number as usize
    }
}

/// By how many bits a word is shifted: from 0 to 31.
#[derive(Clone, Copy, PartialEq, Eq, Debug)]
pub struct Shift {
    by: u8,
}

impl Model for Shift {
    ghost use Rattle.std.specs.Prelude.{ℕ, ◌≤◌};

    ghost Value = { ℕ };

    ghost view = { λ s. s.by };

    ghost invariant = { λ s. s.by ≤ 31 };

    ghost inverse = { λ n. record { by = n } };
}

impl Shift {
    /// A shift by so many bits, which are from 0 to 31.
    pub fn new(v: i32) -> Self
        requires low { pos 0 ≤ℤ v }
        requires high { v ≤ℤ pos 31 }
        ensures { result ≡ nat_abs v }
    {
        Shift { by: v as u8 }
    }

    /// How many bits, from 0 to 31.
    pub fn value(&self) -> i32
        ensures value { result ≡ pos self.now }
        ensures high { self.now ≤ 31 }
    {
        self.by as i32
    }
}

/// A signed number of 12 bits, from -2048 to 2047.
#[derive(Clone, Copy, PartialEq, Eq, Debug)]
pub struct Imm {
    number: i32,
}

impl Model for Imm {
    ghost use Rattle.std.specs.Prelude.{ℤ, pos, negsuc, ◌≤ℤ◌};

    ghost Value = { ℤ };

    ghost view = { λ i. i.number };

    ghost invariant = { λ i. (negsuc 2047 ≤ℤ i.number) × (i.number ≤ℤ pos 2047) };

    ghost inverse = { λ z. record { number = z } };
}

impl Imm {
    /// This number, which is from -2048 to 2047.
    pub fn new(v: i32) -> Self
        requires low { negsuc 2047 ≤ℤ v }
        requires high { v ≤ℤ pos 2047 }
        ensures { result ≡ v }
    {
        Imm { number: v }
    }

    /// The number, from -2048 to 2047.
    pub fn value(&self) -> i32
        ensures value { result ≡ self.now }
        ensures low { negsuc 2047 ≤ℤ self.now }
        ensures high { self.now ≤ℤ pos 2047 }
    {
        self.number
    }
}

/// The upper 20 bits of a word, from 0 to 1048575.
#[derive(Clone, Copy, PartialEq, Eq, Debug)]
pub struct Upper {
    bits: u32,
}

impl Model for Upper {
    ghost use Rattle.std.specs.Prelude.{ℕ, ◌≤◌};

    ghost Value = { ℕ };

    ghost view = { λ u. u.bits };

    ghost invariant = { λ u. u.bits ≤ 1048575 };

    ghost inverse = { λ n. record { bits = n } };
}

impl Upper {
    /// These bits, a number from 0 to 1048575.
    pub fn new(v: i32) -> Self
        requires low { pos 0 ≤ℤ v }
        requires high { v ≤ℤ pos 1048575 }
        ensures { result ≡ nat_abs v }
    {
        Upper { bits: v as u32 }
    }

    /// The bits, a number from 0 to 1048575.
    pub fn value(&self) -> i32
        ensures value { result ≡ pos self.now }
        ensures high { self.now ≤ 1048575 }
    {
        self.bits as i32
    }
}

/// How far a branch goes, in bytes: an even number from -4096 to 4094.
#[derive(Clone, Copy, PartialEq, Eq, Debug)]
pub struct Near {
    bytes: i32,
}

impl Model for Near {
    ghost use Rattle.std.specs.Prelude.{ℤ, pos, negsuc, ◌≤ℤ◌};
    ghost use Rattle.rv_isa.specs.Ranges.{IsEven};

    ghost Value = { ℤ };

    ghost view = { λ n. n.bytes };

    ghost invariant = { λ n. (negsuc 4095 ≤ℤ n.bytes) × (n.bytes ≤ℤ pos 4094) × IsEven n.bytes };

    ghost inverse = { λ z. record { bytes = z } };
}

impl Near {
    /// So many bytes: an even number from -4096 to 4094.
    pub fn new(v: i32) -> Self
        requires low { negsuc 4095 ≤ℤ v }
        requires high { v ≤ℤ pos 4094 }
        requires even { IsEven v }
        ensures { result ≡ v }
    {
        Near { bytes: v }
    }

    /// How many bytes: an even number from -4096 to 4094.
    pub fn value(&self) -> i32
        ensures value { result ≡ self.now }
        ensures low { negsuc 4095 ≤ℤ self.now }
        ensures high { self.now ≤ℤ pos 4094 }
        ensures even { IsEven self.now }
    {
        self.bytes
    }
}

/// How far a jump goes, in bytes: an even number from -1048576 to 1048574.
#[derive(Clone, Copy, PartialEq, Eq, Debug)]
pub struct Far {
    bytes: i32,
}

impl Model for Far {
    ghost use Rattle.std.specs.Prelude.{ℤ, pos, negsuc, ◌≤ℤ◌};
    ghost use Rattle.rv_isa.specs.Ranges.{IsEven};

    ghost Value = { ℤ };

    ghost view = { λ f. f.bytes };

    ghost invariant = { λ f. (negsuc 1048575 ≤ℤ f.bytes) × (f.bytes ≤ℤ pos 1048574) × IsEven f.bytes };

    ghost inverse = { λ z. record { bytes = z } };
}

impl Far {
    /// So many bytes: an even number from -1048576 to 1048574.
    pub fn new(v: i32) -> Self
        requires low { negsuc 1048575 ≤ℤ v }
        requires high { v ≤ℤ pos 1048574 }
        requires even { IsEven v }
        ensures { result ≡ v }
    {
        Far { bytes: v }
    }

    /// How many bytes: an even number from -1048576 to 1048574.
    pub fn value(&self) -> i32
        ensures value { result ≡ self.now }
        ensures low { negsuc 1048575 ≤ℤ self.now }
        ensures high { self.now ≤ℤ pos 1048574 }
        ensures even { IsEven self.now }
    {
        self.bytes
    }
}
