//! Permits to compile: one is spent for each compile, so that their count is that of the compiles.

ghost use Rattle.std.specs.Prelude.{◌≡◌, ◌+◌, ◌^◌, ◌<◌, IfOk, OnOk, OnErr, vec_len};

use crate::NoMemory;
use std::alloc::Global;
use std::marker::Model;

/// A permit for one compile. `Permits::issue` alone makes it.
#[derive(Drop)]
pub struct Permit {
    spent: (),
}

/// Gives out permits, and counts them.
#[derive(Drop)]
pub struct Permits {
    issued: u64,
}

impl Model for Permits {
    ghost use Rattle.std.specs.Prelude.{ℕ};

    ghost Value = { ℕ };

    ghost view = { λ p. p.issued };
}

impl Permits {
    /// No permit was given out yet.
    pub fn new() -> Permits
        ensures { result ≡ 0 }
    {
        Permits { issued: 0 }
    }

    /// Gives k permits.
    pub fn issue(&mut self, alloc: Global, k: usize) -> Result<Vec<Permit>, NoMemory>
        requires { self.old + k < 2 ^ 64 }
        ensures permits { IfOk result (λ permits. vec_len permits ≡ k) }
        ensures ok { OnOk result (self.new ≡ self.old + k) }
        ensures err { OnErr result (self.new ≡ self.old) }
    {
        let mut permits = Vec::with_capacity(alloc, k)?;
        for made in 0..k {
            permits.push(Permit { spent: () })?;
        }
        self.issued += k as u64;
        Ok(permits)
    }

    /// How many permits were given out.
    pub fn count(&self) -> u64
        ensures { result ≡ self.now }
    {
        self.issued
    }
}
