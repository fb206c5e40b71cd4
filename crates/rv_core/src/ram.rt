//! The RAM of a softcore.

ghost use Rattle.std.specs.Prelude.{◌≡◌, ◌<◌, IfOk, slice_index, slice_set};
ghost use Rattle.rv_core.specs.Core.{IsZeros};

use fixed::Fixed;
use pld_base::NoMemory;
use std::alloc::Global;
use std::marker::Model;

/// 16,384 words.
#[derive(Drop)]
pub(crate) struct Ram {
    words: Fixed<u32>,
}

impl Model for Ram {
    ghost use Rattle.std.specs.Prelude.{◌≡◌, ℕ, List, length};

    ghost Value = { List ℕ };

    ghost view = { λ r. r.words };

    ghost invariant = { λ r. length r.words ≡ 16384 };
}

// So many words, all 0.
fn zeros(alloc: Global, n: usize) -> Result<Vec<u32>, NoMemory>
    ensures { IfOk result (λ v. IsZeros n v.items) }
{
    let words = vec![in alloc; 0; n]?;
    Ok(words)
}

impl Ram {
    /// RAM of zeros.
    pub fn new(alloc: Global) -> Result<Ram, NoMemory>
        ensures { IfOk result (λ ram. IsZeros 16384 ram) }
    {
        let words = zeros(alloc, 16384)?;
        Ok(Ram {
            words: Fixed::new(words),
        })
    }

    /// A word.
    #[inline(always)]
    pub fn word(&self, k: usize) -> u32
        requires { k < 16384 }
        ensures { result ≡ slice_index self.now k }
    {
        self.words.as_slice()[k]
    }

    /// Puts a word.
    #[inline(always)]
    pub fn put(&mut self, k: usize, v: u32)
        requires { k < 16384 }
        ensures { self.new ≡ slice_set self.old k v }
    {
        self.words.as_mut_slice()[k] = v;
    }
}
