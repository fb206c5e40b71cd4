//! Sets of small numbers.

ghost use Rattle.std.specs.Prelude.{◌≡◌, ◌<◌, true, false, MatchOption};
ghost use Rattle.leaf_port.specs.Masks.{has, IsSetTo, IsLowest};

/// A set of numbers from 0 to 63, as the bits of a number.
#[derive(Clone, Copy, Debug, PartialEq, Eq)]
pub struct Mask {
    bits: u64,
}

impl Mask {
    // The empty set.
    pub(crate) fn empty() -> Mask
        ensures { result.bits ≡ 0 }
    {
        Mask { bits: 0 }
    }

    pub(crate) fn has(self, i: u8) -> bool
        requires { i < 64 }
        ensures { result ≡ has self.bits i }
    {
        (self.bits >> i) & 1 == 1
    }

    // The set with a number put in.
    pub(crate) fn with(self, i: u8) -> Mask
        requires { i < 64 }
        ensures { IsSetTo self.bits i true result.bits }
    {
        Mask {
            bits: self.bits | (1 << i),
        }
    }

    // The set with a number taken out.
    pub(crate) fn without(self, i: u8) -> Mask
        requires { i < 64 }
        ensures { IsSetTo self.bits i false result.bits }
    {
        Mask {
            bits: self.bits & !(1 << i),
        }
    }

    // The lowest number of the set. None exactly where it is empty.
    pub(crate) fn lowest(self) -> Option<u8>
        ensures { MatchOption result (self.bits ≡ 0) (λ i. IsLowest self.bits i) }
    {
        if self.bits == 0 {
            None
        } else {
            Some(self.bits.trailing_zeros() as u8)
        }
    }
}
