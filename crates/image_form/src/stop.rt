//! Why reading stops.

ghost use Rattle.std.specs.Prelude.{◌≡◌};
ghost use Rattle.image_form.specs.declared.stop.Stop.TheVariants.{Memory, BadField};

use std::alloc::{AllocError, AllocFailed};

/// A field that is cut short or out of range: so many bytes are left from it on.
#[derive(Clone, Copy, Debug, PartialEq, Eq)]
pub struct Bad {
    pub left: usize,
}

/// A bad field, or no memory.
#[derive(Debug, Drop)]
pub enum Stop {
    Memory,
    BadField(Bad),
}

impl From<Bad> for Stop {
    ghost from_gives = { λ bad e. e ≡ BadField bad };

    fn from(bad: Bad) -> Stop {
        Stop::BadField(bad)
    }
}

impl From<AllocError> for Stop {
    ghost from_gives = { λ _ e. e ≡ Memory };

    fn from(_e: AllocError) -> Stop {
        Stop::Memory
    }
}

impl<T: Drop> From<AllocFailed<T>> for Stop {
    ghost from_gives = { λ _ e. e ≡ Memory };

    fn from(_e: AllocFailed<T>) -> Stop {
        Stop::Memory
    }
}
