ghost use Rattle.std.specs.Prelude.{◌≡◌, ◌<◌};
ghost use Rattle.fabric_lock.specs.Idle.{IsBusy};

use crate::seat::Place;

/// A seat in a hold, with the value of its lock. It can't be dropped: `leave` ends the hold.
pub struct Held<V> {
    pub(crate) value: V,
    pub(crate) number: u8,
    pub(crate) spare: u8,
    pub(crate) gathered: u8,
    pub(crate) place: Place<V>,
    pub ghost small: { number < 8 },
    pub ghost busy: { IsBusy place number spare gathered },
}

impl<V> Held<V> {
    ghost use Rattle.std.specs.Borrow.{sem};
    ghost use Rattle.fabric_lock.specs.Lending.{LendsValue};

    /// The value, to be read and changed. What became of it is a condition of `leave`.
    pub fn value(&mut self) -> &mut V
        ensures* lends { sem 𝓛 (LendsValue V.row self.entry result) }
        ensures now { result.now ≡ self.entry.now.value }
    {
        &mut self.value
    }
}
