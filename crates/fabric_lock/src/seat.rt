ghost use Rattle.std.specs.Prelude.{◌≡◌, ◌<◌, []};
ghost use Rattle.fabric_lock.specs.Idle.{IsIdle};

use crate::views::View;

pub(crate) type Place<V> = atomic_table::Seat<Option<V>, View<V>>;

/// One user of a lock, in no hold. It knows its lock, the history that it has seen, and its own entries.
/// After one was dropped, its lock can't be closed any more.
#[derive(Drop)]
pub struct Seat<V> {
    pub(crate) number: u8,
    pub(crate) spare: u8,
    pub(crate) gathered: u8,
    pub(crate) place: Place<V>,
    pub ghost small: { number < 8 },
    pub ghost idle: { IsIdle place number spare gathered },
}

impl<V> Seat<V> {
    /// The number of the seat, from 0 to 7. No other seat of its lock has it.
    pub fn number(&self) -> u8
        ensures { result ≡ self.now.number }
    {
        self.number
    }

    /// How many new numbers it can hand out.
    pub fn spare(&self) -> u8
        ensures { result ≡ self.now.spare }
    {
        self.spare
    }

    /// How many seats it stands for: itself, and those that were joined into it.
    pub fn gathered(&self) -> u8
        ensures { result ≡ self.now.gathered }
    {
        self.gathered
    }
}
