use crate::told::Told;
use atomic_table::TableRule;
use std::collections::LinkedList;
use std::snapshot::Snapshot;

/// Where a seat is.
pub enum Stage {
    /// In no hold.
    Free,
    /// In the hold in which the lock is made. The value is not in the slot yet.
    Opening,
    /// In a hold.
    Holding,
    /// Joined into another seat.
    Spent,
}

/// What a seat knows. It stands in proofs alone: no value of it is made.
pub struct View<V> {
    /// The value that the lock was made with, whose base is the lock's. The view of a spent seat has none.
    pub first: Option<V>,
    pub workers: u8,
    pub number: u8,
    pub spare: u8,
    pub gathered: u8,
    /// The history, as far as the seat has seen it.
    pub seen: LinkedList<u16>,
    /// The seat's own entries.
    pub own: LinkedList<u16>,
    pub stage: Stage,
}

/// What a lock was made with.
pub struct About<V> {
    pub first: Snapshot<V>,
    pub workers: u8,
}

/// The rule of a lock: there is one history, and each seat's view fits it.
pub struct OneHistory;

impl<V: Told> TableRule<Option<V>, View<V>, About<V>> for OneHistory {
    ghost use Rattle.fabric_lock.specs.Rule.{Kept};
    ghost use Rattle.fabric_lock.specs.Views.{opening_view};

    ghost holds = { λ key. Kept V.base_of V.told_of key.first.value key.workers };

    ghost first = { λ key. opening_view key.first.value key.workers };
}
