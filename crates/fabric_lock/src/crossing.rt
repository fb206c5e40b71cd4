//! What crosses threads: a lock is shared, and seats and holds are handed over, where the value may be handed over.
use crate::{FabricLock, Held, Seat, Told};

fn may_cross<T: Send>() {}

fn may_be_shared<T: Sync>() {}

fn lock_crosses<V: Told + Send>() {
    may_cross::<FabricLock<V>>();
    may_be_shared::<FabricLock<V>>();
    may_cross::<Seat<V>>();
    may_cross::<Held<V>>();
}
