//! What crosses threads: a run that lies behind a lock.

use crate::Shared;

fn may_cross<T: Send>() {}

fn run_crosses() {
    may_cross::<Shared>();
}
