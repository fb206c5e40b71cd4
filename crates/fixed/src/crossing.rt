//! What crosses threads: what is made of such elements is handed over where they may be.

use crate::Fixed;

fn may_cross<T: Send>() {}

fn elements_cross<T: Send>() {
    may_cross::<Fixed<T>>();
}
