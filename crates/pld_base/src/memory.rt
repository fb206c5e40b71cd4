//! Want of memory.

use std::alloc::{AllocError, AllocFailed};

/// No memory was left. It is the one answer that no clause ties to a cause.
#[derive(Clone, Copy, Debug, PartialEq, Eq)]
pub struct NoMemory;

impl From<AllocError> for NoMemory {
    fn from(_e: AllocError) -> NoMemory {
        NoMemory
    }
}

impl<T: Drop> From<AllocFailed<T>> for NoMemory {
    fn from(_e: AllocFailed<T>) -> NoMemory {
        NoMemory
    }
}

/// A refusal by name, or no memory.
#[derive(Clone, Copy, Debug, PartialEq, Eq)]
pub enum Refused<E> {
    Fault(E),
    NoMemory,
}
