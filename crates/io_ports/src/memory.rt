//! That memory was refused.
use std::alloc::{AllocError, AllocFailed};

/// Memory for a new value, or for the growth of one, was refused. Where a call answers this, what it
/// changes is as it was before the call.
#[derive(Clone, Copy, Debug, PartialEq, Eq)]
pub struct NoMemory;

impl From<AllocError> for NoMemory {
    fn from(_refused: AllocError) -> NoMemory {
        NoMemory
    }
}

impl<T: Drop> From<AllocFailed<T>> for NoMemory {
    fn from(_refused: AllocFailed<T>) -> NoMemory {
        NoMemory
    }
}
