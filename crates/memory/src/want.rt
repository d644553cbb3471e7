//! The error of a failed allocation.

use std::alloc::{AllocError, AllocFailed};
use thiserror::Error;

/// The error of a failed allocation. It carries no data.
#[derive(Clone, Copy, Debug, PartialEq, Eq, Error)]
#[error("out of memory")]
pub struct Want;

impl From<AllocError> for Want {
    fn from(_refused: AllocError) -> Want {
        Want
    }
}

impl<T: Drop> From<AllocFailed<T>> for Want {
    fn from(_refused: AllocFailed<T>) -> Want {
        Want
    }
}
