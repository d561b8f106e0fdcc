//! Why serving can't begin.

use pm_model::Memory;
use std::alloc::{AllocError, AllocFailed};
use std::io;
use std::io::ErrorKind;
use thiserror::Error;

/// Why serving can't begin.
#[derive(Clone, Copy, Debug, PartialEq, Eq, Error)]
pub enum OpenError {
    /// There was no memory.
    #[error("out of memory")]
    Memory,
    /// The system refused something else, for this reason.
    #[error("{0}")]
    System(ErrorKind),
}

impl From<Memory> for OpenError {
    fn from(_none: Memory) -> OpenError {
        OpenError::Memory
    }
}

impl From<AllocError> for OpenError {
    fn from(_refused: AllocError) -> OpenError {
        OpenError::Memory
    }
}

impl<T: Drop> From<AllocFailed<T>> for OpenError {
    fn from(_refused: AllocFailed<T>) -> OpenError {
        OpenError::Memory
    }
}

impl From<io::Error> for OpenError {
    fn from(error: io::Error) -> OpenError {
        match error.kind() {
            ErrorKind::OutOfMemory => OpenError::Memory,
            kind => OpenError::System(kind),
        }
    }
}
