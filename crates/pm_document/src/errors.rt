//! Why there is no document.

ghost use Rattle.std.specs.Prelude.{◌≡◌};

use pm_model::Memory;
use std::alloc::{AllocError, AllocFailed};

/// Why there is no document.
#[derive(Clone, Copy, Debug, PartialEq, Eq)]
pub enum DocumentError {
    /// The bytes are no JSON, or what they say is no document, or the document isn't sound.
    Refused,
    /// There was no memory.
    Memory,
}

impl From<Memory> for DocumentError {
    ghost use Rattle.pm_document.specs.declared.errors.DocumentError.{DocumentError};

    ghost from_gives = { λ _ e. e ≡ DocumentError.Memory };

    fn from(_none: Memory) -> DocumentError {
        DocumentError::Memory
    }
}

impl From<AllocError> for DocumentError {
    ghost use Rattle.pm_document.specs.declared.errors.DocumentError.{DocumentError};

    ghost from_gives = { λ _ e. e ≡ DocumentError.Memory };

    fn from(_none: AllocError) -> DocumentError {
        DocumentError::Memory
    }
}

impl<T: Drop> From<AllocFailed<T>> for DocumentError {
    ghost use Rattle.pm_document.specs.declared.errors.DocumentError.{DocumentError};

    ghost from_gives = { λ _ e. e ≡ DocumentError.Memory };

    fn from(_none: AllocFailed<T>) -> DocumentError {
        DocumentError::Memory
    }
}
