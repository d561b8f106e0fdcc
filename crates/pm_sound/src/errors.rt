//! Why a policy isn't told to be sound.

ghost use Rattle.std.specs.Prelude.{◌≡◌, true};
ghost use Rattle.pm_sound.specs.Tells.{Tells};

use pm_model::Memory;
use std::alloc::{AllocError, AllocFailed};

/// Why a policy isn't told to be sound.
#[derive(Clone, Copy, Debug, PartialEq, Eq)]
pub enum SoundError {
    /// It breaks a rule.
    Unsound,
    /// There was no memory.
    Memory,
}

impl From<Memory> for SoundError {
    ghost use Rattle.pm_sound.specs.declared.errors.SoundError.{SoundError};

    ghost from_gives = { λ _ e. e ≡ SoundError.Memory };

    fn from(_none: Memory) -> SoundError {
        SoundError::Memory
    }
}

impl From<AllocError> for SoundError {
    ghost use Rattle.pm_sound.specs.declared.errors.SoundError.{SoundError};

    ghost from_gives = { λ _ e. e ≡ SoundError.Memory };

    fn from(_none: AllocError) -> SoundError {
        SoundError::Memory
    }
}

impl<T: Drop> From<AllocFailed<T>> for SoundError {
    ghost use Rattle.pm_sound.specs.declared.errors.SoundError.{SoundError};

    ghost from_gives = { λ _ e. e ≡ SoundError.Memory };

    fn from(_none: AllocFailed<T>) -> SoundError {
        SoundError::Memory
    }
}

/// Goes on exactly where a test says yes.
pub(crate) fn need(holds: bool) -> Result<(), SoundError>
    ensures { Tells result (holds ≡ true) }
{
    if holds {
        Ok(())
    } else {
        Err(SoundError::Unsound)
    }
}
