//! The errors of the table.

ghost use Rattle.std.specs.Prelude.{◌≡◌};
ghost use Rattle.pm_procs.specs.Told.{told};

use pm_model::{ChangeError, Memory, Refusal, Table};
use thiserror::Error;

/// Why a call of the table was refused. The table is as before.
#[derive(Clone, Copy, Debug, PartialEq, Eq, Error)]
pub enum ProcsError {
    /// At 4,096 sessions, or 16,384 processes.
    #[error("the table is full")]
    Full(Table),
    #[error("no live session or process has the number")]
    Absent,
    #[error("session 0 and process 0 stay")]
    Builtin,
    #[error("out of memory")]
    Memory,
}

impl From<Memory> for ProcsError {
    ghost use Rattle.pm_procs.specs.declared.errors.ProcsError.{ProcsError};

    ghost from_gives = { λ _ e. e ≡ ProcsError.Memory };

    fn from(_none: Memory) -> ProcsError {
        ProcsError::Memory
    }
}

/// The error as a change tells it, with this refusal where it is `Absent`.
pub fn change_error(error: ProcsError, missing: Refusal) -> ChangeError
    ensures { result ≡ told missing error }
{
    match error {
        ProcsError::Full(table) => ChangeError::Refused(Refusal::Full(table)),
        ProcsError::Absent => ChangeError::Refused(missing),
        ProcsError::Builtin => ChangeError::Refused(Refusal::Builtin),
        ProcsError::Memory => ChangeError::Memory,
    }
}
