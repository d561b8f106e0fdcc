//! The errors of the table.

ghost use Rattle.std.specs.Prelude.{◌≡◌};
ghost use Rattle.pm_assoc.specs.Told.{told};

use pm_model::{ChangeError, Memory, Refusal, Table};
use thiserror::Error;

/// Why a call of the table was refused. The table is as before.
#[derive(Clone, Copy, Debug, PartialEq, Eq, Error)]
pub enum AssocError {
    #[error("the user attribute has an association on the element")]
    Already,
    #[error("the user attribute has no association on the element")]
    Absent,
    #[error("there are 65,536 associations")]
    Full,
    #[error("out of memory")]
    Memory,
}

impl From<Memory> for AssocError {
    ghost use Rattle.pm_assoc.specs.declared.errors.AssocError.{AssocError};

    ghost from_gives = { λ _ e. e ≡ AssocError.Memory };

    fn from(_none: Memory) -> AssocError {
        AssocError::Memory
    }
}

/// The error as a change tells it.
pub fn change_error(error: AssocError) -> ChangeError
    ensures { result ≡ told error }
{
    match error {
        AssocError::Already => ChangeError::Refused(Refusal::Already),
        AssocError::Absent => ChangeError::Refused(Refusal::Absent),
        AssocError::Full => ChangeError::Refused(Refusal::Full(Table::Associations)),
        AssocError::Memory => ChangeError::Memory,
    }
}
