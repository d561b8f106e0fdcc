//! The errors of the table.

ghost use Rattle.std.specs.Prelude.{◌≡◌};
ghost use Rattle.pm_deny.specs.Told.{told};

use pm_model::{ChangeError, Refusal, Table};
use thiserror::Error;

/// Why a call of the table was refused. The table is as before.
#[derive(Clone, Copy, Debug, PartialEq, Eq, Error)]
pub enum DenyError {
    #[error("a prohibition has the name")]
    NameTaken,
    #[error("neither set of the prohibition has an element")]
    EmptyRange,
    #[error("there are 4,096 prohibitions")]
    Full,
    #[error("no prohibition has the name")]
    Absent,
    #[error("out of memory")]
    Memory,
}

/// The error as a change tells it.
pub fn change_error(error: DenyError) -> ChangeError
    ensures { result ≡ told error }
{
    match error {
        DenyError::NameTaken => ChangeError::Refused(Refusal::NameTaken),
        DenyError::EmptyRange => ChangeError::Refused(Refusal::EmptyRange),
        DenyError::Full => ChangeError::Refused(Refusal::Full(Table::Prohibitions)),
        DenyError::Absent => ChangeError::Refused(Refusal::Absent),
        DenyError::Memory => ChangeError::Memory,
    }
}
