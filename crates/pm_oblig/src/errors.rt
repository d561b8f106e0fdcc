//! The errors of the list.

ghost use Rattle.std.specs.Prelude.{◌≡◌};
ghost use Rattle.pm_oblig.specs.Told.{told};

use pm_model::{ChangeError, Refusal, Table};
use thiserror::Error;

/// Why a call of the list was refused. The list is as before.
#[derive(Clone, Copy, Debug, PartialEq, Eq, Error)]
pub enum ObligError {
    #[error("an obligation has the name")]
    NameTaken,
    #[error("there are 1,024 obligations")]
    Full,
    #[error("no obligation has the name")]
    Absent,
    #[error("out of memory")]
    Memory,
}

/// The error as a change tells it.
pub fn change_error(error: ObligError) -> ChangeError
    ensures { result ≡ told error }
{
    match error {
        ObligError::NameTaken => ChangeError::Refused(Refusal::NameTaken),
        ObligError::Full => ChangeError::Refused(Refusal::Full(Table::Obligations)),
        ObligError::Absent => ChangeError::Refused(Refusal::Absent),
        ObligError::Memory => ChangeError::Memory,
    }
}
