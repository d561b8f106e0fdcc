//! The errors of the table.

ghost use Rattle.std.specs.Prelude.{◌≡◌};
ghost use Rattle.pm_rights.specs.Told.{told};

use pm_model::{ChangeError, Refusal, Table};
use thiserror::Error;

/// Why a right was not defined. The names are as before.
#[derive(Clone, Copy, Debug, PartialEq, Eq, Error)]
pub enum RightsError {
    /// A right has the name, or it is the word of a command.
    #[error("the name is taken")]
    NameTaken,
    /// There are 64 rights.
    #[error("there are 64 rights")]
    Full,
    /// There was no memory.
    #[error("out of memory")]
    Memory,
}

/// The error as a change tells it.
pub fn change_error(error: RightsError) -> ChangeError
    ensures { result ≡ told error }
{
    match error {
        RightsError::NameTaken => ChangeError::Refused(Refusal::NameTaken),
        RightsError::Full => ChangeError::Refused(Refusal::Full(Table::Rights)),
        RightsError::Memory => ChangeError::Memory,
    }
}
