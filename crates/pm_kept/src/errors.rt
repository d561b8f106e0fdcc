//! The errors of the table.

ghost use Rattle.std.specs.Prelude.{◌≡◌};
ghost use Rattle.pm_kept.specs.Told.{told};

use pm_model::{ChangeError, Refusal, Table};
use thiserror::Error;

/// Why a review was not kept. The table is as before.
#[derive(Clone, Copy, Debug, PartialEq, Eq, Error)]
pub enum KeptError {
    #[error("a review of the same is kept")]
    Already,
    #[error("256 reviews are kept")]
    Full,
    #[error("out of memory")]
    Memory,
}

/// The error as a change tells it.
pub fn change_error(error: KeptError) -> ChangeError
    ensures { result ≡ told error }
{
    match error {
        KeptError::Already => ChangeError::Refused(Refusal::Already),
        KeptError::Full => ChangeError::Refused(Refusal::Full(Table::Reviews)),
        KeptError::Memory => ChangeError::Memory,
    }
}
