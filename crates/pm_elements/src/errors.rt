//! The errors of the table.

ghost use Rattle.std.specs.Prelude.{◌≡◌};
ghost use Rattle.pm_elements.specs.Told.{told};

use pm_model::{ChangeError, ElementId, Memory, Refusal, Table};
use thiserror::Error;

/// Why a call of the table was refused. The table is as before.
#[derive(Clone, Copy, Debug, PartialEq, Eq, Error)]
pub enum ElementsError {
    #[error("the kinds of the elements don't allow it")]
    BadKinds,
    #[error("a live element has the name")]
    NameTaken,
    #[error("the assignment stands")]
    Already,
    #[error("the assignment doesn't stand")]
    Absent,
    /// Of the assignment of `from` to the container `to`.
    #[error("the container is contained in the element")]
    Cycle { from: ElementId, to: ElementId },
    #[error("something is assigned to the element")]
    Occupied,
    #[error("it is the element's only container")]
    LastContainer,
    /// At 16,384 elements, or 131,072 assignments.
    #[error("the table is full")]
    Full(Table),
    #[error("out of memory")]
    Memory,
}

impl From<Memory> for ElementsError {
    ghost use Rattle.pm_elements.specs.declared.errors.ElementsError.{ElementsError};

    ghost from_gives = { λ _ e. e ≡ ElementsError.Memory };

    fn from(_none: Memory) -> ElementsError {
        ElementsError::Memory
    }
}

/// The error as a change tells it.
pub fn change_error(error: ElementsError) -> ChangeError
    ensures { result ≡ told error }
{
    match error {
        ElementsError::BadKinds => ChangeError::Refused(Refusal::BadKinds),
        ElementsError::NameTaken => ChangeError::Refused(Refusal::NameTaken),
        ElementsError::Already => ChangeError::Refused(Refusal::Already),
        ElementsError::Absent => ChangeError::Refused(Refusal::Absent),
        ElementsError::Cycle { .. } => ChangeError::Refused(Refusal::Cycle),
        ElementsError::Occupied => ChangeError::Refused(Refusal::Occupied),
        ElementsError::LastContainer => ChangeError::Refused(Refusal::LastContainer),
        ElementsError::Full(table) => ChangeError::Refused(Refusal::Full(table)),
        ElementsError::Memory => ChangeError::Memory,
    }
}
