//! Why no request was read.
ghost use Rattle.std.specs.Prelude.{◌≡◌};

use pm_model::{BadLine, Memory};

/// Why no request was read.
#[derive(Clone, Copy)]
pub(crate) enum ReadError {
    /// The line is no request.
    Bad(BadLine),
    /// There was no memory to read it.
    Memory,
}

impl From<BadLine> for ReadError {
    ghost use Rattle.pm_read.specs.declared.errors.ReadError.TheVariants.{Bad};

    ghost from_gives = { λ bad e. e ≡ Bad bad };

    fn from(bad: BadLine) -> ReadError {
        ReadError::Bad(bad)
    }
}

impl From<Memory> for ReadError {
    ghost use Rattle.pm_read.specs.declared.errors.ReadError.TheVariants as error;

    ghost from_gives = { λ m e. e ≡ error.Memory };

    fn from(_memory: Memory) -> ReadError {
        ReadError::Memory
    }
}
