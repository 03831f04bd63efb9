//! Why a line wasn't read.
ghost use Rattle.std.specs.Prelude.{◌≡◌};
ghost use Rattle.ioc_journal_file.specs.declared.line_error.LineError.TheVariants.{NoMemory};

use std::alloc::{AllocError, AllocFailed};

/// Why a line wasn't read.
#[derive(Clone, Copy, PartialEq, Eq, Debug)]
pub enum LineError {
    /// No entry has this line.
    NotALine,
    /// Allocation failed.
    NoMemory,
}

impl From<AllocError> for LineError {
    ghost from_gives = { λ _ e. e ≡ NoMemory };

    fn from(_e: AllocError) -> LineError {
        LineError::NoMemory
    }
}

impl<T: Drop> From<AllocFailed<T>> for LineError {
    ghost from_gives = { λ _ e. e ≡ NoMemory };

    fn from(_e: AllocFailed<T>) -> LineError {
        LineError::NoMemory
    }
}
