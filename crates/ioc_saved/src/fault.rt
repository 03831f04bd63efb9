//! Why a file of saved values wasn't taken.
ghost use Rattle.std.specs.Prelude.{◌≡◌};
ghost use Rattle.ioc_saved.specs.declared.fault.SavedFault.TheVariants.{NoMemory};

use std::alloc::{AllocError, AllocFailed};

/// Why a file of saved values wasn't taken.
#[derive(Clone, Copy, PartialEq, Eq, Debug)]
pub enum SavedFault {
    /// The last line isn't `<END>` with its line feed: the file was cut short.
    NoEnd,
    /// The line with this number, from 1 on, is none.
    BadLine(usize),
    /// Allocation failed.
    NoMemory,
}

impl From<AllocError> for SavedFault {
    ghost from_gives = { λ _ e. e ≡ NoMemory };

    fn from(_e: AllocError) -> SavedFault {
        SavedFault::NoMemory
    }
}

impl<T: Drop> From<AllocFailed<T>> for SavedFault {
    ghost from_gives = { λ _ e. e ≡ NoMemory };

    fn from(_e: AllocFailed<T>) -> SavedFault {
        SavedFault::NoMemory
    }
}
