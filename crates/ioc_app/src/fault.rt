//! Why a run ends early.
use ioc_command_line::Reason;
use std::alloc::AllocError;
use std::fmt;

/// Why a run ends before its last line.
#[derive(Clone, Copy, Debug, PartialEq, Eq)]
pub enum RunFault {
    /// The input of a console couldn't be read.
    Read(Reason),
    /// Replies or the lines of the records couldn't be written.
    Write(Reason),
    /// The journal couldn't be written.
    Journal(Reason),
    /// The values of channels couldn't be saved at the end.
    Save(Reason),
    /// Allocation failed before the task began.
    Start,
    /// Allocation failed in the task or afterwards.
    Memory,
}

/// Converts a failed allocation.
impl From<AllocError> for RunFault {
    ghost use Rattle.std.specs.Prelude.{◌≡◌};
    ghost use Rattle.ioc_app.specs.declared.fault.RunFault.TheVariants.{Memory};

    ghost from_gives = { λ _ fault. fault ≡ Memory };

    fn from(_e: AllocError) -> RunFault {
        RunFault::Memory
    }
}

impl fmt::Display for RunFault {
    fn fmt<W: fmt::Write>(&self, f: &mut fmt::Formatter<W>) -> fmt::Result {
        match self {
            RunFault::Read(reason) => write!(f, "cannot read the lines: {reason}"),
            RunFault::Write(reason) => write!(f, "cannot write the records: {reason}"),
            RunFault::Journal(reason) => write!(f, "cannot write the journal: {reason}"),
            RunFault::Save(reason) => write!(f, "cannot save the values: {reason}"),
            RunFault::Start => f.write_str("out of memory while loading"),
            RunFault::Memory => f.write_str("out of memory"),
        }
    }
}

impl std::error::Error for RunFault {}
