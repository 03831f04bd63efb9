//! Why the operating system refused to open, read or write a file.
ghost use Rattle.std.specs.Prelude.{◌≡◌};
ghost use Rattle.std.specs.IoError.{error_kind, raw_os_error};
ghost use Rattle.ioc_command_line.specs.Endings.{reason_of, input_reason_of, reason_text, is_out_of_memory};

use std::{fmt, io};

// The code of the operating system for a file that isn't open.
const EBADF: i32 = 9;

/// Why the operating system refused to open, read or write a file.
#[derive(Clone, Copy, Debug, PartialEq, Eq)]
pub enum Reason {
    NotFound,
    PermissionDenied,
    NotADirectory,
    IsADirectory,
    StorageFull,
    FileTooLarge,
    /// Nobody reads what is written.
    BrokenPipe,
    /// The program was started without a standard input.
    ClosedInput,
    /// Lines that were to be written before are missing.
    Gap,
    Other,
}

impl Reason {
    /// The reason that an error tells.
    pub fn of(error: &io::Error) -> Self
        ensures { result ≡ reason_of (error_kind error.now) }
    {
        match error.kind() {
            io::ErrorKind::NotFound => Reason::NotFound,
            io::ErrorKind::PermissionDenied => Reason::PermissionDenied,
            io::ErrorKind::NotADirectory => Reason::NotADirectory,
            io::ErrorKind::IsADirectory => Reason::IsADirectory,
            io::ErrorKind::StorageFull => Reason::StorageFull,
            io::ErrorKind::FileTooLarge => Reason::FileTooLarge,
            io::ErrorKind::BrokenPipe => Reason::BrokenPipe,
            _ => Reason::Other,
        }
    }

    /// The reason that an error of standard input tells.
    pub fn of_input(error: &io::Error) -> Self
        ensures { result ≡ input_reason_of (raw_os_error error.now) (error_kind error.now) }
    {
        if error.raw_os_error() == Some(EBADF) {
            return Reason::ClosedInput;
        }
        Reason::of(error)
    }
}

/// The words of the operating system.
#[tactic(auto, unfolding(crate::specs::Endings::reason_text))]
impl fmt::Display for Reason {
    ghost use Rattle.std.specs.Prelude.{Some};

    ghost output = { λ reason. Some (reason_text reason) };

    fn fmt<W: fmt::Write>(&self, f: &mut fmt::Formatter<W>) -> fmt::Result {
        f.write_str(match self {
            Reason::NotFound => "No such file or directory",
            Reason::PermissionDenied => "Permission denied",
            Reason::NotADirectory => "Not a directory",
            Reason::IsADirectory => "Is a directory",
            Reason::StorageFull => "No space left on device",
            Reason::FileTooLarge => "File too large",
            Reason::BrokenPipe => "Broken pipe",
            Reason::ClosedInput => "Standard input is closed",
            Reason::Gap => "Entries are missing",
            Reason::Other => "Input/output error",
        })
    }
}

/// Returns whether allocation failed. No other error is reported as such.
pub fn is_out_of_memory(error: &io::Error) -> bool
    ensures { result ≡ is_out_of_memory (error_kind error.now) }
{
    matches!(error.kind(), io::ErrorKind::OutOfMemory)
}
