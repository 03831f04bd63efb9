//! The end of a program.
ghost use Rattle.std.specs.Prelude.{◌≡◌};
ghost use Rattle.std.specs.IoError.{error_kind};
ghost use Rattle.ioc_command_line.specs.Endings.{IsBadDatabase, unreadable, status_of, stream_of, told_of, ending_of};
ghost use Rattle.ioc_command_line.specs.Endings.{role_text, ending_text, usage_text, stop_text};

use crate::reason::{Reason, is_out_of_memory};
use ioc_values::DbFault;
use std::alloc::{AllocError, Global};
use std::{fmt, io};

/// An output stream of a program.
#[derive(Clone, Copy, Debug, PartialEq, Eq)]
pub enum Stream {
    Output,
    Error,
}

/// Which of its files a program reads.
#[derive(Clone, Copy, Debug, PartialEq, Eq)]
pub enum FileRole {
    Database,
    Script,
    Journal,
    /// Names the channels that are saved.
    Request,
    /// Has their values.
    Saved,
}

/// When memory ran out.
#[derive(Clone, Copy, Debug, PartialEq, Eq)]
pub enum Stage {
    /// Before the work of the program began.
    Loading,
    /// In a line of the script.
    Line,
    /// While a program ran that has no script.
    Run,
}

/// What is wrong with the words of the command line, beside what the parser of words refuses.
#[derive(Debug, PartialEq, Eq, Drop)]
pub enum UsageFault {
    /// This word defines no macro.
    NoDefinition(String),
    /// An argument is missing.
    NoArgument,
    /// A word is no UTF-8.
    NotText,
}

/// Why a program stops before its end, or never begins.
#[derive(Debug, PartialEq, Eq, Drop)]
pub enum Stop {
    /// The program was asked for this text: its help or its version.
    Shown(String),
    /// The parser of words refuses the command line, and says why in this text.
    Refused(String),
    /// The words of the command line are wrong.
    Usage(UsageFault),
    /// The file of this path could not be opened or read.
    Unreadable(FileRole, String, Reason),
    /// The file of this path could not be created or written.
    Unwritable(FileRole, String, Reason),
    /// The file of this path, which is to be new, is there already.
    Exists(String),
    /// The database text is invalid.
    BadDb(DbFault),
    /// The database text of the file of this path is invalid. A second line names the program
    /// that says more of this file.
    BadDbIn(String, DbFault),
    /// What the program says could not be written.
    Write(Reason),
    /// Allocation failed.
    Memory(Stage),
}

/// How a program ends: its name, its exit status, the stream that it writes to, and the fault that
/// it reports. Its text is printed as it is, including the line feed.
#[derive(Debug, Drop)]
pub struct Ending {
    pub program: &'static str,
    pub status: u8,
    pub stream: Stream,
    pub told: Option<Stop>,
}

/// Returns why the program stops if the database text of the file of this path is invalid.
pub fn bad_database(alloc: Global, path: &str, fault: DbFault) -> Stop
    ensures { IsBadDatabase path.now fault result }
{
    match String::from_str(alloc, path) {
        Ok(path) => Stop::BadDbIn(path, fault),
        Err(_) => Stop::Memory(Stage::Loading),
    }
}

/// Returns why the program stops if an error kept it from opening or reading a file.
pub fn unreadable(role: FileRole, path: String, error: &io::Error) -> Stop
    ensures { result ≡ unreadable role path (error_kind error.now) }
{
    if is_out_of_memory(error) {
        Stop::Memory(Stage::Loading)
    } else {
        Stop::Unreadable(role, path, Reason::of(error))
    }
}

/// Converts a failed allocation before the work of the program began.
impl From<AllocError> for Stop {
    ghost use Rattle.ioc_command_line.specs.declared.ending.Stage.TheVariants.{Loading};
    ghost use Rattle.ioc_command_line.specs.declared.ending.Stop.TheVariants.{Memory};

    ghost from_gives = { λ _ stop. stop ≡ Memory Loading };

    fn from(_e: AllocError) -> Stop {
        Stop::Memory(Stage::Loading)
    }
}

#[tactic(auto, unfolding(crate::specs::Endings::status_of, crate::specs::Endings::stream_of, crate::specs::Endings::told_of))]
impl Stop {
    /// Returns the exit status of the program, from 0 to 4. It is 0 if the program did what it was
    /// asked for.
    pub fn status(&self) -> u8
        ensures { result ≡ status_of self.now }
    {
        match self {
            Stop::Shown(_) => 0,
            Stop::BadDb(_) | Stop::BadDbIn(..) => 1,
            Stop::Refused(_) | Stop::Usage(_) => 2,
            Stop::Unreadable(..) | Stop::Unwritable(..) | Stop::Exists(_) | Stop::Write(_) => 3,
            Stop::Memory(_) => 4,
        }
    }

    // Returns the stream on which the text is printed.
    fn stream(&self) -> Stream
        ensures { result ≡ stream_of self.now }
    {
        match self {
            Stop::Shown(_) => Stream::Output,
            _ => Stream::Error,
        }
    }

    // Returns what is printed. Nothing is printed if the reader of the output is gone.
    fn told(self) -> Option<Stop>
        ensures { result ≡ told_of self }
    {
        match self {
            Stop::Write(Reason::BrokenPipe) => None,
            other => Some(other),
        }
    }
}

impl Ending {
    /// Returns the ending of a program for the result of a run.
    #[tactic(auto, unfolding(crate::specs::Endings::ending_of))]
    pub fn of(program: &'static str, ended: Result<(), Stop>) -> Self
        ensures { result ≡ ending_of program.entry ended }
    {
        match ended {
            Ok(()) => Ending {
                program,
                status: 0,
                stream: Stream::Error,
                told: None,
            },
            Err(stop) => Ending {
                program,
                status: stop.status(),
                stream: stop.stream(),
                told: stop.told(),
            },
        }
    }
}

#[tactic(auto, unfolding(crate::specs::Endings::role_text))]
impl fmt::Display for FileRole {
    ghost use Rattle.std.specs.Prelude.{Some};

    ghost output = { λ role. Some (role_text role) };

    fn fmt<W: fmt::Write>(&self, f: &mut fmt::Formatter<W>) -> fmt::Result {
        f.write_str(match self {
            FileRole::Database => "database",
            FileRole::Script => "script",
            FileRole::Journal => "journal",
            FileRole::Request => "request file",
            FileRole::Saved => "saved file",
        })
    }
}

#[tactic(auto, unfolding(crate::specs::Endings::usage_text))]
impl fmt::Display for UsageFault {
    ghost use Rattle.std.specs.Prelude.{Some};

    ghost output = { λ fault. Some (usage_text fault) };

    fn fmt<W: fmt::Write>(&self, f: &mut fmt::Formatter<W>) -> fmt::Result {
        match self {
            UsageFault::NoDefinition(word) => write!(f, "'{word}' is no NAME=VALUE"),
            UsageFault::NoArgument => f.write_str("an argument is missing"),
            UsageFault::NotText => f.write_str("a word is no UTF-8"),
        }
    }
}

#[tactic(auto, unfolding(crate::specs::Endings::stop_text))]
impl fmt::Display for Stop {
    ghost use Rattle.std.specs.Prelude.{Some};

    ghost output = { λ stop. Some (stop_text stop) };

    fn fmt<W: fmt::Write>(&self, f: &mut fmt::Formatter<W>) -> fmt::Result {
        match self {
            Stop::Shown(text) | Stop::Refused(text) => f.write_str(text.as_str()),
            Stop::Usage(fault) => write!(f, "{fault} (--help tells what it takes)"),
            Stop::Unreadable(role, path, reason) => {
                write!(f, "cannot read {role} '{path}': {reason}")
            }
            Stop::Unwritable(role, path, reason) => {
                write!(f, "cannot write {role} '{path}': {reason}")
            }
            Stop::Exists(path) => {
                write!(
                    f,
                    "{path} is there already: name another file, or --overwrite"
                )
            }
            Stop::BadDb(fault) => fault.fmt(f),
            Stop::BadDbIn(path, fault) => {
                write!(f, "{fault}\n")?;
                write!(f, "ioc-check {path} says more")
            }
            Stop::Write(reason) => write!(f, "cannot write the replies: {reason}"),
            Stop::Memory(Stage::Loading) => f.write_str("out of memory while loading"),
            Stop::Memory(Stage::Line) => f.write_str("out of memory in a line of the script"),
            Stop::Memory(Stage::Run) => f.write_str("out of memory"),
        }
    }
}

impl std::error::Error for Stop {}

/// The texts of the parser of words are printed as they are. The others end with a line feed, and
/// begin with the program's name, but for the fault of a database text.
#[tactic(auto, unfolding(crate::specs::Endings::ending_text, crate::specs::Endings::stop_text))]
impl fmt::Display for Ending {
    ghost use Rattle.std.specs.Prelude.{Some};

    ghost output = { λ ending. Some (ending_text ending) };

    fn fmt<W: fmt::Write>(&self, f: &mut fmt::Formatter<W>) -> fmt::Result {
        match &self.told {
            None => Ok(()),
            Some(Stop::Shown(text)) => f.write_str(text.as_str()),
            Some(Stop::Refused(text)) => f.write_str(text.as_str()),
            Some(Stop::BadDb(fault)) => write!(f, "{fault}\n"),
            Some(stop @ Stop::BadDbIn(..)) => write!(f, "{stop}\n"),
            Some(stop) => write!(f, "{}: {stop}\n", self.program),
        }
    }
}
