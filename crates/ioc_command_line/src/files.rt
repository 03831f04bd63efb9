//! The files that a command line names, and what a program prints at its end.
use crate::ending::{Ending, FileRole, Stop, Stream, unreadable};
use std::alloc::{Alloc, Global};
use std::fs::{self, File, Files};
use std::io::{Eprint, Print};
use std::process::ExitCode;

// The path of a file that is read bit by bit: `-` is standard input.
fn path_of(name: &str) -> &str {
    match name {
        "-" => "/dev/stdin",
        _ => name,
    }
}

/// Reads the whole of a file.
///
/// # Errors
///
/// [`Stop::Unreadable`] if the file can't be opened or read. [`Stop::Memory`] if allocation fails.
pub fn read_whole<R: Files + Alloc<A = Global>>(
    rt: &R,
    role: FileRole,
    name: &str,
) -> Result<Vec<u8>, Stop> {
    match fs::read(rt, name) {
        Ok(text) => Ok(text),
        Err(e) => Err(unreadable(role, String::from_str(rt.alloc(), name)?, &e)),
    }
}

/// Opens a file, to read it bit by bit. The name `-` is standard input.
///
/// # Errors
///
/// [`Stop::Unreadable`] if the file can't be opened. [`Stop::Memory`] if allocation fails.
pub fn open<R: Files + Alloc<A = Global>>(
    rt: &R,
    role: FileRole,
    name: &str,
) -> Result<R::File, Stop> {
    match File::open(rt, path_of(name)) {
        Ok(file) => Ok(file),
        Err(e) => Err(unreadable(role, String::from_str(rt.alloc(), name)?, &e)),
    }
}

/// Prints the text of an ending, and returns its exit status. A text that can't be written doesn't
/// change the status.
pub fn show<R: Print + Eprint>(rt: &R, ending: &Ending) -> ExitCode {
    let _written = match ending.stream {
        Stream::Output => print!(rt; "{ending}"),
        Stream::Error => eprint!(rt; "{ending}"),
    };
    ExitCode::from(ending.status)
}
