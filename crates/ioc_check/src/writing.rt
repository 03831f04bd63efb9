//! The text of all records that is written to a file.
ghost use Rattle.std.specs.Prelude.{IfOk, IfSome};
ghost use Rattle.ioc_site_writer.specs.Loads.{Loads};

use crate::command::PROGRAM;
use ioc_command_line::{FileRole, Reason, Stop, is_out_of_memory};
use ioc_site::{Finding, Reading, Statement};
use ioc_site_database::{Adapted, Counts, Kept, LeftOutTypes, leave_out, with_adaption};
use ioc_site_writer::{Written, write_database};
use ioc_values::LoadError;
use std::alloc::{Alloc, AllocError, Global};
use std::fs::{self, Files};
use std::path::PathBuf;
use std::str;

// Returns the path by which the system knows a file, without symbolic links, if it knows it.
fn system_path<R: Files + Alloc<A = Global>>(
    rt: &R,
    path: &str,
) -> Result<Option<PathBuf>, AllocError> {
    match fs::canonicalize(rt, path) {
        Ok(known) => Ok(Some(known)),
        Err(e) if is_out_of_memory(&e) => Err(AllocError),
        Err(_) => Ok(None),
    }
}

// Returns whether a path leads to a file, of which the system knows this path too.
fn leads_to<R: Files + Alloc<A = Global>>(
    rt: &R,
    path: &[u8],
    known: &PathBuf,
) -> Result<bool, AllocError> {
    let Ok(path) = str::from_utf8(path) else {
        return Ok(false);
    };
    match system_path(rt, path)? {
        Some(own) => Ok(own.as_str() == known.as_str()),
        None => Ok(false),
    }
}

// Returns whether a path is one of these, or leads to a file that one of them leads to.
fn is_among<R: Files + Alloc<A = Global>>(
    rt: &R,
    path: &str,
    files: &[Vec<u8>],
) -> Result<bool, AllocError> {
    if files.iter().any(|file| file.as_slice() == path.as_bytes()) {
        return Ok(true);
    }
    let Some(known) = system_path(rt, path)? else {
        return Ok(false);
    };
    for file in files {
        if leads_to(rt, file.as_slice(), &known)? {
            return Ok(true);
        }
    }
    Ok(false)
}

/// Refuses to write to one of the files that were read, by whatever path it was read.
///
/// # Errors
///
/// [`Stop::Refused`] if it is one. [`Stop::Memory`] if allocation fails.
pub fn refuse_overwriting<R: Files + Alloc<A = Global>>(
    rt: &R,
    path: &str,
    files: &[Vec<u8>],
) -> Result<(), Stop> {
    if is_among(rt, path, files)? {
        let name = PROGRAM.name;
        let text = format!(in rt.alloc();
            "{name}: --write would overwrite '{path}', which is read\n"
        )?;
        return Err(Stop::Refused(text));
    }
    Ok(())
}

// Returns a reading with more that was found.
fn with_findings(reading: Reading, more: Vec<Finding>) -> Result<Reading, AllocError> {
    let mut reading = reading;
    let mut more = more;
    reading
        .findings
        .append(&mut more)
        .map_err(AllocError::from)?;
    Ok(reading)
}

// Returns what is left of a reading that is to be written without what this project leaves out.
fn without_left_out(
    alloc: Global,
    types: LeftOutTypes,
    reading: Reading,
) -> Result<Reading, AllocError> {
    let Reading {
        files,
        texts,
        statements,
        findings,
        first_loss,
    } = reading;
    let Kept {
        statements,
        dropped,
        ..
    } = leave_out(alloc, statements, types)?;
    let kept = Reading {
        files,
        texts,
        statements,
        findings,
        first_loss,
    };
    with_findings(kept, dropped)
}

/// What is checked of a reading, and a line for each way in which a record works no longer.
#[derive(Drop)]
pub struct Prepared {
    pub reading: Reading,
    pub losses: Vec<u8>,
}

/// Returns what is checked of a reading that is to be written: what is left when that is left out which
/// EPICS has and this project doesn't, records of such types as is asked for, or what it is when all that
/// is adapted.
///
/// # Errors
///
/// [`AllocError`] if allocation fails.
pub fn prepare(
    alloc: Global,
    types: LeftOutTypes,
    is_adapted: bool,
    reading: Reading,
) -> Result<Prepared, AllocError> {
    if is_adapted {
        let Adapted {
            reading,
            notes,
            losses,
        } = with_adaption(alloc, reading, true)?;
        return Ok(Prepared {
            reading: with_findings(reading, notes)?,
            losses,
        });
    }
    Ok(Prepared {
        reading: without_left_out(alloc, types, reading)?,
        losses: Vec::new(alloc),
    })
}

/// Returns the text of all records, if there is no error. Adds warnings of what is left out of it.
///
/// # Errors
///
/// [`Stop::BadDb`] if the text is too long. [`Stop::Memory`] if allocation fails.
pub fn database_of(
    alloc: Global,
    statements: &[Statement],
    findings: &mut Vec<Finding>,
) -> Result<Option<Vec<u8>>, Stop>
    ensures { IfOk result (λ text. IfSome text (λ t. Loads t.items)) }
{
    if Counts::of(findings.as_slice()).errors > 0 {
        return Ok(None);
    }
    match write_database(alloc, statements) {
        Ok(written) => {
            let Written { text, mut dropped } = written;
            findings.append(&mut dropped).map_err(AllocError::from)?;
            Ok(Some(text))
        }
        Err(LoadError::BadDb(fault)) => Err(Stop::BadDb(fault)),
        Err(LoadError::NoMemory) => Err(Stop::from(AllocError)),
    }
}

/// Writes a text to a file.
///
/// # Errors
///
/// [`Stop::Unwritable`] if the file can't be created or written. [`Stop::Memory`] if allocation
/// fails.
pub fn save<R: Files + Alloc<A = Global>>(rt: &R, path: &str, text: &[u8]) -> Result<(), Stop> {
    match fs::write(rt, path, text) {
        Ok(()) => Ok(()),
        Err(e) if is_out_of_memory(&e) => Err(Stop::from(AllocError)),
        Err(e) => {
            let path = String::from_str(rt.alloc(), path)?;
            Err(Stop::Unwritable(FileRole::Database, path, Reason::of(&e)))
        }
    }
}
