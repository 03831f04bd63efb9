//! The saved values that a run has taken, in the database on which its journal is audited.
use crate::command::Words;
use crate::loaded;
use ioc_command_line::Stop;
use ioc_dbfile::{Database, load};
use ioc_fields::{RecordType, field};
use ioc_record::RecordKind;
use ioc_saved::{SavedValue, add_block, has_block};
use ioc_values::{BadDbKind, LoadError};
use std::alloc::{AllocError, Global};

/// Why the database has no such value.
#[derive(Clone, Copy, PartialEq, Eq, Debug)]
pub enum BaseFault {
    /// No record has the name.
    NoRecord,
    /// The record has no field with the name.
    NoField,
    /// No text between quotes is read as the value.
    NoText,
    /// The load refuses the value.
    Refused(BadDbKind),
}

/// A database with the saved values, or why there is none.
#[derive(Drop)]
pub enum Restored {
    Database(Database),
    /// The line of the journal, and what is wrong with its value.
    Fault(u64, BaseFault),
}

// Returns the type of the record of a saved value, if a block can be written.
fn type_of(database: &Database, saved: &SavedValue) -> Result<RecordType, BaseFault> {
    let Some(number) = database.names.find(saved.record_name.as_slice()) else {
        return Err(BaseFault::NoRecord);
    };
    let Some(record) = database.records.get(number.index()) else {
        return Err(BaseFault::NoRecord);
    };
    let record_type = record.record_type();
    if field(record_type, saved.field.as_slice()).is_none() {
        return Err(BaseFault::NoField);
    }
    if !has_block(saved) {
        return Err(BaseFault::NoText);
    }
    Ok(record_type)
}

// A database text whose last line has its line feed, and the number of its lines.
#[derive(Drop)]
struct WholeText {
    bytes: Vec<u8>,
    lines: u64,
}

// Copies a database text, and adds the line feed of its last line if it lacks it.
fn whole(alloc: Global, text: &[u8]) -> Result<WholeText, AllocError> {
    let mut bytes = Vec::new(alloc);
    bytes.extend_from_slice(text)?;
    if !matches!(text, [] | [.., b'\n']) {
        bytes.push(b'\n')?;
    }
    let mut lines = 0u64;
    for byte in bytes.as_slice() {
        if *byte == b'\n' {
            lines = lines.saturating_add(1);
        }
    }
    Ok(WholeText { bytes, lines })
}

// Appends a block for each saved value, or returns which of them has none, and why.
fn add_blocks(
    database: &Database,
    bases: &[SavedValue],
    out: &mut Vec<u8>,
) -> Result<Option<(u64, BaseFault)>, AllocError> {
    let mut line = 2u64;
    for saved in bases {
        match type_of(database, saved) {
            Ok(record_type) => add_block(out, record_type.name().as_bytes(), saved)?,
            Err(fault) => return Ok(Some((line, fault))),
        }
        line = line.saturating_add(1);
    }
    Ok(None)
}

/// Loads the text of a database once more, with these saved values, the first of which is on line 2 of
/// the journal. Without any it is the same database.
///
/// # Errors
///
/// As [`loaded`].
pub fn restore(
    alloc: Global,
    words: &Words<'_>,
    text: &[u8],
    database: Database,
    bases: &[SavedValue],
) -> Result<Restored, Stop> {
    if bases.is_empty() {
        return Ok(Restored::Database(database));
    }
    let WholeText { mut bytes, lines } = whole(alloc, text)?;
    if let Some((line, fault)) = add_blocks(&database, bases, &mut bytes)? {
        return Ok(Restored::Fault(line, fault));
    }
    match load(alloc, bytes.as_slice(), &words.macros) {
        Err(LoadError::BadDb(fault)) if fault.line > lines => {
            let line = fault.line.saturating_sub(lines).saturating_add(1);
            Ok(Restored::Fault(line, BaseFault::Refused(fault.kind)))
        }
        other => Ok(Restored::Database(loaded(alloc, words, other)?)),
    }
}
