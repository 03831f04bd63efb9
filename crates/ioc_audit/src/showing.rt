//! What is shown of a database after its last entry.
use crate::command::{PROGRAM, Words};
use crate::watching::Watched;
use ioc_command_line::Stop;
use ioc_commands::add_shown_text;
use ioc_dbfile::Database;
use ioc_dblex::split_at_byte;
use ioc_fields::{FieldNo, RecordType, field};
use ioc_journal_audit::{Audited, FileFound, Frame, PlayedMap, Tail, add_sets};
use ioc_names::RecordNo;
use ioc_record::{RecordKind, text_of};
use ioc_store::Store;
use ioc_values::IocError;
use ioc_watches::WatchWord;
use rec_types::Record;
use std::alloc::{AllocError, Global};
use std::fmt::Write;

/// A field of a record.
#[derive(Clone, Copy)]
pub struct Place {
    pub record: RecordNo,
    pub record_type: RecordType,
    pub field: FieldNo,
}

/// What the words of a command line name in a database.
#[derive(Drop)]
pub struct Found {
    pub shown: Vec<Place>,
    pub traced: Vec<RecordNo>,
    pub watched: Vec<Watched>,
}

// Returns the fault of a word that names nothing.
fn refused(alloc: Global, option: &str, word: &str, error: IocError) -> Stop {
    let name = PROGRAM.name;
    let words = error.words();
    match format!(in alloc; "{name}: --{option} '{word}': {words}\n") {
        Ok(text) => Stop::Refused(text),
        Err(_) => Stop::Memory(ioc_command_line::Stage::Loading),
    }
}

// Finds the record with this name.
fn record_in(database: &Database, name: &[u8]) -> Result<RecordNo, IocError> {
    match database.names.find(name) {
        Some(number) => Ok(number),
        None => Err(IocError::NoRecord),
    }
}

// Finds a field of the record with this name.
fn place_in(database: &Database, name: &[u8], field_name: &[u8]) -> Result<Place, IocError> {
    let number = record_in(database, name)?;
    let Some(record) = database.records.get(number.index()) else {
        return Err(IocError::NoRecord);
    };
    let record_type = record.record_type();
    match field(record_type, field_name) {
        Some(field) => Ok(Place {
            record: number,
            record_type,
            field,
        }),
        None => Err(IocError::NoField),
    }
}

// Finds the field that REC.F names; REC alone is its field VAL.
fn shown_in(database: &Database, word: &str) -> Result<Place, IocError> {
    let (name, rest) = split_at_byte(b'.', word.as_bytes());
    let field_name = match rest {
        [] => b"VAL".as_slice(),
        [_, field_name @ ..] => field_name,
    };
    place_in(database, name, field_name)
}

// Finds the field that a word watches.
fn watched_in(database: &Database, word: &str) -> Result<Watched, IocError> {
    let parts = WatchWord::of(word.as_bytes());
    Ok(Watched {
        place: place_in(database, parts.record, parts.field)?,
        is_number: parts.is_number,
    })
}

// Finds the fields that are watched.
fn all_watched_in(
    alloc: Global,
    database: &Database,
    words: &Words<'_>,
) -> Result<Vec<Watched>, Stop> {
    let mut all = Vec::new(alloc);
    for word in words.watched.as_slice() {
        match watched_in(database, word) {
            Ok(watched) => all.push(watched).map_err(AllocError::from)?,
            Err(error) => return Err(refused(alloc, "watch", word, error)),
        }
    }
    Ok(all)
}

/// Finds what the words of a command line name.
///
/// # Errors
///
/// [`Stop::Refused`] if there is no such record or field. [`Stop::Memory`] if allocation fails.
pub fn found_in(alloc: Global, database: &Database, words: &Words<'_>) -> Result<Found, Stop> {
    let mut shown = Vec::new(alloc);
    for word in words.shown.as_slice() {
        match shown_in(database, word) {
            Ok(place) => shown.push(place).map_err(AllocError::from)?,
            Err(error) => return Err(refused(alloc, "show", word, error)),
        }
    }
    let mut traced = Vec::new(alloc);
    for name in words.traced.as_slice() {
        match record_in(database, name.as_bytes()) {
            Ok(number) => traced.push(number).map_err(AllocError::from)?,
            Err(error) => return Err(refused(alloc, "trace", name, error)),
        }
    }
    let watched = all_watched_in(alloc, database, words)?;
    Ok(Found {
        shown,
        traced,
        watched,
    })
}

// Appends the line of a field.
fn add_field(
    map: &PlayedMap<Record>,
    word: &str,
    place: &Place,
    out: &mut Vec<u8>,
) -> Result<(), AllocError> {
    out.extend_from_slice(word.as_bytes())?;
    out.push(b' ')?;
    if map.has(place.record) {
        let text = text_of(map.record(place.record), place.field);
        add_shown_text(out, text.as_slice())?;
    }
    out.push(b'\n')?;
    Ok(())
}

// Appends a number of things, each of which has one name, and more of which have another.
fn add_number(out: &mut String, count: u64, one: &str, many: &str) -> Result<(), AllocError> {
    if count == 1 {
        write!(out, "1 {one}")
    } else {
        write!(out, "{count} {many}")
    }
}

// Appends what the seals of a journal cover.
fn add_seals(out: &mut String, frame: &Frame) -> Result<(), AllocError> {
    if !frame.is_sealed {
        return Ok(());
    }
    out.push_str(" under ")?;
    add_number(out, frame.seals, "seal", "seals")?;
    if frame.unsealed > 0 {
        write!(out, ", {} of them behind the last one", frame.unsealed)?;
    }
    Ok(())
}

// Appends how a file ends.
fn add_tail(alloc: Global, out: &mut String, frame: &Frame) -> Result<(), AllocError> {
    if let (Tail::GoesOn, Some(next)) = (frame.tail, &frame.next) {
        let name = String::from_utf8_lossy(alloc, next.name.as_slice())?;
        return write!(out, ", and the journal goes on in {name}\n");
    }
    out.push_str(match frame.tail {
        Tail::Running => ", and the run did not end\n",
        Tail::Unsealed => ", and the last seal is missing\n",
        Tail::Ended | Tail::GoesOn | Tail::Unknown | Tail::NotSeen => "\n",
    })
}

// Appends how many entries agree, and whether the line behind them is cut off or missing.
fn add_count(
    alloc: Global,
    out: &mut String,
    frame: &Frame,
    is_cut_off: bool,
) -> Result<(), AllocError> {
    if is_cut_off {
        let line = frame.entries.saturating_add(frame.others).saturating_add(1);
        write!(out, "line {line} is cut off; ")?;
    }
    add_number(out, frame.entries, "entry agrees", "entries agree")?;
    if frame.first > 0 {
        write!(out, " from place {} on", frame.first)?;
    }
    add_seals(out, frame)?;
    add_tail(alloc, out, frame)
}

/// Appends the lines of what was asked for, and how many entries agree.
///
/// # Errors
///
/// [`AllocError`] if allocation fails.
pub fn add_shown(
    alloc: Global,
    words: &Words<'_>,
    found: &Found,
    map: &PlayedMap<Record>,
    audited: &FileFound,
    out: &mut Vec<u8>,
) -> Result<(), AllocError> {
    let (frame, is_cut_off) = match audited {
        FileFound::Checked(Audited::Agree(_), frame) => (frame, false),
        FileFound::Checked(Audited::CutOff(_), frame) => (frame, true),
        FileFound::Checked(..) | FileFound::Fault(_) => return Ok(()),
    };
    for (word, place) in words.shown.iter().zip(found.shown.iter()) {
        add_field(map, word, place, out)?;
    }
    if words.sets {
        add_sets(alloc, map.records(), out)?;
    }
    let mut text = String::new(alloc);
    add_count(alloc, &mut text, frame, is_cut_off)?;
    out.extend_from_slice(text.as_bytes())
}
