//! The fields that are watched while entries are made again.
use crate::command::Words;
use crate::showing::{Found, Place};
use ioc_command_line::{Reason, Stop};
use ioc_journal_audit::{PlayedMap, Trace, Watching};
use ioc_watches::{Watch, rule_of};
use rec_types::Record;
use std::alloc::{AllocError, Global};
use std::io::Write;

/// A field that a word watches.
#[derive(Clone, Copy)]
pub struct Watched {
    pub place: Place,
    /// Whether the number behind the field is told.
    pub is_number: bool,
}

// Watches the fields that the words of the command line name.
fn watching_of(alloc: Global, words: &Words<'_>, found: &Found) -> Result<Watching, AllocError> {
    let mut watching = Watching::new(alloc);
    for (word, watched) in words.watched.iter().zip(found.watched.iter()) {
        let place = watched.place;
        let rule = rule_of(place.record_type, place.field);
        let watch = Watch::new(alloc, word.as_bytes(), place.field, watched.is_number, rule)?;
        watching.add(alloc, place.record, watch)?;
    }
    Ok(watching)
}

/// Begins to trace records and to watch fields, if the words of the command line ask for it, and writes
/// the first line of each watched field.
///
/// # Errors
///
/// [`Stop::Write`] if a write fails. [`Stop::Memory`] if allocation fails.
pub fn begin_trace<W: Write>(
    alloc: Global,
    words: &Words<'_>,
    found: &Found,
    map: &PlayedMap<Record>,
    out: &mut W,
) -> Result<Option<Trace>, Stop> {
    if found.traced.is_empty() && found.watched.is_empty() {
        return Ok(None);
    }
    let mut watching = watching_of(alloc, words, found)?;
    let mut lines = Vec::new(alloc);
    watching.add_lines(alloc, map, &mut lines)?;
    if let Err(e) = out.write_all(lines.as_slice()) {
        return Err(Stop::Write(Reason::of(&e)));
    }
    Ok(Some(Trace::new(alloc, map, found.traced.as_slice(), watching)?))
}
