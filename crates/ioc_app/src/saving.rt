//! Values of channels that are saved while a run goes on, and once more at its end.
use crate::fault::RunFault;
use ioc_command_line::Reason;
use ioc_engine::{Desk, Device, Engine, EngineName, RecordCopies, StoppedRecord};
use ioc_fields::{FieldNo, name_of};
use ioc_files::{ReplaceFiles, SavedField, SavedPaths};
use ioc_names::RecordNo;
use ioc_record::{RecordKind, text_of};
use ioc_saved::{SavedText, SavedValue, add_saved, begin_saved, end_saved};
use ioc_values::{FieldName, Value, exact_double_text};
use itoa::Buffer;
use rec_types::Record;
use std::alloc::{AllocError, Global};
use std::sync::Wait;
use std::sync::atomic::{AtomicBool, AtomicU64, Ordering};
use std::thread::Parker;
use std::time::Duration;

/// What is saved while a run goes on, where, and how often.
///
/// ```rust
/// let saving = Saving::new(alloc, "plant.sav", fields, Duration::from_secs(30))?;
/// ```
#[derive(Drop)]
pub struct Saving {
    paths: SavedPaths,
    fields: Vec<SavedField>,
    every: Duration,
    alarm: Parker,
    is_over: AtomicBool,
    saved: AtomicU64,
    failed: AtomicU64,
}

// Returns the value of a field as it is saved: the number of a state or a choice, a double with all
// its digits, or a text.
fn value_of(record: &Record, field: FieldNo) -> SavedText {
    let value = record.get(field);
    match &value {
        Some(Value::Enum(number)) => { SavedText::cut(Buffer::new().format(*number).as_bytes()) }
        Some(Value::Double(number)) => SavedText::cut(exact_double_text(*number).as_slice()),
        _ => SavedText::cut(text_of(record, field).as_slice()),
    }
}

// Appends the line of the value of a field.
fn add_value(lines: &mut Vec<u8>, record: &Record, field: FieldNo) -> Result<(), AllocError> {
    let saved = SavedValue {
        record_name: record.common().name,
        field: FieldName::cut(name_of(field).as_bytes()),
        value: value_of(record, field),
    };
    if saved.is_saveable() {
        add_saved(lines, &saved)?;
    }
    Ok(())
}

impl Saving {
    /// Saves these fields to the file of this path.
    ///
    /// # Errors
    ///
    /// [`AllocError`] if allocation fails.
    pub fn new(
        alloc: Global,
        path: &str,
        fields: Vec<SavedField>,
        every: Duration,
    ) -> Result<Self, AllocError> {
        Ok(Saving {
            paths: SavedPaths::of(alloc, path)?,
            fields,
            every,
            alarm: Parker::new(),
            is_over: AtomicBool::new(false),
            saved: AtomicU64::new(0),
            failed: AtomicU64::new(0),
        })
    }

    /// Returns how many files were written, and how many couldn't be.
    pub fn counts(&self) -> (u64, u64) {
        let saved = self.saved.load(Ordering::SeqCst);
        (saved, self.failed.load(Ordering::SeqCst))
    }

    /// Ends the thread that saves values.
    pub fn end(&self) {
        self.is_over.store(true, Ordering::SeqCst);
        self.alarm.unpark();
    }

    // Returns the lines of the values of these copies.
    fn lines_of(
        &self,
        alloc: Global,
        copies: &RecordCopies<Record>,
    ) -> Result<Vec<u8>, AllocError> {
        let mut lines = Vec::new(alloc);
        for channel in &self.fields {
            if let Some(Some(record)) = copies.base.records.get(channel.record.index()) {
                add_value(&mut lines, record, channel.field)?;
            }
        }
        Ok(lines)
    }

    // Returns the lines of the values of these records, which stand in the order of their numbers.
    fn last_lines_of<D>(
        &self,
        alloc: Global,
        records: &[StoppedRecord<D>],
    ) -> Result<Vec<u8>, AllocError> {
        let mut lines = Vec::new(alloc);
        for channel in &self.fields {
            if let Some(stopped) = records.get(channel.record.index()) {
                add_value(&mut lines, &stopped.fields, channel.field)?;
            }
        }
        Ok(lines)
    }

    // Writes a file with these lines, as of this place of the journal.
    fn write<R: ReplaceFiles>(
        &self,
        rt: &R,
        alloc: Global,
        place: u64,
        lines: &[u8],
    ) -> Result<(), RunFault> {
        let mut text = Vec::new(alloc);
        begin_saved(&mut text, place)?;
        text.extend_from_slice(lines)?;
        end_saved(&mut text)?;
        match rt.replace(&self.paths, &text) {
            Ok(()) => {
                self.saved.fetch_add(1, Ordering::SeqCst);
                Ok(())
            }
            Err(error) => {
                self.failed.fetch_add(1, Ordering::SeqCst);
                Err(RunFault::Save(Reason::of(&error)))
            }
        }
    }

    // Saves the values of one moment, unless they are those that were saved last.
    fn save<B: EngineName<D>, D: Device, C: Drop, R: ReplaceFiles + Wait>(
        &self,
        rt: &R,
        alloc: Global,
        engine: &Engine<B, D, C>,
        desk: &mut Desk<B, D>,
        last: &mut Vec<u8>,
    ) -> Result<(), RunFault> {
        let Ok(copies) = engine.copy_records(rt, desk) else {
            return Err(RunFault::Memory);
        };
        let lines = self.lines_of(alloc, &copies)?;
        if lines.as_slice() != last.as_slice() {
            self.write(rt, alloc, copies.place, &lines)?;
            *last = lines;
        }
        Ok(())
    }

    /// Saves the values now and then, until it is ended. A file that can't be written is counted, and
    /// tried again the next time.
    pub fn keep<B: EngineName<D>, D: Device, C: Drop, R: ReplaceFiles + Wait>(
        &self,
        rt: &R,
        alloc: Global,
        engine: &Engine<B, D, C>,
        desk: Desk<B, D>,
    ) {
        let mut desk = desk;
        let mut last = Vec::new(alloc);
        for _ in rt.forever() {
            self.alarm.park_timeout(rt, self.every);
            if self.is_over.load(Ordering::SeqCst) {
                break;
            }
            let _counted = self.save(rt, alloc, engine, &mut desk, &mut last);
        }
    }

    /// Saves the values that a run leaves, of whose journal this is the place behind its last entry.
    ///
    /// # Errors
    ///
    /// [`RunFault::Save`] if the file can't be written. [`RunFault::Memory`] if allocation fails.
    pub fn save_last<D, R: ReplaceFiles>(
        &self,
        rt: &R,
        alloc: Global,
        records: &[StoppedRecord<D>],
        place: u64,
    ) -> Result<(), RunFault> {
        let lines = self.last_lines_of(alloc, records)?;
        self.write(rt, alloc, place, &lines)
    }
}
