//! What entries change: the fields of traced records, and watched fields.
use crate::played_map::PlayedMap;
use crate::watching::Watching;
use ioc_commands::add_shown_text;
use ioc_fields::field_list::fields;
use ioc_fields::{FieldNo, name_of, row_of};
use ioc_names::RecordNo;
use ioc_record::{FieldText, RecordKind, text_of};
use ioc_store::Store;
use ioc_values::{Value, exact_double_text};
use rec_types::Record;
use std::alloc::{AllocError, Global};

// A field with its text.
#[derive(Clone, Copy)]
struct Shown {
    field: FieldNo,
    text: FieldText,
}

// The fields of a record as they were last.
#[derive(Drop)]
struct Traced {
    record: RecordNo,
    shown: Vec<Shown>,
}

/// The fields of traced records as they were last, and the watched fields, to tell what an entry has
/// changed.
#[derive(Drop)]
pub struct Trace {
    records: Vec<Traced>,
    watching: Watching,
}

// Returns the text of a field, which is that of another value only if it is shown in the same way. A
// double has all its digits, so that each change of it is seen.
fn exact_text_of(record: &Record, field: FieldNo) -> FieldText {
    match &record.get(field) {
        Some(Value::Double(number)) => FieldText::cut(exact_double_text(*number).as_slice()),
        _ => text_of(record, field),
    }
}

// Returns all fields of a record with their texts.
fn shown_of(alloc: Global, record: &Record) -> Result<Vec<Shown>, AllocError> {
    let mut shown = Vec::new(alloc);
    for field in fields() {
        if row_of(record.record_type(), *field).is_some() {
            let text = exact_text_of(record, *field);
            shown.push(Shown {
                field: *field,
                text,
            })?;
        }
    }
    Ok(shown)
}

// Appends the line of a changed field, with the name of its record if there is one.
fn add_change(
    out: &mut Vec<u8>,
    name: &[u8],
    before: &Shown,
    text: &FieldText,
) -> Result<(), AllocError> {
    out.push(b'\t')?;
    if !name.is_empty() {
        out.extend_from_slice(name)?;
        out.push(b'.')?;
    }
    out.extend_from_slice(name_of(before.field).as_bytes())?;
    out.push(b' ')?;
    add_shown_text(out, before.text.as_slice())?;
    out.extend_from_slice(b" -> ")?;
    add_shown_text(out, text.as_slice())?;
    out.push(b'\n')?;
    Ok(())
}

impl Traced {
    // Appends a line for each field that was changed.
    fn add_changes(
        &mut self,
        map: &PlayedMap<Record>,
        has_name: bool,
        out: &mut Vec<u8>,
    ) -> Result<(), AllocError> {
        if !map.has(self.record) {
            return Ok(());
        }
        let record = map.record(self.record);
        let name = record.common().name;
        let name = if has_name {
            name.as_slice()
        } else {
            b"".as_slice()
        };
        for shown in self.shown.iter_mut() {
            let text = exact_text_of(record, shown.field);
            if text != shown.text {
                add_change(out, name, shown, &text)?;
                shown.text = text;
            }
        }
        Ok(())
    }
}

impl Trace {
    /// Creates the trace of these records and of watched fields, from now on.
    ///
    /// # Errors
    ///
    /// [`AllocError`] if allocation fails.
    pub fn new(
        alloc: Global,
        map: &PlayedMap<Record>,
        numbers: &[RecordNo],
        watching: Watching,
    ) -> Result<Self, AllocError> {
        let mut records = Vec::new(alloc);
        for number in numbers {
            let shown = if map.has(*number) {
                shown_of(alloc, map.record(*number))?
            } else {
                Vec::new(alloc)
            };
            records.push(Traced {
                record: *number,
                shown,
            })?;
        }
        Ok(Trace { records, watching })
    }

    /// Appends the line of an entry and a line `FIELD old -> new` for each field of the traced record that
    /// it has changed, or nothing if it has changed none. If there are several records, the line of a
    /// field has `REC.FIELD`. Then appends the lines that are due of watched fields.
    ///
    /// # Errors
    ///
    /// [`AllocError`] if allocation fails.
    pub fn add_changes(
        &mut self,
        alloc: Global,
        map: &PlayedMap<Record>,
        entry: &[u8],
        out: &mut Vec<u8>,
    ) -> Result<(), AllocError> {
        let has_names = self.records.len() > 1;
        let mut changes = Vec::new(alloc);
        for traced in self.records.iter_mut() {
            traced.add_changes(map, has_names, &mut changes)?;
        }
        if !changes.is_empty() {
            out.extend_from_slice(entry)?;
            out.extend_from_slice(changes.as_slice())?;
        }
        self.watching.add_lines(alloc, map, out)
    }
}
