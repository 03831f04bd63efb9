//! The types of records and the fields that they have.
use crate::values::accepts;
use ioc_fields::{FieldNo, RecordType, Row, field, name_of, row_of};
use ioc_site::{Entry, EntryKind, RecordText, Word};
use ioc_site_records::{
    Instead, Meant, Report, Setting, Shown, Site, SiteRecord, left_out_field, left_out_type,
    settable_names, types,
};
use ioc_spelling::nearest;
use std::alloc::AllocError;

/// Returns the type of a statement, and reports a word that names none.
///
/// # Errors
///
/// [`AllocError`] if allocation fails.
pub fn checked_type(
    statement: &RecordText,
    report: &mut Report,
) -> Result<Option<RecordType>, AllocError> {
    let word = &statement.record_type;
    let name = word.text.as_slice();
    if let Some(record_type) = RecordType::from_name(name) {
        return Ok(Some(record_type));
    }
    let shown = Shown(name);
    let text = if let Some(instead) = left_out_type(name) {
        let instead = Instead(instead);
        format!(in report.alloc;
            "record type '{shown}' is known to EPICS and left out here{instead}"
        )?
    } else if let Some(swapped) = RecordType::from_name(statement.name.text.as_slice()) {
        let swapped = swapped.name();
        format!(in report.alloc;
            "record type '{shown}' is unknown; write record({swapped}, \"{shown}\")"
        )?
    } else {
        let meant = Meant(nearest(report.alloc, name, types())?);
        format!(in report.alloc; "record type '{shown}' is unknown{meant}")?
    };
    report.error(word.place, text)?;
    Ok(None)
}

// Reports that a record of this type has no such field.
fn report_unknown(
    record: &mut SiteRecord<'_>,
    record_type: RecordType,
    word: &Word,
    report: &mut Report,
) -> Result<(), AllocError> {
    if record.has_two_types {
        return Ok(());
    }
    let name = word.text.as_slice();
    let (shown, owner) = (Shown(name), Shown(record.name.text.as_slice()));
    let kind = record_type.name();
    let text = if let Some(instead) = left_out_field(record_type, name) {
        let instead = Instead(instead);
        format!(in report.alloc;
            "field {shown} of record {owner} ({kind}) is known to EPICS and left out here{instead}"
        )?
    } else {
        record.has_unknown_field = true;
        let names = settable_names(report.alloc, record_type)?;
        let meant = Meant(nearest(report.alloc, name, names.as_slice())?);
        format!(in report.alloc; "record {owner} ({kind}) has no field {shown}{meant}")?
    };
    report.error(word.place, text)
}

// Returns the field that the word names in a record of this type, with its row, and reports a word
// that names none that can be set.
fn checked_field(
    record: &mut SiteRecord<'_>,
    record_type: RecordType,
    word: &Word,
    report: &mut Report,
) -> Result<Option<(FieldNo, Row)>, AllocError> {
    let Some(found) = field(record_type, word.text.as_slice()) else {
        report_unknown(record, record_type, word, report)?;
        return Ok(None);
    };
    let Some(row) = row_of(record_type, found) else {
        return Ok(None);
    };
    if row.can_set {
        return Ok(Some((found, row)));
    }
    let (shown, owner) = (name_of(found), Shown(record.name.text.as_slice()));
    let text = format!(in report.alloc;
        "field {shown} of record {owner} can't be set in a database text; leave it out"
    )?;
    report.error(word.place, text)?;
    Ok(None)
}

// Reports a field that the same body sets twice.
fn report_twice(
    record: &SiteRecord<'_>,
    word: &Word,
    before: &Setting<'_>,
    report: &mut Report,
) -> Result<(), AllocError> {
    let owner = Shown(record.name.text.as_slice());
    let (shown, line) = (name_of(before.field), before.value.place.line);
    let text = format!(in report.alloc;
        "field {shown} of record {owner} is set on line {line} too, and this value stands"
    )?;
    report.warning(word.place, text)
}

// Sets the field of an entry, or returns `false` if something is wrong with it.
fn set_entry<'a>(
    record: &mut SiteRecord<'a>,
    record_type: RecordType,
    statement: usize,
    entry: &'a Entry,
    report: &mut Report,
) -> Result<bool, AllocError> {
    let Some((field, row)) = checked_field(record, record_type, &entry.name, report)? else {
        return Ok(false);
    };
    let value = &entry.value;
    if !accepts(record, record_type, (field, row.kind), value, report)? {
        return Ok(false);
    }
    let setting = Setting {
        field,
        value,
        statement,
    };
    if let Some(before) = record.set(setting)? {
        if before.statement == statement {
            report_twice(record, &entry.name, &before, report)?;
        }
    }
    Ok(true)
}

/// Sets the field of an entry in the body of a record, and reports what is wrong with it.
///
/// # Errors
///
/// [`AllocError`] if allocation fails.
pub fn add_entry<'a>(
    site: &mut Site<'a>,
    number: usize,
    statement: usize,
    entry: &'a Entry,
    report: &mut Report,
) -> Result<(), AllocError> {
    if entry.kind == EntryKind::Info {
        return Ok(());
    }
    let Some(record) = site.records.get_mut(number) else {
        return Ok(());
    };
    let is_set = match record.record_type {
        Some(record_type) => set_entry(record, record_type, statement, entry, report)?,
        None => false,
    };
    if !is_set {
        record.is_faulty = true;
        site.suspects.push(&entry.value)?;
    }
    Ok(())
}
