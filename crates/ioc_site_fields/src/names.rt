//! The names of records: which are allowed, and which are taken.
use crate::types_and_fields::checked_type;
use ioc_site::{RecordText, Word};
use ioc_site_records::{Report, Shown, Site};
use ioc_values::MAX_NAME_BYTES;
use std::alloc::AllocError;
use std::fmt;

/// The maximal number of records of a database.
const MAX_RECORDS: usize = 131_072;

/// Why a text is no name of a record.
#[derive(Clone, Copy)]
pub enum NameFault {
    Empty,
    /// It has this many bytes.
    Long(usize),
    /// This byte isn't allowed in it.
    Byte(u8),
}

impl fmt::Display for NameFault {
    fn fmt<W: fmt::Write>(&self, f: &mut fmt::Formatter<W>) -> fmt::Result {
        match self {
            NameFault::Empty => f.write_str("a name has at least one byte"),
            NameFault::Long(count) => {
                write!(
                    f,
                    "it has {count} bytes, and a name at most {MAX_NAME_BYTES}"
                )
            }
            NameFault::Byte(b) => write!(f, "'{}' isn't allowed in a name", Shown(&[*b])),
        }
    }
}

// Returns whether a name can have the byte.
fn is_name_byte(b: u8) -> bool {
    b.is_ascii_graphic() && !matches!(b, b'"' | b'$' | b'\'' | b'.')
}

/// Returns why the text is no name of a record, or `None` if it is one.
pub fn name_fault(name: &[u8]) -> Option<NameFault> {
    if name.is_empty() {
        return Some(NameFault::Empty);
    }
    for b in name {
        if !is_name_byte(*b) {
            return Some(NameFault::Byte(*b));
        }
    }
    if name.len() > MAX_NAME_BYTES {
        return Some(NameFault::Long(name.len()));
    }
    None
}

// Reports a text that is no name of a record, and returns whether it is one.
fn is_name(word: &Word, report: &mut Report) -> Result<bool, AllocError> {
    let Some(fault) = name_fault(word.text.as_slice()) else {
        return Ok(true);
    };
    let name = Shown(word.text.as_slice());
    let text = format!(in report.alloc; "'{name}' is no name of a record: {fault}")?;
    report.error(word.place, text)?;
    report.refuse_name(word.text.as_slice())?;
    Ok(false)
}

// Reports that there is no record of this name, unless there may be one, or that is reported already.
fn report_no_record(word: &Word, rest: &str, report: &mut Report) -> Result<(), AllocError> {
    let name = word.text.as_slice();
    if report.lacks_records || report.is_refused_name(name) || !is_name(word, report)? {
        return Ok(());
    }
    let shown = Shown(name);
    let text = format!(in report.alloc; "there is no record {shown} above {rest}")?;
    report.error(word.place, text)?;
    report.refuse_name(name)
}

// Finds the record that a statement continues.
fn continued(
    site: &Site<'_>,
    name: &Word,
    report: &mut Report,
) -> Result<Option<usize>, AllocError> {
    if let Some(named) = site.find(name.text.as_slice()) {
        return Ok(Some(named.record));
    }
    report_no_record(name, "to go on with", report)?;
    Ok(None)
}

// Adds a record whose name isn't taken.
fn added<'a>(
    site: &mut Site<'a>,
    statement: &'a RecordText,
    report: &mut Report,
) -> Result<Option<usize>, AllocError> {
    let word = &statement.record_type;
    let record_type = checked_type(statement, report)?;
    if site.records.len() == MAX_RECORDS {
        let text = format!(in report.alloc; "this is more than {MAX_RECORDS} records")?;
        report.error(statement.place, text)?;
    }
    let number = site.add(&statement.name, word, record_type)?;
    if !is_name(&statement.name, report)? {
        site.mark_faulty(number);
    }
    Ok(Some(number))
}

// Warns of a record whose name is an alias of another one.
fn warn_of_alias(
    site: &Site<'_>,
    name: &Word,
    record: usize,
    report: &mut Report,
) -> Result<(), AllocError> {
    let Some(owner) = site.records.get(record) else {
        return Ok(());
    };
    let (shown, holder) = (
        Shown(name.text.as_slice()),
        Shown(owner.name.text.as_slice()),
    );
    let at = site.at(owner.name.place);
    let text = format!(in report.alloc;
        "{shown} is an alias of record {holder} of {at}, and no record of its own; its fields are set there"
    )?;
    report.warning(name.place, text)
}

// Reports a statement whose type isn't that of its record, unless something else is wrong with one of the
// types.
fn report_two_types(
    site: &mut Site<'_>,
    number: usize,
    statement: &RecordText,
    report: &mut Report,
) -> Result<(), AllocError> {
    let Some(before) = site.records.get(number) else {
        return Ok(());
    };
    if before.record_type.is_none() || checked_type(statement, report)?.is_none() {
        return Ok(());
    }
    let kind = Shown(before.type_word.text.as_slice());
    let shown = Shown(statement.name.text.as_slice());
    let other = Shown(statement.record_type.text.as_slice());
    let at = site.at(before.name.place);
    let text = format!(in report.alloc;
        "record {shown} is of type {kind} since {at}, and can't be of type {other} too"
    )?;
    report.error(statement.name.place, text)
}

/// Finds or adds the record of a statement, and returns its number. Returns `None` if the statement
/// continues no record, or one of another type.
///
/// # Errors
///
/// [`AllocError`] if allocation fails.
pub fn opened<'a>(
    site: &mut Site<'a>,
    statement: &'a RecordText,
    report: &mut Report,
) -> Result<Option<usize>, AllocError> {
    let name = statement.name.text.as_slice();
    let type_name = statement.record_type.text.as_slice();
    if type_name == b"*".as_slice() {
        return continued(site, &statement.name, report);
    }
    let Some(named) = site.find(name) else {
        return added(site, statement, report);
    };
    let Some(before) = site.records.get(named.record) else {
        return Ok(None);
    };
    if before.type_word.text.as_slice() == type_name {
        if named.alias.is_some() {
            warn_of_alias(site, &statement.name, named.record, report)?;
        }
        return Ok(Some(named.record));
    }
    report_two_types(site, named.record, statement, report)?;
    if let Some(record) = site.records.get_mut(named.record) {
        record.is_faulty = true;
        record.has_two_types = true;
    }
    Ok(None)
}

/// Adds a second name of the record with this number.
///
/// # Errors
///
/// [`AllocError`] if allocation fails.
pub fn add_alias<'a>(
    site: &mut Site<'a>,
    record: usize,
    alias: &'a Word,
    report: &mut Report,
) -> Result<(), AllocError> {
    if !is_name(alias, report)? {
        return Ok(());
    }
    let name = alias.text.as_slice();
    let Some(named) = site.find(name) else {
        return site.add_alias(record, alias);
    };
    let Some(owner) = site.records.get(named.record) else {
        return Ok(());
    };
    let (shown, holder) = (Shown(name), Shown(owner.name.text.as_slice()));
    let at = site.at(owner.name.place);
    let text = format!(in report.alloc;
        "alias {shown} is taken: it names record {holder} of {at}"
    )?;
    report.error(alias.place, text)
}

/// Adds the second name of a statement `alias(RECORD, ALIAS)`.
///
/// # Errors
///
/// [`AllocError`] if allocation fails.
pub fn add_alias_of<'a>(
    site: &mut Site<'a>,
    record: &Word,
    alias: &'a Word,
    report: &mut Report,
) -> Result<(), AllocError> {
    if let Some(named) = site.find(record.text.as_slice()) {
        return add_alias(site, named.record, alias, report);
    }
    report_no_record(record, "for an alias", report)?;
    report.refuse_name(alias.text.as_slice())
}
