//! The records of all statements of a site.
use crate::names::{add_alias, add_alias_of, opened};
use crate::types_and_fields::add_entry;
use ioc_site::{Reading, RecordText, Statement};
use ioc_site_records::{Report, Site};
use std::alloc::AllocError;

// Adds the values of a statement whose record isn't known: they may be links.
fn add_suspects<'a>(site: &mut Site<'a>, text: &'a RecordText) -> Result<(), AllocError> {
    for entry in text.entries.iter() {
        site.suspects.push(&entry.value)?;
    }
    Ok(())
}

// Notes whether there may be more records above the statement with this number.
fn note_loss(reading: &Reading, number: usize, report: &mut Report) {
    if reading.first_loss.is_some_and(|first| first <= number) {
        report.lacks_records = true;
    }
}

// Adds what the statement says of its record.
fn add_statement<'a>(
    site: &mut Site<'a>,
    statement: usize,
    text: &'a RecordText,
    report: &mut Report,
) -> Result<(), AllocError> {
    let Some(number) = opened(site, text, report)? else {
        return add_suspects(site, text);
    };
    if text.lacks_entries {
        site.lacks_entries = true;
        site.mark_faulty(number);
    }
    for entry in text.entries.iter() {
        add_entry(site, number, statement, entry, report)?;
    }
    for alias in text.aliases.iter() {
        add_alias(site, number, alias, report)?;
    }
    Ok(())
}

/// Gathers the records of all statements, and reports what is wrong with each statement by itself.
///
/// # Errors
///
/// [`AllocError`] if allocation fails.
pub fn gather<'a>(reading: &'a Reading, report: &mut Report) -> Result<Site<'a>, AllocError> {
    let mut site = Site::new(report.alloc, reading.files.as_slice());
    for (number, statement) in reading.statements.iter().enumerate() {
        note_loss(reading, number, report);
        match statement {
            Statement::Record(text) => add_statement(&mut site, number, text, report)?,
            Statement::Alias { record, alias } => {
                add_alias_of(&mut site, record, alias, report)?;
            }
            Statement::Skipped(_) => {}
        }
    }
    note_loss(reading, reading.statements.len(), report);
    Ok(site)
}
