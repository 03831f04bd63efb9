//! Limits that are never reached, and doubles that show exponents.
use crate::scanning::choice_in;
use ioc_fields::{FieldNo, OwnField};
use ioc_menus::{Menu, Severity};
use ioc_site::Word;
use ioc_site_records::{FieldOf, Report, Site, SiteRecord};
use ioc_values::double_of_text;
use std::alloc::AllocError;

/// The most digits behind the point that show no exponent.
const MAX_PLAIN_DIGITS: f64 = 8.0;

// Returns the text to which a number is set, and the number.
fn number_in<'a>(record: &SiteRecord<'a>, field: OwnField) -> Option<(&'a Word, f64)> {
    let word = record.value(FieldNo::Own(field))?;
    let number = double_of_text(word.text.as_slice())?;
    Some((word, number.number()))
}

// Returns the limit, if it is set and tested.
fn limit_in<'a>(
    record: &SiteRecord<'a>,
    field: OwnField,
    severity: OwnField,
) -> Option<(&'a Word, f64)> {
    let severity = choice_in(record, FieldNo::Own(severity), Menu::Severity);
    if severity == Severity::NoAlarm.number() {
        return None;
    }
    number_in(record, field)
}

// Reports that the field is beyond another one, which is graver and tested first.
fn warn_of_order(
    record: &SiteRecord<'_>,
    word: &Word,
    field: OwnField,
    beyond: &'static str,
    report: &mut Report,
) -> Result<(), AllocError> {
    let owner = FieldOf {
        field: FieldNo::Own(field),
        record: record.name.text.as_slice(),
    };
    let text = format!(in report.alloc;
        "{owner} is {beyond}, which is tested first, so it never shows"
    )?;
    report.warning(word.place, text)
}

// Reports a HIGH above HIHI, and a LOW below LOLO.
fn check_limits(record: &SiteRecord<'_>, report: &mut Report) -> Result<(), AllocError> {
    let high = limit_in(record, OwnField::High, OwnField::Hsv);
    let hihi = limit_in(record, OwnField::Hihi, OwnField::Hhsv);
    if let (Some((word, inner)), Some((_, outer))) = (high, hihi) {
        if outer < inner {
            warn_of_order(record, word, OwnField::High, "above HIHI", report)?;
        }
    }
    let low = limit_in(record, OwnField::Low, OwnField::Lsv);
    let lolo = limit_in(record, OwnField::Lolo, OwnField::Llsv);
    if let (Some((word, inner)), Some((_, outer))) = (low, lolo) {
        if inner < outer {
            warn_of_order(record, word, OwnField::Low, "below LOLO", report)?;
        }
    }
    Ok(())
}

// Reports a PREC by which every double shows an exponent.
fn check_digits(record: &SiteRecord<'_>, report: &mut Report) -> Result<(), AllocError> {
    let Some((word, digits)) = number_in(record, OwnField::Prec) else {
        return Ok(());
    };
    if digits <= MAX_PLAIN_DIGITS {
        return Ok(());
    }
    let owner = FieldOf {
        field: FieldNo::Own(OwnField::Prec),
        record: record.name.text.as_slice(),
    };
    let text = format!(in report.alloc; "{owner} is above 8, so its doubles show exponents")?;
    report.warning(word.place, text)
}

/// Reports limits that never show, and digits that turn to exponents.
///
/// # Errors
///
/// [`AllocError`] if allocation fails.
pub fn check_numbers(site: &Site<'_>, report: &mut Report) -> Result<(), AllocError> {
    for record in site.records.iter() {
        if !record.is_faulty {
            check_limits(record, report)?;
            check_digits(record, report)?;
        }
    }
    Ok(())
}
