//! All checks of a site.
use ioc_site::{Finding, Place, Reading};
use ioc_site_fields::gather;
use ioc_site_links::{
    check_calculations, check_cycles, check_devices, check_numbers, check_unprocessed, follow_links,
};
use ioc_site_records::Report;
use std::alloc::{AllocError, Global};

// Warns of files that have no record, though nothing is wrong with their text.
fn check_emptiness(reading: &Reading, report: &mut Report) -> Result<(), AllocError> {
    if !reading.statements.is_empty() || !reading.findings.is_empty() {
        return Ok(());
    }
    let place = Place {
        file: 0,
        line: 1,
        column: 1,
    };
    let text = String::from_str(report.alloc, "there is no record in the database")?;
    report.warning(place, text)
}

/// Returns what the statements get wrong by the rules of this project, and what in them is worth a
/// look. What is wrong with the text itself is in [`Reading::findings`].
///
/// # Errors
///
/// [`AllocError`] if allocation fails.
pub fn check(alloc: Global, reading: &Reading) -> Result<Vec<Finding>, AllocError> {
    let mut report = Report::new(alloc, reading)?;
    let site = gather(reading, &mut report)?;
    check_emptiness(reading, &mut report)?;
    check_devices(&site, &mut report)?;
    check_numbers(&site, &mut report)?;
    let followed = follow_links(&site, &mut report)?;
    check_calculations(&site, followed.leads.as_slice(), &mut report)?;
    check_cycles(&site, followed.leads.as_slice(), &mut report)?;
    check_unprocessed(&site, &followed, &mut report)?;
    Ok(report.into_findings())
}

// Returns the place in the order in which findings are shown.
fn order_of(place: Place) -> (u32, u32, u32) {
    (place.file, place.line, place.column)
}

/// Puts findings in the order of their files, lines and columns.
///
/// # Errors
///
/// [`AllocError`] if allocation fails.
pub fn put_in_order(alloc: Global, findings: &mut Vec<Finding>) -> Result<(), AllocError> {
    findings
        .as_mut_slice()
        .sort_by_key(alloc, |finding| order_of(finding.place))
}
