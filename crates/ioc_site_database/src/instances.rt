//! The same mistake of several records, as of all instances of a template, which is told once.
use ioc_site::Finding;
use std::alloc::{AllocError, Global};
use std::fmt::Write;

/// The most names of records that one finding tells.
const MOST_NAMES: usize = 8;

// What stands before the name of a record that is dropped.
const OPENING: &[u8] = b"record(";

/// A finding, and the records that have the same mistake at its place.
#[derive(Drop)]
struct Told {
    finding: Finding,
    // The name of its record and of the first others, with `, ` between them.
    names: Vec<u8>,
    count: usize,
}

// A text that tells of a record: what stands before and behind its name.
#[derive(Clone, Copy)]
struct OfRecord<'a> {
    before: &'a [u8],
    name: &'a [u8],
    behind: &'a [u8],
}

// Returns the parts of a text that has this name at a place.
fn parts_at<'a>(text: &'a [u8], at: usize, name: &'a [u8]) -> Option<OfRecord<'a>> {
    let end = at.saturating_add(name.len());
    Some(OfRecord {
        before: text.get(..at)?,
        name,
        behind: text.get(end..)?,
    })
}

// Returns the parts of a text that has the word `record` and a name behind it, or `record(NAME)`.
fn parts_of(text: &[u8]) -> Option<OfRecord<'_>> {
    let mut at = 0usize;
    let mut is_next = false;
    for word in text.split(|byte| *byte == b' ') {
        if is_next {
            let name = match word {
                [name @ .., b':' | b','] => name,
                _ => word,
            };
            return parts_at(text, at, name);
        }
        if word.starts_with(OPENING) && word.ends_with(b"):") {
            let name = word.get(OPENING.len()..word.len().saturating_sub(2))?;
            return parts_at(text, at.saturating_add(OPENING.len()), name);
        }
        let end = at.saturating_add(word.len());
        is_next = word == b"record".as_slice();
        at = end.saturating_add(1);
    }
    None
}

// Returns the name of the record that a finding is of, if the other says the same of another one at the
// same place.
fn twin_name<'a>(finding: &'a Finding, told: &Finding) -> Option<&'a [u8]> {
    if finding.place != told.place || finding.severity != told.severity {
        return None;
    }
    let own = parts_of(&finding.text)?;
    let other = parts_of(&told.text)?;
    let is_twin = own.name != other.name
        && own.before == other.before
        && own.behind == other.behind;
    if is_twin { Some(own.name) } else { None }
}

impl Told {
    // Tells a finding.
    fn new(alloc: Global, finding: Finding) -> Result<Self, AllocError> {
        let names = match parts_of(&finding.text) {
            Some(parts) => parts.name.to_vec(alloc)?,
            None => Vec::new(alloc),
        };
        Ok(Told {
            finding,
            names,
            count: 1,
        })
    }

    // Tells it of one more record.
    fn add(&mut self, name: &[u8]) -> Result<(), AllocError> {
        self.count = self.count.saturating_add(1);
        if self.count <= MOST_NAMES {
            self.names.extend_from_slice(b", ")?;
            self.names.extend_from_slice(name)?;
        }
        Ok(())
    }

    // Returns the finding, with the records if there are several.
    fn into_finding(self, alloc: Global) -> Result<Finding, AllocError> {
        let Told {
            mut finding,
            names,
            count,
        } = self;
        if count > 1 {
            let mut text = String::new(alloc);
            write!(text, " ({count} records: ")?;
            finding.text.extend_from_slice(text.as_bytes())?;
            finding.text.extend_from_slice(&names)?;
            let end: &[u8] = if count > MOST_NAMES { b", ..)" } else { b")" };
            finding.text.extend_from_slice(end)?;
        }
        Ok(finding)
    }
}

// Adds a finding to those at its place that say the same, of other records perhaps, if there are any. Returns
// it otherwise.
fn added(told: &mut [Told], finding: Finding) -> Result<Option<Finding>, AllocError> {
    for each in told.iter_mut().rev() {
        if each.finding.place != finding.place {
            break;
        }
        let is_same_text = each.finding.text.as_slice() == finding.text.as_slice();
        if is_same_text && each.finding.severity == finding.severity {
            return Ok(None);
        }
        if let Some(name) = twin_name(&finding, &each.finding) {
            each.add(name)?;
            return Ok(None);
        }
    }
    Ok(Some(finding))
}

/// Returns findings, which are in the order of their places, so that what is said of several records at
/// one place is said once, with their number and the first of their names.
///
/// # Errors
///
/// [`AllocError`] if allocation fails.
pub fn told_once(alloc: Global, findings: Vec<Finding>) -> Result<Vec<Finding>, AllocError> {
    let mut told = Vec::new(alloc);
    for finding in findings {
        if let Some(finding) = added(told.as_mut_slice(), finding)? {
            told.push(Told::new(alloc, finding)?)?;
        }
    }
    let mut all = Vec::new(alloc);
    for each in told {
        all.push(each.into_finding(alloc)?)?;
    }
    Ok(all)
}
