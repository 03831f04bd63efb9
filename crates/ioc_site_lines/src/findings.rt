//! What is found in the files so far.
use ioc_site::{Finding, Place, Severity};
use std::alloc::{AllocError, Global};

/// The most findings. There is one more behind them, which says that the others are left out.
const MOST_FINDINGS: usize = 10_000;

/// The most bytes of a text that a message shows.
const MOST_SHOWN: usize = 40;

/// Returns the bytes at the front that a message shows.
pub fn shown(text: &[u8]) -> &[u8] {
    text.get(..MOST_SHOWN).unwrap_or(text)
}

/// Appends the parts of a text, one after the other.
fn extend(text: &mut Vec<u8>, parts: &[&[u8]]) -> Result<(), AllocError> {
    for part in parts {
        text.extend_from_slice(part)?;
    }
    Ok(())
}

/// Returns a text of these parts.
///
/// # Errors
///
/// [`AllocError`] if allocation fails.
pub fn joined(alloc: Global, parts: &[&[u8]]) -> Result<Vec<u8>, AllocError> {
    let mut text = Vec::new(alloc);
    extend(&mut text, parts)?;
    Ok(text)
}

/// The findings so far.
#[derive(Drop)]
pub struct Findings {
    alloc: Global,
    list: Vec<Finding>,
}

impl Findings {
    /// Begins with nothing found.
    pub fn new(alloc: Global) -> Self {
        Findings {
            alloc,
            list: Vec::new(alloc),
        }
    }

    /// Returns whether a finding says the same at the same place, as of a template that is read
    /// with other macros.
    fn has(&self, place: Place, text: &[u8]) -> bool {
        for finding in &self.list {
            if finding.place == place && finding.text.as_slice() == text {
                return true;
            }
        }
        false
    }

    /// Returns whether the words of the line of a place aren't known.
    fn is_refused(&self, place: Place) -> bool {
        for finding in &self.list {
            if (finding.place.file, finding.place.line) == (place.file, place.line)
                && finding.hides_line()
            {
                return true;
            }
        }
        false
    }

    /// Adds an error with this text, once at a place. On a line whose words aren't known no other is added
    /// than what says why.
    ///
    /// # Errors
    ///
    /// [`AllocError`] if allocation fails.
    pub fn report_text(&mut self, place: Place, text: Vec<u8>) -> Result<(), AllocError> {
        let count = self.list.len();
        if count > MOST_FINDINGS || self.has(place, text.as_slice()) {
            return Ok(());
        }
        let text = if count < MOST_FINDINGS {
            text
        } else {
            joined(
                self.alloc,
                &[b"there are more mistakes; mend these and check again"],
            )?
        };
        let severity = Severity::Error;
        let finding = Finding {
            severity,
            place,
            text,
        };
        if finding.hides_line() || !self.is_refused(place) {
            self.list.push(finding)?;
        }
        Ok(())
    }

    /// Adds an error whose text has these parts, once at a place.
    ///
    /// # Errors
    ///
    /// [`AllocError`] if allocation fails.
    pub fn report(&mut self, place: Place, parts: &[&[u8]]) -> Result<(), AllocError> {
        let text = joined(self.alloc, parts)?;
        self.report_text(place, text)
    }

    /// Returns what was found.
    pub fn into_list(self) -> Vec<Finding> {
        self.list
    }
}
