//! The list of what is found.
use indexmap::IndexSet;
use ioc_site::{Finding, Place, Reading, Severity};
use std::alloc::{AllocError, Global};

/// A line of a file.
#[derive(Clone, Copy, PartialEq, Eq, Hash)]
struct Line {
    file: u32,
    line: u32,
}

/// What is found, in the order in which it is found.
#[derive(Drop)]
pub struct Report {
    pub alloc: Global,
    pub findings: Vec<Finding>,
    /// Whether there may be more records than those that were gathered so far.
    pub lacks_records: bool,
    /// The names of which it is reported that no record has them, or can have them.
    refused_names: Vec<Vec<u8>>,
    /// The lines whose words aren't known, since macros of them can't be replaced.
    refused: IndexSet<Line>,
}

// Returns the line of a place.
fn line_of(place: Place) -> Line {
    Line {
        file: place.file,
        line: place.line,
    }
}

impl Report {
    /// Creates an empty report on what was read.
    ///
    /// # Errors
    ///
    /// [`AllocError`] if allocation fails.
    pub fn new(alloc: Global, reading: &Reading) -> Result<Self, AllocError> {
        let mut refused = IndexSet::new(alloc);
        for finding in reading
            .findings
            .iter()
            .filter(|finding| finding.hides_line())
        {
            refused.insert(line_of(finding.place))?;
        }
        Ok(Report {
            alloc,
            findings: Vec::new(alloc),
            lacks_records: false,
            refused_names: Vec::new(alloc),
            refused,
        })
    }

    /// Notes that no record has this name, or can have it. That is reported once. A macro in it that can't
    /// be replaced hides the names of records.
    ///
    /// # Errors
    ///
    /// [`AllocError`] if allocation fails.
    pub fn refuse_name(&mut self, name: &[u8]) -> Result<(), AllocError> {
        if name.contains(&b'$') {
            self.lacks_records = true;
        }
        if !self.is_refused_name(name) {
            self.refused_names.push(name.to_vec(self.alloc)?)?;
        }
        Ok(())
    }

    /// Returns whether it is reported that no record has this name.
    pub fn is_refused_name(&self, name: &[u8]) -> bool {
        self.refused_names
            .iter()
            .any(|refused| refused.as_slice() == name)
    }

    /// Returns whether a link begins with a name of which it is reported that no record can have it.
    pub fn begins_refused(&self, link: &[u8]) -> bool {
        self.refused_names.iter().any(|refused| {
            let begins = !refused.is_empty() && link.starts_with(refused.as_slice());
            begins && matches!(link.get(refused.len()), None | Some(b' ' | b'\t' | b'.'))
        })
    }

    // Adds a finding, but not on a line whose macros can't be replaced: its words aren't known.
    fn add(&mut self, severity: Severity, place: Place, text: String) -> Result<(), AllocError> {
        if self.refused.contains(&line_of(place)) {
            return Ok(());
        }
        self.findings.push(Finding {
            severity,
            place,
            text: text.into_bytes(),
        })?;
        Ok(())
    }

    /// Returns what is found.
    pub fn into_findings(self) -> Vec<Finding> {
        let Report { findings, .. } = self;
        findings
    }

    /// Adds a mistake.
    ///
    /// # Errors
    ///
    /// [`AllocError`] if allocation fails.
    pub fn error(&mut self, place: Place, text: String) -> Result<(), AllocError> {
        self.add(Severity::Error, place, text)
    }

    /// Adds something that is worth a look.
    ///
    /// # Errors
    ///
    /// [`AllocError`] if allocation fails.
    pub fn warning(&mut self, place: Place, text: String) -> Result<(), AllocError> {
        self.add(Severity::Warning, place, text)
    }
}
