//! Statements that EPICS knows and this project leaves out.
use ioc_site::{Finding, Severity, Statement};
use std::alloc::{AllocError, Global};

/// What a user may do about a statement that is left out.
#[derive(Clone, Copy, PartialEq, Eq, Debug)]
pub enum WayOut {
    /// `--adapt` drops it.
    Adapt,
    /// The file is to be one of `-d` for that.
    AdaptByName,
    /// It isn't in the text that is written.
    Written,
}

impl WayOut {
    // Returns how bad such a statement is, and what is said of it behind its name.
    fn words(self) -> (Severity, &'static str) {
        match self {
            WayOut::Adapt => (Severity::Error, "is left out here; --adapt drops it"),
            WayOut::AdaptByName => (
                Severity::Error,
                "is left out here; drop it, or name the file by -d beside --adapt",
            ),
            WayOut::Written => (Severity::Warning, "is left out here; it is dropped"),
        }
    }
}

/// Adds a finding for each statement that this project leaves out.
///
/// # Errors
///
/// [`AllocError`] if allocation fails.
pub fn add_skipped(
    alloc: Global,
    statements: &[Statement],
    way_out: WayOut,
    all: &mut Vec<Finding>,
) -> Result<(), AllocError> {
    let (severity, said) = way_out.words();
    for statement in statements {
        if let Statement::Skipped(word) = statement {
            let shown = String::from_utf8_lossy(alloc, word.text.as_slice())?;
            let text = format!(in alloc; "statement {shown} {said}")?;
            all.push(Finding {
                severity,
                place: word.place,
                text: text.into_bytes(),
            })?;
        }
    }
    Ok(())
}
