//! What is said of a database, and whether it loads.
ghost use Rattle.std.specs.Prelude.{◌≡◌, ◌<◌, IfOk, true, false};
ghost use Rattle.ioc_site_writer.specs.Loads.{LoadsWith};

use crate::instances::told_once;
use crate::printing::Counts;
use crate::refusing::told_of_refusal;
use ioc_dblex::Macros;
use ioc_site::{Finding, Severity, SourceText};
use ioc_site_rules::put_in_order;
use ioc_site_writer::refusal;
use std::alloc::{AllocError, Global};

/// What is said of a database.
#[derive(Drop)]
pub struct Verdict {
    /// What is found, in the order of its places. What several records have at one place is said once.
    pub findings: Vec<Finding>,
    /// There is no error in it if the database loads, and only then.
    pub counts: Counts,
}

// Returns the warnings among what is found.
fn warnings_among(alloc: Global, all: Vec<Finding>) -> Result<Vec<Finding>, AllocError> {
    let mut warnings = Vec::new(alloc);
    for finding in all {
        if finding.severity == Severity::Warning {
            warnings.push(finding)?;
        }
    }
    Ok(warnings)
}

impl Verdict {
    /// Returns the verdict on a database in which this is found, and which the load refuses or takes. What is
    /// found of one that it takes is no error.
    ///
    /// # Errors
    ///
    /// [`AllocError`] if allocation fails.
    pub fn of(alloc: Global, found: Vec<Finding>, is_refused: bool) -> Result<Self, AllocError>
        ensures refused { is_refused ≡ true → IfOk result (λ v. 0 < v.counts.errors) }
        ensures taken { is_refused ≡ false → IfOk result (λ v. v.counts.errors ≡ 0) }
    {
        let mut found = if is_refused {
            found
        } else {
            warnings_among(alloc, found)?
        };
        put_in_order(alloc, &mut found)?;
        let findings = told_once(alloc, found)?;
        let counts = Counts::of(findings.as_slice());
        let counts = if is_refused {
            counts.with_least(1)
        } else {
            counts.without_errors()
        };
        Ok(Verdict { findings, counts })
    }
}

/// Judges a text that is loaded alone, with these macros. There is no error exactly if the load takes it. If
/// the load refuses it, no error stands before the load's line, but for those that say why it is refused; if
/// there is none, the refusal is an error at its place.
///
/// # Errors
///
/// [`AllocError`] if allocation fails.
pub fn judged_text(
    alloc: Global,
    source: &SourceText,
    macros: &Macros,
    found: Vec<Finding>,
) -> Result<Verdict, AllocError>
    ensures loads { IfOk result (λ v. v.counts.errors ≡ 0 → LoadsWith macros.now source.now.text.items) }
    ensures loaded { IfOk result (λ v. LoadsWith macros.now source.now.text.items → v.counts.errors ≡ 0) }
{
    match refusal(alloc, source.text.as_slice(), macros)? {
        None => Verdict::of(alloc, found, false),
        Some(fault) => {
            let told = told_of_refusal(alloc, source, fault, found)?;
            Verdict::of(alloc, told, true)
        }
    }
}
