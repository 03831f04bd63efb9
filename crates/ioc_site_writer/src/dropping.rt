//! What is left out of the text that is written.
use ioc_site::{Finding, Severity, Word};
use ioc_values::BadDbKind;
use std::alloc::{AllocError, Global};

/// Why something is left out.
#[derive(Clone, Copy, Debug, PartialEq, Eq)]
pub enum Reason {
    /// EPICS has the field, and this project doesn't.
    LeftOut,
    /// EPICS has the type of the record, and this project doesn't.
    LeftOutType,
    /// It belongs to a record that is left out.
    OfDropped,
    /// EPICS doesn't have the type of the record either.
    UnknownType,
    /// A text in it would begin a macro.
    BeginsMacro,
    /// A text in it has a byte 0, which EPICS ends texts by.
    HasZero,
    /// A database text can't have it.
    Refused(BadDbKind),
}

// Returns the words for a reason.
fn words_for(reason: Reason) -> &'static str {
    match reason {
        Reason::LeftOut => "known to EPICS and left out here",
        Reason::LeftOutType => "its type is known to EPICS and left out here",
        Reason::OfDropped => "its record is dropped",
        Reason::UnknownType => "its type is unknown",
        Reason::BeginsMacro => "its text begins a macro",
        Reason::HasZero => "its text has a byte that is 0",
        Reason::Refused(kind) => kind.words(),
    }
}

/// What is left out: the first word of its statement or entry, and its name.
#[derive(Clone, Copy)]
pub struct Subject<'a> {
    pub word: &'static str,
    pub name: &'a Word,
}

impl Subject<'_> {
    /// Returns the warning that this is left out.
    ///
    /// # Errors
    ///
    /// [`AllocError`] if allocation fails.
    pub fn dropped(&self, alloc: Global, reason: Reason) -> Result<Finding, AllocError> {
        let mut text = Vec::new(alloc);
        text.extend_from_slice(b"dropped ")?;
        text.extend_from_slice(self.word.as_bytes())?;
        text.push(b'(')?;
        text.extend_from_slice(self.name.text.as_slice())?;
        text.extend_from_slice(b"): ")?;
        text.extend_from_slice(words_for(reason).as_bytes())?;
        Ok(Finding {
            severity: Severity::Warning,
            place: self.name.place,
            text,
        })
    }
}
