//! What is found in files.
use crate::place::Place;

/// How bad a finding is.
#[derive(Clone, Copy, Debug, PartialEq, Eq)]
pub enum Severity {
    Error,
    Warning,
}

/// A mistake, or something that is worth a look.
#[derive(Debug, Drop)]
pub struct Finding {
    pub severity: Severity,
    pub place: Place,
    /// What it is and what to do, without the place and without a line feed.
    pub text: Vec<u8>,
}

/// What texts of findings begin with that hide what else is on their lines.
const HIDING: [&[u8]; 5] = [
    b"macro ",
    b"macros lie",
    b"the macro isn't closed",
    b"a byte that is 0",
    b"a carriage return",
];

impl Finding {
    /// Returns whether the words of its line aren't known: a macro among them can't be replaced, or a byte is
    /// none of a text.
    pub fn hides_line(&self) -> bool {
        HIDING
            .iter()
            .any(|front| self.text.as_slice().starts_with(*front))
    }
}
