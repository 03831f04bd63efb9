//! Places in files, and words with their places.

/// Where something begins in the files of a run.
#[derive(Clone, Copy, Debug, PartialEq, Eq)]
pub struct Place {
    /// The number of the file among those that were read, from 0.
    pub file: u32,
    /// The line, from 1.
    pub line: u32,
    /// The byte of its line, from 1.
    pub column: u32,
}

/// A word or a quoted text, with its macros replaced and without its quotes.
#[derive(Debug, Drop)]
pub struct Word {
    pub text: Vec<u8>,
    /// Where it begins in its file, before macros were replaced.
    pub place: Place,
    pub quoted: bool,
}
