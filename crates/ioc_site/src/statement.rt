//! The statements of database files.
use crate::finding::Finding;
use crate::place::{Place, Word};

/// What an entry of a record is.
#[derive(Clone, Copy, Debug, PartialEq, Eq)]
pub enum EntryKind {
    Field,
    Info,
}

/// `field(NAME, VALUE)` or `info(NAME, VALUE)` in the body of a record.
#[derive(Debug, Drop)]
pub struct Entry {
    pub kind: EntryKind,
    pub name: Word,
    /// A value in JSON is its text as it stands, with `quoted` false.
    pub value: Word,
}

/// `record(TYPE, NAME) { .. }`. The type `*` continues a record.
#[derive(Debug, Drop)]
pub struct RecordText {
    /// Where the word `record` or `grecord` stands.
    pub place: Place,
    pub record_type: Word,
    pub name: Word,
    pub entries: Vec<Entry>,
    pub aliases: Vec<Word>,
    /// Whether an entry of the body couldn't be read.
    pub lacks_entries: bool,
}

/// A statement of a database file.
#[derive(Debug, Drop)]
pub enum Statement {
    Record(RecordText),
    /// `alias(RECORD, ALIAS)`.
    Alias { record: Word, alias: Word },
    /// A statement that EPICS knows and that has no part in records, by its first word.
    Skipped(Word),
}

/// A file that the command line names, as it is written.
#[derive(Debug, Drop)]
pub struct SourceText {
    /// Its number, as [`Place::file`].
    pub file: u32,
    /// Whether it is a substitution file.
    pub has_sets: bool,
    pub text: Vec<u8>,
}

/// What the files of a run have in them, in the order in which it stands there.
#[derive(Debug, Drop)]
pub struct Reading {
    /// The files' names, by [`Place::file`].
    pub files: Vec<Vec<u8>>,
    /// The files that the command line names.
    pub texts: Vec<SourceText>,
    pub statements: Vec<Statement>,
    /// What is wrong with the text.
    pub findings: Vec<Finding>,
    /// How many statements stand before the first place at which a file or a statement couldn't be read, so
    /// that there may be more records.
    pub first_loss: Option<usize>,
}
