//! A site's database files as they are written: files, places, words and statements, and what is
//! found in them.
#![tactic(auto)]

mod finding;
mod place;
mod statement;

pub use finding::{Finding, Severity};
pub use place::{Place, Word};
pub use statement::{Entry, EntryKind, Reading, RecordText, SourceText, Statement};
