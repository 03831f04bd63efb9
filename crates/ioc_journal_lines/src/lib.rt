//! The lines of a journal's file that are no entries: the header, with which it begins, the saved values
//! that its run has taken, its seals, and its end. docs/JOURNAL.md describes them.
#![tactic(auto)]

mod base;
mod digest;
mod ending;
mod header;
mod seal;
mod words;

pub use base::{add_base, base_of};
pub use ending::{add_end, end_of};
pub use header::{Header, add_header, header_of};
pub use seal::{Seals, add_seal, database_hash, seal_of};
