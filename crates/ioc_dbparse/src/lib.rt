//! The statements of a database text, which fill a database, or the first fault.
//!
//! A text is divided into lines, comments are removed and macros are replaced, tokens are read, and
//! statements are passed to a builder. EPICS Application Developer's Guide, "Database Definition".
#![tactic(auto)]

pub mod builder;
mod entries;
pub mod laws;
pub mod loading;
mod statements;
mod words;

pub use builder::{BuildError, Builder};
pub use ioc_dblex::MAX_BYTES;
pub use loading::fill_by_text;
