//! Reads a site's database files as EPICS Base reads them: statements, includes and substitution
//! files. Every mistake is found at its place, and reading goes on behind it.
#![tactic(auto)]

mod entries;
mod files;
mod first_words;
mod reader;
mod sources;
mod statements;
mod substitutions;
mod words;

pub use ioc_site_lines::{Definition, Definitions, parse_definitions};
pub use reader::{Request, read_each, read_files};
pub use sources::Sources;
pub use substitutions::is_substitution_file;
