//! The journal of an engine as a text file: one line for each entry, which reads back as the same
//! entry. docs/JOURNAL.md describes the lines.
#![tactic(auto)]

mod base;
mod bits;
mod calls;
mod entries;
mod kinds;
mod line;
mod line_error;
mod links;
mod lists;
mod next_file;
mod numbers;
mod replies;
mod texts;
mod values;
mod words;

pub use base::{BaseItem, HiddenState, Part, add_item, add_part, item_of};
pub use entries::{add_entries, add_entry};
pub use line::{Line, Mark, parse, print, print_entry};
pub use line_error::LineError;
pub use next_file::{NextFile, add_next, next_of};
