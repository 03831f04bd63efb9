//! The command language of scripts, prompts and the console: how each command is written, what a line
//! asks for, what is wrong with a line that asks for nothing, and the line of lock sets.
#![tactic(auto)]

mod bad_line;
mod command;
mod help;
mod layout;
mod parts;
mod quoted;
mod request;
mod sets_line;
mod table;
mod tag;
mod texts;
mod verb;

pub use bad_line::BadLine;
pub use command::{Command, words_of_put};
pub use help::Help;
pub use layout::LayoutFault;
pub use parts::{cut_at, split_before};
pub use quoted::{Quoted, Shown};
pub use request::{MAX_TICKS_OF_A_LINE, Request};
pub use sets_line::{add_to_set, begin_set, begin_sets, end_set, end_sets};
pub use tag::Tagged;
pub use texts::{ReadText, add_escaped_text, add_shown_text, read_text};
pub use verb::{Dialect, Verb};
