//! What the programs share: the words of a command line, the files that they name, and endings with
//! their statuses and texts.
#![tactic(auto)]

mod command_line;
mod definitions;
mod ending;
mod files;
mod flags;
mod reason;
mod two_files;

pub use command_line::{Program, definitions_argument, file_argument, given, macros_option, parse};
pub use definitions::{define, defined};
pub use ending::{Ending, FileRole, Stage, Stop, Stream, UsageFault, bad_database, unreadable};
pub use files::{open, read_whole, show};
pub use flags::{flag, is_given};
pub use reason::{Reason, is_out_of_memory};
pub use two_files::{TwoFiles, definitions_in, macros_in};
