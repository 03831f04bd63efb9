//! The files in which values of channels are kept over a restart: a line for each value, and `<END>`
//! at the end, as autosave has them.
#![tactic(auto)]

mod block;
mod escapes;
mod fault;
mod file;
mod line;
mod request;
mod value;
mod words;

pub use block::{add_block, blocks_are_read, has_block};
pub use fault::SavedFault;
pub use file::{
    add_saved, begin_saved, cut_files_are_refused, end_saved, parse_saved, saved_files_differ,
    saved_files_read_back, saved_lines_read_back,
};
pub use line::saved_in;
pub use request::{RequestLine, request_line};
pub use value::{MAX_VALUE_BYTES, SavedText, SavedValue};
