//! What `ioc` prints of records: replies, names that a pattern stands for, types, lock sets, and the line of
//! a record.
#![tactic(auto)]

mod listing;
mod moment;
mod pattern;
mod record_line;

pub use listing::{
    RecordList, add_count, add_field, add_named, add_placed, add_reply, add_shown, add_tagged,
};
pub use moment::file_name;
pub use record_line::add_line;
