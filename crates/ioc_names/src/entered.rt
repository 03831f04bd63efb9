//! The result of entering a name.
use crate::record_no::RecordNo;

/// The result of entering a name.
#[derive(Clone, Copy, PartialEq, Eq, Debug)]
pub enum Entered {
    /// The record with this number had the name already; nothing has changed.
    Before(RecordNo),
    /// A new record with this number has the name.
    Now(RecordNo),
}
