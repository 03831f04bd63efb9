//! The steps of processing that a store is told of.
use ioc_dbcommon::{Got, StandingLink};
use ioc_ledger::Outcome;
use ioc_names::RecordNo;
use ioc_values::{Finished, Value};

/// A step of processing. Every step that begins is followed by the one that ends it, and what comes
/// between them was caused by it.
#[derive(Clone, Copy)]
pub enum TraceStep<'a> {
    /// A request of the record begins.
    Requested(RecordNo),
    /// The request of the record has ended with this outcome.
    Ended(RecordNo, Outcome),
    /// The device of the record has given its late answer, and the body of the record continues.
    Completes(RecordNo, &'a Finished),
    /// The body of the record that has continued with a late answer has ended.
    Completed(RecordNo),
    /// The record has read through a link.
    Read {
        reader: RecordNo,
        link: &'a StandingLink,
        /// The value, or a fault if the value of the field doesn't convert.
        got: &'a Got,
    },
    /// The record has written a value through a link.
    Written {
        writer: RecordNo,
        link: &'a StandingLink,
        value: &'a Value,
        /// Whether the value is stored. It is not if it doesn't fit.
        is_stored: bool,
    },
    /// The alarm that the record has raised becomes the one that it shows.
    ShowsAlarm(RecordNo),
}
