//! The records that the dropped calls of a journal lead to.
use ioc_notify::Waiting;

/// Copies of the records of an engine as they were at a checkpoint, from which the entries that the
/// journal still has lead on.
#[derive(Drop)]
pub struct JournalBase<K> {
    /// The record with each number, at the place of its number.
    pub records: Vec<Option<K>>,
    /// The puts with notification that waited for their records, those of each record in order.
    pub waiting: Vec<Waiting>,
}
