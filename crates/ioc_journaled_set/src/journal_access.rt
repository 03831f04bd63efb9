//! Access to the journal of all calls.
use ioc_journal::{JournalName, SharedJournal};
use ioc_record::RecordKind;
use ioc_watched::MarkedRecords;
use std::alloc::Global;
use std::sync::Mutex;

/// What each call needs to be added to the journal.
#[derive(Drop)]
pub struct JournalAccess<'a, K: RecordKind, B: JournalName<K>, R> {
    /// The handle by which a call may wait for a lock.
    pub rt: &'a R,
    /// Where memory is allocated.
    pub alloc: Global,
    /// The journal of all calls.
    pub journal: &'a SharedJournal<K, B>,
    /// The list of the records that calls mark, whose lock is taken last.
    pub marks: &'a Mutex<MarkedRecords>,
    /// The number of events that a set keeps in its history at most, from 1 to 64. An event on a set with watched records has 0.
    pub history: usize,
}
