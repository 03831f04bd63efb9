//! Changes of a record's place on the scan lists.
use ioc_dbcommon::Scanning;
use ioc_links::MAX_DEVICE_BYTES;
use ioc_names::RecordNo;
use ioc_values::Short;

/// A change of a record's place on the scan lists. The changes of a record are numbered 1, 2, 3,
/// ... in the order in which they are made.
#[derive(Clone, Copy, PartialEq, Eq)]
pub struct ScanChange {
    pub target: RecordNo,
    pub number: u64,
    /// SCAN, PHAS, PRIO and EVNT, which determine its place from now on.
    pub scanning: Scanning,
    /// The text of the record's device link, in INP or OUT; empty if it has none.
    pub device: Short<MAX_DEVICE_BYTES>,
}
