//! The watched records of a lock set: up to which calls each was told, and whether it is marked because it may have changed since.
//! And the list of the records that have been marked, for whoever tells of them.
#![tactic(auto)]

pub mod kept_list;
pub mod marked_records;
pub mod watch_list;
pub mod watched;

pub use marked_records::MarkedRecords;
pub use watch_list::WatchList;
pub use watched::Watched;
