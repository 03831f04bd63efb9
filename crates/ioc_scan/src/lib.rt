//! Scan lists: the records that are processed together, in the order of PHAS. Record Reference
//! Manual, "Scan Fields"; Application Developer's Guide, "Scanning Specification".
#![tactic(auto)]

pub mod laws;
pub mod list_name;
pub mod period;
pub mod position;
pub mod scan_lists;
pub mod word;

pub use list_name::{ListName, Placement};
pub use period::Period;
pub use position::{ListEntry, Listed};
pub use scan_lists::ScanLists;
pub use word::{Word, event_word, given_word};
