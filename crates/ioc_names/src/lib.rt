//! Record numbers, and the names that refer to them. Record Reference Manual, "Fields Common to All
//! Record Types", NAME; Application Developer's Guide, "alias".
#![tactic(auto)]

pub mod entered;
pub mod laws;
pub mod names;
pub mod record_no;

pub use entered::Entered;
pub use names::Names;
pub use record_no::RecordNo;
