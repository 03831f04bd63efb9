//! The connected parts of records that are joined by links. Application Developer's Guide,
//! "Database Locking, Scanning, and Processing": lock sets.
#![tactic(auto)]

pub mod edges;
pub mod forest;
pub mod members;

pub use edges::{Edge, are_below, parts, parts_of_all};
pub use members::followers;
