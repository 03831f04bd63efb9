//! The records of one lock set, each with its device, and how a link change joins two sets or
//! divides one.
//!
//! Application Developer's Guide, "Database Locking, Scanning, and Processing": records that links
//! join are in one lock set.
//!
//! The assignment of the records of a loaded database to the lock sets that their links make.
//!
//! Application Developer's Guide, "Database Locking, Scanning, and Processing": records that links
//! join are in one lock set.
#![tactic(auto)]

pub mod changing;
pub mod dividing;
pub mod joining;
mod link_changes;
pub mod links;
pub mod loaded;
pub mod loaded_laws;
pub mod marks;
pub mod members;
pub mod parting;
pub mod parts;
pub mod slots;

pub use changing::Change;
pub use joining::JoinBuffers;
pub use loaded::{Loaded, deal};
pub use members::Members;
pub use parts::parts_of;
pub use slots::Slot;
