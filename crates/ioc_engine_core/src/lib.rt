//! The core of the engine for several threads: lock sets in a directory, and one journal of all
//! calls. Records go by their numbers; `ioc_engine` has their names.
//!
//! A call takes the lock of its record's set, works on that set, and is added to the journal before
//! the lock is released. So the calls of all desks are in one list, which is a possible run of an
//! engine with all records in one map.
//!
//! At the start, records that are connected by links come into one set. The pass of each set gets
//! the keys of its records, and knows that they are as in the world at the load. Application
//! Developer's Guide, "Database Locking, Scanning, and Processing", lock sets; "iocInit".
#![tactic(auto)]

mod cancelling;
mod checkpoint;
pub mod clock;
pub mod desk;
pub mod ended_journal;
pub mod engine;
mod engine_lists;
pub mod holding;
mod link_changes;
pub mod loading;
mod looking;
mod notifications;
pub mod opening;
mod parts;
mod posting;
pub mod queueing;
mod record_copies;
pub mod report;
mod sending;
pub mod serving;
pub mod spare_parts;
pub mod starting;
mod watching;

pub use clock::{Clock, FixedClock};
pub use desk::Desk;
pub use ended_journal::EndedJournal;
pub use engine::{EngineCore, QueuedRequest};
pub use ioc_journaled_set::{EndedSet, JournaledSet, SharedNotifications};
pub use loading::with_copies;
pub use looking::FieldSeen;
pub use opening::new_cell;
pub use report::CoreReport;
pub use starting::{StartError, start};
