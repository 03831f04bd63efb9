//! The locks of the sets of records, and the set of each record.
//!
//! Records are kept in sets, each under its own lock. A call looks up the set of its record, locks
//! it, and checks that the record is there, otherwise it tries again. A link change takes the
//! topology guard and then one or two sets, and no other set. Who holds the topology guard waits for
//! no device: a set that a call keeps locked for long is [`Busy`]. Application Developer's Guide,
//! "Database Locking, Scanning, and Processing", lock sets.
#![tactic(auto)]

pub mod busy;
mod cell_keys;
pub mod directory;
mod flags;
pub mod gather;
pub mod link_cells;
pub mod locked;
mod marks;
pub mod taken;

pub use busy::Busy;
pub use directory::Directory;
pub use gather::{Gathered, hold_each};
pub use link_cells::{LinkCells, NewCells, all_sound, are_lent};
pub use locked::Locked;
pub use taken::Taken;
