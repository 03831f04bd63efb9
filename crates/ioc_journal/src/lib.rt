//! A list that only grows, passes that each know a beginning of it, and keys that each belong to
//! one pass.
//!
//! Whoever holds a set of records holds a pass that owns the keys of these records: what others add
//! to the list meanwhile concerns other records, because no two passes own the same key. Passes
//! have no bytes, and the cell that ties them together is never written to.
//!
//! The records are kept in separately locked sets. Each call on a set is noted in one list, with
//! the keys of the set's records. Read as one list, the notes are a possible run of an engine with
//! all records in one map, and each set is equal to that map at its own records.
//!
//! All calls are in one order in the journal, and each leaves a receipt to the desk that made it. A
//! checkpoint drops the entries of all calls so far and keeps the records that they lead to.
//!
//! A call is added to the journal while the lock of the set that it concerns is held. A desk knows
//! a beginning of the journal's list that includes all its own calls. This list is legal: it is a
//! possible run of an engine with all records in one map.
#![tactic(auto)]

pub mod base;
pub mod cell;
mod checkpoint;
pub mod count_laws;
pub mod desk;
mod ending;
pub mod entries;
pub mod entry;
pub mod event_counts;
pub mod free_places;
pub mod gate;
pub mod journal;
pub mod journal_name;
mod key_division;
pub mod legal_laws;
pub mod limits;
mod lookup;
pub mod pass;
pub mod posting;
pub mod reading;
pub mod receipt;
pub mod request_tickets;
pub mod shared_journal;
pub mod shared_places;
mod short_lock;

pub use base::JournalBase;
pub use cell::{Cell, CellName, EntryName, KeyPass, Keys, NoteName};
pub use desk::DeskAccount;
pub use entries::{Entries, Piece};
pub use entry::JournalEntry;
pub use event_counts::{EngineCounts, EventCounts, SentCounts};
pub use free_places::{FreePlaces, PLACES, Place, Places};
pub use gate::Gate;
pub use journal::{Appended, Journal};
pub use journal_name::JournalName;
pub use limits::Limits;
pub use posting::Posted;
pub use reading::{Excerpt, KeptFrom};
pub use receipt::Receipt;
pub use request_tickets::{CallTickets, RequestTickets, SpentTicket, TicketCounts, TicketTally};
pub use shared_journal::SharedJournal;
pub use shared_places::SharedPlaces;
