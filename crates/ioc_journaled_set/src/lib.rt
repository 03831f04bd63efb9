//! What is kept under the lock of a set: the set, and what its pass has seen of the journal.
//!
//! Each event on a set is added to the journal while the set's lock is held. The events of all sets
//! therefore form one list, which is a possible run of an engine with all records in one map, with
//! the same replies.
//!
//! Calls on journaled sets that are passed by reference: a link change of one or two sets, and the
//! cancel of a put with notification on several sets.
#![tactic(auto)]

mod asking;
mod beginning;
mod call_laws;
pub mod changing;
mod checkpoint;
pub mod copies;
mod copying;
mod counts;
pub mod ending;
mod field_put;
pub mod give_up_laws;
mod giving_up;
mod journal_access;
pub mod journaled_set;
mod link_changes;
pub mod link_laws;
mod locked;
pub mod put_places;
mod running;
pub mod sets_name;
pub mod shared_notifications;
pub mod together;
mod watch_signs;
mod watching;

pub use changing::{Changed, change_link};
pub use checkpoint::{checkpoint_giving, checkpoint_on, move_all_on};
pub use copies::{RecordCopies, copies_on};
pub use ending::EndedSet;
pub use field_put::FieldPut;
pub use giving_up::cancel_on;
pub use journal_access::JournalAccess;
pub use journaled_set::JournaledSet;
pub use running::Served;
pub use sets_name::SetsName;
pub use shared_notifications::SharedNotifications;
pub use watch_signs::{NoMoreWatched, NowWatched};
