//! Puts with notification: their numbers, and the lists of those that wait for their record.
//! Application Developer's Guide, "Put with Notification" (dbPutNotify).
//!
//! The puts with notification of all lock sets, in one table.
#![tactic(auto)]

pub mod laws;
pub mod live_numbers;
pub mod notification_counts;
pub mod notify_id;
pub mod table_laws;
pub mod waiting_lists;

pub use live_numbers::{Live, LiveNumbers};
pub use notification_counts::{NotificationCounts, holders_by};
pub use notify_id::NotifyId;
pub use waiting_lists::{Waiting, WaitingLists};
