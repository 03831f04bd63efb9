//! The effect of one event on a database: requests, puts, puts with notification, completions and
//! link changes.
#![tactic(auto)]

pub mod alone;
pub mod call_rules;
pub mod event;
pub mod event_rules;
pub mod events;
pub mod link_change;
pub mod local;
pub mod notification_rules;
pub mod notify;
pub mod reply;
pub mod starting;

pub use event::{Call, Entry, Event, EventEntry, KeptAnswers};
pub use events::{run_event, run_get, run_put};
pub use link_change::run_link;
pub use reply::Reply;
