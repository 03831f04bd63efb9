//! Lock sets: their records with a history, events on them with the buffers that these need, and
//! link changes.
#![tactic(auto)]

pub mod attached;
mod awaited;
pub mod awaiting_laws;
pub mod event_buffers;
mod events;
pub mod laws;
pub mod link_change;
mod link_changes;
pub mod linking;
pub mod live_puts;
pub mod lock_set;
mod recount;
pub mod running;
pub mod set_store;

pub use attached::Attached;
pub use event_buffers::EventBuffers;
pub use laws::{
    calm_records_are_sound, events_leave_sound, held_records_are_sound, histories_begin_before,
    link_changes_are_calls, none_live_stays_so, notifications_begin_by_notify,
    sets_stay_without_puts,
};
pub use link_change::LinkChange;
pub use live_puts::LivePuts;
pub use lock_set::LockSet;
pub use set_store::SetStore;
