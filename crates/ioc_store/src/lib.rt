//! The stores of records, the state of an event, and the rules for a change of one record.
#![tactic(auto)]

pub mod call;
pub mod calls;
pub mod event_store;
pub mod frames;
pub mod notifications;
pub mod one_map;
pub mod outbox;
pub mod scan_change;
pub mod store;
pub mod trace_step;

pub use call::Call;
pub use event_store::{EventStore, FollowUps};
pub use frames::Frame;
pub use one_map::OneMap;
pub use outbox::OutboxItem;
pub use scan_change::ScanChange;
pub use store::Store;
pub use trace_step::TraceStep;
