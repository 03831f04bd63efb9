//! The callback queues HIGH, MEDIUM and LOW, and the queue of once requests, for one thread.
//! Application Developer's Guide, "Scanning Specification": callback tasks, scanOnce.
#![tactic(auto)]

pub mod queue;
pub mod queues;

pub use queue::Queue;
pub use queues::Queues;
