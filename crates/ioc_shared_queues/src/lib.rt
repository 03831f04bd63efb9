//! The callback queues HIGH, MEDIUM and LOW and the once queue, which threads share without a lock,
//! and the workers that serve them. Application Developer's Guide, "Scanning Specification":
//! callback tasks, scanOnce.
//!
//! A thread calls the queues by a [`Lane`] of its own. [`SharedQueues::push`] puts an item on a
//! queue and wakes one worker that sleeps. A [`Worker`] takes items by turns, sleeps while there
//! are none, and ends when the queues were closed and are found empty.
#![tactic(auto)]

pub mod callback_queues;
pub mod draining;
pub mod idle_workers;
pub mod order;
pub mod queues;
pub mod rank;
pub mod record_requests;
pub mod shared_queue;
pub mod worker;

pub use callback_queues::{CallbackQueues, Lane};
pub use draining::hand_back_all;
pub use idle_workers::IdleWorkers;
pub use queues::SharedQueues;
pub use rank::Rank;
pub use record_requests::RecordRequest;
pub use shared_queue::{QueueLane, SharedQueue};
pub use worker::{Serve, Worker};
