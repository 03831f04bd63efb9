//! A database on one thread: devices with queued answers, scan lists, queues of requests, and the
//! effects of events on them.
#![tactic(auto)]

mod leads;
pub mod machine;
pub mod scanner;
mod scanning;
pub mod scripted;
pub mod sets;
pub mod settled;
mod tracing;

pub use machine::Machine;
pub use scanner::Scanner;
pub use scripted::Scripted;
pub use settled::event_leaves_settled;
