//! The rules of scanning: where a record is on the scan lists, the lists of a loaded database,
//! what the items that an event sends ask for, and the periods of a tick. Callers bring the queues, and share the lists if
//! many threads use them. Application Developer's Guide, "Scanning Specification".
#![tactic(auto)]

pub mod asked;
pub mod first_lists;
pub mod places;
pub mod ticks;

pub use asked::{Asked, calls, change_list, event_list, interrupt_list, take_item};
pub use first_lists::starters;
pub use places::{Occasion, place_by};
pub use ticks::periods_of;
