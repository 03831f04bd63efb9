//! What the records of a site do together: where their links lead, which records process each other,
//! and what in that is worth a look.
#![tactic(auto)]

mod calculations;
mod chains;
mod limits;
mod links;
mod scanning;

pub use calculations::check_calculations;
pub use chains::{check_cycles, check_unprocessed};
pub use limits::check_numbers;
pub use links::{Followed, Lead, follow_links};
pub use scanning::check_devices;
