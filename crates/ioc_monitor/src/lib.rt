//! Which monitors a change of a record posts.
#![tactic(auto)]

pub mod deadband;
pub mod posting;

pub use deadband::is_beyond;
pub use posting::{Deadbands, Mask, Posted, Seen};
