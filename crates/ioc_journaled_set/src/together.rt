//! Calls that concern several held lock sets at once.

pub mod cancelling;
pub mod counting;
pub mod dealing;
pub mod giving_up;
pub mod merging;
