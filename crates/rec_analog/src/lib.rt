//! The analog record types: ai and ao.
#![tactic(auto)]

pub mod analog;
pub mod deadband;
pub mod input;
pub mod output;
pub mod scale;

pub use analog::Analog;
pub use deadband::exceeds;
pub use input::Ai;
pub use output::Ao;
pub use scale::Scale;
