//! The devices of the `@` links of records that `ioc` runs: those that count, and those outside the program,
//! with what they are asked.
#![tactic(auto)]

mod asks;
mod device;

pub use asks::{AskTeller, Asked, Asks, OutsideDevice, OutsideRecord, add_value};
pub use device::{CountingDevice, counting_devices};
