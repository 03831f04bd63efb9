//! Alarms: raising, settling and inheriting them, and the alarms of limits. Record Reference
//! Manual, "Alarm Fields"; Application Developer's Guide, "Alarms".
#![tactic(auto)]

pub mod alarms;
pub mod limits;

pub use alarms::Alarms;
pub use limits::{AlarmLimits, LimitNumber, ReachedLimit};
