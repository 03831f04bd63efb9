//! Alarm severities. Record Reference Manual, "Alarm Fields".

/// The severity of an alarm.
#[derive(Clone, Copy, PartialEq, Eq, Debug)]
pub enum Severity {
    NoAlarm,
    Minor,
    Major,
    Invalid,
}
