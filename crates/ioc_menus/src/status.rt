//! Alarm statuses. Record Reference Manual, "Alarm Fields".

/// The cause of an alarm.
#[derive(Clone, Copy, PartialEq, Eq, Debug)]
pub enum Status {
    NoAlarm,
    Read,
    Write,
    Hihi,
    High,
    Lolo,
    Low,
    State,
    Cos,
    Comm,
    Timeout,
    HwLimit,
    Calc,
    Scan,
    Link,
    Soft,
    BadSub,
    Udf,
    Disable,
    Simm,
    ReadAccess,
    WriteAccess,
}
