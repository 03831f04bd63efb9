//! The choices of SCAN. Record Reference Manual, "Scan Fields".

/// When a record is processed by scanning.
#[derive(Clone, Copy, PartialEq, Eq, Debug)]
pub enum Scan {
    /// Never. It is processed only if a client or another record asks for it.
    Passive,
    /// When its event is posted.
    Event,
    /// At an interrupt of its device.
    IoIntr,
    TenSeconds,
    FiveSeconds,
    TwoSeconds,
    OneSecond,
    HalfSecond,
    FifthSecond,
    TenthSecond,
}
