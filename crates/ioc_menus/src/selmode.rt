//! The choices of SELM of a sel. Record Reference Manual, "Select Record", "Select Parameters".

/// Which of its inputs a sel selects.
#[derive(Clone, Copy, PartialEq, Eq, Debug)]
pub enum Selmode {
    /// That of number SELN.
    Specified,
    /// The greatest one.
    HighSignal,
    /// The least one.
    LowSignal,
    /// The one in the middle.
    MedianSignal,
}
