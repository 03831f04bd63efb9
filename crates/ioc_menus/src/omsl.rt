//! The choices of OMSL. Record Reference Manual, "Output Mode Select".

/// Where an output record takes its value from.
#[derive(Clone, Copy, PartialEq, Eq, Debug)]
pub enum Omsl {
    /// Only from puts.
    Supervisory,
    /// From its DOL link.
    ClosedLoop,
}
