//! The choices of SELM of a fanout. Record Reference Manual, "Fanout Record".

/// Which links a fanout follows.
#[derive(Clone, Copy, PartialEq, Eq, Debug)]
pub enum Selm {
    All,
    /// The one that SELN and OFFS select.
    Specified,
    /// Those whose bits are set in SELN.
    Mask,
}
