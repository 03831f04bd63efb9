//! The choices of OOPT of a calcout. Record Reference Manual, "Calculation Output Record", "Output
//! Parameters".

/// When a calcout writes its output, by VAL and its value before.
#[derive(Clone, Copy, PartialEq, Eq, Debug)]
pub enum Oopt {
    EveryTime,
    OnChange,
    WhenZero,
    WhenNonZero,
    TransitionToZero,
    TransitionToNonZero,
}
