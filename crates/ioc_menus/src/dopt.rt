//! The choices of DOPT of a calcout. Record Reference Manual, "Calculation Output Record", "Output
//! Parameters".

/// Which expression gives the output of a calcout.
#[derive(Clone, Copy, PartialEq, Eq, Debug)]
pub enum Dopt {
    /// The value of CALC, which is VAL.
    UseCalc,
    /// The value of OCAL.
    UseOcal,
}
