//! The choices of IVOA. Record Reference Manual, "Invalid Output Action".

/// What an output record does if its alarm is INVALID.
#[derive(Clone, Copy, PartialEq, Eq, Debug)]
pub enum Ivoa {
    ContinueNormally,
    DontDriveOutputs,
    SetOutputToIvov,
}
