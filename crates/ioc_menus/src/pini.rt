//! The choices of PINI. Record Reference Manual, "Scan Fields".

/// Whether a record is processed once when the engine starts.
#[derive(Clone, Copy, PartialEq, Eq, Debug)]
pub enum Pini {
    No,
    Yes,
}
