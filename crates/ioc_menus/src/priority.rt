//! The choices of PRIO. Record Reference Manual, "Scan Fields".

/// The callback queue that a record's requests take.
#[derive(Clone, Copy, PartialEq, Eq, Debug)]
pub enum Priority {
    Low,
    Medium,
    High,
}
