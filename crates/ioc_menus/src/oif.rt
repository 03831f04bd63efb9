//! The choices of OIF of an ao. Record Reference Manual, "Analog Output Record", "Desired Output".

/// Whether DOL gives the output itself or what is added to it.
#[derive(Clone, Copy, PartialEq, Eq, Debug)]
pub enum Oif {
    Full,
    Incremental,
}
