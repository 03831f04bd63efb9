//! The record types that calculate: calc and calcout, and the inputs that they share with sel.
#![tactic(auto)]

pub mod calc;
pub mod calcout;
pub mod inputs;

pub use calc::Calc;
pub use calcout::Calcout;
pub use inputs::Inputs;
