//! The record type sel, which selects one of its inputs.
#![tactic(auto)]

pub mod choosing;
pub mod sel;

pub use sel::Sel;
