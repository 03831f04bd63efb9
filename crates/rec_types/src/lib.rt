//! The record types: a record of any type, as an enum over the type-specific fields.
#![tactic(auto)]

mod on_heap;
pub mod record;

pub use record::{Body, Record};
