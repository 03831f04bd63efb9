//! Bases of journals: the state of a record as the lines with which a journal's file begins that goes
//! on behind an earlier one, and the record that such lines lead to. docs/JOURNAL.md describes the lines.
#![tactic(auto)]

mod bases;
mod kept_fields;
mod last_alarmed;
mod parts;
mod records;
mod settled_fields;

pub use bases::{Base, DeskCalls, add_base, base_of, items_of};
pub use parts::{hidden_of, part_of};
pub use records::{add_items, fresh_of, record_of};
