//! What the statements of a site's files give its records: types, names, fields and values, and what is
//! wrong with each of them.
#![tactic(auto)]

mod expressions;
mod gathering;
mod link_texts;
mod names;
mod types_and_fields;
mod values;

pub use expressions::{ExpressionFault, expression_fault};
pub use gathering::gather;
