//! The one spelling of values: numbers are in decimal.
use crate::quoting::quote;
use ioc_fields::{FieldKind, RecordType, field, row_of};
use ioc_links::{Link, parse, print};
use ioc_values::spelled_number;
use std::alloc::{AllocError, Global};

// Appends a number between quotes. A text that spells none stays as it is, and an empty one is 0.
fn add_number(alloc: Global, text: &mut Vec<u8>, value: &[u8]) -> Result<(), AllocError> {
    if value.is_empty() {
        return quote(text, b"0");
    }
    match spelled_number(value) {
        Some(number) => {
            let spelled = format!(in alloc; "{number}")?;
            quote(text, spelled.as_bytes())
        }
        None => quote(text, value),
    }
}

/// Appends the value of a field between quotes, numbers and constants in decimal.
///
/// # Errors
///
/// [`AllocError`] if allocation fails.
pub fn add_value(
    alloc: Global,
    text: &mut Vec<u8>,
    record_type: RecordType,
    name: &[u8],
    value: &[u8],
) -> Result<(), AllocError> {
    let row = match field(record_type, name) {
        Some(found) => row_of(record_type, found),
        None => None,
    };
    match row {
        Some(row) => match row.kind {
            FieldKind::Number(_) => add_number(alloc, text, value),
            FieldKind::Link(role) => match parse(role.link_kind(), value) {
                Ok(Link::Constant(number)) => quote(
                    text,
                    print(&Link::Constant(number)).as_slice(),
                ),
                _ => quote(text, value),
            },
            FieldKind::Double
            | FieldKind::Text
            | FieldKind::Expression
            | FieldKind::Menu(_)
            | FieldKind::State => quote(text, value),
        },
        None => quote(text, value),
    }
}
