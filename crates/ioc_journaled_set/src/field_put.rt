//! What a put is made of.
use ioc_fields::FieldNo;
use ioc_names::RecordNo;
use ioc_values::Input;

/// A put of a value into a field of a record.
#[derive(Clone, Copy)]
pub struct FieldPut {
    /// The record.
    pub number: RecordNo,
    /// The field.
    pub field: FieldNo,
    /// The value, or its text.
    pub given: Input,
    /// The moment of the put.
    pub moment: u64,
}
