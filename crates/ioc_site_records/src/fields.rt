//! The fields of a site's records, as findings name them.
use crate::wording::Shown;
use ioc_fields::field_list::fields;
use ioc_fields::{FieldNo, RecordType, name_of, row_of};
use std::alloc::{AllocError, Global};
use std::fmt;

/// The name of a field of a record, as findings begin with it.
#[derive(Clone, Copy)]
pub struct FieldOf<'a> {
    pub field: FieldNo,
    pub record: &'a [u8],
}

impl fmt::Display for FieldOf<'_> {
    fn fmt<W: fmt::Write>(&self, f: &mut fmt::Formatter<W>) -> fmt::Result {
        write!(
            f,
            "{} of record {}",
            name_of(self.field),
            Shown(self.record)
        )
    }
}

/// Returns the names of the fields that a text can set in a record of this type.
///
/// # Errors
///
/// [`AllocError`] if allocation fails.
pub fn settable_names(
    alloc: Global,
    record_type: RecordType,
) -> Result<Vec<&'static str>, AllocError> {
    let mut names = Vec::new(alloc);
    for field in fields() {
        if row_of(record_type, *field).is_some_and(|row| row.can_set) {
            names.push(name_of(*field))?;
        }
    }
    Ok(names)
}
