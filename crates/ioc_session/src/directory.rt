//! The records of a database as it was loaded, by their names.
use ioc_fields::field_list::fields;
use ioc_fields::{FieldNo, RecordType, field, name_of, row_of};
use ioc_names::Names;
use ioc_spelling::{Misspelt, nearest};
use ioc_values::Name;
use std::alloc::{AllocError, Global};

/// A record of the directory.
#[derive(Clone, Copy)]
pub struct Listed {
    pub name: Name,
    pub record_type: RecordType,
}

/// The records of a database as it was loaded.
#[derive(Drop)]
pub struct Directory {
    pub alloc: Global,
    names: Names,
    records: Vec<Listed>,
}

impl Directory {
    /// Creates the directory of these records, which are listed by their numbers.
    pub fn new(alloc: Global, names: Names, records: Vec<Listed>) -> Self {
        Directory {
            alloc,
            names,
            records,
        }
    }

    /// Returns the record that has this name or alias.
    pub fn find(&self, name: &[u8]) -> Option<&Listed> {
        self.records.get(self.names.find(name)?.index())
    }

    /// Returns the record's name that may have been meant by this one. Aliases aren't looked at.
    ///
    /// # Errors
    ///
    /// [`AllocError`] if allocation fails.
    pub fn nearest(&self, name: &[u8]) -> Result<Option<&[u8]>, AllocError> {
        let mut misspelt = Misspelt::new(self.alloc, name)?;
        let mut meant = None;
        for listed in &self.records {
            if misspelt.is_nearer(listed.name.as_slice())? {
                meant = Some(listed.name.as_slice());
            }
        }
        Ok(meant)
    }
}

/// Returns the field's name of this type that may have been meant by this one.
///
/// # Errors
///
/// [`AllocError`] if allocation fails.
pub fn nearest_field(
    alloc: Global,
    record_type: RecordType,
    name: &[u8],
) -> Result<Option<&'static str>, AllocError> {
    let mut names = Vec::new(alloc);
    for field in fields() {
        if row_of(record_type, *field).is_some() {
            names.push(name_of(*field))?;
        }
    }
    nearest(alloc, name, names.as_slice())
}

/// Returns the field of a record by its name.
pub fn field_of(listed: &Listed, name: &[u8]) -> Option<FieldNo> {
    field(listed.record_type, name)
}
