//! The types of the records of statements.
use indexmap::IndexMap;
use ioc_fields::RecordType;
use ioc_site::RecordText;
use ioc_values::Name;
use std::alloc::{AllocError, Global};

/// What is known of the record that a name stands for.
#[derive(Clone, Copy, Debug, PartialEq, Eq)]
pub enum Standing {
    /// It has this type.
    Kept(RecordType),
    /// It is left out.
    Dropped,
}

/// What is known of the records so far, by their names and aliases.
#[derive(Drop)]
pub struct Types {
    standings: IndexMap<Name, Standing>,
}

impl Types {
    /// Begins with no record.
    pub fn new(alloc: Global) -> Self {
        Types {
            standings: IndexMap::new(alloc),
        }
    }

    /// Returns what is known of the record with this name or alias.
    pub fn standing(&self, name: &[u8]) -> Option<Standing> {
        let standings = &self.standings;
        standings.get(name).copied()
    }

    /// Notes a name or alias, if it isn't taken. A name that can't be a record's isn't noted.
    ///
    /// # Errors
    ///
    /// [`AllocError`] if allocation fails.
    pub fn note(&mut self, name: &[u8], standing: Standing) -> Result<(), AllocError> {
        let Some(short) = Name::from_slice(name) else {
            return Ok(());
        };
        if self.standing(name).is_none() {
            self.standings.insert(short, standing)?;
        }
        Ok(())
    }

    /// Returns what is known of the record of a statement, which is noted with its aliases: a
    /// record that is there stands as before. Returns `None` if the statement has no type of this
    /// project and continues no record.
    ///
    /// # Errors
    ///
    /// [`AllocError`] if allocation fails.
    pub fn enter(
        &mut self,
        record: &RecordText,
        is_dropped: bool,
    ) -> Result<Option<Standing>, AllocError> {
        let name = record.name.text.as_slice();
        let standing = match self.standing(name) {
            Some(standing) => standing,
            None if is_dropped => Standing::Dropped,
            None => match RecordType::from_name(record.record_type.text.as_slice()) {
                Some(record_type) => Standing::Kept(record_type),
                None => return Ok(None),
            },
        };
        self.note(name, standing)?;
        for alias in &record.aliases {
            self.note(alias.text.as_slice(), standing)?;
        }
        Ok(Some(standing))
    }
}
