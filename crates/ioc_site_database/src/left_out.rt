//! Leaves out what EPICS has and this project doesn't.
use ioc_fields::RecordType;
use ioc_site::{Entry, EntryKind, Finding, RecordText, Statement, Word};
use ioc_site_rules::{left_out_field, left_out_type};
use ioc_site_writer::{Reason, Standing, Subject, Types};
use std::alloc::{AllocError, Global};

/// What becomes of records whose type EPICS has and this project doesn't.
#[derive(Clone, Copy, Debug, PartialEq, Eq)]
pub enum LeftOutTypes {
    Keep,
    Drop,
}

/// The statements that are kept, and warnings of what isn't.
#[derive(Drop)]
pub struct Kept {
    pub statements: Vec<Statement>,
    pub dropped: Vec<Finding>,
    /// What is known of the records, those that aren't kept among them.
    pub types: Types,
}

/// The work of leaving out.
#[derive(Drop)]
struct Sieve {
    alloc: Global,
    left_out_types: LeftOutTypes,
    kept: Kept,
}

impl Sieve {
    // Leaves out what has this name.
    fn drop_named(
        &mut self,
        word: &'static str,
        name: &Word,
        reason: Reason,
    ) -> Result<(), AllocError> {
        let finding = Subject { word, name }.dropped(self.alloc, reason)?;
        Ok(self.kept.dropped.push(finding)?)
    }

    // Returns why a record is left out for its type, if it is.
    fn reason_for(&self, record: &RecordText) -> Option<Reason> {
        let name = record.record_type.text.as_slice();
        if self.left_out_types == LeftOutTypes::Keep || name == b"*".as_slice() {
            None
        } else if left_out_type(name).is_some() {
            Some(Reason::LeftOutType)
        } else if RecordType::from_name(name).is_none() {
            Some(Reason::UnknownType)
        } else {
            None
        }
    }

    // Returns the entries of a record of this type that are kept.
    fn kept_entries(
        &mut self,
        record_type: RecordType,
        entries: Vec<Entry>,
    ) -> Result<Vec<Entry>, AllocError> {
        let mut kept = Vec::new(self.alloc);
        for entry in entries {
            let name = entry.name.text.as_slice();
            let is_left_out = left_out_field(record_type, name).is_some();
            if entry.kind == EntryKind::Field && is_left_out {
                self.drop_named("field", &entry.name, Reason::LeftOut)?;
            } else {
                kept.push(entry)?;
            }
        }
        Ok(kept)
    }

    // Adds a record, without what is left out of it.
    fn add_record(&mut self, record: RecordText) -> Result<(), AllocError> {
        let reason = self.reason_for(&record);
        let mut record = record;
        match self.kept.types.enter(&record, reason.is_some())? {
            Some(Standing::Dropped) => {
                let reason = reason.unwrap_or(Reason::OfDropped);
                return self.drop_named("record", &record.name, reason);
            }
            Some(Standing::Kept(record_type)) => {
                record.entries = self.kept_entries(record_type, record.entries)?;
            }
            None => {}
        }
        Ok(self.kept.statements.push(Statement::Record(record))?)
    }

    // Adds an alias, unless its record is left out.
    fn add_alias(&mut self, record: Word, alias: Word) -> Result<(), AllocError> {
        if let Some(standing) = self.kept.types.standing(record.text.as_slice()) {
            self.kept.types.note(alias.text.as_slice(), standing)?;
            if standing == Standing::Dropped {
                return self.drop_named("alias", &alias, Reason::OfDropped);
            }
        }
        Ok(
            self.kept
                .statements
                .push(Statement::Alias { record, alias })?,
        )
    }
}

/// Leaves out the fields that EPICS has and this project doesn't, and, if they are to be dropped,
/// the records of such types with their aliases and all that continues them.
///
/// # Errors
///
/// [`AllocError`] if allocation fails.
pub fn leave_out(
    alloc: Global,
    statements: Vec<Statement>,
    left_out_types: LeftOutTypes,
) -> Result<Kept, AllocError> {
    let mut sieve = Sieve {
        alloc,
        left_out_types,
        kept: Kept {
            statements: Vec::new(alloc),
            dropped: Vec::new(alloc),
            types: Types::new(alloc),
        },
    };
    for statement in statements {
        match statement {
            Statement::Record(record) => sieve.add_record(record)?,
            Statement::Alias { record, alias } => sieve.add_alias(record, alias)?,
            Statement::Skipped(word) => sieve.kept.statements.push(Statement::Skipped(word))?,
        }
    }
    let Sieve { kept, .. } = sieve;
    Ok(kept)
}
