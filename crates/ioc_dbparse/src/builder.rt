//! Databases that are built statement by statement.
ghost use Rattle.std.specs.Prelude.{◌≡◌};
ghost use Rattle.ioc_dbparse.specs.Rules.{Rules, Builds, Allows};
ghost use Rattle.ioc_dbparse.specs.declared.builder.BuildError.TheVariants.{Memory};

use ioc_fields::{FieldNo, RecordType};
use ioc_names::RecordNo;
use ioc_values::BadDbKind;
use std::alloc::AllocError;

/// The error of a database that can't take a statement.
#[derive(Clone, Copy, Debug, PartialEq, Eq)]
pub enum BuildError {
    /// Allocation failed.
    Memory,
    /// The statement is refused.
    Refused(BadDbKind),
}

impl From<AllocError> for BuildError {
    ghost from_gives = { λ _ e. e ≡ Memory };

    fn from(_e: AllocError) -> BuildError {
        BuildError::Memory
    }
}

/// A database that statements fill. It must not be used after an error.
pub trait Builder {
    ghost rules: { Rules Self };

    /// Returns the record type with this name.
    fn type_of(&self, name: &[u8]) -> Option<RecordType>
        ensures { result ≡ rules.type_of name.now };

    /// Returns the number of the record with this name or alias.
    ///
    /// # Errors
    ///
    /// What is wrong with the name: it isn't valid, or no record has it.
    fn find(&self, name: &[u8]) -> Result<RecordNo, BadDbKind>
        ensures { Allows (λ n. n) result (rules.find name.now self.now) };

    /// Returns the number of the record of this type with this name or alias. If no record has it,
    /// one is added with no field set.
    ///
    /// # Errors
    ///
    /// [`BuildError::Refused`] if the rules refuse the name, and [`BuildError::Memory`] if
    /// allocation fails.
    fn add(&mut self, record_type: RecordType, name: &[u8]) -> Result<RecordNo, BuildError>
        ensures { Builds (λ n. (n, self.new)) result (rules.add record_type name.now self.old) };

    /// Adds a second name to the record with this number.
    ///
    /// # Errors
    ///
    /// [`BuildError::Refused`] if the rules refuse the name, and [`BuildError::Memory`] if
    /// allocation fails.
    fn alias(&mut self, number: RecordNo, name: &[u8]) -> Result<(), BuildError>
        ensures { Builds (λ _. self.new) result (rules.alias number name.now self.old) };

    /// Returns the field with this name, if the record has it and it may be set.
    ///
    /// # Errors
    ///
    /// What is wrong with the name.
    fn field_of(&self, number: RecordNo, name: &[u8]) -> Result<FieldNo, BadDbKind>
        ensures { Allows (λ f. f) result (rules.field_of number name.now self.now) };

    /// Sets a field of a record to the value of a text.
    ///
    /// # Errors
    ///
    /// [`BuildError::Refused`] with what is wrong with the text, and [`BuildError::Memory`] if
    /// allocation fails.
    fn set(&mut self, number: RecordNo, field: FieldNo, value: &[u8]) -> Result<(), BuildError>
        ensures { Builds (λ _. self.new) result (rules.set number field value.now self.old) };
}
