//! The fields of the types that read a text.
ghost use Rattle.std.specs.Prelude.{◌≡◌, IfOk};
ghost use Rattle.ioc_record.specs.BodyRules.{BodyState};
ghost use Rattle.rec_text.specs.TextInput.{new_text_input, text_input_get, text_input_stored, came, constant_text, constant_put};

use ioc_dbcommon::{Condition, Got, Source, text_in};
use ioc_fields::OwnField;
use ioc_links::Link;
use ioc_values::{Kind, Text, Value, of_number};
use std::alloc::{AllocError, Global};

/// Returns the text of a constant link: a whole number in decimal, and a real one as it was written.
#[tactic(auto, unfolding(ioc_values::specs::Conversion::sort_of))]
pub fn constant_text(link: &Link) -> Option<Value>
    ensures { result ≡ constant_text link.now }
{
    match link {
        Link::Constant(number) => of_number(Kind::Text, *number),
        Link::Real(text) => Some(Value::Text(*text)),
        Link::Empty | Link::Device(_) | Link::Database(_, _) => None,
    }
}

/// VAL, a text, and INP. Record Reference Manual, "String Input Record" and "Event Record".
#[derive(Drop)]
pub struct TextInput {
    /// VAL.
    pub value: Text,
    /// INP.
    pub source: Source,
}

impl TextInput {
    /// Creates the fields of a new record, which are empty.
    #[tactic(auto, unfolding(crate::specs::TextInput::new_text_input))]
    pub fn new() -> Self
        ensures { result ≡ new_text_input }
    {
        TextInput {
            value: Text::new(),
            source: Source::new(),
        }
    }

    #[tactic(auto, unfolding(crate::specs::TextInput::text_input_get))]
    pub fn get(&self, field: OwnField) -> Option<Value>
        ensures { result ≡ text_input_get self.now field }
    {
        match field {
            OwnField::Val => Some(Value::Text(self.value)),
            _ => None,
        }
    }

    /// Stores a value that was converted for the field. VAL clears UDF.
    #[tactic(auto, unfolding(crate::specs::TextInput::text_input_stored))]
    pub fn store(&mut self, condition: &mut Condition, field: OwnField, value: Value)
        ensures { record { body = self.new; condition = condition.new }
            ≡ text_input_stored (record { body = self.old; condition = condition.old }) field value }
    {
        if let OwnField::Val = field {
            self.value = text_in(value).unwrap_or(self.value);
            condition.undefined = 0;
        }
    }

    /// Stores the input, if there is one, in VAL, and clears UDF.
    pub fn come(&mut self, condition: &mut Condition, got: &Got)
        ensures { record { body = self.new; condition = condition.new }
            ≡ came (record { body = self.old; condition = condition.old }) got.now }
    {
        if let Got::Value(value) = got {
            self.store(condition, OwnField::Val, *value);
        }
    }

    /// Puts a constant INP into VAL as its text.
    pub fn put_constant(&mut self, condition: &mut Condition)
        ensures { record { body = self.new; condition = condition.new }
            ≡ constant_put (record { body = self.old; condition = condition.old }) self.old.source.input.link }
    {
        if let Some(value) = constant_text(&self.source.input.get().link) {
            self.store(condition, OwnField::Val, value);
        }
    }

    /// Copies the fields.
    ///
    /// # Errors
    ///
    /// [`AllocError`] if allocation fails.
    pub fn copy(&self, alloc: Global) -> Result<Self, AllocError>
        ensures { IfOk result (λ copy. copy ≡ self.now) }
    {
        let source = self.source.copy(alloc)?;
        Ok(TextInput {
            value: self.value,
            source,
        })
    }

    /// Copies the fields of another record with the same link.
    pub fn copy_from(&mut self, other: &Self)
        requires { self.old.source.input ≡ other.now.source.input }
        ensures { self.new ≡ other.now }
    {
        self.value = other.value;
    }
}
