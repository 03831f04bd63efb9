//! The type stringout.
ghost use Rattle.std.specs.Prelude.{◌≡◌};
ghost use Rattle.ioc_record.specs.BodyLaws.{IsNewBody};
ghost use Rattle.rec_text.specs.Stringout.{stringout, new_stringout, worked};

use crate::text_input::constant_text;
use ioc_dbcommon::{
    Calculation, Condition, Drive, Fresh, Got, InputKind, LinkBox, LinkUse, Need, Output, text_in,
};
use ioc_fields::{OwnField, RecordType};
use ioc_record::RecordBody;
use ioc_values::{Text, Value};
use std::alloc::{AllocError, Global};

/// The type-specific fields of a stringout. Record Reference Manual, "String Output Record".
#[derive(Drop)]
pub struct Stringout {
    /// VAL.
    pub value: Text,
    /// OUT, DOL, OMSL and IVOA.
    pub drive: Drive,
    /// IVOV.
    pub invalid_value: Text,
}

impl Stringout {
    // Takes the input, and raises the alarm of an undefined value.
    #[tactic(auto, unfolding(crate::specs::Stringout::worked))]
    fn work(&mut self, condition: &mut Condition, got: &Got)
        ensures { record { body = self.new; condition = condition.new }
            ≡ worked (record { body = self.old; condition = condition.old }) got.now }
    {
        if let Got::Value(value) = got {
            self.value = text_in(*value).unwrap_or(self.value);
            condition.undefined = 0;
        }
        condition.test_undefined();
    }
}

impl Fresh for Stringout {
    ghost use Rattle.rec_text.specs.Stringout.{new_stringout};

    ghost new_one = { new_stringout };

    /// Creates the fields of a new record, which are empty.
    #[tactic(auto, unfolding(crate::specs::Stringout::new_stringout))]
    fn fresh() -> Self
        ensures value { result ≡ new_stringout }
        ensures defaults { IsNewBody stringout result }
    {
        Stringout {
            value: Text::new(),
            drive: Drive::new(),
            invalid_value: Text::new(),
        }
    }
}

impl RecordBody for Stringout {
    ghost use Rattle.rec_text.specs.StringoutLaws.{stringout_lawful};

    ghost rules = { stringout };

    ghost lawful = { stringout_lawful };

    fn record_type(&self) -> RecordType {
        RecordType::Stringout
    }

    fn link(&self, field: OwnField) -> Option<&LinkBox> {
        self.drive.link(field)
    }

    fn set_link(&mut self, field: OwnField, link: LinkBox) {
        self.drive.set_link(field, link);
    }

    fn calculation(&self, _field: OwnField) -> Option<&Calculation> {
        None
    }

    fn set_calculation(&mut self, _field: OwnField, _calculation: Calculation) {}

    fn states(&self) -> &[Text] {
        &[]
    }

    #[tactic(auto, unfolding(crate::specs::Stringout::stringout_get))]
    fn get(&self, field: OwnField) -> Option<Value> {
        match field {
            OwnField::Val => Some(Value::Text(self.value)),
            OwnField::Ivov => Some(Value::Text(self.invalid_value)),
            _ => self.drive.get(field),
        }
    }

    #[tactic(auto, unfolding(crate::specs::Stringout::stringout_stored))]
    fn store(&mut self, condition: &mut Condition, field: OwnField, value: Value) {
        match field {
            OwnField::Val => {
                self.value = text_in(value).unwrap_or(self.value);
                condition.undefined = 0;
            }
            OwnField::Ivov => self.invalid_value = text_in(value).unwrap_or(self.invalid_value),
            _ => self.drive.store(field, value),
        }
    }

    fn begin(&self) -> Need {
        self.drive.begin()
    }

    fn wanted_link(&self) -> LinkUse {
        self.drive.wanted_link()
    }

    fn inputs(&self, _got: &Got) -> u16 {
        0
    }

    fn input_kind(&self, _condition: &Condition) -> InputKind {
        InputKind::Text
    }

    #[tactic(auto, unfolding(crate::specs::Stringout::stringout_taken, crate::specs::Stringout::stringout_output, crate::specs::Stringout::settled))]
    #[inline(never)]
    fn take(&mut self, condition: &mut Condition, got: &Got, output: &mut Output) -> bool {
        self.work(condition, got);
        if self.drive.sets(condition) {
            self.value = self.invalid_value;
        }
        if self.drive.drives(condition) {
            self.drive.write(Value::Text(self.value), output)
        } else {
            false
        }
    }

    fn post(&mut self, _alarm_changed: bool) {}

    fn constant_kind(&self, _condition: &Condition, field: OwnField) -> Option<InputKind> {
        match field {
            OwnField::Dol => Some(InputKind::Text),
            _ => None,
        }
    }

    #[tactic(auto, unfolding(crate::specs::Stringout::stringout_loaded, crate::specs::Stringout::stringout_stored))]
    fn load(&mut self, condition: &mut Condition) {
        if let Some(value) = constant_text(&self.drive.desired.get().link) {
            self.store(condition, OwnField::Val, value);
        }
    }

    fn copy(&self, alloc: Global) -> Result<Self, AllocError> {
        let drive = self.drive.copy(alloc)?;
        Ok(Stringout { drive, ..*self })
    }

    fn copy_from(&mut self, other: &Self) {
        self.drive.copy_from(&other.drive);
        self.value = other.value;
        self.invalid_value = other.invalid_value;
    }
}
