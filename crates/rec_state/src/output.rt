//! The types bo and mbbo.
ghost use Rattle.std.specs.Prelude.{◌≡◌};
ghost use Rattle.ioc_record.specs.BodyLaws.{IsNewBody};
ghost use Rattle.rec_state.specs.Output.{state_output, new_output, driven_value};

use crate::sixteen_states::SixteenStates;
use crate::state_fields::StateFields;
use crate::states::States;
use crate::two_states::TwoStates;
use ioc_dbcommon::{
    Calculation, Condition, Drive, Fresh, Got, InputKind, LinkBox, LinkUse, Need, Output, ushort_in,
};
use ioc_fields::{OwnField, RecordType};
use ioc_links::Link;
use ioc_record::RecordBody;
use ioc_values::{Range, Text, Value};
use std::alloc::{AllocError, Global};

/// The type-specific fields of an output with states. Record Reference Manual, "Binary Output
/// Record" and "Multi-Bit Binary Output Record".
#[derive(Drop)]
pub struct StateOutput<S> {
    /// VAL, RVAL, MASK, COSV, LALM, and the states.
    pub fields: StateFields<S>,
    /// OUT, DOL, OMSL and IVOA.
    pub drive: Drive,
    /// IVOV.
    pub invalid_value: u16,
}

/// The fields of a bo, which has two states.
pub type Bo = StateOutput<TwoStates>;

/// The fields of an mbbo, which has sixteen states.
pub type Mbbo = StateOutput<SixteenStates>;

impl<S: States> StateOutput<S> {
    // Returns the value that is driven.
    #[tactic(auto, unfolding(crate::specs::Output::driven_value))]
    fn driven_value(&self, condition: &Condition) -> Value
        ensures { result ≡ driven_value S.rules self.now condition.now }
    {
        if self.drive.output.is_raw(condition) {
            Value::ULong(S::driven(self.fields.mask, self.fields.raw))
        } else {
            Value::UShort(self.fields.value)
        }
    }
}

impl<S: States> Fresh for StateOutput<S> {
    ghost use Rattle.rec_state.specs.Output.{new_output};

    ghost new_one = { new_output S.rules };

    /// Creates the fields of a new record, all 0 or empty.
    #[tactic(auto, unfolding(crate::specs::Output::new_output))]
    fn fresh() -> Self
        ensures value { result ≡ new_output S.rules }
        ensures defaults { IsNewBody (state_output S.rules) result }
    {
        StateOutput {
            fields: StateFields::new(),
            drive: Drive::new(),
            invalid_value: 0,
        }
    }
}

impl<S: States> RecordBody for StateOutput<S> {
    ghost use Rattle.rec_state.specs.OutputLaws.{output_lawful};

    ghost rules = { state_output S.rules };

    ghost lawful = { output_lawful S.rules S.lawful };

    fn record_type(&self) -> RecordType {
        S::output_type()
    }

    fn link(&self, field: OwnField) -> Option<&LinkBox> {
        self.drive.link(field)
    }

    fn set_link(&mut self, field: OwnField, link: LinkBox) {
        self.drive.set_link(field, link);
    }

    fn calculation(&self, _field: OwnField) -> Option<&Calculation> {
        None
    }

    fn set_calculation(&mut self, _field: OwnField, _calculation: Calculation) {}

    fn states(&self) -> &[Text] {
        self.fields.states.texts()
    }

    #[tactic(auto, unfolding(crate::specs::Output::output_get))]
    fn get(&self, field: OwnField) -> Option<Value> {
        match field {
            OwnField::Ivov => Some(Value::UShort(self.invalid_value)),
            OwnField::Omsl | OwnField::Ivoa => self.drive.get(field),
            _ => self.fields.get(field),
        }
    }

    #[tactic(auto, unfolding(crate::specs::Output::output_stored))]
    fn store(&mut self, condition: &mut Condition, field: OwnField, value: Value) {
        match field {
            OwnField::Ivov => self.invalid_value = ushort_in(value).unwrap_or(self.invalid_value),
            OwnField::Omsl | OwnField::Ivoa => self.drive.store(field, value),
            _ => self.fields.put(condition, field, value),
        }
    }

    fn begin(&self) -> Need {
        self.drive.begin()
    }

    fn wanted_link(&self) -> LinkUse {
        self.drive.wanted_link()
    }

    fn inputs(&self, _got: &Got) -> u16 {
        0
    }

    fn input_kind(&self, _condition: &Condition) -> InputKind {
        InputKind::Number(Range::UShort)
    }

    #[tactic(auto, unfolding(crate::specs::Output::output_taken, crate::specs::Output::output_driven, crate::specs::Output::invalid_set))]
    #[inline(never)]
    fn take(&mut self, condition: &mut Condition, got: &Got, output: &mut Output) -> bool {
        self.fields.work_output(condition, got);
        if self.drive.sets(condition) {
            self.fields.value = self.invalid_value;
            self.fields.convert();
        }
        if self.drive.drives(condition) {
            self.drive.write(self.driven_value(condition), output)
        } else {
            false
        }
    }

    fn post(&mut self, _alarm_changed: bool) {}

    fn constant_kind(&self, _condition: &Condition, field: OwnField) -> Option<InputKind> {
        match field {
            OwnField::Dol => Some(InputKind::Number(Range::UShort)),
            _ => None,
        }
    }

    #[tactic(auto, unfolding(crate::specs::Output::output_loaded))]
    fn load(&mut self, condition: &mut Condition) {
        self.fields.load_mask();
        if let Link::Constant(constant) = self.drive.desired.get().link {
            self.fields.take_value_if(condition, S::constant(constant));
        }
        self.fields.last_alarmed = self.fields.value;
    }

    fn copy(&self, alloc: Global) -> Result<Self, AllocError> {
        let drive = self.drive.copy(alloc)?;
        Ok(StateOutput { drive, ..*self })
    }

    fn copy_from(&mut self, other: &Self) {
        self.drive.copy_from(&other.drive);
        self.fields = other.fields;
        self.invalid_value = other.invalid_value;
    }
}
