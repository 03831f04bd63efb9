//! The fields that bi, bo, mbbi and mbbo share, and their alarms.
ghost use Rattle.std.specs.Prelude.{◌≡◌};
ghost use Rattle.ioc_record.specs.BodyRules.{BodyState};
ghost use Rattle.rec_state.specs.StateFields.{new_fields, fields_get, fields_stored, put, raw_taken_if, value_taken_if};
ghost use Rattle.rec_state.specs.StateFields.{converted, changed, tested, input_tested, input_worked, output_worked};
ghost use Rattle.rec_state.specs.StateFields.{constant_put, mask_loaded};

use crate::states::States;
use ioc_dbcommon::{
    Condition, Got, raw_came, raw_constant, severity_in, state_came, state_constant, state_in,
    ulong_in,
};
use ioc_fields::OwnField;
use ioc_menus::{Severity, Status};
use ioc_values::Value;

/// The fields that bi, bo, mbbi and mbbo share. Record Reference Manual, "Binary Input Record",
/// "Binary Output Record", "Multi-Bit Binary Input Record" and "Multi-Bit Binary Output Record".
#[derive(Clone, Copy, Drop)]
pub struct StateFields<S> {
    /// VAL.
    pub value: u16,
    /// RVAL.
    pub raw: u32,
    /// MASK.
    pub mask: u32,
    /// The states, with their texts and severities.
    pub states: S,
    /// COSV.
    pub change_severity: Severity,
    /// LALM.
    pub last_alarmed: u16,
}

impl<S: States> StateFields<S> {
    /// Creates the fields of a new record, all 0 or empty.
    #[tactic(auto, unfolding(crate::specs::StateFields::new_fields))]
    pub fn new() -> Self
        ensures { result ≡ new_fields S.rules }
    {
        StateFields {
            value: 0,
            raw: 0,
            mask: 0,
            states: S::new(),
            change_severity: Severity::NoAlarm,
            last_alarmed: 0,
        }
    }

    #[tactic(auto, unfolding(crate::specs::StateFields::fields_get))]
    pub fn get(&self, field: OwnField) -> Option<Value>
        ensures { result ≡ fields_get S.rules self.now field }
    {
        match field {
            OwnField::Val => Some(Value::Enum(self.value)),
            OwnField::Rval => Some(Value::ULong(self.raw)),
            OwnField::Mask => Some(Value::ULong(self.mask)),
            OwnField::Cosv => Some(Value::Enum(self.change_severity.number())),
            OwnField::Lalm => Some(Value::UShort(self.last_alarmed)),
            _ => self.states.get(field),
        }
    }

    // Stores a converted value.
    #[tactic(auto, unfolding(crate::specs::StateFields::fields_stored))]
    fn store(&mut self, field: OwnField, value: Value)
        ensures { self.new ≡ fields_stored S.rules self.old field value }
    {
        match field {
            OwnField::Val => self.value = state_in(value).unwrap_or(self.value),
            OwnField::Rval => self.raw = ulong_in(value).unwrap_or(self.raw),
            OwnField::Mask => self.mask = ulong_in(value).unwrap_or(self.mask),
            OwnField::Cosv => {
                self.change_severity = severity_in(value).unwrap_or(self.change_severity);
            }
            _ => self.states.store(field, value),
        }
    }

    /// Stores a converted value. VAL clears UDF.
    #[tactic(auto, unfolding(crate::specs::StateFields::put))]
    pub fn put(&mut self, condition: &mut Condition, field: OwnField, value: Value)
        ensures { record { body = self.new; condition = condition.new }
            ≡ put S.rules (record { body = self.old; condition = condition.old }) field value }
    {
        self.store(field, value);
        if let OwnField::Val = field {
            condition.undefined = 0;
        }
    }

    // Stores the bits of a number that MASK leaves in RVAL, if there is one, and sets VAL from it.
    #[tactic(auto, unfolding(crate::specs::StateFields::raw_taken))]
    fn take_raw_if(&mut self, condition: &mut Condition, raw: Option<u32>)
        ensures { record { body = self.new; condition = condition.new }
            ≡ raw_taken_if S.rules (record { body = self.old; condition = condition.old }) raw }
    {
        if let Some(raw) = raw {
            let bits = S::masked(self.mask, raw);
            self.value = self.states.state_of(bits);
            self.raw = bits;
            condition.undefined = 0;
        }
    }

    /// Stores a number in VAL and clears UDF, if there is one.
    pub fn take_value_if(&mut self, condition: &mut Condition, value: Option<u16>)
        ensures { record { body = self.new; condition = condition.new }
            ≡ value_taken_if (record { body = self.old; condition = condition.old }) value }
    {
        if let Some(value) = value {
            self.value = value;
            condition.undefined = 0;
        }
    }

    /// Sets RVAL from VAL. RVAL stays the same if there is none for this VAL.
    #[tactic(auto, unfolding(crate::specs::StateFields::converted))]
    pub fn convert(&mut self)
        ensures { self.new ≡ converted S.rules self.old }
    {
        if let Some(raw) = self.states.raw_of(self.mask, self.value) {
            self.raw = raw;
        }
    }

    // Raises COS if the state has changed.
    #[tactic(auto, unfolding(crate::specs::StateFields::changed))]
    fn test_change(&mut self, condition: &mut Condition)
        ensures { record { body = self.new; condition = condition.new } ≡ changed (record { body = self.old; condition = condition.old }) }
    {
        if self.value != self.last_alarmed {
            condition.raise(Status::Cos, self.change_severity);
            self.last_alarmed = self.value;
        }
    }

    // Raises the alarm of an undefined value, or else those of the state and of a change.
    #[tactic(auto, unfolding(crate::specs::StateFields::tested))]
    fn test(&mut self, condition: &mut Condition)
        ensures { record { body = self.new; condition = condition.new }
            ≡ tested S.rules (record { body = self.old; condition = condition.old }) }
    {
        if condition.undefined == 0 {
            condition.raise(Status::State, self.states.severity(self.value));
            self.test_change(condition);
        } else {
            let severity = condition.undefined_severity;
            condition.raise(Status::Udf, severity);
        }
    }

    // Raises the alarms of an input. A defined VAL that isn't a state may have none.
    #[tactic(auto, unfolding(crate::specs::StateFields::input_tested))]
    fn test_input(&mut self, condition: &mut Condition)
        ensures { record { body = self.new; condition = condition.new }
            ≡ input_tested S.rules (record { body = self.old; condition = condition.old }) }
    {
        if condition.undefined != 0 || S::has_alarms(self.value) {
            self.test(condition);
        }
    }

    /// Takes what an input read, in RVAL if it is the raw value, or else in VAL, and raises alarms.
    #[tactic(auto, unfolding(crate::specs::StateFields::input_worked))]
    pub fn work_input(&mut self, condition: &mut Condition, raw: bool, got: &Got)
        ensures { record { body = self.new; condition = condition.new }
            ≡ input_worked S.rules raw (record { body = self.old; condition = condition.old }) got.now }
    {
        if raw {
            self.take_raw_if(condition, raw_came(got, self.raw));
        } else {
            self.take_value_if(condition, state_came(got, self.value));
        }
        self.test_input(condition);
    }

    /// Takes the VAL of an output, sets RVAL from it, and raises alarms.
    #[tactic(auto, unfolding(crate::specs::StateFields::output_worked))]
    pub fn work_output(&mut self, condition: &mut Condition, got: &Got)
        ensures { record { body = self.new; condition = condition.new }
            ≡ output_worked S.rules (record { body = self.old; condition = condition.old }) got.now }
    {
        self.take_value_if(condition, state_came(got, self.value));
        if S::converts(got, condition.undefined) {
            self.convert();
        }
        self.test(condition);
    }

    /// Puts a constant INP into RVAL if the raw value is read, or else into VAL if it is from 0 to
    /// 65535.
    pub fn put_constant(&mut self, condition: &mut Condition, raw: bool, constant: i64)
        ensures { record { body = self.new; condition = condition.new }
            ≡ constant_put raw (record { body = self.old; condition = condition.old }) constant }
    {
        if raw {
            self.raw = raw_constant(constant).unwrap_or(self.raw);
        } else {
            self.take_value_if(condition, state_constant(constant));
        }
    }

    /// Sets MASK at load.
    pub fn load_mask(&mut self)
        ensures { self.new ≡ mask_loaded S.rules self.old }
    {
        self.mask = self.states.loaded_mask(self.mask);
    }
}
