//! The types bi and mbbi.
ghost use Rattle.std.specs.Prelude.{◌≡◌};
ghost use Rattle.ioc_record.specs.BodyLaws.{IsNewBody};
ghost use Rattle.rec_state.specs.Input.{state_input, new_input};

use crate::sixteen_states::SixteenStates;
use crate::state_fields::StateFields;
use crate::states::States;
use crate::two_states::TwoStates;
use ioc_dbcommon::{
    Calculation, Condition, Fresh, Got, InputKind, LinkBox, LinkUse, Need, Output, Source,
};
use ioc_fields::{OwnField, RecordType};
use ioc_links::Link;
use ioc_record::RecordBody;
use ioc_values::{Range, Text, Value};
use std::alloc::{AllocError, Global};

/// The type-specific fields of an input with states. Record Reference Manual, "Binary Input Record"
/// and "Multi-Bit Binary Input Record".
#[derive(Drop)]
pub struct StateInput<S> {
    /// VAL, RVAL, MASK, COSV, LALM, and the states.
    pub fields: StateFields<S>,
    /// INP.
    pub source: Source,
}

/// The fields of a bi, which has two states.
pub type Bi = StateInput<TwoStates>;

/// The fields of an mbbi, which has sixteen states.
pub type Mbbi = StateInput<SixteenStates>;

impl<S: States> Fresh for StateInput<S> {
    ghost use Rattle.rec_state.specs.Input.{new_input};

    ghost new_one = { new_input S.rules };

    /// Creates the fields of a new record, all 0 or empty.
    #[tactic(auto, unfolding(crate::specs::Input::new_input))]
    fn fresh() -> Self
        ensures value { result ≡ new_input S.rules }
        ensures defaults { IsNewBody (state_input S.rules) result }
    {
        StateInput {
            fields: StateFields::new(),
            source: Source::new(),
        }
    }
}

impl<S: States> RecordBody for StateInput<S> {
    ghost use Rattle.rec_state.specs.InputLaws.{input_lawful};

    ghost rules = { state_input S.rules };

    ghost lawful = { input_lawful S.rules S.lawful };

    fn record_type(&self) -> RecordType {
        S::input_type()
    }

    fn link(&self, field: OwnField) -> Option<&LinkBox> {
        self.source.link(field)
    }

    fn set_link(&mut self, field: OwnField, link: LinkBox) {
        self.source.set_link(field, link);
    }

    fn calculation(&self, _field: OwnField) -> Option<&Calculation> {
        None
    }

    fn set_calculation(&mut self, _field: OwnField, _calculation: Calculation) {}

    fn states(&self) -> &[Text] {
        self.fields.states.texts()
    }

    fn get(&self, field: OwnField) -> Option<Value> {
        self.fields.get(field)
    }

    #[tactic(auto, unfolding(crate::specs::Input::input_stored))]
    fn store(&mut self, condition: &mut Condition, field: OwnField, value: Value) {
        self.fields.put(condition, field, value);
    }

    fn begin(&self) -> Need {
        self.source.begin()
    }

    fn wanted_link(&self) -> LinkUse {
        self.source.wanted_link()
    }

    fn inputs(&self, _got: &Got) -> u16 {
        0
    }

    #[tactic(auto, unfolding(crate::specs::Input::state_input_kind))]
    fn input_kind(&self, condition: &Condition) -> InputKind {
        if self.source.input.is_raw(condition) {
            InputKind::Number(Range::ULong)
        } else {
            InputKind::Number(Range::UShort)
        }
    }

    #[tactic(auto, unfolding(crate::specs::Input::input_taken))]
    #[inline(never)]
    fn take(&mut self, condition: &mut Condition, got: &Got, _output: &mut Output) -> bool {
        let raw = self.source.input.is_raw(condition);
        self.fields.work_input(condition, raw, got);
        false
    }

    fn post(&mut self, _alarm_changed: bool) {}

    fn constant_kind(&self, _condition: &Condition, field: OwnField) -> Option<InputKind> {
        match field {
            OwnField::Inp => Some(InputKind::Number(Range::ULong)),
            _ => None,
        }
    }

    #[tactic(auto, unfolding(crate::specs::Input::input_loaded))]
    fn load(&mut self, condition: &mut Condition) {
        self.fields.load_mask();
        if let Link::Constant(constant) = self.source.input.get().link {
            let raw = self.source.input.is_raw(condition);
            self.fields.put_constant(condition, raw, constant);
        }
        self.fields.last_alarmed = self.fields.value;
    }

    fn copy(&self, alloc: Global) -> Result<Self, AllocError> {
        let source = self.source.copy(alloc)?;
        Ok(StateInput {
            fields: self.fields,
            source,
        })
    }

    fn copy_from(&mut self, other: &Self) {
        self.fields = other.fields;
    }
}
