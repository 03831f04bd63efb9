//! The types longin and int64in.
ghost use Rattle.std.specs.Prelude.{◌≡◌};
ghost use Rattle.ioc_record.specs.BodyLaws.{IsNewBody};
ghost use Rattle.rec_numeric.specs.Input.{numeric_input, new_input};

use crate::number::Number;
use crate::numeric::Numeric;
use crate::storing::{Storing, put_constant, store_number};
use ioc_dbcommon::{
    Calculation, Condition, Fresh, Got, InputKind, LinkBox, LinkUse, Need, Output, Source,
};
use ioc_fields::{OwnField, RecordType};
use ioc_record::RecordBody;
use ioc_values::{Range, Text, Value};
use std::alloc::{AllocError, Global};

/// The type-specific fields of a numeric input. Record Reference Manual, "Long Input Record" and
/// "64bit Integer Input Record".
#[derive(Drop)]
pub struct NumericInput<N> {
    /// VAL, the limits with their severities, HYST, LALM, and the fields stored without effect.
    pub numbers: Numeric<N>,
    /// INP.
    pub source: Source,
}

/// The fields of a longin, whose numbers have 32 bits.
pub type Longin = NumericInput<i32>;

/// The fields of an int64in, whose numbers have 64 bits.
pub type Int64in = NumericInput<i64>;

impl<N: Number> Fresh for NumericInput<N> {
    ghost use Rattle.rec_numeric.specs.Input.{new_input};

    ghost new_one = { new_input N.number };

    /// Creates the fields of a new record, all 0 or empty.
    #[tactic(auto, unfolding(crate::specs::Input::new_input))]
    fn fresh() -> Self
        ensures value { result ≡ new_input N.number }
        ensures defaults { IsNewBody (numeric_input N.number N.order) result }
    {
        NumericInput {
            numbers: Numeric::new(),
            source: Source::new(),
        }
    }
}

impl<N: Number> Storing<N> for NumericInput<N> {
    ghost use Rattle.rec_numeric.specs.Stored.{input_with, input_put};

    ghost rules = { numeric_input N.number N.order };

    ghost with = { input_with };

    ghost stored_as = { input_put N.number N.order };

    fn put_value(&mut self, condition: &mut Condition, value: N) {
        self.numbers.value = value;
        condition.undefined = 0;
    }

    #[tactic(auto, unfolding(crate::specs::Input::input_stored))]
    fn store_value(&mut self, condition: &mut Condition, field: OwnField, value: Value) {
        self.numbers.store(field, value);
        if let OwnField::Val = field {
            condition.undefined = 0;
        }
    }
}

impl<N: Number> RecordBody for NumericInput<N> {
    ghost use Rattle.rec_numeric.specs.InputLaws.{input_lawful};

    ghost rules = { numeric_input N.number N.order };

    ghost lawful = { input_lawful N.number N.order N.lawful };

    fn record_type(&self) -> RecordType {
        N::input_type()
    }

    fn link(&self, field: OwnField) -> Option<&LinkBox> {
        self.source.link(field)
    }

    fn set_link(&mut self, field: OwnField, link: LinkBox) {
        self.source.set_link(field, link);
    }

    fn calculation(&self, _field: OwnField) -> Option<&Calculation> {
        None
    }

    fn set_calculation(&mut self, _field: OwnField, _calculation: Calculation) {}

    fn states(&self) -> &[Text] {
        &[]
    }

    fn get(&self, field: OwnField) -> Option<Value> {
        self.numbers.get(field)
    }

    fn number(&self, field: OwnField) -> Option<i64> {
        self.numbers.number(field)
    }

    fn store(&mut self, condition: &mut Condition, field: OwnField, value: Value) {
        self.store_value(condition, field, value);
    }

    fn store_number(
        &mut self,
        condition: &mut Condition,
        field: OwnField,
        range: Range,
        number: i64,
    ) -> bool {
        store_number::<N, Self>(self, condition, field, range, number)
    }

    fn begin(&self) -> Need {
        self.source.begin()
    }

    fn wanted_link(&self) -> LinkUse {
        self.source.wanted_link()
    }

    fn inputs(&self, _got: &Got) -> u16 {
        0
    }

    fn input_kind(&self, _condition: &Condition) -> InputKind {
        InputKind::Number(N::range())
    }

    #[tactic(auto, unfolding(crate::specs::Input::input_taken))]
    #[inline(never)]
    fn take(&mut self, condition: &mut Condition, got: &Got, _output: &mut Output) -> bool {
        if let Got::Value(value) = got {
            self.store(condition, OwnField::Val, *value);
        }
        self.numbers.test(condition);
        false
    }

    fn post(&mut self, _alarm_changed: bool) {}

    fn constant_kind(&self, _condition: &Condition, field: OwnField) -> Option<InputKind> {
        match field {
            OwnField::Inp => Some(InputKind::Number(N::range())),
            _ => None,
        }
    }

    fn load(&mut self, condition: &mut Condition) {
        let link = self.source.input.get().link;
        put_constant::<N, Self>(self, condition, link);
        self.numbers.settle();
    }

    fn copy(&self, alloc: Global) -> Result<Self, AllocError> {
        let source = self.source.copy(alloc)?;
        Ok(NumericInput {
            numbers: self.numbers,
            source,
        })
    }

    fn copy_from(&mut self, other: &Self) {
        self.numbers = other.numbers;
    }
}
