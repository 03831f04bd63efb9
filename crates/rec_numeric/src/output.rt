//! The types longout and int64out.
ghost use Rattle.std.specs.Prelude.{◌≡◌};
ghost use Rattle.ioc_record.specs.BodyLaws.{IsNewBody};
ghost use Rattle.rec_numeric.specs.Output.{numeric_output, new_output, within, limited_value, worked};

use crate::number::Number;
use crate::numeric::Numeric;
use crate::storing::{Storing, put_constant, store_number};
use ioc_dbcommon::{
    Calculation, Condition, Drive, Fresh, Got, InputKind, LinkBox, LinkUse, Need, Output,
};
use ioc_fields::{OwnField, RecordType};
use ioc_record::RecordBody;
use ioc_record::shown::number_in;
use ioc_values::{Range, Text, Value};
use std::alloc::{AllocError, Global};

/// The type-specific fields of a numeric output. Record Reference Manual, "Long Output Record" and
/// "64bit Integer Output Record".
#[derive(Drop)]
pub struct NumericOutput<N> {
    /// VAL, the limits with their severities, HYST, LALM, and the fields stored without effect.
    pub numbers: Numeric<N>,
    /// OUT, DOL, OMSL and IVOA.
    pub drive: Drive,
    /// DRVH and DRVL.
    pub drive_high: N,
    pub drive_low: N,
    /// IVOV.
    pub invalid_value: N,
}

/// The fields of a longout, whose numbers have 32 bits.
pub type Longout = NumericOutput<i32>;

/// The fields of an int64out, whose numbers have 64 bits.
pub type Int64out = NumericOutput<i64>;

// Returns the value, or the limit that it exceeds.
#[tactic(auto, unfolding(crate::specs::Output::within))]
fn within<N: Number>(value: N, low: N, high: N) -> N
    ensures { result ≡ within N.order value low high }
{
    if value.is_less(low) {
        low
    } else if high.is_less(value) {
        high
    } else {
        value
    }
}

impl<N: Number> NumericOutput<N> {
    // Returns VAL within the drive limits, which only apply if DRVH is greater than DRVL.
    #[tactic(auto, unfolding(crate::specs::Output::limited_value))]
    fn limited_value(&self) -> N
        ensures { result ≡ limited_value N.order self.now }
    {
        if self.drive_low.is_less(self.drive_high) {
            within(self.numbers.value, self.drive_low, self.drive_high)
        } else {
            self.numbers.value
        }
    }

    // Takes the input, keeps it within the drive limits, and raises alarms.
    #[tactic(auto, unfolding(crate::specs::Output::worked))]
    fn work(&mut self, condition: &mut Condition, got: &Got)
        ensures { record { body = self.new; condition = condition.new }
            ≡ worked N.number N.order (record { body = self.old; condition = condition.old }) got.now }
    {
        match got {
            Got::Value(value) => {
                self.numbers.value = N::in_value(*value).unwrap_or(self.numbers.value);
                condition.undefined = 0;
                self.numbers.value = self.limited_value();
            }
            Got::Nothing => self.numbers.value = self.limited_value(),
            Got::Fault => {}
        }
        self.numbers.test(condition);
    }
}

impl<N: Number> Fresh for NumericOutput<N> {
    ghost use Rattle.rec_numeric.specs.Output.{new_output};

    ghost new_one = { new_output N.number };

    /// Creates the fields of a new record, all 0 or empty.
    #[tactic(auto, unfolding(crate::specs::Output::new_output))]
    fn fresh() -> Self
        ensures value { result ≡ new_output N.number }
        ensures defaults { IsNewBody (numeric_output N.number N.order) result }
    {
        NumericOutput {
            numbers: Numeric::new(),
            drive: Drive::new(),
            drive_high: N::zero(),
            drive_low: N::zero(),
            invalid_value: N::zero(),
        }
    }
}

impl<N: Number> Storing<N> for NumericOutput<N> {
    ghost use Rattle.rec_numeric.specs.Stored.{output_with, output_put};

    ghost rules = { numeric_output N.number N.order };

    ghost with = { output_with };

    ghost stored_as = { output_put N.number N.order };

    fn put_value(&mut self, condition: &mut Condition, value: N) {
        self.numbers.value = value;
        condition.undefined = 0;
    }

    #[tactic(auto, unfolding(crate::specs::Output::output_stored))]
    fn store_value(&mut self, condition: &mut Condition, field: OwnField, value: Value) {
        match field {
            OwnField::Val => {
                self.numbers.store(field, value);
                condition.undefined = 0;
            }
            OwnField::Drvh => self.drive_high = N::in_value(value).unwrap_or(self.drive_high),
            OwnField::Drvl => self.drive_low = N::in_value(value).unwrap_or(self.drive_low),
            OwnField::Ivov => self.invalid_value = N::in_value(value).unwrap_or(self.invalid_value),
            OwnField::Omsl | OwnField::Ivoa => self.drive.store(field, value),
            _ => self.numbers.store(field, value),
        }
    }
}

impl<N: Number> RecordBody for NumericOutput<N> {
    ghost use Rattle.rec_numeric.specs.OutputLaws.{output_lawful};

    ghost rules = { numeric_output N.number N.order };

    ghost lawful = { output_lawful N.number N.order N.lawful };

    fn record_type(&self) -> RecordType {
        N::output_type()
    }

    fn link(&self, field: OwnField) -> Option<&LinkBox> {
        self.drive.link(field)
    }

    fn set_link(&mut self, field: OwnField, link: LinkBox) {
        self.drive.set_link(field, link);
    }

    fn calculation(&self, _field: OwnField) -> Option<&Calculation> {
        None
    }

    fn set_calculation(&mut self, _field: OwnField, _calculation: Calculation) {}

    fn states(&self) -> &[Text] {
        &[]
    }

    #[tactic(auto, unfolding(crate::specs::Output::output_get))]
    fn get(&self, field: OwnField) -> Option<Value> {
        match field {
            OwnField::Drvh => Some(self.drive_high.value()),
            OwnField::Drvl => Some(self.drive_low.value()),
            OwnField::Ivov => Some(self.invalid_value.value()),
            OwnField::Omsl | OwnField::Ivoa => self.drive.get(field),
            _ => self.numbers.get(field),
        }
    }

    #[tactic(auto, unfolding(crate::specs::Output::output_get))]
    fn number(&self, field: OwnField) -> Option<i64> {
        match field {
            OwnField::Drvh => Some(self.drive_high.shown()),
            OwnField::Drvl => Some(self.drive_low.shown()),
            OwnField::Ivov => Some(self.invalid_value.shown()),
            OwnField::Omsl | OwnField::Ivoa => number_in(self.drive.get(field)),
            _ => self.numbers.number(field),
        }
    }

    fn store(&mut self, condition: &mut Condition, field: OwnField, value: Value) {
        self.store_value(condition, field, value);
    }

    fn store_number(
        &mut self,
        condition: &mut Condition,
        field: OwnField,
        range: Range,
        number: i64,
    ) -> bool {
        store_number::<N, Self>(self, condition, field, range, number)
    }

    fn begin(&self) -> Need {
        self.drive.begin()
    }

    fn wanted_link(&self) -> LinkUse {
        self.drive.wanted_link()
    }

    fn inputs(&self, _got: &Got) -> u16 {
        0
    }

    fn input_kind(&self, _condition: &Condition) -> InputKind {
        InputKind::Number(N::range())
    }

    #[tactic(auto, unfolding(crate::specs::Output::output_taken, crate::specs::Output::output_driven, crate::specs::Output::settled))]
    #[inline(never)]
    fn take(&mut self, condition: &mut Condition, got: &Got, output: &mut Output) -> bool {
        self.work(condition, got);
        if self.drive.sets(condition) {
            self.numbers.value = self.invalid_value;
        }
        if self.drive.drives(condition) {
            self.drive.write(self.numbers.value.value(), output)
        } else {
            false
        }
    }

    fn post(&mut self, _alarm_changed: bool) {}

    fn constant_kind(&self, _condition: &Condition, field: OwnField) -> Option<InputKind> {
        match field {
            OwnField::Dol => Some(InputKind::Number(N::range())),
            _ => None,
        }
    }

    #[tactic(auto, unfolding(crate::specs::Output::output_stored))]
    fn load(&mut self, condition: &mut Condition) {
        let link = self.drive.desired.get().link;
        put_constant::<N, Self>(self, condition, link);
        self.numbers.settle();
    }

    fn copy(&self, alloc: Global) -> Result<Self, AllocError> {
        let drive = self.drive.copy(alloc)?;
        Ok(NumericOutput { drive, ..*self })
    }

    fn copy_from(&mut self, other: &Self) {
        self.drive.copy_from(&other.drive);
        self.numbers = other.numbers;
        self.drive_high = other.drive_high;
        self.drive_low = other.drive_low;
        self.invalid_value = other.invalid_value;
    }
}
