//! The type calc.
ghost use Rattle.std.specs.Prelude.{◌≡◌, IfOk};
ghost use Rattle.ioc_record.specs.BodyLaws.{IsNewBody};
ghost use Rattle.rec_calc.specs.Calc.{calc, new_calc, calculated, calc_taken, calc_stored, calc_get, calc_posted, calc_loaded};
ghost use Rattle.rec_calc.specs.Inputs.{inputs_link};

use crate::inputs::Inputs;
use ioc_dbcommon::{Calculation, Condition, Fresh, Got, InputKind, LinkBox, LinkUse, Need, Output};
use ioc_fields::{OwnField, RecordType};
use ioc_record::RecordBody;
use ioc_values::{Double, Text, Value};
use rec_analog::Analog;
use rec_analog::analog::define_by;
use std::alloc::{AllocError, Global};

/// The type-specific fields of a calc, which a calcout has too. Record Reference Manual, "Calculation
/// Record".
#[derive(Drop)]
pub struct Calc {
    /// VAL, the limits, the deadbands, and how VAL is shown.
    pub analog: Analog,
    /// INPA to INPL, A to L, and LA to LL.
    pub inputs: Inputs,
    /// CALC.
    pub calculation: Calculation,
}

impl Calc {
    // Runs CALC: VAL takes its value, and A to L what it stores.
    #[tactic(auto, unfolding(crate::specs::Calc::calculated))]
    fn calculate(&mut self, condition: &mut Condition)
        ensures { record { body = self.new; condition = condition.new }
            ≡ calculated (record { body = self.old; condition = condition.old }) }
    {
        let value = self
            .calculation
            .run(&mut self.inputs.values, self.analog.value);
        self.analog.value = value;
        define_by(condition, value);
    }

    /// Runs CALC, unless an input returned a fault, and raises the alarms of VAL.
    #[tactic(auto, unfolding(crate::specs::Calc::calc_taken))]
    pub fn work(&mut self, condition: &mut Condition, got: &Got)
        ensures { record { body = self.new; condition = condition.new }
            ≡ calc_taken (record { body = self.old; condition = condition.old }) got.now }
    {
        match got {
            Got::Nothing | Got::Value(_) => self.calculate(condition),
            Got::Fault => {}
        }
        self.analog.test(condition);
    }

    /// Returns the value of a field that isn't a link.
    #[tactic(auto, unfolding(crate::specs::Calc::calc_get))]
    pub fn value_of(&self, field: OwnField) -> Option<Value>
        ensures { result ≡ calc_get self.now field }
    {
        match field {
            OwnField::Letter(_) | OwnField::LastLetter(_) => self.inputs.get(field),
            _ => self.analog.get(field),
        }
    }

    /// Stores a value that was converted for a field. VAL clears UDF.
    #[tactic(auto, unfolding(crate::specs::Calc::calc_stored))]
    pub fn keep(&mut self, condition: &mut Condition, field: OwnField, value: Value)
        ensures { record { body = self.new; condition = condition.new }
            ≡ calc_stored (record { body = self.old; condition = condition.old }) field value }
    {
        match field {
            OwnField::Val => {
                self.analog.store(field, value);
                condition.undefined = 0;
            }
            OwnField::Letter(_) => self.inputs.store(field, value),
            _ => self.analog.store(field, value),
        }
    }

    /// Notes which values monitors are sent.
    #[tactic(auto, unfolding(crate::specs::Calc::calc_posted))]
    pub fn send(&mut self, alarm_changed: bool)
        ensures { self.new ≡ calc_posted self.old alarm_changed }
    {
        self.analog.post();
        self.inputs.post(alarm_changed);
    }

    /// Puts constants, and sets what monitors were last sent to the values, as at the end of a load.
    #[tactic(auto, unfolding(crate::specs::Calc::calc_loaded))]
    pub fn settle(&mut self)
        ensures { self.new ≡ calc_loaded self.old }
    {
        self.inputs.settle();
        self.analog.settle();
    }

    /// Copies the fields.
    ///
    /// # Errors
    ///
    /// [`AllocError`] if allocation fails.
    pub fn copied(&self, alloc: Global) -> Result<Self, AllocError>
        ensures { IfOk result (λ copy. copy ≡ self.now) }
    {
        let inputs = self.inputs.copy(alloc)?;
        Ok(Calc {
            analog: self.analog,
            inputs,
            calculation: self.calculation.copy(),
        })
    }

    /// Copies the fields of `other`, which must have the same links. It never allocates.
    pub fn match_to(&mut self, other: &Calc)
        requires { inputs_link self.old.inputs.links ≡ inputs_link other.now.inputs.links }
        ensures { self.new ≡ other.now }
    {
        self.inputs.copy_from(&other.inputs);
        self.analog = other.analog;
        self.calculation = other.calculation.copy();
    }
}

impl Fresh for Calc {
    ghost use Rattle.rec_calc.specs.Calc.{new_calc};

    ghost new_one = { new_calc };

    /// Creates the fields of a new record, all 0 or empty.
    #[tactic(auto, unfolding(crate::specs::Calc::new_calc))]
    fn fresh() -> Self
        ensures value { result ≡ new_calc }
        ensures defaults { IsNewBody calc result }
    {
        Calc {
            analog: Analog::new(),
            inputs: Inputs::new(Double::from(0i32)),
            calculation: Calculation::unset(),
        }
    }
}

impl RecordBody for Calc {
    ghost use Rattle.rec_calc.specs.Calc.{calc};
    ghost use Rattle.rec_calc.specs.CalcLaws.{calc_lawful};

    ghost rules = { calc };

    ghost lawful = { calc_lawful };

    fn record_type(&self) -> RecordType {
        RecordType::Calc
    }

    fn link(&self, field: OwnField) -> Option<&LinkBox> {
        self.inputs.link(field)
    }

    fn set_link(&mut self, field: OwnField, link: LinkBox) {
        self.inputs.set_link(field, link);
    }

    fn calculation(&self, field: OwnField) -> Option<&Calculation> {
        match field {
            OwnField::Calc => Some(&self.calculation),
            _ => None,
        }
    }

    #[tactic(auto, unfolding(crate::specs::Calc::with_calculation))]
    fn set_calculation(&mut self, field: OwnField, calculation: Calculation) {
        if let OwnField::Calc = field {
            self.calculation = calculation;
        }
    }

    fn states(&self) -> &[Text] {
        &[]
    }

    fn get(&self, field: OwnField) -> Option<Value> {
        self.value_of(field)
    }

    fn store(&mut self, condition: &mut Condition, field: OwnField, value: Value) {
        self.keep(condition, field, value);
    }

    fn begin(&self) -> Need {
        Need::Inputs
    }

    fn wanted_link(&self) -> LinkUse {
        LinkUse::Unused
    }

    fn inputs(&self, _got: &Got) -> u16 {
        4095
    }

    fn input_kind(&self, _condition: &Condition) -> InputKind {
        InputKind::Double
    }

    #[inline(never)]
    fn take(&mut self, condition: &mut Condition, got: &Got, _output: &mut Output) -> bool {
        self.work(condition, got);
        false
    }

    fn post(&mut self, alarm_changed: bool) {
        self.send(alarm_changed);
    }

    fn constant_kind(&self, _condition: &Condition, field: OwnField) -> Option<InputKind> {
        match field {
            OwnField::InputLink(slot) if slot.index() < 12 => Some(InputKind::Double),
            _ => None,
        }
    }

    fn load(&mut self, _condition: &mut Condition) {
        self.settle();
    }

    fn copy(&self, alloc: Global) -> Result<Self, AllocError> {
        self.copied(alloc)
    }

    fn copy_from(&mut self, other: &Self) {
        self.match_to(other);
    }
}
