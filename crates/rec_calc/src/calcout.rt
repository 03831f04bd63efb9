//! The type calcout.
ghost use Rattle.std.specs.Prelude.{◌≡◌, IsTrue, IfOk};
ghost use Rattle.ioc_dbcommon.specs.Wants.{puts_out};
ghost use Rattle.ioc_record.specs.BodyLaws.{IsNewBody};
ghost use Rattle.rec_calc.specs.Calcout.{calcout, new_calcout, has_changed, is_zero, is_due, output_run, output_made};
ghost use Rattle.rec_calc.specs.Calcout.{invalid_set, worked, calcout_taken, calcout_output, calcout_get, calcout_stored};
ghost use Rattle.rec_calc.specs.Calcout.{driven_out};

use crate::calc::Calc;
use ioc_dbcommon::{
    Calculation, Condition, Fresh, Got, InputKind, LinkBox, LinkUse, Need, Output, dopt_in,
    double_in, drives, ivoa_in, oopt_in, sets,
};
use ioc_fields::{OwnField, RecordType};
use ioc_menus::{Dopt, Ivoa, Oopt};
use ioc_record::RecordBody;
use ioc_values::{Double, Text, Value};
use rec_analog::analog::define_by;
use std::alloc::{AllocError, Global};

/// The type-specific fields of a calcout. Record Reference Manual, "Calculation Output Record".
#[derive(Drop)]
pub struct Calcout {
    /// The fields that a calc has.
    pub calc: Calc,
    /// OUT.
    pub output: LinkBox,
    /// OOPT: when the output is written.
    pub option: Oopt,
    /// DOPT: which expression gives the output.
    pub output_data: Dopt,
    /// OCAL.
    pub output_calculation: Calculation,
    /// OVAL: the value that was written last.
    pub output_value: Double,
    /// PVAL: the value that VAL had at the body before.
    pub previous: Double,
    /// IVOA.
    pub on_invalid: Ivoa,
    /// IVOV.
    pub invalid_value: Double,
}

/// Returns whether a value has moved by more than a deadband. It has if one of the three is NaN.
#[tactic(auto, unfolding(crate::specs::Calcout::has_changed))]
fn has_changed(old: f64, new: f64, band: f64) -> bool
    ensures { result ≡ has_changed old new band }
{
    !((old - new).abs() <= band)
}

/// Returns whether a value is 0.
#[tactic(auto, unfolding(crate::specs::Calcout::is_zero))]
fn is_zero(value: f64) -> bool
    ensures { result ≡ is_zero value }
{
    value == f64::from(0i32)
}

impl Calcout {
    // Returns whether OOPT says that the output is written, by VAL and by what it was before.
    #[tactic(auto, unfolding(crate::specs::Calcout::is_due))]
    fn is_due(&self) -> bool
        ensures { result ≡ is_due self.now }
    {
        let value = self.calc.analog.value.number();
        let old = self.previous.number();
        match self.option {
            Oopt::EveryTime => true,
            Oopt::OnChange => has_changed(old, value, self.calc.analog.monitor_deadband.number()),
            Oopt::WhenZero => is_zero(value),
            Oopt::WhenNonZero => !is_zero(value),
            Oopt::TransitionToZero => !is_zero(old) && is_zero(value),
            Oopt::TransitionToNonZero => is_zero(old) && !is_zero(value),
        }
    }

    // Runs OCAL: OVAL takes its value, which says whether the record is defined, and A to L what it
    // stores.
    #[tactic(auto, unfolding(crate::specs::Calcout::output_run))]
    fn run_output(&mut self, condition: &mut Condition)
        ensures { record { body = self.new; condition = condition.new }
            ≡ output_run (record { body = self.old; condition = condition.old }) }
    {
        let value = self
            .output_calculation
            .run(&mut self.calc.inputs.values, self.output_value);
        self.output_value = value;
        define_by(condition, value);
    }

    // Makes the value of the output, and raises the alarm of an undefined one.
    #[tactic(auto, unfolding(crate::specs::Calcout::output_made))]
    fn make_output(&mut self, condition: &mut Condition)
        ensures { record { body = self.new; condition = condition.new }
            ≡ output_made (record { body = self.old; condition = condition.old }) }
    {
        match self.output_data {
            Dopt::UseCalc => self.output_value = self.calc.analog.value,
            Dopt::UseOcal => self.run_output(condition),
        }
        condition.test_undefined();
    }

    // Sets OVAL to IVOV, if IVOA says so.
    #[tactic(auto, unfolding(crate::specs::Calcout::invalid_set))]
    fn set_invalid(&mut self, condition: &Condition)
        ensures { record { body = self.new; condition = condition.now }
            ≡ invalid_set (record { body = self.old; condition = condition.now }) }
    {
        if sets(self.on_invalid, condition) {
            self.output_value = self.invalid_value;
        }
    }

    // Does the work of a calc, and tests OOPT before PVAL becomes VAL. Returns whether there is an
    // output.
    #[tactic(auto, unfolding(crate::specs::Calcout::worked))]
    fn work(&mut self, condition: &mut Condition, got: &Got) -> bool
        ensures after { record { body = self.new; condition = condition.new }
            ≡ (worked (record { body = self.old; condition = condition.old }) got.now).0 }
        ensures due { result ≡ (worked (record { body = self.old; condition = condition.old }) got.now).1 }
    {
        self.calc.work(condition, got);
        let due = self.is_due();
        self.previous = self.calc.analog.value;
        due
    }

    // Writes OVAL to what OUT leads to, unless IVOA says that nothing is driven. Returns whether there
    // is any output.
    fn write_driven(&self, condition: &Condition, output: &mut Output) -> bool
        ensures puts_out { result ≡ puts_out (driven_out (record { body = self.now; condition = condition.now })) }
        ensures output { IsTrue result → output.new ≡ driven_out (record { body = self.now; condition = condition.now }) }
    {
        if drives(self.on_invalid, condition) {
            self.output.write(Value::Double(self.output_value), output)
        } else {
            false
        }
    }
}

impl Fresh for Calcout {
    ghost use Rattle.rec_calc.specs.Calcout.{new_calcout};

    ghost new_one = { new_calcout };

    /// Creates the fields of a new record, all 0 or empty.
    #[tactic(auto, unfolding(crate::specs::Calcout::new_calcout))]
    fn fresh() -> Self
        ensures value { result ≡ new_calcout }
        ensures defaults { IsNewBody calcout result }
    {
        let zero = Double::from(0i32);
        Calcout {
            calc: Calc::fresh(),
            output: LinkBox::empty(),
            option: Oopt::EveryTime,
            output_data: Dopt::UseCalc,
            output_calculation: Calculation::unset(),
            output_value: zero,
            previous: zero,
            on_invalid: Ivoa::ContinueNormally,
            invalid_value: zero,
        }
    }
}

impl RecordBody for Calcout {
    ghost use Rattle.rec_calc.specs.Calcout.{calcout};
    ghost use Rattle.rec_calc.specs.CalcoutLaws.{calcout_lawful};

    ghost rules = { calcout };

    ghost lawful = { calcout_lawful };

    fn record_type(&self) -> RecordType {
        RecordType::Calcout
    }

    fn link(&self, field: OwnField) -> Option<&LinkBox> {
        match field {
            OwnField::Out => Some(&self.output),
            _ => self.calc.inputs.link(field),
        }
    }

    #[tactic(auto, unfolding(crate::specs::Calcout::calcout_with_link))]
    fn set_link(&mut self, field: OwnField, link: LinkBox) {
        match field {
            OwnField::Out => self.output = link,
            _ => self.calc.inputs.set_link(field, link),
        }
    }

    fn calculation(&self, field: OwnField) -> Option<&Calculation> {
        match field {
            OwnField::Calc => Some(&self.calc.calculation),
            OwnField::Ocal => Some(&self.output_calculation),
            _ => None,
        }
    }

    #[tactic(auto, unfolding(crate::specs::Calcout::with_calculation))]
    fn set_calculation(&mut self, field: OwnField, calculation: Calculation) {
        match field {
            OwnField::Calc => self.calc.calculation = calculation,
            OwnField::Ocal => self.output_calculation = calculation,
            _ => {}
        }
    }

    fn states(&self) -> &[Text] {
        &[]
    }

    #[tactic(auto, unfolding(crate::specs::Calcout::calcout_get))]
    #[inline(never)]
    fn get(&self, field: OwnField) -> Option<Value> {
        Some(match field {
            OwnField::Oopt => Value::Enum(self.option.number()),
            OwnField::Dopt => Value::Enum(self.output_data.number()),
            OwnField::Oval => Value::Double(self.output_value),
            OwnField::Pval => Value::Double(self.previous),
            OwnField::Ivoa => Value::Enum(self.on_invalid.number()),
            OwnField::Ivov => Value::Double(self.invalid_value),
            _ => return self.calc.value_of(field),
        })
    }

    #[tactic(auto, unfolding(crate::specs::Calcout::calcout_stored))]
    fn store(&mut self, condition: &mut Condition, field: OwnField, value: Value) {
        match field {
            OwnField::Oopt => self.option = oopt_in(value).unwrap_or(self.option),
            OwnField::Dopt => self.output_data = dopt_in(value).unwrap_or(self.output_data),
            OwnField::Ivoa => self.on_invalid = ivoa_in(value).unwrap_or(self.on_invalid),
            OwnField::Ivov => self.invalid_value = double_in(value).unwrap_or(self.invalid_value),
            _ => self.calc.keep(condition, field, value),
        }
    }

    fn begin(&self) -> Need {
        Need::Inputs
    }

    fn wanted_link(&self) -> LinkUse {
        LinkUse::Unused
    }

    fn inputs(&self, _got: &Got) -> u16 {
        4095
    }

    fn input_kind(&self, _condition: &Condition) -> InputKind {
        InputKind::Double
    }

    #[tactic(auto, unfolding(crate::specs::Calcout::calcout_taken, crate::specs::Calcout::calcout_output))]
    #[inline(never)]
    fn take(&mut self, condition: &mut Condition, got: &Got, output: &mut Output) -> bool {
        if !self.work(condition, got) {
            return false;
        }
        self.make_output(condition);
        self.set_invalid(condition);
        self.write_driven(condition, output)
    }

    fn post(&mut self, alarm_changed: bool) {
        self.calc.send(alarm_changed);
    }

    fn constant_kind(&self, condition: &Condition, field: OwnField) -> Option<InputKind> {
        self.calc.constant_kind(condition, field)
    }

    fn load(&mut self, _condition: &mut Condition) {
        self.calc.settle();
        self.previous = self.calc.analog.value;
    }

    fn copy(&self, alloc: Global) -> Result<Self, AllocError> {
        let calc = self.calc.copied(alloc)?;
        let output = self.output.copy(alloc)?;
        Ok(Calcout {
            calc,
            output,
            option: self.option,
            output_data: self.output_data,
            output_calculation: self.output_calculation.copy(),
            output_value: self.output_value,
            previous: self.previous,
            on_invalid: self.on_invalid,
            invalid_value: self.invalid_value,
        })
    }

    fn copy_from(&mut self, other: &Self) {
        self.calc.match_to(&other.calc);
        self.option = other.option;
        self.output_data = other.output_data;
        self.output_calculation = other.output_calculation.copy();
        self.output_value = other.output_value;
        self.previous = other.previous;
        self.on_invalid = other.on_invalid;
        self.invalid_value = other.invalid_value;
    }
}
