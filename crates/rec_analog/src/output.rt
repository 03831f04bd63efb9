//! The type ao.
ghost use Rattle.std.specs.Prelude.{◌≡◌};
ghost use Rattle.ioc_record.specs.BodyLaws.{IsNewBody};
ghost use Rattle.rec_analog.specs.Output.{ao, new_ao, asked, limited, slewed, driven_to, came, ao_taken, driven_value};
ghost use Rattle.rec_analog.specs.Output.{driven_out, constant_put};
ghost use Rattle.std.specs.Prelude.{IsTrue};
ghost use Rattle.ioc_dbcommon.specs.Wants.{puts_out};

use crate::analog::{Analog, define_by, undefine_if_nan};
use crate::scale::Scale;
use ioc_dbcommon::{
    Calculation, Condition, Drive, Fresh, Got, InputKind, LinkBox, LinkUse, Need, Output,
    constant_in, double_in, oif_in,
};
use ioc_fields::{OwnField, RecordType};
use ioc_links::Link;
use ioc_menus::Oif;
use ioc_record::RecordBody;
use ioc_values::{Double, Kind, Text, Value};
use std::alloc::{AllocError, Global};

/// The type-specific fields of an ao. Record Reference Manual, "Analog Output Record".
#[derive(Drop)]
pub struct Ao {
    /// VAL, the limits, the deadbands, and how VAL is shown.
    pub analog: Analog,
    /// RVAL, and the fields by which it is converted.
    pub scale: Scale,
    /// OUT, DOL, OMSL and IVOA.
    pub drive: Drive,
    /// OIF.
    pub increment: Oif,
    /// OROC: the most by which the output changes at once, or 0 for any change.
    pub rate: Double,
    /// DRVH and DRVL.
    pub drive_high: Double,
    pub drive_low: Double,
    /// OVAL: the value that was driven last.
    pub driven: Double,
    /// PVAL: the value that VAL had when it was driven last.
    pub previous: Double,
    /// IVOV.
    pub invalid_value: Double,
}

impl Ao {
    // Returns the value that is asked for: what came, which OIF may add to PVAL.
    #[tactic(auto, unfolding(crate::specs::Output::asked))]
    fn asked(&self, came: Double) -> Double
        ensures { result ≡ asked self.now came }
    {
        match self.increment {
            Oif::Full => came,
            Oif::Incremental => Double::new(came.number() + self.previous.number()),
        }
    }

    // Returns the value within the drive limits, which only apply if DRVH is greater than DRVL.
    #[tactic(auto, unfolding(crate::specs::Output::limited))]
    fn limited(&self, value: Double) -> Double
        ensures { result ≡ limited self.now value }
    {
        let (low, high) = (self.drive_low, self.drive_high);
        if low.number() < high.number() {
            if high.number() < value.number() {
                high
            } else if value.number() < low.number() {
                low
            } else {
                value
            }
        } else {
            value
        }
    }

    // Returns the value, or one that is OROC away from OVAL if it is further away.
    #[tactic(auto, unfolding(crate::specs::Output::slewed))]
    fn slewed(&self, value: f64) -> f64
        ensures { result ≡ slewed self.now value }
    {
        let zero = f64::from(0i32);
        let (rate, old) = (self.rate.number(), self.driven.number());
        let step = value - old;
        if rate == zero {
            value
        } else if step < zero {
            if rate < -step { old - rate } else { value }
        } else if rate < step {
            old + rate
        } else {
            value
        }
    }

    // Makes a value the one that is driven: VAL within the drive limits, OVAL and RVAL.
    #[tactic(auto, unfolding(crate::specs::Output::driven_to))]
    fn drive_to(&mut self, asked: Double)
        ensures { self.new ≡ driven_to self.old asked }
    {
        let value = self.limited(asked);
        let driven = Double::new(self.slewed(value.number()));
        self.analog.value = value;
        self.previous = value;
        self.driven = driven;
        self.scale.raw = self.scale.raw_of(driven);
    }

    // Takes the input, without its alarms.
    #[tactic(auto, unfolding(crate::specs::Output::came))]
    fn take_input(&mut self, condition: &mut Condition, got: &Got)
        ensures { record { body = self.new; condition = condition.new }
            ≡ came (record { body = self.old; condition = condition.old }) got.now }
    {
        match got {
            Got::Value(value) => {
                let asked = self.asked(double_in(*value).unwrap_or(self.analog.value));
                self.drive_to(asked);
                define_by(condition, self.analog.value);
            }
            Got::Nothing => {
                self.drive_to(self.analog.value);
                undefine_if_nan(condition, self.analog.value);
            }
            Got::Fault => {}
        }
    }

    // Takes the input, raises the alarms, and drives IVOV if IVOA says so.
    #[tactic(auto, unfolding(crate::specs::Output::ao_taken, crate::specs::Output::worked, crate::specs::Output::invalid_set))]
    fn work(&mut self, condition: &mut Condition, got: &Got)
        ensures { record { body = self.new; condition = condition.new }
            ≡ ao_taken (record { body = self.old; condition = condition.old }) got.now }
    {
        self.take_input(condition, got);
        self.analog.test(condition);
        if self.drive.sets(condition) {
            self.drive_to(self.invalid_value);
        }
    }

    // Writes the driven value to what OUT leads to, unless IVOA says that nothing is driven. Returns
    // whether there is any output.
    fn write_driven(&self, condition: &Condition, output: &mut Output) -> bool
        ensures puts_out { result ≡ puts_out (driven_out (record { body = self.now; condition = condition.now })) }
        ensures output { IsTrue result → output.new ≡ driven_out (record { body = self.now; condition = condition.now }) }
    {
        if self.drive.drives(condition) {
            self.drive.write(self.driven_value(condition), output)
        } else {
            false
        }
    }

    // Returns the value that is written: RVAL if DTYP says so, else OVAL.
    #[tactic(auto, unfolding(crate::specs::Output::driven_value))]
    fn driven_value(&self, condition: &Condition) -> Value
        ensures { result ≡ driven_value self.now condition.now }
    {
        if condition.is_raw_soft() {
            Value::Long(self.scale.raw)
        } else {
            Value::Double(self.driven)
        }
    }

    // Puts DOL into VAL, if it is a constant, which clears UDF.
    #[tactic(auto, unfolding(crate::specs::Output::constant_put, crate::specs::Output::ao_stored, ioc_values::specs::Conversion::sort_of))]
    fn put_constant(&mut self, condition: &mut Condition, link: &Link)
        ensures { record { body = self.new; condition = condition.new }
            ≡ constant_put (record { body = self.old; condition = condition.old }) link.now }
    {
        if let Some(value) = constant_in(Kind::Double, link) {
            self.store(condition, OwnField::Val, value);
        }
    }
}

impl Fresh for Ao {
    ghost use Rattle.rec_analog.specs.Output.{new_ao};

    ghost new_one = { new_ao };

    /// Creates the fields of a new record: ESLO and ASLO are 1, and all others 0 or empty.
    #[tactic(auto, unfolding(crate::specs::Output::new_ao))]
    fn fresh() -> Self
        ensures value { result ≡ new_ao }
        ensures defaults { IsNewBody ao result }
    {
        let zero = Double::from(0i32);
        Ao {
            analog: Analog::new(),
            scale: Scale::new(),
            drive: Drive::new(),
            increment: Oif::Full,
            rate: zero,
            drive_high: zero,
            drive_low: zero,
            driven: zero,
            previous: zero,
            invalid_value: zero,
        }
    }
}

impl RecordBody for Ao {
    ghost use Rattle.rec_analog.specs.Output.{ao};
    ghost use Rattle.rec_analog.specs.OutputLaws.{ao_lawful};

    ghost rules = { ao };

    ghost lawful = { ao_lawful };

    fn record_type(&self) -> RecordType {
        RecordType::Ao
    }

    fn link(&self, field: OwnField) -> Option<&LinkBox> {
        self.drive.link(field)
    }

    fn set_link(&mut self, field: OwnField, link: LinkBox) {
        self.drive.set_link(field, link);
    }

    fn calculation(&self, _field: OwnField) -> Option<&Calculation> {
        None
    }

    fn set_calculation(&mut self, _field: OwnField, _calculation: Calculation) {}

    fn states(&self) -> &[Text] {
        &[]
    }

    // Not inlined: a read of another type would pay for its room on the stack.
    #[tactic(auto, unfolding(crate::specs::Output::ao_get))]
    #[inline(never)]
    fn get(&self, field: OwnField) -> Option<Value> {
        match field {
            OwnField::Oif => Some(Value::Enum(self.increment.number())),
            OwnField::Oroc => Some(Value::Double(self.rate)),
            OwnField::Drvh => Some(Value::Double(self.drive_high)),
            OwnField::Drvl => Some(Value::Double(self.drive_low)),
            OwnField::Oval => Some(Value::Double(self.driven)),
            OwnField::Pval => Some(Value::Double(self.previous)),
            OwnField::Ivov => Some(Value::Double(self.invalid_value)),
            OwnField::Omsl | OwnField::Ivoa => self.drive.get(field),
            _ => self.scale.get(field).or(self.analog.get(field)),
        }
    }

    #[tactic(auto, unfolding(crate::specs::Output::ao_stored))]
    fn store(&mut self, condition: &mut Condition, field: OwnField, value: Value) {
        match field {
            OwnField::Val => {
                self.analog.store(field, value);
                condition.undefined = 0;
            }
            OwnField::Oif => self.increment = oif_in(value).unwrap_or(self.increment),
            OwnField::Oroc => self.rate = double_in(value).unwrap_or(self.rate),
            OwnField::Drvh => self.drive_high = double_in(value).unwrap_or(self.drive_high),
            OwnField::Drvl => self.drive_low = double_in(value).unwrap_or(self.drive_low),
            OwnField::Ivov => self.invalid_value = double_in(value).unwrap_or(self.invalid_value),
            OwnField::Omsl | OwnField::Ivoa => self.drive.store(field, value),
            _ => {
                let again = value;
                self.scale.store(field, value);
                self.analog.store(field, again);
            }
        }
    }

    fn begin(&self) -> Need {
        self.drive.begin()
    }

    fn wanted_link(&self) -> LinkUse {
        self.drive.wanted_link()
    }

    fn inputs(&self, _got: &Got) -> u16 {
        0
    }

    fn input_kind(&self, _condition: &Condition) -> InputKind {
        InputKind::Double
    }

    #[tactic(auto, unfolding(crate::specs::Output::ao_output))]
    #[inline(never)]
    fn take(&mut self, condition: &mut Condition, got: &Got, output: &mut Output) -> bool {
        self.work(condition, got);
        self.write_driven(condition, output)
    }

    fn post(&mut self, _alarm_changed: bool) {
        self.analog.post();
    }

    fn constant_kind(&self, _condition: &Condition, field: OwnField) -> Option<InputKind> {
        match field {
            OwnField::Dol => Some(InputKind::Double),
            _ => None,
        }
    }

    #[tactic(auto, unfolding(crate::specs::Output::ao_loaded, crate::specs::Analog::settled))]
    fn load(&mut self, condition: &mut Condition) {
        let link = self.drive.desired.get().link;
        self.put_constant(condition, &link);
        self.analog.settle();
        self.driven = self.analog.value;
        self.previous = self.analog.value;
    }

    fn copy(&self, alloc: Global) -> Result<Self, AllocError> {
        let drive = self.drive.copy(alloc)?;
        Ok(Ao { drive, ..*self })
    }

    fn copy_from(&mut self, other: &Self) {
        self.drive.copy_from(&other.drive);
        self.analog = other.analog;
        self.scale = other.scale;
        self.increment = other.increment;
        self.rate = other.rate;
        self.drive_high = other.drive_high;
        self.drive_low = other.drive_low;
        self.driven = other.driven;
        self.previous = other.previous;
        self.invalid_value = other.invalid_value;
    }
}
