//! The type ai.
ghost use Rattle.std.specs.Prelude.{◌≡◌};
ghost use Rattle.ioc_record.specs.BodyLaws.{IsNewBody};
ghost use Rattle.rec_analog.specs.Input.{ai, new_ai, smoothed, value_taken, raw_taken, came, constant_put};

use crate::analog::{Analog, define_by, undefine_if_nan};
use crate::scale::Scale;
use ioc_dbcommon::{
    Calculation, Condition, Fresh, Got, InputKind, LinkBox, LinkUse, Need, Output, Source,
    constant_in, double_in, long_in,
};
use ioc_fields::{OwnField, RecordType};
use ioc_links::Link;
use ioc_record::RecordBody;
use ioc_values::{Double, Kind, Range, Text, Value};
use std::alloc::{AllocError, Global};

/// The type-specific fields of an ai. Record Reference Manual, "Analog Input Record".
#[derive(Drop)]
pub struct Ai {
    /// VAL, the limits, the deadbands, and how VAL is shown.
    pub analog: Analog,
    /// RVAL, and the fields by which it is converted.
    pub scale: Scale,
    /// INP.
    pub source: Source,
    /// SMOO: the part of VAL that a new value keeps, 0 to 1.
    pub smoothing: Double,
    /// INIT: not 0 until a value is taken.
    pub initial: u8,
}

impl Ai {
    // Returns a value smoothed by VAL, unless SMOO is 0, no value was taken yet, or VAL isn't finite.
    #[tactic(auto, unfolding(crate::specs::Input::smoothed))]
    fn smoothed(&self, value: f64) -> f64
        ensures { result ≡ smoothed self.now value }
    {
        let part = self.smoothing.number();
        let old = self.analog.value.number();
        if part != f64::from(0i32) && self.initial == 0 && old.is_finite() {
            value * (f64::from(1i32) - part) + old * part
        } else {
            value
        }
    }

    // Takes a value in engineering units.
    #[tactic(auto, unfolding(crate::specs::Input::value_taken))]
    fn take_value(&mut self, condition: &mut Condition, value: Double)
        ensures { record { body = self.new; condition = condition.new }
            ≡ value_taken (record { body = self.old; condition = condition.old }) value }
    {
        let taken = Double::new(self.smoothed(value.number()));
        self.analog.value = taken;
        self.initial = 0;
        define_by(condition, taken);
    }

    // Takes a raw value.
    #[tactic(auto, unfolding(crate::specs::Input::raw_taken))]
    fn take_raw(&mut self, condition: &mut Condition, raw: i32)
        ensures { record { body = self.new; condition = condition.new }
            ≡ raw_taken (record { body = self.old; condition = condition.old }) raw }
    {
        self.scale.raw = raw;
        let value = self.scale.engineering();
        self.take_value(condition, value);
    }

    // Takes the input, without its alarms.
    #[tactic(auto, unfolding(crate::specs::Input::came))]
    fn take_input(&mut self, condition: &mut Condition, got: &Got)
        ensures { record { body = self.new; condition = condition.new }
            ≡ came (record { body = self.old; condition = condition.old }) got.now }
    {
        match (got, condition.is_raw_soft()) {
            (Got::Value(value), true) => {
                let raw = long_in(*value).unwrap_or(self.scale.raw);
                self.take_raw(condition, raw);
            }
            (Got::Value(value), false) => {
                let number = double_in(*value).unwrap_or(self.analog.value);
                self.take_value(condition, number);
            }
            (Got::Nothing, true) => {
                let raw = self.scale.raw;
                self.take_raw(condition, raw);
            }
            (Got::Nothing, false) => undefine_if_nan(condition, self.analog.value),
            (Got::Fault, _) => self.initial = 1,
        }
    }

    // Puts INP, if it is a constant: into RVAL if that is read, which leaves UDF, and else into VAL.
    #[tactic(auto, unfolding(crate::specs::Input::constant_put, crate::specs::Input::ai_stored, ioc_values::specs::Conversion::sort_of))]
    fn put_constant(&mut self, condition: &mut Condition, link: &Link)
        ensures { record { body = self.new; condition = condition.new }
            ≡ constant_put (record { body = self.old; condition = condition.old }) link.now }
    {
        if condition.is_raw_soft() {
            if let Some(value) = constant_in(Kind::Number(Range::Long), link) {
                self.scale.store(OwnField::Rval, value);
            }
        } else if let Some(value) = constant_in(Kind::Double, link) {
            self.store(condition, OwnField::Val, value);
        }
    }
}

impl Fresh for Ai {
    ghost use Rattle.rec_analog.specs.Input.{new_ai};

    ghost new_one = { new_ai };

    /// Creates the fields of a new record: INIT, ESLO and ASLO are 1, and all others 0 or empty.
    #[tactic(auto, unfolding(crate::specs::Input::new_ai))]
    fn fresh() -> Self
        ensures value { result ≡ new_ai }
        ensures defaults { IsNewBody ai result }
    {
        Ai {
            analog: Analog::new(),
            scale: Scale::new(),
            source: Source::new(),
            smoothing: Double::from(0i32),
            initial: 1,
        }
    }
}

impl RecordBody for Ai {
    ghost use Rattle.rec_analog.specs.Input.{ai};
    ghost use Rattle.rec_analog.specs.InputLaws.{ai_lawful};

    ghost rules = { ai };

    ghost lawful = { ai_lawful };

    fn record_type(&self) -> RecordType {
        RecordType::Ai
    }

    fn link(&self, field: OwnField) -> Option<&LinkBox> {
        self.source.link(field)
    }

    fn set_link(&mut self, field: OwnField, link: LinkBox) {
        self.source.set_link(field, link);
    }

    fn calculation(&self, _field: OwnField) -> Option<&Calculation> {
        None
    }

    fn set_calculation(&mut self, _field: OwnField, _calculation: Calculation) {}

    fn states(&self) -> &[Text] {
        &[]
    }

    // Not inlined: a read of another type would pay for its room on the stack.
    #[tactic(auto, unfolding(crate::specs::Input::ai_get))]
    #[inline(never)]
    fn get(&self, field: OwnField) -> Option<Value> {
        match field {
            OwnField::Smoo => Some(Value::Double(self.smoothing)),
            OwnField::Init => Some(Value::UChar(self.initial)),
            _ => self.scale.get(field).or(self.analog.get(field)),
        }
    }

    #[tactic(auto, unfolding(crate::specs::Input::ai_stored))]
    fn store(&mut self, condition: &mut Condition, field: OwnField, value: Value) {
        match field {
            OwnField::Val => {
                self.analog.store(field, value);
                condition.undefined = 0;
            }
            OwnField::Smoo => self.smoothing = double_in(value).unwrap_or(self.smoothing),
            _ => {
                let again = value;
                self.scale.store(field, value);
                self.analog.store(field, again);
            }
        }
    }

    fn begin(&self) -> Need {
        self.source.begin()
    }

    fn wanted_link(&self) -> LinkUse {
        self.source.wanted_link()
    }

    fn inputs(&self, _got: &Got) -> u16 {
        0
    }

    #[tactic(auto, unfolding(crate::specs::Input::ai_input_kind))]
    fn input_kind(&self, condition: &Condition) -> InputKind {
        if condition.is_raw_soft() {
            InputKind::Number(Range::Long)
        } else {
            InputKind::Double
        }
    }

    #[tactic(auto, unfolding(crate::specs::Input::ai_taken))]
    #[inline(never)]
    fn take(&mut self, condition: &mut Condition, got: &Got, _output: &mut Output) -> bool {
        self.take_input(condition, got);
        self.analog.test(condition);
        false
    }

    fn post(&mut self, _alarm_changed: bool) {
        self.analog.post();
    }

    fn constant_kind(&self, _condition: &Condition, field: OwnField) -> Option<InputKind> {
        match field {
            OwnField::Inp => Some(InputKind::Double),
            _ => None,
        }
    }

    #[tactic(auto, unfolding(crate::specs::Input::ai_loaded))]
    fn load(&mut self, condition: &mut Condition) {
        let link = self.source.input.get().link;
        self.put_constant(condition, &link);
        self.analog.settle();
    }

    fn copy(&self, alloc: Global) -> Result<Self, AllocError> {
        let source = self.source.copy(alloc)?;
        Ok(Ai { source, ..*self })
    }

    fn copy_from(&mut self, other: &Self) {
        self.analog = other.analog;
        self.scale = other.scale;
        self.smoothing = other.smoothing;
        self.initial = other.initial;
    }
}
