//! The type sel.
ghost use Rattle.std.specs.Prelude.{◌≡◌, IfOk};
ghost use Rattle.ioc_record.specs.BodyLaws.{IsNewBody};
ghost use Rattle.rec_sel.specs.Sel.{sel, new_sel, specified, highest, lowest, median, value_taken, came, sel_taken, sel_inputs};
ghost use Rattle.rec_sel.specs.Sel.{constant_put};

use crate::choosing::{
    first_highest, first_lowest, infinity, median_number, negative_infinity, no_number,
    numbers_among,
};
use ioc_dbcommon::{
    Calculation, Condition, Fresh, Got, InputKind, LinkBox, LinkUse, Need, Output, constant_in,
    selmode_in, ushort_in,
};
use ioc_fields::{OwnField, RecordType};
use ioc_links::Link;
use ioc_menus::{Selmode, Severity, Status};
use ioc_record::RecordBody;
use ioc_values::{Double, Kind, Range, Text, Value};
use rec_analog::Analog;
use rec_analog::analog::define_by;
use rec_calc::Inputs;
use std::alloc::{AllocError, Global};

/// The type-specific fields of a sel. Record Reference Manual, "Select Record".
#[derive(Drop)]
pub struct Sel {
    /// VAL, the limits, the deadbands, and how VAL is shown.
    pub analog: Analog,
    /// INPA to INPL, A to L, and LA to LL.
    pub inputs: Inputs,
    /// SELM.
    pub mode: Selmode,
    /// SELN.
    pub number: u16,
    /// NVL.
    pub number_input: LinkBox,
}

impl Sel {
    // Returns the value of number SELN, or `None` if there are fewer.
    #[tactic(auto, unfolding(crate::specs::Sel::specified))]
    fn specified(&self) -> Option<Double>
        ensures { result ≡ specified self.now }
    {
        self.inputs.values.get(usize::from(self.number)).copied()
    }

    // Selects the first of the highest values, whose number becomes SELN, and without one the negative
    // infinity.
    #[tactic(auto, unfolding(crate::specs::Sel::highest))]
    fn select_highest(&mut self) -> Double
        ensures after { self.new ≡ (highest self.old).0 }
        ensures value { result ≡ (highest self.old).1 }
    {
        match first_highest(&self.inputs.values) {
            Some(number) => {
                self.number = number as u16;
                self.inputs.values[number]
            }
            None => Double::new(negative_infinity()),
        }
    }

    // Selects the first of the lowest values, whose number becomes SELN, and without one the infinity.
    #[tactic(auto, unfolding(crate::specs::Sel::lowest))]
    fn select_lowest(&mut self) -> Double
        ensures after { self.new ≡ (lowest self.old).0 }
        ensures value { result ≡ (lowest self.old).1 }
    {
        match first_lowest(&self.inputs.values) {
            Some(number) => {
                self.number = number as u16;
                self.inputs.values[number]
            }
            None => Double::new(infinity()),
        }
    }

    // Selects the value in the middle of those that are numbers, whose count becomes SELN.
    #[tactic(auto, unfolding(crate::specs::Sel::median))]
    fn select_median(&mut self) -> Double
        ensures after { self.new ≡ (median self.old).0 }
        ensures value { result ≡ (median self.old).1 }
    {
        self.number = numbers_among(&self.inputs.values);
        match median_number(&self.inputs.values) {
            Some(number) => self.inputs.values[number],
            None => Double::new(no_number()),
        }
    }

    // Takes the selected value.
    #[tactic(auto, unfolding(crate::specs::Sel::value_taken))]
    fn take_value(&mut self, condition: &mut Condition, value: Double)
        ensures { record { body = self.new; condition = condition.new }
            ≡ value_taken (record { body = self.old; condition = condition.old }) value }
    {
        self.analog.value = value;
        define_by(condition, value);
    }

    // Selects a value, by SELM. Raises an alarm if SELN is the number of none.
    #[tactic(auto, unfolding(crate::specs::Sel::came))]
    fn select(&mut self, condition: &mut Condition)
        ensures { record { body = self.new; condition = condition.new }
            ≡ came (record { body = self.old; condition = condition.old }) }
    {
        let value = match self.mode {
            Selmode::Specified => match self.specified() {
                Some(value) => value,
                None => {
                    condition.raise(Status::Soft, Severity::Invalid);
                    return;
                }
            },
            Selmode::HighSignal => self.select_highest(),
            Selmode::LowSignal => self.select_lowest(),
            Selmode::MedianSignal => self.select_median(),
        };
        self.take_value(condition, value);
    }

    // Puts NVL into SELN, if it is a constant.
    #[tactic(auto, unfolding(crate::specs::Sel::constant_put, ioc_values::specs::Conversion::sort_of))]
    fn put_constant(&mut self, link: &Link)
        ensures { self.new ≡ constant_put self.old link.now }
    {
        if let Some(value) = constant_in(Kind::Number(Range::UShort), link) {
            self.number = ushort_in(value).unwrap_or(self.number);
        }
    }
}

impl Fresh for Sel {
    ghost use Rattle.rec_sel.specs.Sel.{new_sel};

    ghost new_one = { new_sel };

    /// Creates the fields of a new record: A to L are NaN, and all others 0 or empty.
    #[tactic(auto, unfolding(crate::specs::Sel::new_sel))]
    fn fresh() -> Self
        ensures value { result ≡ new_sel }
        ensures defaults { IsNewBody sel result }
    {
        Sel {
            analog: Analog::new(),
            inputs: Inputs::new(Double::new(no_number())),
            mode: Selmode::Specified,
            number: 0,
            number_input: LinkBox::empty(),
        }
    }
}

impl RecordBody for Sel {
    ghost use Rattle.rec_sel.specs.Sel.{sel};
    ghost use Rattle.rec_sel.specs.SelLaws.{sel_lawful};

    ghost rules = { sel };

    ghost lawful = { sel_lawful };

    fn record_type(&self) -> RecordType {
        RecordType::Sel
    }

    fn link(&self, field: OwnField) -> Option<&LinkBox> {
        match field {
            OwnField::Nvl => Some(&self.number_input),
            _ => self.inputs.link(field),
        }
    }

    #[tactic(auto, unfolding(crate::specs::Sel::sel_with_link))]
    fn set_link(&mut self, field: OwnField, link: LinkBox) {
        match field {
            OwnField::Nvl => self.number_input = link,
            _ => self.inputs.set_link(field, link),
        }
    }

    fn calculation(&self, _field: OwnField) -> Option<&Calculation> {
        None
    }

    fn set_calculation(&mut self, _field: OwnField, _calculation: Calculation) {}

    fn states(&self) -> &[Text] {
        &[]
    }

    #[tactic(auto, unfolding(crate::specs::Sel::sel_get))]
    #[inline(never)]
    fn get(&self, field: OwnField) -> Option<Value> {
        match field {
            OwnField::Selm => Some(Value::Enum(self.mode.number())),
            OwnField::Seln => Some(Value::UShort(self.number)),
            OwnField::Letter(_) | OwnField::LastLetter(_) => self.inputs.get(field),
            _ => self.analog.get(field),
        }
    }

    #[tactic(auto, unfolding(crate::specs::Sel::sel_stored))]
    fn store(&mut self, _condition: &mut Condition, field: OwnField, value: Value) {
        match field {
            OwnField::Val => {}
            OwnField::Selm => self.mode = selmode_in(value).unwrap_or(self.mode),
            OwnField::Seln => self.number = ushort_in(value).unwrap_or(self.number),
            OwnField::Letter(_) => self.inputs.store(field, value),
            _ => self.analog.store(field, value),
        }
    }

    fn begin(&self) -> Need {
        Need::Inputs
    }

    #[tactic(auto, unfolding(crate::specs::Sel::sel_begin))]
    fn wanted_link(&self) -> LinkUse {
        match self.mode {
            Selmode::Specified => self.number_input.in_use(),
            Selmode::HighSignal | Selmode::LowSignal | Selmode::MedianSignal => LinkUse::Unused,
        }
    }

    #[tactic(auto, unfolding(crate::specs::Sel::sel_inputs))]
    fn inputs(&self, got: &Got) -> u16 {
        match (self.mode, got) {
            (Selmode::Specified, Got::Fault) => 0,
            (Selmode::Specified, Got::Nothing | Got::Value(_)) => {
                if self.number < 12 {
                    1 << u32::from(self.number)
                } else {
                    0
                }
            }
            (Selmode::HighSignal | Selmode::LowSignal | Selmode::MedianSignal, _) => 4095,
        }
    }

    fn input_kind(&self, _condition: &Condition) -> InputKind {
        InputKind::Number(Range::UShort)
    }

    #[tactic(auto, unfolding(crate::specs::Sel::sel_taken))]
    #[inline(never)]
    fn take(&mut self, condition: &mut Condition, got: &Got, _output: &mut Output) -> bool {
        match got {
            Got::Nothing | Got::Value(_) => self.select(condition),
            Got::Fault => {}
        }
        self.analog.test(condition);
        false
    }

    fn post(&mut self, alarm_changed: bool) {
        self.analog.post();
        self.inputs.post(alarm_changed);
    }

    fn constant_kind(&self, _condition: &Condition, field: OwnField) -> Option<InputKind> {
        match field {
            OwnField::Nvl => Some(InputKind::Number(Range::UShort)),
            OwnField::InputLink(slot) if slot.index() < 12 => Some(InputKind::Double),
            _ => None,
        }
    }

    #[tactic(auto, unfolding(crate::specs::Sel::sel_loaded))]
    fn load(&mut self, _condition: &mut Condition) {
        let link = self.number_input.get().link;
        self.put_constant(&link);
        self.inputs.settle();
        self.analog.settle();
    }

    fn copy(&self, alloc: Global) -> Result<Self, AllocError> {
        let inputs = self.inputs.copy(alloc)?;
        let number_input = self.number_input.copy(alloc)?;
        Ok(Sel {
            analog: self.analog,
            inputs,
            mode: self.mode,
            number: self.number,
            number_input,
        })
    }

    fn copy_from(&mut self, other: &Self) {
        self.inputs.copy_from(&other.inputs);
        self.analog = other.analog;
        self.mode = other.mode;
        self.number = other.number;
    }
}
