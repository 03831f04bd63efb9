//! The sixteen states of mbbi and mbbo.
ghost use Rattle.std.specs.Prelude.{◌≡◌, ◌==◌, ◌<◌, IfSome};
ghost use Rattle.std.specs.List.{position};
ghost use Rattle.rec_state.specs.SixteenStates.{sixteen_states, has_value, has_text, are_defined, state_valued, number_of};

use crate::bits::{made_mask, shifted_left, shifted_right};
use crate::slots::set_slot;
use crate::states::States;
use ioc_dbcommon::{Got, severity_in, state_constant, text_in, ulong_in, ushort_in};
use ioc_fields::{OwnField, RecordType};
use ioc_menus::Severity;
use ioc_values::{Text, Value};

/// The sixteen states of mbbi and mbbo. Record Reference Manual, "Multi-Bit Binary Input Record"
/// and "Multi-Bit Binary Output Record".
#[derive(Clone, Copy, Drop)]
pub struct SixteenStates {
    /// SHFT.
    pub shift: u16,
    /// NOBT.
    pub bits: u16,
    /// ZRVL to FFVL.
    pub values: [u32; 16],
    /// ZRST to FFST.
    pub texts: [Text; 16],
    /// ZRSV to FFSV.
    pub severities: [Severity; 16],
    /// UNSV.
    pub unknown_severity: Severity,
}

// Returns the first state with this value.
fn state_valued(values: &[u32; 16], number: u32) -> Option<usize>
    ensures state { result ≡ position (λ v. v == number) values.now }
    ensures below { IfSome result (λ state. state < 16) }
{
    values.iter().position(|value| *value == number)
}

// Returns whether one of the values isn't 0.
fn has_value(values: &[u32; 16]) -> bool
    ensures { result ≡ has_value values.now }
{
    values.iter().any(|value| *value != 0)
}

// Returns whether one of the texts isn't empty.
fn has_text(texts: &[Text; 16]) -> bool
    ensures { result ≡ has_text texts.now }
{
    texts.iter().any(|text| text.as_slice().len() != 0)
}

impl SixteenStates {
    // Returns whether states are defined: one has a value other than 0, or a text.
    #[tactic(auto, unfolding(crate::specs::SixteenStates::are_defined))]
    fn are_defined(&self) -> bool
        ensures { result ≡ are_defined self.now }
    {
        has_value(&self.values) || has_text(&self.texts)
    }

    // Returns the first state with this value, or 65535 if none has it.
    fn valued(&self, number: u32) -> u16
        ensures { result ≡ state_valued self.now.values number }
    {
        match state_valued(&self.values, number) {
            Some(state) => state as u16,
            None => 65535,
        }
    }

    // Returns the number of the state: its value if states are defined, or `None` if there is no
    // such state; else VAL itself.
    #[tactic(auto, unfolding(crate::specs::SixteenStates::number_of))]
    fn number(&self, value: u16) -> Option<u32>
        ensures { result ≡ number_of self.now value }
    {
        if self.are_defined() {
            self.values.get(usize::from(value)).copied()
        } else {
            Some(u32::from(value))
        }
    }
}

impl States for SixteenStates {
    ghost use Rattle.rec_state.specs.SixteenStates.{sixteen_lawful};

    ghost rules = { sixteen_states };

    ghost lawful = { sixteen_lawful };

    #[tactic(auto, unfolding(crate::specs::SixteenStates::new_sixteen))]
    fn new() -> Self {
        SixteenStates {
            shift: 0,
            bits: 0,
            values: [0; 16],
            texts: [Text::new(); 16],
            severities: [Severity::NoAlarm; 16],
            unknown_severity: Severity::NoAlarm,
        }
    }

    #[tactic(auto, unfolding(crate::specs::SixteenStates::sixteen_get))]
    fn get(&self, field: OwnField) -> Option<Value> {
        Some(match field {
            OwnField::Shft => Value::UShort(self.shift),
            OwnField::Nobt => Value::UShort(self.bits),
            OwnField::Unsv => Value::Enum(self.unknown_severity.number()),
            OwnField::StateValue(state) => Value::ULong(self.values[state.index()]),
            OwnField::StateText(state) => Value::Text(self.texts[state.index()]),
            OwnField::StateSeverity(state) => Value::Enum(self.severities[state.index()].number()),
            _ => return None,
        })
    }

    #[tactic(auto, unfolding(crate::specs::SixteenStates::sixteen_stored))]
    fn store(&mut self, field: OwnField, value: Value) {
        match field {
            OwnField::Shft => self.shift = ushort_in(value).unwrap_or(self.shift),
            OwnField::Nobt => self.bits = ushort_in(value).unwrap_or(self.bits),
            OwnField::Unsv => {
                self.unknown_severity = severity_in(value).unwrap_or(self.unknown_severity);
            }
            OwnField::StateValue(state) => {
                if let Some(number) = ulong_in(value) {
                    set_slot(&mut self.values, state, number);
                }
            }
            OwnField::StateText(state) => {
                if let Some(text) = text_in(value) {
                    set_slot(&mut self.texts, state, text);
                }
            }
            OwnField::StateSeverity(state) => {
                if let Some(severity) = severity_in(value) {
                    set_slot(&mut self.severities, state, severity);
                }
            }
            _ => {}
        }
    }

    fn texts(&self) -> &[Text] {
        &self.texts
    }

    fn severity(&self, value: u16) -> Severity {
        match self.severities.get(usize::from(value)) {
            Some(severity) => *severity,
            None => self.unknown_severity,
        }
    }

    fn has_alarms(_value: u16) -> bool {
        true
    }

    fn masked(mask: u32, raw: u32) -> u32 {
        raw & mask
    }

    #[tactic(auto, unfolding(crate::specs::SixteenStates::sixteen_state_of))]
    fn state_of(&self, raw: u32) -> u16 {
        let number = shifted_right(raw, self.shift);
        if self.are_defined() {
            self.valued(number)
        } else {
            (number % 65536) as u16
        }
    }

    #[tactic(auto, unfolding(crate::specs::SixteenStates::sixteen_raw_of))]
    fn raw_of(&self, _mask: u32, value: u16) -> Option<u32> {
        let number = self.number(value)?;
        Some(shifted_left(number, self.shift))
    }

    fn converts(got: &Got, undefined: u8) -> bool {
        match got {
            Got::Fault => false,
            _ => undefined == 0,
        }
    }

    fn driven(mask: u32, raw: u32) -> u32 {
        raw & mask
    }

    fn loaded_mask(&self, mask: u32) -> u32 {
        if mask == 0 {
            made_mask(self.bits, self.shift)
        } else {
            mask
        }
    }

    fn constant(number: i64) -> Option<u16> {
        state_constant(number)
    }

    fn input_type() -> RecordType {
        RecordType::Mbbi
    }

    fn output_type() -> RecordType {
        RecordType::Mbbo
    }
}
