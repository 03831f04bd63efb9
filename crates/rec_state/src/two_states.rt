//! The two states of bi and bo.
ghost use Rattle.std.specs.Prelude.{◌≡◌};
ghost use Rattle.rec_state.specs.TwoStates.{two_states};

use crate::states::States;
use ioc_dbcommon::{Got, severity_in, text_in};
use ioc_fields::{OwnField, RecordType};
use ioc_menus::Severity;
use ioc_values::{Text, Value};

/// The two states of bi and bo. Record Reference Manual, "Binary Input Record" and "Binary Output
/// Record".
#[derive(Clone, Copy, Drop)]
pub struct TwoStates {
    /// ZNAM and ONAM.
    pub names: [Text; 2],
    /// ZSV and OSV.
    pub zero_severity: Severity,
    pub one_severity: Severity,
}

impl States for TwoStates {
    ghost use Rattle.rec_state.specs.TwoStates.{two_lawful};

    ghost rules = { two_states };

    ghost lawful = { two_lawful };

    #[tactic(auto, unfolding(crate::specs::TwoStates::new_two))]
    fn new() -> Self {
        TwoStates {
            names: [Text::new(), Text::new()],
            zero_severity: Severity::NoAlarm,
            one_severity: Severity::NoAlarm,
        }
    }

    #[tactic(auto, unfolding(crate::specs::TwoStates::two_get))]
    fn get(&self, field: OwnField) -> Option<Value> {
        Some(match field {
            OwnField::Znam => Value::Text(self.names[0]),
            OwnField::Onam => Value::Text(self.names[1]),
            OwnField::Zsv => Value::Enum(self.zero_severity.number()),
            OwnField::Osv => Value::Enum(self.one_severity.number()),
            _ => return None,
        })
    }

    #[tactic(auto, unfolding(crate::specs::TwoStates::two_stored))]
    fn store(&mut self, field: OwnField, value: Value) {
        match field {
            OwnField::Znam => {
                let names = [text_in(value).unwrap_or(self.names[0]), self.names[1]];
                self.names = names;
            }
            OwnField::Onam => {
                let names = [self.names[0], text_in(value).unwrap_or(self.names[1])];
                self.names = names;
            }
            OwnField::Zsv => self.zero_severity = severity_in(value).unwrap_or(self.zero_severity),
            OwnField::Osv => self.one_severity = severity_in(value).unwrap_or(self.one_severity),
            _ => {}
        }
    }

    fn texts(&self) -> &[Text] {
        &self.names
    }

    fn severity(&self, value: u16) -> Severity {
        if value == 0 {
            self.zero_severity
        } else {
            self.one_severity
        }
    }

    fn has_alarms(value: u16) -> bool {
        value < 2
    }

    fn masked(mask: u32, raw: u32) -> u32 {
        if mask == 0 { raw } else { raw & mask }
    }

    fn state_of(&self, raw: u32) -> u16 {
        if raw == 0 { 0 } else { 1 }
    }

    fn raw_of(&self, mask: u32, value: u16) -> Option<u32> {
        Some(if value == 0 {
            0
        } else if mask != 0 {
            mask
        } else {
            u32::from(value)
        })
    }

    fn converts(_got: &Got, _undefined: u8) -> bool {
        true
    }

    fn driven(_mask: u32, raw: u32) -> u32 {
        raw
    }

    fn loaded_mask(&self, mask: u32) -> u32 {
        mask
    }

    fn constant(number: i64) -> Option<u16> {
        Some(if number == 0 { 0 } else { 1 })
    }

    fn input_type() -> RecordType {
        RecordType::Bi
    }

    fn output_type() -> RecordType {
        RecordType::Bo
    }
}
