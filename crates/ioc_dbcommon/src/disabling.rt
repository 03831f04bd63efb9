//! The fields that disable a record, and puts to it.
ghost use Rattle.std.specs.Prelude.{◌≡◌};
ghost use Rattle.ioc_dbcommon.specs.Disabling.{new_disabling, disabling_get, disabling_stored};

use crate::parts::{severity_in, short_in, uchar_in};
use ioc_fields::CommonField;
use ioc_menus::Severity;
use ioc_values::Value;

/// DISV, DISA, DISS and DISP. Record Reference Manual, "Scan Fields" and "Fields Common to All
/// Record Types".
#[derive(Clone, Copy)]
pub struct Disabling {
    /// DISV: the record is disabled if DISA has this value.
    pub value: i16,
    /// DISA: the value read from SDIS.
    pub input: i16,
    /// DISS: the severity of a disabled record.
    pub severity: Severity,
    /// DISP: not 0 if clients can put no other field than this one.
    pub puts: u8,
}

impl Disabling {
    /// Creates the fields of a new record: DISV is 1, and everything else is 0.
    #[tactic(auto, unfolding(crate::specs::Disabling::new_disabling))]
    pub fn new() -> Self
        ensures { result ≡ new_disabling }
    {
        Disabling {
            value: 1,
            input: 0,
            severity: Severity::NoAlarm,
            puts: 0,
        }
    }

    /// Returns the value of one of these fields.
    #[tactic(auto, unfolding(crate::specs::Disabling::disabling_get))]
    pub fn get(&self, field: CommonField) -> Option<Value>
        ensures { result ≡ disabling_get self.now field }
    {
        Some(match field {
            CommonField::Disv => Value::Short(self.value),
            CommonField::Disa => Value::Short(self.input),
            CommonField::Diss => Value::Enum(self.severity.number()),
            CommonField::Disp => Value::UChar(self.puts),
            _ => return None,
        })
    }

    /// Stores a value that was converted for the field.
    #[tactic(auto, unfolding(crate::specs::Disabling::disabling_stored))]
    pub fn store(&mut self, field: CommonField, value: Value)
        ensures { self.new ≡ disabling_stored self.old field value }
    {
        match field {
            CommonField::Disv => self.value = short_in(value).unwrap_or(self.value),
            CommonField::Disa => self.input = short_in(value).unwrap_or(self.input),
            CommonField::Diss => self.severity = severity_in(value).unwrap_or(self.severity),
            CommonField::Disp => self.puts = uchar_in(value).unwrap_or(self.puts),
            _ => {}
        }
    }
}
