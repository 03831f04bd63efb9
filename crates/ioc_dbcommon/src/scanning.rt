//! The fields that control when a record is processed by scanning.
ghost use Rattle.std.specs.Prelude.{◌≡◌};
ghost use Rattle.ioc_dbcommon.specs.Scanning.{new_scanning, scanning_get, scanning_stored};

use crate::parts::{pini_in, priority_in, scan_in, short_in, text_in};
use ioc_fields::CommonField;
use ioc_menus::{Pini, Priority, Scan};
use ioc_values::{Text, Value};

/// SCAN, PINI, PHAS, EVNT and PRIO. Record Reference Manual, "Scan Fields".
#[derive(Clone, Copy, PartialEq, Eq)]
pub struct Scanning {
    /// EVNT: the event that processes the record if SCAN is Event.
    pub event: Text,
    /// SCAN.
    pub scan: Scan,
    /// PINI: whether the record is processed once when the engine starts.
    pub at_start: Pini,
    /// PHAS: the record's order among those that are processed together.
    pub phase: i16,
    /// PRIO.
    pub priority: Priority,
}

impl Scanning {
    /// Creates the fields of a new record, which is passive.
    #[tactic(auto, unfolding(crate::specs::Scanning::new_scanning))]
    pub fn new() -> Self
        ensures { result ≡ new_scanning }
    {
        Scanning {
            event: Text::new(),
            scan: Scan::Passive,
            at_start: Pini::No,
            phase: 0,
            priority: Priority::Low,
        }
    }

    /// Returns the value of one of these fields.
    #[tactic(auto, unfolding(crate::specs::Scanning::scanning_get))]
    pub fn get(&self, field: CommonField) -> Option<Value>
        ensures { result ≡ scanning_get self.now field }
    {
        Some(match field {
            CommonField::Scan => Value::Enum(self.scan.number()),
            CommonField::Pini => Value::Enum(self.at_start.number()),
            CommonField::Phas => Value::Short(self.phase),
            CommonField::Evnt => Value::Text(self.event),
            CommonField::Prio => Value::Enum(self.priority.number()),
            _ => return None,
        })
    }

    /// Stores a value that was converted for the field.
    #[tactic(auto, unfolding(crate::specs::Scanning::scanning_stored))]
    pub fn store(&mut self, field: CommonField, value: Value)
        ensures { self.new ≡ scanning_stored self.old field value }
    {
        match field {
            CommonField::Scan => self.scan = scan_in(value).unwrap_or(self.scan),
            CommonField::Pini => self.at_start = pini_in(value).unwrap_or(self.at_start),
            CommonField::Phas => self.phase = short_in(value).unwrap_or(self.phase),
            CommonField::Evnt => self.event = text_in(value).unwrap_or(self.event),
            CommonField::Prio => self.priority = priority_in(value).unwrap_or(self.priority),
            _ => {}
        }
    }
}
