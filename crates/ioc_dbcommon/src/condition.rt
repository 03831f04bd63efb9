//! The common fields that a type's body reads and changes.
ghost use Rattle.std.specs.Prelude.{◌≡◌};
ghost use Rattle.ioc_dbcommon.specs.Condition.{raised, inherited, settled, first_shown, undefined_tested, new_condition};
ghost use Rattle.ioc_dbcommon.specs.Condition.{condition_get, condition_stored};

use crate::parts::{severity_in, text_in, uchar_in};
use ioc_alarms::Alarms;
use ioc_fields::CommonField;
use ioc_links::Mode;
use ioc_menus::{Severity, Status};
use ioc_values::{Text, Value};

/// The fields that every record has and that the body of its type uses. Record Reference Manual,
/// "Fields Common to All Record Types".
#[derive(Clone, Copy)]
pub struct Condition {
    /// DTYP.
    pub device_type: Text,
    /// UDF: not 0 while VAL is undefined.
    pub undefined: u8,
    /// UDFS: the severity of the alarm of an undefined value.
    pub undefined_severity: Severity,
    /// STAT, SEVR, NSTA and NSEV.
    pub alarms: Alarms,
}

impl Condition {
    /// Raises an alarm.
    pub fn raise(&mut self, status: Status, severity: Severity)
        ensures { self.new ≡ raised status severity self.old }
    {
        self.alarms.raise(status, severity);
    }

    /// Takes over another record's alarm, according to the link's mode.
    pub fn inherit(&mut self, mode: Mode, status: Status, severity: Severity)
        ensures { self.new ≡ inherited mode status severity self.old }
    {
        self.alarms.inherit(mode, status, severity);
    }

    /// Shows the raised alarm.
    pub fn settle(&mut self)
        ensures { self.new ≡ settled self.old }
    {
        self.alarms.settle();
    }

    /// Raises UDF with UDFS if the value is undefined.
    #[tactic(auto, unfolding(crate::specs::Condition::undefined_tested))]
    pub fn test_undefined(&mut self)
        ensures { self.new ≡ undefined_tested self.old }
    {
        if self.undefined != 0 {
            let severity = self.undefined_severity;
            self.raise(Status::Udf, severity);
        }
    }

    /// Returns the value of one of these fields.
    #[tactic(auto, unfolding(crate::specs::Condition::condition_get))]
    pub fn get(&self, field: CommonField) -> Option<Value>
        ensures { result ≡ condition_get self.now field }
    {
        Some(match field {
            CommonField::Dtyp => Value::Text(self.device_type),
            CommonField::Udf => Value::UChar(self.undefined),
            CommonField::Udfs => Value::Enum(self.undefined_severity.number()),
            CommonField::Stat => Value::Enum(self.alarms.status.number()),
            CommonField::Sevr => Value::Enum(self.alarms.severity.number()),
            CommonField::Nsta => Value::Enum(self.alarms.new_status.number()),
            CommonField::Nsev => Value::Enum(self.alarms.new_severity.number()),
            _ => return None,
        })
    }

    /// Stores a value that was converted for the field. A put doesn't change the alarms.
    #[tactic(auto, unfolding(crate::specs::Condition::condition_stored))]
    pub fn store(&mut self, field: CommonField, value: Value)
        ensures { self.new ≡ condition_stored self.old field value }
    {
        match field {
            CommonField::Dtyp => self.device_type = text_in(value).unwrap_or(self.device_type),
            CommonField::Udf => self.undefined = uchar_in(value).unwrap_or(self.undefined),
            CommonField::Udfs => {
                self.undefined_severity = severity_in(value).unwrap_or(self.undefined_severity);
            }
            _ => {}
        }
    }

    /// Shows UDF at the end of a load, with UDFS if the value is undefined and else without
    /// severity.
    #[tactic(auto, unfolding(crate::specs::Condition::first_shown))]
    pub fn show_first(&mut self)
        ensures { self.new ≡ first_shown self.old }
    {
        let severity = if self.undefined == 0 {
            Severity::NoAlarm
        } else {
            self.undefined_severity
        };
        self.alarms = Alarms {
            status: Status::Udf,
            severity,
            new_status: Status::NoAlarm,
            new_severity: Severity::NoAlarm,
        };
    }

    /// Creates the condition of a new record: its value is undefined, with UDFS INVALID, and
    /// everything else is 0 or empty.
    #[tactic(auto, unfolding(crate::specs::Condition::new_condition))]
    pub fn new() -> Self
        ensures { result ≡ new_condition }
    {
        Condition {
            device_type: Text::new(),
            undefined: 1,
            undefined_severity: Severity::Invalid,
            alarms: Alarms {
                status: Status::NoAlarm,
                severity: Severity::NoAlarm,
                new_status: Status::NoAlarm,
                new_severity: Severity::NoAlarm,
            },
        }
    }
}
