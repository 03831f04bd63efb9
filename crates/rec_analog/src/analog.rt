//! The value of an analog record with its limits, its deadbands, and how it is shown.
ghost use Rattle.std.specs.Prelude.{◌≡◌};
ghost use Rattle.rec_analog.specs.Analog.{new_limits, limit_stored, new_analog, analog_get, analog_stored, limited_at, tested};
ghost use Rattle.rec_analog.specs.Analog.{settled, monitored, archived, analog_posted, defined_by, undefined_if_nan};

use crate::deadband::exceeds;
use ioc_alarms::AlarmLimits;
use ioc_dbcommon::{Condition, double_in, severity_in, text_in, ushort_in};
use ioc_fields::OwnField;
use ioc_menus::{Severity, Status};
use ioc_values::{Double, Text, Value};

/// The fields that ai and ao share. Record Reference Manual, "Analog Input Record" and "Analog Output
/// Record".
#[derive(Clone, Copy, Drop)]
pub struct Analog {
    /// VAL.
    pub value: Double,
    /// PREC: how many digits behind the point the doubles of the record show, 0 to 15.
    pub precision: u16,
    /// EGU, HOPR and LOPR, which are stored without effect.
    pub units: Text,
    pub high_range: Double,
    pub low_range: Double,
    /// HIHI, LOLO, HIGH and LOW, with HHSV, LLSV, HSV and LSV, and HYST.
    pub limits: AlarmLimits<Double>,
    /// LALM.
    pub last_alarmed: Double,
    /// MDEL and ADEL.
    pub monitor_deadband: Double,
    pub archive_deadband: Double,
    /// MLST and ALST: the values that monitors of values and of archives were last sent.
    pub last_monitored: Double,
    pub last_archived: Double,
}

// The limits of a new record.
#[tactic(auto, unfolding(crate::specs::Analog::new_limits))]
fn new_limits() -> AlarmLimits<Double>
    ensures { result ≡ new_limits }
{
    let zero = Double::from(0i32);
    AlarmLimits {
        hihi: zero,
        lolo: zero,
        high: zero,
        low: zero,
        hihi_severity: Severity::NoAlarm,
        lolo_severity: Severity::NoAlarm,
        high_severity: Severity::NoAlarm,
        low_severity: Severity::NoAlarm,
        hysteresis: zero,
    }
}

/// Sets UDF by a value that came: 1 for NaN, and else 0.
#[tactic(auto, unfolding(crate::specs::Analog::defined_by))]
pub fn define_by(condition: &mut Condition, value: Double)
    ensures { condition.new ≡ defined_by value condition.old }
{
    condition.undefined = if value.number().is_nan() { 1 } else { 0 };
}

/// Sets UDF to 1 where no value came and VAL is NaN.
#[tactic(auto, unfolding(crate::specs::Analog::undefined_if_nan))]
pub fn undefine_if_nan(condition: &mut Condition, value: Double)
    ensures { condition.new ≡ undefined_if_nan value condition.old }
{
    if value.number().is_nan() {
        condition.undefined = 1;
    }
}

impl Analog {
    /// Creates the fields of a new record, all 0 or empty.
    #[tactic(auto, unfolding(crate::specs::Analog::new_analog))]
    pub fn new() -> Self
        ensures { result ≡ new_analog }
    {
        let zero = Double::from(0i32);
        Analog {
            value: zero,
            precision: 0,
            units: Text::new(),
            high_range: zero,
            low_range: zero,
            limits: new_limits(),
            last_alarmed: zero,
            monitor_deadband: zero,
            archive_deadband: zero,
            last_monitored: zero,
            last_archived: zero,
        }
    }

    /// Returns the value of one of these fields.
    #[tactic(auto, unfolding(crate::specs::Analog::analog_get))]
    pub fn get(&self, field: OwnField) -> Option<Value>
        ensures { result ≡ analog_get self.now field }
    {
        Some(match field {
            OwnField::Val => Value::Double(self.value),
            OwnField::Prec => Value::UShort(self.precision),
            OwnField::Egu => Value::Text(self.units),
            OwnField::Hopr => Value::Double(self.high_range),
            OwnField::Lopr => Value::Double(self.low_range),
            OwnField::Hihi => Value::Double(self.limits.hihi),
            OwnField::Lolo => Value::Double(self.limits.lolo),
            OwnField::High => Value::Double(self.limits.high),
            OwnField::Low => Value::Double(self.limits.low),
            OwnField::Hhsv => Value::Enum(self.limits.hihi_severity.number()),
            OwnField::Llsv => Value::Enum(self.limits.lolo_severity.number()),
            OwnField::Hsv => Value::Enum(self.limits.high_severity.number()),
            OwnField::Lsv => Value::Enum(self.limits.low_severity.number()),
            OwnField::Hyst => Value::Double(self.limits.hysteresis),
            OwnField::Lalm => Value::Double(self.last_alarmed),
            OwnField::Mdel => Value::Double(self.monitor_deadband),
            OwnField::Adel => Value::Double(self.archive_deadband),
            OwnField::Mlst => Value::Double(self.last_monitored),
            OwnField::Alst => Value::Double(self.last_archived),
            _ => return None,
        })
    }

    /// Stores a value that was converted for one of these fields.
    #[tactic(auto, unfolding(crate::specs::Analog::analog_stored))]
    pub fn store(&mut self, field: OwnField, value: Value)
        ensures { self.new ≡ analog_stored self.old field value }
    {
        match field {
            OwnField::Val => self.value = double_in(value).unwrap_or(self.value),
            OwnField::Prec => self.precision = ushort_in(value).unwrap_or(self.precision),
            OwnField::Egu => self.units = text_in(value).unwrap_or(self.units),
            OwnField::Hopr => self.high_range = double_in(value).unwrap_or(self.high_range),
            OwnField::Lopr => self.low_range = double_in(value).unwrap_or(self.low_range),
            OwnField::Mdel => self.monitor_deadband = double_in(value).unwrap_or(
                self.monitor_deadband,
            ),
            OwnField::Adel => self.archive_deadband = double_in(value).unwrap_or(
                self.archive_deadband,
            ),
            _ => self.store_limit(field, value),
        }
    }

    // Stores a value that was converted for a limit, its severity, or the hysteresis.
    #[tactic(auto, unfolding(crate::specs::Analog::limit_stored))]
    fn store_limit(&mut self, field: OwnField, value: Value)
        ensures { self.new ≡ record self.old { limits = limit_stored self.old.limits field value } }
    {
        let limits = &mut self.limits;
        match field {
            OwnField::Hihi => limits.hihi = double_in(value).unwrap_or(limits.hihi),
            OwnField::Lolo => limits.lolo = double_in(value).unwrap_or(limits.lolo),
            OwnField::High => limits.high = double_in(value).unwrap_or(limits.high),
            OwnField::Low => limits.low = double_in(value).unwrap_or(limits.low),
            OwnField::Hyst => limits.hysteresis = double_in(value).unwrap_or(limits.hysteresis),
            OwnField::Hhsv => limits.hihi_severity = severity_in(value).unwrap_or(
                limits.hihi_severity,
            ),
            OwnField::Llsv => limits.lolo_severity = severity_in(value).unwrap_or(
                limits.lolo_severity,
            ),
            OwnField::Hsv => limits.high_severity = severity_in(value).unwrap_or(
                limits.high_severity,
            ),
            OwnField::Lsv => limits.low_severity = severity_in(value).unwrap_or(
                limits.low_severity,
            ),
            _ => {}
        }
    }

    /// Sets LALM, MLST and ALST to VAL, as at the end of a load.
    #[tactic(auto, unfolding(crate::specs::Analog::settled))]
    pub fn settle(&mut self)
        ensures { self.new ≡ settled self.old }
    {
        self.last_alarmed = self.value;
        self.last_monitored = self.value;
        self.last_archived = self.value;
    }

    // Raises the alarms of limits.
    #[tactic(auto, unfolding(crate::specs::Analog::limited_at))]
    fn test_limits(&mut self, condition: &mut Condition)
        ensures { record { body = self.new; condition = condition.new }
            ≡ limited_at (record { body = self.old; condition = condition.old }) }
    {
        self.last_alarmed = condition
            .alarms
            .limits(self.value, self.last_alarmed, &self.limits);
    }

    /// Raises the alarm of an undefined value, or else those of limits.
    #[tactic(auto, unfolding(crate::specs::Analog::tested))]
    pub fn test(&mut self, condition: &mut Condition)
        ensures { record { body = self.new; condition = condition.new }
            ≡ tested (record { body = self.old; condition = condition.old }) }
    {
        if condition.undefined == 0 {
            self.test_limits(condition);
        } else {
            let severity = condition.undefined_severity;
            condition.raise(Status::Udf, severity);
        }
    }

    // Sets MLST to VAL if that has moved by more than MDEL.
    #[tactic(auto, unfolding(crate::specs::Analog::monitored))]
    fn post_value(&mut self)
        ensures { self.new ≡ monitored self.old }
    {
        if exceeds(self.last_monitored, self.value, self.monitor_deadband) {
            self.last_monitored = self.value;
        }
    }

    // Sets ALST to VAL if that has moved by more than ADEL.
    #[tactic(auto, unfolding(crate::specs::Analog::archived))]
    fn post_archive(&mut self)
        ensures { self.new ≡ archived self.old }
    {
        if exceeds(self.last_archived, self.value, self.archive_deadband) {
            self.last_archived = self.value;
        }
    }

    /// Sets MLST and ALST to VAL, each if VAL has moved by more than its deadband since it was last
    /// sent.
    pub fn post(&mut self)
        ensures { self.new ≡ analog_posted self.old }
    {
        self.post_value();
        self.post_archive();
    }
}
