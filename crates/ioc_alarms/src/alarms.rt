//! The alarm fields of a record, and the operations on them.
ghost use Rattle.std.specs.Prelude.{◌≡◌};

use crate::limits::{AlarmLimits, LimitNumber};
use ioc_links::Mode;
use ioc_menus::{Severity, Status};

/// The alarm that a record shows (STAT, SEVR), and the one that its processing has raised so far
/// (NSTA, NSEV).
#[derive(Clone, Copy, PartialEq, Eq, Debug)]
pub struct Alarms {
    pub status: Status,
    pub severity: Severity,
    pub new_status: Status,
    pub new_severity: Severity,
}

#[tactic(auto, unfolding(crate::specs::Alarms::raised, crate::specs::Alarms::settled, crate::specs::Alarms::inherited, crate::specs::Limits::limited))]
impl Alarms {
    ghost use Rattle.ioc_alarms.specs.Alarms.{takes_effect, raised, settled, inherited, changes};
    ghost use Rattle.ioc_alarms.specs.Limits.{limited};

    /// Returns whether an alarm of this severity would take effect if it were raised.
    pub fn takes_effect(&self, severity: Severity) -> bool
        ensures { result ≡ takes_effect severity self.now }
    {
        severity.number() > self.new_severity.number()
    }

    /// Raises an alarm, which takes effect if its severity is greater than that of those raised
    /// before. Record Reference Manual, "Alarm Fields".
    pub fn raise(&mut self, status: Status, severity: Severity)
        ensures { self.new ≡ raised status severity self.old }
    {
        if self.takes_effect(severity) {
            self.new_status = status;
            self.new_severity = severity;
        }
    }

    /// Returns whether STAT or SEVR changes when the raised alarm is shown.
    pub fn changes(&self) -> bool
        ensures { result ≡ changes self.now }
    {
        self.status.number() != self.new_status.number()
            || self.severity.number() != self.new_severity.number()
    }

    /// Makes the raised alarm the one that the record shows, and clears the raised alarm.
    pub fn settle(&mut self)
        ensures { self.new ≡ settled self.old }
    {
        self.status = self.new_status;
        self.severity = self.new_severity;
        self.new_status = Status::NoAlarm;
        self.new_severity = Severity::NoAlarm;
    }

    /// Takes over the alarm of another record according to the link's mode. Record Reference
    /// Manual, "Link types: maximize severity attribute".
    pub fn inherit(&mut self, mode: Mode, status: Status, severity: Severity)
        ensures { self.new ≡ inherited mode status severity self.old }
    {
        match mode {
            Mode::Nms => {}
            Mode::Ms => self.raise(Status::Link, severity),
            Mode::Msi => {
                if let Severity::Invalid = severity {
                    self.raise(Status::Link, severity);
                }
            }
            Mode::Mss => self.raise(status, severity),
        }
    }

    /// Raises the alarm of the first limit that the value has reached, in the order HIHI, LOLO,
    /// HIGH, LOW, and returns the new LALM. That is the limit if the alarm took effect, the old
    /// LALM if it didn't, and the value if no limit is reached. Record Reference Manual, "Alarm
    /// Parameters" of longin.
    pub fn limits<N: LimitNumber>(
        &mut self,
        value: N,
        last_alarmed: N,
        limits: &AlarmLimits<N>,
    ) -> N
        ensures alarms { self.new ≡ (limited N.order value last_alarmed limits.now self.old).0 }
        ensures last_alarmed { result ≡ (limited N.order value last_alarmed limits.now self.old).1 }
    {
        let Some(reached) = limits.first_reached(value, last_alarmed) else {
            return value;
        };
        if !self.takes_effect(reached.severity) {
            return last_alarmed;
        }
        self.raise(reached.status, reached.severity);
        reached.limit
    }
}
