//! The limits of a value.
ghost use Rattle.std.specs.Prelude.{◌≡◌, ℤ, ◌-ℤ◌, ◌+ℤ◌, int_le};
ghost use Rattle.ioc_alarms.specs.Order.{LimitOrder};
ghost use Rattle.ioc_alarms.specs.Severities.{is_alarm};

use ioc_menus::{Severity, Status};
use ioc_values::Double;

/// A type of a record's value and limits.
pub trait LimitNumber: Copy {
    ghost order: { LimitOrder Self };

    /// Returns whether the number is less than another.
    fn is_less(self, other: Self) -> bool
        ensures { result ≡ order.is_less self other };

    /// Returns whether the number is at most another.
    fn is_at_most(self, other: Self) -> bool
        ensures { result ≡ order.is_at_most self other };

    /// Returns whether two numbers are the same limit.
    fn is_same(self, other: Self) -> bool
        ensures { result ≡ order.is_same self other };

    /// Returns whether the value is at least the limit minus the hysteresis.
    fn keeps_high(limit: Self, hysteresis: Self, value: Self) -> bool
        ensures { result ≡ order.keeps_high limit hysteresis value };

    /// Returns whether the value is at most the limit plus the hysteresis.
    fn keeps_low(limit: Self, hysteresis: Self, value: Self) -> bool
        ensures { result ≡ order.keeps_low limit hysteresis value };
}

impl LimitNumber for i32 {
    ghost use Rattle.ioc_alarms.specs.Order.{whole_order};

    ghost order = { whole_order };

    fn is_less(self, other: Self) -> bool {
        self < other
    }

    fn is_at_most(self, other: Self) -> bool {
        self <= other
    }

    fn is_same(self, other: Self) -> bool {
        self == other
    }

    fn keeps_high(limit: Self, hysteresis: Self, value: Self) -> bool {
        is_from_below(i64::from(limit), i64::from(hysteresis), i64::from(value))
    }

    fn keeps_low(limit: Self, hysteresis: Self, value: Self) -> bool {
        is_to_above(i64::from(limit), i64::from(hysteresis), i64::from(value))
    }
}

impl LimitNumber for i64 {
    ghost use Rattle.ioc_alarms.specs.Order.{whole_order};

    ghost order = { whole_order };

    fn is_less(self, other: Self) -> bool {
        self < other
    }

    fn is_at_most(self, other: Self) -> bool {
        self <= other
    }

    fn is_same(self, other: Self) -> bool {
        self == other
    }

    fn keeps_high(limit: Self, hysteresis: Self, value: Self) -> bool {
        is_from_below(limit, hysteresis, value)
    }

    fn keeps_low(limit: Self, hysteresis: Self, value: Self) -> bool {
        is_to_above(limit, hysteresis, value)
    }
}

/// Comparisons are those of IEEE 754: NaN is no limit and reaches none, and -0 and 0 are one limit.
impl LimitNumber for Double {
    ghost use Rattle.ioc_alarms.specs.Order.{double_order};

    ghost order = { double_order };

    fn is_less(self, other: Self) -> bool {
        self.number() < other.number()
    }

    fn is_at_most(self, other: Self) -> bool {
        self.number() <= other.number()
    }

    fn is_same(self, other: Self) -> bool {
        self.number() == other.number()
    }

    fn keeps_high(limit: Self, hysteresis: Self, value: Self) -> bool {
        limit.number() - hysteresis.number() <= value.number()
    }

    fn keeps_low(limit: Self, hysteresis: Self, value: Self) -> bool {
        value.number() <= limit.number() + hysteresis.number()
    }
}

/// The limits of a value, the severity of each limit's alarm, and how far a value must come back
/// from a limit until its alarm ends. A limit whose severity is NO_ALARM isn't tested.
#[derive(Clone, Copy, PartialEq, Eq, Debug)]
pub struct AlarmLimits<N> {
    /// HIHI.
    pub hihi: N,
    /// LOLO.
    pub lolo: N,
    /// HIGH.
    pub high: N,
    /// LOW.
    pub low: N,
    /// HHSV.
    pub hihi_severity: Severity,
    /// LLSV.
    pub lolo_severity: Severity,
    /// HSV.
    pub high_severity: Severity,
    /// LSV.
    pub low_severity: Severity,
    /// HYST. A negative hysteresis is used as it is.
    pub hysteresis: N,
}

/// A limit that a value has reached, and the alarm that it raises.
#[derive(Clone, Copy, PartialEq, Eq, Debug)]
pub struct ReachedLimit<N> {
    pub status: Status,
    pub severity: Severity,
    pub limit: N,
}

impl<N> ReachedLimit<N> {
    #[inline]
    fn new(status: Status, severity: Severity, limit: N) -> Self
        ensures { result ≡ record { status = status; severity = severity; limit = limit } }
    {
        ReachedLimit {
            status,
            severity,
            limit,
        }
    }
}

#[tactic(auto, unfolding(crate::specs::Limits::is_high, crate::specs::Limits::is_low))]
impl<N: LimitNumber> AlarmLimits<N> {
    ghost use Rattle.ioc_alarms.specs.Limits.{is_high, is_low, first_reached};

    // Returns whether a high limit is reached.
    fn is_high(&self, limit: N, value: N, last_alarmed: N) -> bool
        ensures { result ≡ is_high N.order self.now.hysteresis value last_alarmed limit }
    {
        limit.is_at_most(value)
            || (last_alarmed.is_same(limit) && N::keeps_high(limit, self.hysteresis, value))
    }

    // Returns whether a low limit is reached.
    fn is_low(&self, limit: N, value: N, last_alarmed: N) -> bool
        ensures { result ≡ is_low N.order self.now.hysteresis value last_alarmed limit }
    {
        value.is_at_most(limit)
            || (last_alarmed.is_same(limit) && N::keeps_low(limit, self.hysteresis, value))
    }

    /// Returns the first limit that is reached, in the order HIHI, LOLO, HIGH, LOW.
    #[tactic(auto, unfolding(crate::specs::Limits::first_reached))]
    pub fn first_reached(&self, value: N, last_alarmed: N) -> Option<ReachedLimit<N>>
        ensures { result ≡ first_reached N.order value last_alarmed self.now }
    {
        if is_alarm(self.hihi_severity) && self.is_high(self.hihi, value, last_alarmed) {
            return Some(ReachedLimit::new(Status::Hihi, self.hihi_severity, self.hihi));
        }
        if is_alarm(self.lolo_severity) && self.is_low(self.lolo, value, last_alarmed) {
            return Some(ReachedLimit::new(Status::Lolo, self.lolo_severity, self.lolo));
        }
        if is_alarm(self.high_severity) && self.is_high(self.high, value, last_alarmed) {
            return Some(ReachedLimit::new(Status::High, self.high_severity, self.high));
        }
        if is_alarm(self.low_severity) && self.is_low(self.low, value, last_alarmed) {
            return Some(ReachedLimit::new(Status::Low, self.low_severity, self.low));
        }
        None
    }
}

// Returns whether the severity is other than NO_ALARM.
fn is_alarm(severity: Severity) -> bool
    ensures { result ≡ is_alarm severity }
{
    !matches!(severity, Severity::NoAlarm)
}

// Returns whether the value is at least the limit minus the hysteresis. Every difference of two
// 64-bit values fits 128 bits, so it doesn't wrap.
fn is_from_below(limit: i64, hysteresis: i64, value: i64) -> bool
    ensures { result ≡ int_le (limit -ℤ hysteresis) value }
{
    let edge = limit as i128 - hysteresis as i128;
    edge <= value as i128
}

// Returns whether the value is at most the limit plus the hysteresis.
fn is_to_above(limit: i64, hysteresis: i64, value: i64) -> bool
    ensures { result ≡ int_le value (limit +ℤ hysteresis) }
{
    let edge = limit as i128 + hysteresis as i128;
    value as i128 <= edge
}
