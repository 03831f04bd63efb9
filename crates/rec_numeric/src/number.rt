//! The numbers of numeric records, of 32 and of 64 bits.
ghost use Rattle.std.specs.Prelude.{◌≡◌, Some};
ghost use Rattle.std.specs.Option.{option_and_then};
ghost use Rattle.ioc_values.specs.Conversion.{value_in};
ghost use Rattle.ioc_record.specs.Shown.{number_shown};
ghost use Rattle.rec_numeric.specs.Number.{NumberRules};
ghost use Rattle.rec_numeric.specs.NumberLaws.{IsLawfulNumber};

use ioc_alarms::LimitNumber;
use ioc_dbcommon::{int64_in, long_in};
use ioc_fields::RecordType;
use ioc_values::{Range, Value};

/// A type of the numbers in numeric records, with the record types that hold such numbers.
pub trait Number: LimitNumber {
    ghost number: { NumberRules Self };

    fn zero() -> Self
        ensures { result ≡ number.zero };

    /// Returns the number of a value of its kind, or `None` if the value is of another kind.
    fn in_value(value: Value) -> Option<Self>
        ensures { result ≡ number.in_value value };

    fn value(self) -> Value
        ensures { result ≡ number.value self };

    /// Converts a number of this range. Returns `None` if the values of the range are of another
    /// kind, or if the number is out of range.
    fn in_range(range: Range, whole: i64) -> Option<Self>
        ensures { result ≡ option_and_then number.in_value (value_in range whole) };

    /// Returns the number that its value shows.
    fn shown(self) -> i64
        ensures { number_shown (Some (number.value self)) ≡ Some result };

    fn range() -> Range
        ensures { result ≡ number.range };

    /// Returns the record type that reads such numbers. `output_type` is the one that writes them.
    fn input_type() -> RecordType
        ensures { result ≡ number.input_type };

    fn output_type() -> RecordType
        ensures { result ≡ number.output_type };

    ghost lawful: { IsLawfulNumber number };
}

impl Number for i32 {
    ghost use Rattle.rec_numeric.specs.Number.{long_number};
    ghost use Rattle.rec_numeric.specs.NumberLaws.{long_lawful};

    ghost number = { long_number };

    ghost lawful = { long_lawful };

    fn zero() -> Self {
        0
    }

    fn in_value(value: Value) -> Option<Self> {
        long_in(value)
    }

    fn value(self) -> Value {
        Value::Long(self)
    }

    #[tactic(auto, unfolding(ioc_values::specs::Conversion::value_in))]
    fn in_range(range: Range, whole: i64) -> Option<Self> {
        match range {
            Range::Long => i32::try_from(whole).ok(),
            _ => None,
        }
    }

    fn shown(self) -> i64 {
        i64::from(self)
    }

    fn range() -> Range {
        Range::Long
    }

    fn input_type() -> RecordType {
        RecordType::Longin
    }

    fn output_type() -> RecordType {
        RecordType::Longout
    }
}

impl Number for i64 {
    ghost use Rattle.rec_numeric.specs.Number.{int64_number};
    ghost use Rattle.rec_numeric.specs.NumberLaws.{int64_lawful};

    ghost number = { int64_number };

    ghost lawful = { int64_lawful };

    fn zero() -> Self {
        0
    }

    fn in_value(value: Value) -> Option<Self> {
        int64_in(value)
    }

    fn value(self) -> Value {
        Value::Int64(self)
    }

    #[tactic(auto, unfolding(ioc_values::specs::Conversion::value_in))]
    fn in_range(range: Range, whole: i64) -> Option<Self> {
        match range {
            Range::Int64 => Some(whole),
            _ => None,
        }
    }

    fn shown(self) -> i64 {
        self
    }

    fn range() -> Range {
        Range::Int64
    }

    fn input_type() -> RecordType {
        RecordType::Int64in
    }

    fn output_type() -> RecordType {
        RecordType::Int64out
    }
}
