//! What a look has shown of a watched field, as its rule goes by it.
ghost use Rattle.std.specs.Prelude.{◌≡◌};
ghost use Rattle.ioc_watches.specs.Due.{IsObserved, bits_of, whole_of, choice_of, first_of, second_of};

use crate::content::{FieldShown, RecordShown, content_of};
use ioc_monitor::{Deadbands, Seen};
use ioc_record::FieldText;
use ioc_values::Value;

/// MLST and ALST of a record, which processing sets to VAL when it posts it, by the bits of the doubles.
#[derive(Clone, Copy)]
pub struct Posts {
    pub value: u64,
    pub archive: u64,
}

/// What a look has shown of a watched field, and of its record. A number that there isn't is 0.
#[derive(Clone, Copy)]
pub struct Observed {
    /// What a line shows of the field.
    pub content: FieldText,
    /// TIME, which processing moves.
    pub moment: FieldText,
    /// The value as a whole number, and the alarm.
    pub seen: Seen,
    pub bands: Deadbands,
    pub posts: Posts,
}

// Returns the whole number of a value.
fn whole_of(value: &Option<Value>) -> i64
    ensures { result ≡ whole_of value.now }
{
    match value {
        Some(value) => value.number().unwrap_or(0),
        None => 0,
    }
}

// Returns the number of a choice.
fn choice_of(value: &Option<Value>) -> u16
    ensures { result ≡ choice_of value.now }
{
    match value {
        Some(Value::Enum(number)) => *number,
        _ => 0,
    }
}

// Returns the bits of a double.
fn bits_of(value: &Option<Value>) -> u64
    ensures { result ≡ bits_of value.now }
{
    match value {
        Some(Value::Double(number)) => number.to_bits(),
        _ => 0,
    }
}

// Returns the first value of what was shown, if there is one.
fn first_of(shown: &[FieldShown]) -> Option<Value>
    ensures { result ≡ first_of shown.now }
{
    match shown {
        [first, ..] => first.value,
        [] => None,
    }
}

// Returns the second value of what was shown, if there is one.
fn second_of(shown: &[FieldShown]) -> Option<Value>
    ensures { result ≡ second_of shown.now }
{
    match shown {
        [_, second, ..] => second.value,
        _ => None,
    }
}

impl Observed {
    /// Returns what was shown of a field, or of the number behind it, and of its record. The others are the
    /// fields that its rule has beside it ([`Rule::fields`](crate::rule::Rule::fields)).
    pub fn of(
        is_number: bool,
        field: &FieldShown,
        others: &[FieldShown],
        record: &RecordShown,
    ) -> Self
        ensures { IsObserved is_number field.now others.now record.now result }
    {
        let first = first_of(others);
        let second = second_of(others);
        Observed {
            content: content_of(field, is_number),
            moment: record.moment.text,
            seen: Seen {
                value: whole_of(&field.value),
                status: choice_of(&record.status.value),
                severity: choice_of(&record.severity.value),
            },
            bands: Deadbands {
                value: whole_of(&first),
                archive: whole_of(&second),
            },
            posts: Posts {
                value: bits_of(&first),
                archive: bits_of(&second),
            },
        }
    }
}
