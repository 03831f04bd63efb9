//! Values shown as numbers.
ghost use Rattle.std.specs.Prelude.{◌≡◌};
ghost use Rattle.ioc_record.specs.Shown.{number_shown};

use ioc_values::Value;

/// Returns the whole number that a value shows in a field of any kind, or `None` if it is a double, a
/// choice, a state or a text.
pub fn number_in(value: Option<Value>) -> Option<i64>
    ensures { result ≡ number_shown value }
{
    match value {
        Some(Value::Long(number)) => Some(i64::from(number)),
        Some(Value::ULong(number)) => Some(i64::from(number)),
        Some(Value::Short(number)) => Some(i64::from(number)),
        Some(Value::UShort(number)) => Some(i64::from(number)),
        Some(Value::UChar(number)) => Some(i64::from(number)),
        Some(Value::Int64(number)) => Some(number),
        Some(Value::Double(_) | Value::Enum(_) | Value::Text(_)) | None => None,
    }
}
