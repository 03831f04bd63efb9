//! What lines show of watched fields.
ghost use Rattle.std.specs.Prelude.{◌≡◌, ◌≤◌, length};
ghost use Rattle.ioc_watches.specs.Content.{IsContent};

use ioc_record::FieldText;
use ioc_values::{Value, exact_double_text};
use itoa::Buffer;

/// What a look has shown of a field: its text, and its value, which a link has not.
#[derive(Clone, Copy)]
pub struct FieldShown {
    pub text: FieldText,
    pub value: Option<Value>,
}

/// What a look has shown of a record, whatever is watched of it.
#[derive(Clone, Copy)]
pub struct RecordShown {
    pub status: FieldShown,
    pub severity: FieldShown,
    /// TIME, in nanoseconds since 1970-01-01 00:00 UTC.
    pub moment: FieldShown,
}

// Returns a text of these bytes, which fit.
fn text_of(bytes: &[u8]) -> FieldText
    requires { length bytes.now ≤ 120 }
    ensures { result ≡ bytes.now }
{
    FieldText::cut(bytes)
}

/// Returns what a line shows of a field: its text, or, if that is asked for, the number of a state or a
/// choice, a number in decimal, or a double with all its digits.
pub fn content_of(shown: &FieldShown, is_number: bool) -> FieldText
    ensures { IsContent shown.now is_number result }
{
    match shown.value {
        Some(Value::Double(number)) if is_number => text_of(exact_double_text(number).as_slice()),
        Some(value) if is_number => match value.number() {
            Some(number) => text_of(Buffer::new().format(number).as_bytes()),
            None => shown.text,
        },
        _ => shown.text,
    }
}
