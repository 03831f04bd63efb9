//! Values of fields.
ghost use Rattle.std.specs.Prelude.{◌≡◌};
ghost use Rattle.ioc_values.specs.Conversion.{number_of_value};

use crate::short::Text;
use ioc_double::Double;

/// The value of a field, or a value to be put into it.
#[derive(Clone, Copy, PartialEq, Eq)]
pub enum Value {
    /// -2147483648 to 2147483647.
    Long(i32),
    /// 0 to 4294967295.
    ULong(u32),
    /// -32768 to 32767.
    Short(i16),
    /// 0 to 65535.
    UShort(u16),
    /// 0 to 255.
    UChar(u8),
    /// The number of a choice or of a state.
    Enum(u16),
    /// -9223372036854775808 to 9223372036854775807.
    Int64(i64),
    /// An IEEE 754 double.
    Double(Double),
    /// 0 to 39 bytes.
    Text(Text),
}

impl Value {
    /// Returns the whole number of the value. A double has none, even if it is one, and a text has
    /// none, even if it spells one.
    pub fn number(self) -> Option<i64>
        ensures { result ≡ number_of_value self }
    {
        match self {
            Value::Long(number) => Some(i64::from(number)),
            Value::ULong(number) => Some(i64::from(number)),
            Value::Short(number) => Some(i64::from(number)),
            Value::UShort(number) => Some(i64::from(number)),
            Value::UChar(number) => Some(i64::from(number)),
            Value::Enum(number) => Some(i64::from(number)),
            Value::Int64(number) => Some(number),
            Value::Double(_) | Value::Text(_) => None,
        }
    }
}

/// The result of an asynchronous device.
#[derive(Clone, Copy, PartialEq, Eq)]
pub enum Finished {
    Done(Value),
    Fault,
}
