//! Values as callers pass them.
ghost use Rattle.std.specs.Prelude.{◌≡◌};
ghost use Rattle.std.specs.Option.{ok_or, option_and_then};
ghost use Rattle.ioc_values.specs.declared.error.IocError.TheVariants.{BadValue};
ghost use Rattle.ioc_values.specs.declared.kind.Range.{Range};
ghost use Rattle.ioc_values.specs.Conversion.{Numbers, sort_of, value_in, converted_text, converted_input, input_of};

use crate::conversion::{convert, of_text};
use crate::error::IocError;
use crate::kind::Kind;
use crate::number::number;
use crate::short::{MAX_TEXT_BYTES, Text};
use crate::value::Value;

/// A value as a caller passes it. A text of more than 39 bytes only fits a text field, which takes
/// its first 39 bytes.
#[derive(Clone, Copy, PartialEq, Eq)]
pub enum Input {
    Value(Value),
    /// The first 39 bytes of a longer text.
    LongText(Text),
}

#[tactic(auto, unfolding(crate::specs::Conversion::input_of))]
impl Input {
    /// Makes the input of a text from a script or a database.
    pub fn from_text(text: &[u8]) -> Self
        ensures { result ≡ input_of text.now }
    {
        if text.len() <= MAX_TEXT_BYTES {
            Input::Value(Value::Text(Text::cut(text)))
        } else {
            Input::LongText(Text::cut(text))
        }
    }
}

/// Converts a value that a caller passes to what a field of the kind holds.
///
/// # Errors
///
/// [`IocError::BadValue`] if the value doesn't convert or is out of range, or if it has more than
/// 39 bytes and the field isn't a text.
#[inline(always)]
#[tactic(auto, unfolding(crate::specs::Conversion::converted_input))]
pub fn convert_input(input: Input, kind: Kind<'_>) -> Result<Value, IocError>
    ensures { result ≡ converted_input input (sort_of kind.entry) }
{
    match input {
        Input::Value(value) => convert(value, kind),
        Input::LongText(text) => {
            if kind.is_text() {
                convert(Value::Text(text), kind)
            } else {
                Err(IocError::BadValue)
            }
        }
    }
}

/// Returns the number that a numeric field takes from a text in a script or a database. Returns
/// `None` if the text spells no number, has more than 39 bytes, or the number doesn't fit 64 bits.
#[tactic(auto, using(crate::proofs::Spelled::number_spelled, crate::proofs::Spelled::long_no_number))]
pub fn spelled_number(text: &[u8]) -> Option<i64>
    ensures { (range : Range) → ok_or (option_and_then (value_in range) result) BadValue ≡ converted_text text.now (Numbers range) }
{
    if text.len() <= MAX_TEXT_BYTES {
        number(text)
    } else {
        None
    }
}

/// Converts a text from a script or a database to what a field of the kind holds. A text field
/// takes the first 39 bytes.
///
/// # Errors
///
/// [`IocError::BadValue`] if the text doesn't convert or is out of range, or if it has more than 39
/// bytes and the field isn't a text.
#[tactic(auto, using(crate::proofs::Spelled::short_spelled, crate::proofs::Spelled::long_spelled, crate::proofs::Spelled::long_refused))]
pub fn convert_text(text: &[u8], kind: Kind<'_>) -> Result<Value, IocError>
    ensures { result ≡ converted_text text.now (sort_of kind.entry) }
{
    if text.len() <= MAX_TEXT_BYTES {
        return of_text(kind, text).ok_or(IocError::BadValue);
    }
    if kind.is_text() {
        Ok(Value::Text(Text::cut(text)))
    } else {
        Err(IocError::BadValue)
    }
}
