//! Conversion of values to what a field holds.
//!
//! Application Developer's Guide, "Database Definition" (the types of fields) and "Database Access"
//! (conversion).

ghost use Rattle.std.specs.Prelude.{◌≡◌, ◌≤◌, length, map, nat_eq, option_map, position, Some};
ghost use Rattle.std.specs.Cmp.Lexicographic.{pointwise};
ghost use Rattle.std.specs.Option.{ok_or, option_and_then};
ghost use Rattle.std.specs.Fmt.{signed_decimal};
ghost use Rattle.ioc_values.specs.Number.{number_of};
ghost use Rattle.ioc_values.specs.Conversion.{sort_of, same_text, state_of, found_or_numbered, value_in, numbered, of_number};
ghost use Rattle.ioc_values.specs.Conversion.{double_text, of_double, of_text, converted};
ghost use Rattle.ioc_values.specs.declared.value.Value.TheVariants.{Double as DoubleValue};
ghost use Rattle.ioc_double.specs.Whole.{whole_of};
ghost use Rattle.ioc_double.specs.Spelled.{double_of_text};

use crate::error::IocError;
use crate::kind::{Kind, Range};
use crate::number::number;
use crate::short::Text;
use crate::value::Value;
use ioc_double::{Digits, Double, double_of_text, exact_text, text_of_double};
use itoa::Buffer;

/// Returns the number as a value of the range, or `None` if it is out of range.
#[tactic(auto, unfolding(crate::specs::Conversion::value_in))]
fn value_in(range: Range, number: i64) -> Option<Value>
    ensures { result ≡ value_in range number }
{
    match range {
        Range::Long => i32::try_from(number).ok().map(Value::Long),
        Range::ULong => u32::try_from(number).ok().map(Value::ULong),
        Range::Short => i16::try_from(number).ok().map(Value::Short),
        Range::UShort => u16::try_from(number).ok().map(Value::UShort),
        Range::UChar => u8::try_from(number).ok().map(Value::UChar),
        Range::Enum => u16::try_from(number).ok().map(Value::Enum),
        Range::Int64 => Some(Value::Int64(number)),
        Range::Zero => (number == 0).then_some(Value::Short(0)),
        Range::Bits => u16::try_from(number)
            .ok()
            .filter(|count| *count <= 32)
            .map(Value::UShort),
        Range::Digits => u16::try_from(number)
            .ok()
            .filter(|count| *count <= 15)
            .map(Value::UShort),
    }
}

/// Returns the choice or state with this number, or `None` if there is none. There are `count` of
/// them.
#[tactic(auto, unfolding(crate::specs::Conversion::numbered))]
fn numbered(count: usize, number: i64) -> Option<Value>
    ensures { result ≡ numbered count number }
{
    let index = u16::try_from(number).ok()?;
    if usize::from(index) < count {
        Some(Value::Enum(index))
    } else {
        None
    }
}

/// Returns the number of the choice with exactly this text.
fn choice_of(choices: &[&'static str], text: &[u8]) -> Option<usize>
    ensures { result ≡ same_text (map (λ c. c.now) choices.now) text.now }
{
    place_of(choices, text)
}

/// Returns the position of the text among the choices.
fn place_of(choices: &[&'static str], text: &[u8]) -> Option<usize>
    ensures { result ≡ position (λ choice. pointwise nat_eq choice.now text.now) choices.now }
{
    choices.iter().position(|choice| choice.as_bytes() == text)
}

/// Returns the number of the first state with exactly this text, or `None` if the text is empty.
fn state_of(states: &[Text], text: &[u8]) -> Option<usize>
    ensures { result ≡ state_of states.now text.now }
{
    if text.is_empty() {
        return None;
    }
    same_state(states, text)
}

/// Returns the number of the first state with exactly this text.
fn same_state(states: &[Text], text: &[u8]) -> Option<usize>
    ensures { result ≡ same_text states.now text.now }
{
    states.iter().position(|state| state.as_slice() == text)
}

/// Returns the number that the text spells as a value of the range.
#[tactic(auto, using(crate::proofs::Wide::value_of_wide))]
fn text_in(range: Range, text: &[u8]) -> Option<Value>
    ensures { result ≡ option_and_then (value_in range) (number_of text.now) }
{
    value_in(range, number(text)?)
}

/// Returns the choice or state that was found by its text, or else the one whose number the text
/// spells. There are `count` of them.
#[tactic(auto, using(crate::proofs::Wide::numbered_of_wide), unfolding(crate::specs::Conversion::value_in))]
fn found_or_numbered(count: usize, found: Option<usize>, text: &[u8]) -> Option<Value>
    ensures { result ≡ found_or_numbered count found text.now }
{
    match found {
        Some(index) => u16::try_from(index).ok().map(Value::Enum),
        None => numbered(count, number(text)?),
    }
}

/// Converts a number to what a field of the kind holds. Returns `None` if it is out of range or no
/// choice has this number. This isn't inlined, so that a conversion of a text doesn't clear the
/// memory for a number.
#[inline(never)]
#[tactic(auto, unfolding(crate::specs::Conversion::of_number, crate::specs::Conversion::sort_of))]
pub fn of_number(kind: Kind<'_>, number: i64) -> Option<Value>
    ensures { result ≡ of_number (sort_of kind.entry) number }
{
    match kind {
        Kind::Number(range) => value_in(range, number),
        Kind::Double => Some(Value::Double(Double::from(number))),
        Kind::Text => Some(Value::Text(decimal(number))),
        Kind::Menu(choices) => numbered(choices.len(), number),
        Kind::State(_) => value_in(Range::Enum, number),
    }
}

/// Returns the number in decimal.
fn decimal(number: i64) -> Text
    ensures { result ≡ signed_decimal number }
{
    Text::cut(Buffer::new().format(number).as_bytes())
}

/// Returns the text of a double where no PREC says how many digits it has, as when a link puts it
/// into a text field: six digits behind the point.
#[tactic(auto, unfolding(crate::specs::Conversion::double_text))]
pub fn double_text(number: Double) -> Text
    ensures { result ≡ double_text number }
{
    match Digits::new(6) {
        Some(digits) => Text::cut(text_of_double(number, digits).as_slice()),
        None => Text::new(),
    }
}

/// Returns a text from which the same double is read again, so that two have the same text only if
/// they are the same value.
pub fn exact_double_text(number: Double) -> Text
    ensures { double_of_text result ≡ Some number }
{
    Text::cut(exact_text(number).as_slice())
}

/// Returns the double without its fraction as a value of the range. Returns `None` if it is out of
/// range, for NaN, and for an infinity.
#[tactic(auto, using(crate::proofs::Wide::value_of_cut))]
fn cut_in(range: Range, number: Double) -> Option<Value>
    ensures { result ≡ option_and_then (value_in range) (whole_of number) }
{
    value_in(range, number.whole()?)
}

/// Returns the choice whose number is the double without its fraction, or `None` if there is none.
/// There are `count` of them.
#[tactic(auto, using(crate::proofs::Wide::numbered_of_cut))]
fn cut_numbered(count: usize, number: Double) -> Option<Value>
    ensures { result ≡ option_and_then (numbered count) (whole_of number) }
{
    numbered(count, number.whole()?)
}

/// Converts a double to what a field of the kind holds. For a number, a choice or a state its
/// fraction is dropped, so that -0.5 is 0. Returns `None` if it is out of range, and for NaN or an
/// infinity.
#[inline(never)]
#[tactic(auto, unfolding(crate::specs::Conversion::of_double, crate::specs::Conversion::sort_of))]
pub fn of_double(kind: Kind<'_>, number: Double) -> Option<Value>
    ensures { result ≡ of_double (sort_of kind.entry) number }
{
    match kind {
        Kind::Double => Some(Value::Double(number)),
        Kind::Text => Some(Value::Text(double_text(number))),
        Kind::Number(range) => cut_in(range, number),
        Kind::Menu(choices) => cut_numbered(choices.len(), number),
        Kind::State(_) => cut_in(Range::Enum, number),
    }
}

/// Returns the double that the text spells as a value.
fn double_in(text: &[u8]) -> Option<Value>
    ensures { result ≡ option_map DoubleValue (double_of_text text.now) }
{
    double_of_text(text).map(Value::Double)
}

/// Converts a text of at most 39 bytes to what a field of the kind holds. Returns `None` if it
/// doesn't convert.
#[tactic(auto, unfolding(crate::specs::Conversion::of_text, crate::specs::Conversion::sort_of))]
pub fn of_text(kind: Kind<'_>, bytes: &[u8]) -> Option<Value>
    requires { length bytes.now ≤ 39 }
    ensures { result ≡ of_text (sort_of kind.entry) bytes.now }
{
    match kind {
        Kind::Number(range) => text_in(range, bytes),
        Kind::Double => double_in(bytes),
        Kind::Text => Some(Value::Text(Text::cut(bytes))),
        Kind::Menu(choices) => found_or_numbered(choices.len(), choice_of(choices, bytes), bytes),
        Kind::State(states) => found_or_numbered(states.len(), state_of(states, bytes), bytes),
    }
}

/// Converts a value to what a field of the kind holds. The variant of the result is that of the
/// kind.
///
/// # Errors
///
/// [`IocError::BadValue`] if the value doesn't convert or is out of range.
#[inline(always)]
pub fn convert(value: Value, kind: Kind<'_>) -> Result<Value, IocError>
    ensures { result ≡ converted value (sort_of kind.entry) }
{
    let made = match value {
        Value::Long(number) => of_number(kind, i64::from(number)),
        Value::ULong(number) => of_number(kind, i64::from(number)),
        Value::Short(number) => of_number(kind, i64::from(number)),
        Value::UShort(number) => of_number(kind, i64::from(number)),
        Value::UChar(number) => of_number(kind, i64::from(number)),
        Value::Enum(number) => of_number(kind, i64::from(number)),
        Value::Int64(number) => of_number(kind, number),
        Value::Double(number) => of_double(kind, number),
        Value::Text(text) => of_text(kind, text.as_slice()),
    };
    made.ok_or(IocError::BadValue)
}
