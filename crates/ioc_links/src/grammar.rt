//! The parts of link texts: decimal numbers, record names, field names.

ghost use Rattle.std.specs.Prelude.{◌≡◌, ◌++◌};
ghost use Rattle.ioc_links.specs.Grammar.{without_sign, is_some_of, is_mantissa, is_float, is_record_name, is_field_name, named, target_at};

use crate::class::{Class, all_of, split_at};
use crate::link::Target;
use ioc_values::{MAX_FIELD_NAME_BYTES, MAX_NAME_BYTES, Short};

/// Returns the text after its sign, or the whole text if it has none.
fn without_sign(text: &[u8]) -> &[u8]
    ensures { result.now ≡ without_sign text.now }
{
    match text {
        [b'+' | b'-', rest @ ..] => rest,
        _ => text,
    }
}

/// Returns whether there is at least one byte and each is in the class.
fn is_some_of(class: Class, bytes: &[u8]) -> bool
    ensures { result ≡ is_some_of class bytes.now }
{
    if bytes.is_empty() {
        return false;
    }
    all_of(class, bytes)
}

/// Returns whether the two parts have at least one byte in all and each is in the class.
fn is_some_of_both(class: Class, front: &[u8], back: &[u8]) -> bool
    ensures { result ≡ is_some_of class (front.now ++ back.now) }
{
    match front {
        [] => is_some_of(class, back),
        [_, ..] => all_of(class, front) && all_of(class, back),
    }
}

/// Returns whether the text consists of digits, at least one, with at most one point.
#[tactic(auto, unfolding(crate::specs::Grammar::is_mantissa))]
fn is_mantissa(text: &[u8]) -> bool
    ensures { result ≡ is_mantissa text.now }
{
    let (whole, back) = split_at(Class::Point, text);
    match back {
        [] => is_some_of(Class::Digit, whole),
        [_, part @ ..] => is_some_of_both(Class::Digit, whole, part),
    }
}

/// Returns whether the text is a decimal number: an integer, or one with a fraction or an exponent.
#[tactic(auto, unfolding(crate::specs::Grammar::is_float))]
pub(crate) fn is_float(text: &[u8]) -> bool
    ensures { result ≡ is_float text.now }
{
    let (number, back) = split_at(Class::Mark, without_sign(text));
    match back {
        [] => is_mantissa(number),
        [_, power @ ..] => is_mantissa(number) && is_some_of(Class::Digit, without_sign(power)),
    }
}

/// Returns whether the text is a valid record name: 1 to 60 bytes, each from 33 to 126, except `"`,
/// `'`, `.` and `$`.
pub fn is_record_name(name: &[u8]) -> bool
    ensures { result ≡ is_record_name name.now }
{
    name.len() <= MAX_NAME_BYTES && is_some_of(Class::NameByte, name)
}

/// Returns whether the text is a valid field name: 1 to 8 capital letters or digits.
fn is_field_name(field: &[u8]) -> bool
    ensures { result ≡ is_field_name field.now }
{
    field.len() <= MAX_FIELD_NAME_BYTES && is_some_of(Class::FieldByte, field)
}

/// Returns the field of the record as a target, if both names are valid.
#[tactic(auto, unfolding(crate::specs::Grammar::target_at))]
fn target_at(name: &[u8], field: &[u8]) -> Option<Target>
    ensures { result ≡ target_at name.now field.now }
{
    let record_name = Short::from_slice(name)?;
    let field_name = Short::from_slice(field)?;
    if !is_record_name(name) || !is_field_name(field) {
        return None;
    }
    Some(Target {
        record_name,
        field: field_name,
    })
}

/// Returns the target that `NAME` or `NAME.FIELD` names. Without a field it is VAL.
#[tactic(auto, unfolding(crate::specs::Grammar::named))]
pub(crate) fn named(word: &[u8]) -> Option<Target>
    ensures { result ≡ named word.now }
{
    let (name, back) = split_at(Class::Point, word);
    match back {
        [] => target_at(name, b"VAL"),
        [_, field @ ..] => target_at(name, field),
    }
}
