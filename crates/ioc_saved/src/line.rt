//! The line of a value.
ghost use Rattle.std.specs.Prelude.{◌≡◌, ◌++◌, ◌∷◌, [], OnOk};
ghost use Rattle.ioc_saved.specs.Lines.{Gives, name_in, value_in, saved_in, line_in, row};

use crate::escapes::{add_escaped, text_in};
use crate::value::{SavedValue, is_long_as, is_passed};
use crate::words::split;
use ioc_values::Short;
use std::alloc::AllocError;

/// What a line holds.
#[derive(Clone, Copy)]
pub(crate) enum SavedLine {
    /// No value: the line is empty or begins with `#` or `!`.
    Passed,
    Value(SavedValue),
    /// No file has this line.
    Bad,
}

/// Appends the line of a value, without its line feed.
#[tactic(auto, unfolding(crate::specs::Lines::row))]
pub(crate) fn add_row(out: &mut Vec<u8>, saved: &SavedValue) -> Result<(), AllocError>
    ensures { OnOk result (out.new.items ≡ out.old.items ++ row saved.now) }
{
    out.extend_from_slice(saved.record_name.as_slice())?;
    out.push(b'.')?;
    out.extend_from_slice(saved.field.as_slice())?;
    out.push(b' ')?;
    add_escaped(out, saved.value.as_slice())
}

/// Returns the name, or `None` if it is empty or doesn't fit.
pub(crate) fn name_in<const CAP: usize>(name: &[u8]) -> Option<Short<CAP>>
    ensures { Gives (λ name. name) result (name_in CAP name.now) }
{
    if is_long_as(CAP, name) {
        Some(Short::cut(name))
    } else {
        None
    }
}

/// Reads the value of a line.
#[tactic(auto, unfolding(crate::specs::Lines::value_in))]
fn value_in(line: &[u8]) -> Option<SavedValue>
    ensures { Gives (λ value. value) result (value_in line.now) }
{
    let (names, coded) = split(b' ', line);
    let (name, field) = split(b'.', names);
    let record_name = name_in(name)?;
    let field = name_in(field)?;
    let value = text_in(coded)?;
    Some(SavedValue {
        record_name,
        field,
        value,
    })
}

/// Reads the value of a line that [`add_saved`](crate::add_saved) appends, up to its line feed. Returns
/// `None` where [`parse_saved`](crate::parse_saved) refuses the line.
#[tactic(auto, unfolding(crate::specs::Lines::saved_in))]
pub fn saved_in(line: &[u8]) -> Option<SavedValue>
    ensures { Gives (λ value. value) result (saved_in line.now) }
{
    let (row, _rest) = split(b'\n', line);
    value_in(row)
}

/// Reads a line.
#[tactic(auto, unfolding(crate::specs::Lines::line_in))]
pub(crate) fn line_in(line: &[u8]) -> SavedLine
    ensures { result ≡ line_in line.now }
{
    if is_passed(line) {
        return SavedLine::Passed;
    }
    match value_in(line) {
        Some(value) => SavedLine::Value(value),
        None => SavedLine::Bad,
    }
}
