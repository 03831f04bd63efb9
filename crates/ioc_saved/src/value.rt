//! A value of a channel.
ghost use Rattle.std.specs.Prelude.{◌≡◌};
ghost use Rattle.ioc_saved.specs.Lines.{is_saveable, is_long_as, is_passed, is_record_name, is_field_name};

use crate::words::lacks;
use ioc_values::{FieldName, MAX_FIELD_NAME_BYTES, MAX_NAME_BYTES, Name, Short};

/// The most bytes that a saved value has.
pub const MAX_VALUE_BYTES: usize = 120;

/// The text of a value.
pub type SavedText = Short<MAX_VALUE_BYTES>;

/// The value of a field of a record, as a text or a number.
///
/// ```text
/// let saved = SavedValue {
///     record_name: Name::cut(b"plant:level"),
///     field: FieldName::cut(b"HIGH"),
///     value: SavedText::cut(b"40"),
/// };
/// ```
#[derive(Clone, Copy)]
pub struct SavedValue {
    /// The record, of 1 to 60 bytes.
    pub record_name: Name,
    /// The field, of 1 to 8 bytes.
    pub field: FieldName,
    /// The value, of at most 120 bytes.
    pub value: SavedText,
}

/// Returns whether the name has a length from 1 to the limit.
pub(crate) fn is_long_as(limit: usize, name: &[u8]) -> bool
    ensures { result ≡ is_long_as limit name.now }
{
    0 < name.len() && name.len() <= limit
}

/// Returns whether the line holds no value: it is empty or begins with `#` or `!`.
pub(crate) fn is_passed(line: &[u8]) -> bool
    ensures { result ≡ is_passed line.now }
{
    match line {
        [first, ..] => *first == b'#' || *first == b'!',
        [] => true,
    }
}

fn is_record_name(name: &[u8]) -> bool
    ensures { result ≡ is_record_name name.now }
{
    is_long_as(MAX_NAME_BYTES, name)
        && lacks(b'\n', name)
        && lacks(b' ', name)
        && lacks(b'.', name)
        && !is_passed(name)
}

fn is_field_name(name: &[u8]) -> bool
    ensures { result ≡ is_field_name name.now }
{
    is_long_as(MAX_FIELD_NAME_BYTES, name) && lacks(b'\n', name) && lacks(b' ', name)
}

impl SavedValue {
    /// Returns whether the value can be saved: neither name is empty or has a space or a line feed,
    /// and the record's name has no dot and doesn't begin with `#` or `!`.
    #[tactic(auto, unfolding(crate::specs::Lines::is_saveable))]
    pub fn is_saveable(&self) -> bool
        ensures { result ≡ is_saveable self.now }
    {
        is_record_name(self.record_name.as_slice())
            && is_field_name(self.field.as_slice())
            && self.value.as_slice().len() <= MAX_VALUE_BYTES
    }
}
