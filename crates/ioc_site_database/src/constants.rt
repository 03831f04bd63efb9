//! Constants that are written in JSON.
use ioc_site::Word;
use ioc_values::double_of_text;

/// The constant of a JSON value as `{const: 3}`.
#[derive(Clone, Copy, Debug)]
pub enum Constant<'a> {
    Number(&'a [u8]),
    Text(&'a [u8]),
}

/// Returns whether a value is JSON, which is written without quotes around it.
pub fn is_json(value: &Word) -> bool {
    !value.quoted && matches!(value.text.as_slice(), [b'{' | b'[', ..])
}

// Returns the bytes without blanks around them and without quotes, and whether they have quotes.
fn bare(text: &[u8]) -> (&[u8], bool) {
    match text.trim_ascii() {
        [b'"', inner @ .., b'"'] => (inner, true),
        [b'\'', inner @ .., b'\''] => (inner, true),
        other => (other, false),
    }
}

/// Returns the constant of a JSON value, if it is one that has no parts.
pub fn constant_of(text: &[u8]) -> Option<Constant<'_>> {
    let inner = match text.trim_ascii() {
        [b'{', inner @ .., b'}'] => inner,
        _ => return None,
    };
    let at = inner.iter().position(|byte| *byte == b':')?;
    let (name, value) = (inner.get(..at)?, inner.get(at.saturating_add(1)..)?);
    let (value, is_text) = bare(value);
    if bare(name).0 != b"const".as_slice() || value.iter().any(|byte| b"{[\"\\".contains(byte)) {
        None
    } else if double_of_text(value).is_some() {
        Some(Constant::Number(value))
    } else if is_text {
        Some(Constant::Text(value))
    } else {
        None
    }
}
