//! Backslashes in the values of fields.
use ioc_dblex::control_of;
use std::alloc::{AllocError, Global};

/// Returns the value of a digit, in octal or in hexadecimal.
fn digit(byte: u8, is_octal: bool) -> Option<u8> {
    match byte {
        b'0'..=b'7' => Some(byte - b'0'),
        b'8' | b'9' if !is_octal => Some(byte - b'0'),
        b'a'..=b'f' if !is_octal => Some(byte - b'a' + 10),
        b'A'..=b'F' if !is_octal => Some(byte - b'A' + 10),
        _ => None,
    }
}

/// Returns the byte that digits at the front give, and what is behind them.
fn number(bytes: &[u8], is_octal: bool) -> (u8, &[u8]) {
    let (most, base) = if is_octal { (3, 8u8) } else { (2, 16) };
    let mut value = 0u8;
    let mut rest = bytes;
    for _ in 0..most {
        let [first, after @ ..] = rest else {
            break;
        };
        let Some(digit) = digit(*first, is_octal) else {
            break;
        };
        value = value.wrapping_mul(base).wrapping_add(digit);
        rest = after;
    }
    (value, rest)
}

/// Returns a text between quotes with its backslashes replaced, as a field's value is.
///
/// # Errors
///
/// [`AllocError`] if allocation fails.
pub fn unescaped(alloc: Global, bytes: &[u8]) -> Result<Vec<u8>, AllocError> {
    let mut text = Vec::new(alloc);
    let mut rest = bytes;
    for _ in 0..bytes.len() {
        let (value, behind) = match rest {
            [] => break,
            [b'\\', digits @ ..] if matches!(digits, [b'0'..=b'7', ..]) => number(digits, true),
            [b'\\', b'x', digits @ ..] => number(digits, false),
            [b'\\', escaped, after @ ..] => (control_of(*escaped).unwrap_or(*escaped), after),
            [first, after @ ..] => (*first, after),
        };
        text.push(value)?;
        rest = behind;
    }
    Ok(text)
}
