//! Texts between quotes.
use std::alloc::AllocError;

// Returns the letter that stands behind a backslash for this byte, in a field's value.
fn control_letter(byte: u8) -> Option<u8> {
    match byte {
        7 => Some(b'a'),
        8 => Some(b'b'),
        b'\t' => Some(b't'),
        b'\n' => Some(b'n'),
        11 => Some(b'v'),
        12 => Some(b'f'),
        b'\r' => Some(b'r'),
        _ => None,
    }
}

/// Returns whether a database text can't have the bytes, since they would begin a macro.
pub fn begins_macro(bytes: &[u8]) -> bool {
    let mut is_behind_dollar = false;
    for byte in bytes {
        if is_behind_dollar && (*byte == b'(' || *byte == b'{') {
            return true;
        }
        is_behind_dollar = *byte == b'$';
    }
    false
}

/// Appends the bytes between quotes, so that they stand on one line.
///
/// # Errors
///
/// [`AllocError`] if allocation fails.
pub fn quote(text: &mut Vec<u8>, bytes: &[u8]) -> Result<(), AllocError> {
    text.push(b'"')?;
    let is_plain = |byte: &u8| !matches!(*byte, b'"' | b'\\' | 7..=13);
    if bytes.iter().all(is_plain) {
        text.extend_from_slice(bytes)?;
        return Ok(text.push(b'"')?);
    }
    for byte in bytes {
        match (*byte, control_letter(*byte)) {
            (b'"' | b'\\', _) => text.extend_from_slice(&[b'\\', *byte])?,
            (_, Some(letter)) => text.extend_from_slice(&[b'\\', letter])?,
            _ => text.push(*byte)?,
        }
    }
    Ok(text.push(b'"')?)
}
