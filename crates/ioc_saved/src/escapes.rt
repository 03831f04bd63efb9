//! Escapes in values.
ghost use Rattle.std.specs.Prelude.{◌≡◌, ◌<◌, ◌++◌, IfSome, OnOk};
ghost use Rattle.ioc_saved.specs.Escapes.{hex_digit, hex_value, escape, escaped, next_step};
ghost use Rattle.ioc_saved.specs.Lines.{Gives, text_in};

use crate::value::{MAX_VALUE_BYTES, SavedText};
use std::alloc::AllocError;

/// What was read of an escape.
#[derive(Clone, Copy)]
pub(crate) enum Escape {
    No,
    /// The backslash.
    Begun,
    /// The backslash and the `x`.
    Hex,
    /// The backslash, the `x` and the first digit.
    High(u8),
}

/// What comes of a byte.
#[derive(Clone, Copy)]
pub(crate) enum Step {
    /// No escape is written so.
    Bad,
    Goes(Escape),
    /// A byte of the value.
    Gives(u8),
}

/// Returns the digit for a number below 16.
fn hex_digit(number: u8) -> u8
    requires { number < 16 }
    ensures { result ≡ hex_digit number }
{
    if number < 10 {
        48 + number
    } else {
        87 + number
    }
}

/// Returns the number that a digit stands for.
fn hex_value(digit: u8) -> Option<u8>
    ensures value { result ≡ hex_value digit }
    ensures below { IfSome result (λ n. n < 16) }
{
    match digit {
        b'0'..=b'9' => Some(digit - 48),
        b'A'..=b'F' => Some(digit - 55),
        b'a'..=b'f' => Some(digit - 87),
        _ => None,
    }
}

/// Appends a byte as it stands in a value.
fn add_byte(out: &mut Vec<u8>, byte: u8) -> Result<(), AllocError>
    ensures { OnOk result (out.new.items ≡ out.old.items ++ escape byte) }
{
    if byte == b'\n' {
        out.extend_from_slice(b"\\n")
    } else if byte == b'\r' {
        out.extend_from_slice(b"\\r")
    } else if byte == b'\t' {
        out.extend_from_slice(b"\\t")
    } else if byte == b'\\' {
        out.extend_from_slice(b"\\\\")
    } else if byte < 32 || byte == 127 {
        out.extend_from_slice(&[b'\\', b'x', hex_digit(byte / 16), hex_digit(byte % 16)])
    } else {
        out.push(byte)?;
        Ok(())
    }
}

/// Appends a value as it stands in its line.
pub(crate) fn add_escaped(out: &mut Vec<u8>, value: &[u8]) -> Result<(), AllocError>
    ensures { OnOk result (out.new.items ≡ out.old.items ++ escaped value.now) }
{
    for byte in value {
        add_byte(out, *byte)?;
    }
    Ok(())
}

/// Returns what comes of two digits.
fn digits(high: u8, low: u8) -> Step
    ensures { result ≡ next_step (Escape.High high) low }
{
    let Some(high) = hex_value(high) else {
        return Step::Bad;
    };
    let Some(low) = hex_value(low) else {
        return Step::Bad;
    };
    Step::Gives(16 * high + low)
}

/// Returns what comes of a byte behind what was read of an escape.
fn next_step(state: Escape, byte: u8) -> Step
    ensures { result ≡ next_step state byte }
{
    match state {
        Escape::No => if byte == b'\\' {
            Step::Goes(Escape::Begun)
        } else {
            Step::Gives(byte)
        },
        Escape::Begun => match byte {
            b'n' => Step::Gives(b'\n'),
            b'r' => Step::Gives(b'\r'),
            b't' => Step::Gives(b'\t'),
            b'\\' => Step::Gives(b'\\'),
            b'x' => Step::Goes(Escape::Hex),
            _ => Step::Bad,
        },
        Escape::Hex => Step::Goes(Escape::High(byte)),
        Escape::High(high) => digits(high, byte),
    }
}

/// Reads a value with escapes. Returns `None` if a backslash begins no escape, or if the value has
/// too many bytes.
pub(crate) fn text_in(coded: &[u8]) -> Option<SavedText>
    ensures { Gives (λ text. text) result (text_in coded.now) }
{
    let mut text = SavedText::new();
    let mut state = Escape::No;
    let mut rest = coded;
    while let [first, after @ ..] = rest {
        match next_step(state, *first) {
            Step::Bad => return None,
            Step::Goes(next) => state = next,
            Step::Gives(byte) => {
                if text.as_slice().len() >= MAX_VALUE_BYTES {
                    return None;
                }
                text.push(byte);
                state = Escape::No;
            }
        }
        rest = after;
    }
    match state {
        Escape::No => Some(text),
        _ => None,
    }
}
