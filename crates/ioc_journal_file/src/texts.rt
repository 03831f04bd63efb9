//! Texts in quotation marks.
ghost use Rattle.std.specs.Prelude.{◌≡◌, ◌≤◌, ◌<◌, ◌++◌, ◌∷◌, ℕ, List, length, take, OnOk};
ghost use Rattle.ioc_journal_file.specs.Texts.{is_special, hex_digit, hex_value, escape, quoted, unescaped};
ghost use Rattle.ioc_journal_file.specs.Parts.{text_at};

use crate::words::split;
use ioc_values::Short;
use std::alloc::AllocError;

/// What was read of a backslash and its digits.
#[derive(Clone, Copy)]
pub(crate) enum Escape {
    No,
    Begun,
    /// The first digit.
    High(u8),
}

/// Returns whether the byte has to be escaped.
fn is_special(byte: u8) -> bool
    ensures { result ≡ is_special byte }
{
    byte < 32 || byte == b'"' || byte == b'\\' || byte == 127
}

/// Returns the digit for a number below 16.
pub(crate) fn hex_digit(number: u8) -> u8
    requires { number < 16 }
    ensures { result ≡ hex_digit number }
{
    if number < 10 {
        48 + number
    } else {
        87 + number
    }
}

/// Returns the number that the digit stands for.
pub(crate) fn hex_value(digit: u8) -> u8
    ensures value { result ≡ hex_value digit }
    ensures below { result < 16 }
{
    if digit < 97 {
        digit % 16
    } else {
        (digit % 16 + 9) % 16
    }
}

/// Appends a byte as it stands in a text.
fn add_byte(out: &mut Vec<u8>, byte: u8) -> Result<(), AllocError>
    ensures { OnOk result (out.new.items ≡ out.old.items ++ escape byte) }
{
    if is_special(byte) {
        out.push(b'\\')?;
        out.push(hex_digit(byte / 16))?;
        out.push(hex_digit(byte % 16))?;
        Ok(())
    } else {
        out.push(byte)?;
        Ok(())
    }
}

/// Appends a text in quotation marks.
pub(crate) fn add_text(out: &mut Vec<u8>, text: &[u8]) -> Result<(), AllocError>
    ensures { OnOk result (out.new.items ≡ out.old.items ++ quoted text.now) }
{
    out.push(b'"')?;
    for byte in text {
        add_byte(out, *byte)?;
    }
    out.push(b'"')?;
    Ok(())
}

/// Takes the next byte of a word, and appends the byte that it ends, if any.
fn take_byte<const CAP: usize>(text: &mut Short<CAP>, state: Escape, byte: u8) -> Escape
    ensures rest { (rest : List ℕ) → take CAP (text.new ++ unescaped result rest) ≡ take CAP (text.old ++ unescaped state (byte ∷ rest)) }
    ensures fits { length text.old ≤ CAP → length text.new ≤ CAP }
{
    match state {
        Escape::No => {
            if byte == b'\\' {
                return Escape::Begun;
            }
            if byte != b'"' {
                text.push_cut(byte);
            }
            Escape::No
        }
        Escape::Begun => Escape::High(byte),
        Escape::High(high) => {
            text.push_cut(16 * hex_value(high) + hex_value(byte));
            Escape::No
        }
    }
}

/// Returns the text of a word, cut if it is too long.
fn unescape<const CAP: usize>(word: &[u8]) -> Short<CAP>
    ensures { result ≡ take CAP (unescaped Escape.No word.now) }
{
    let mut text = Short::new();
    let mut state = Escape::No;
    let mut rest = word;
    while let [first, after @ ..] = rest {
        state = take_byte(&mut text, state, *first);
        rest = after;
    }
    text
}

/// Reads a text, cut if it is too long.
#[tactic(auto, unfolding(crate::specs::Parts::text_at))]
pub(crate) fn text_at<const CAP: usize>(bytes: &[u8]) -> (Short<CAP>, &[u8])
    ensures text { result.0 ≡ (text_at CAP bytes.now).0 }
    ensures after { result.1.now ≡ (text_at CAP bytes.now).1 }
{
    let (word, rest) = split(bytes);
    (unescape(word), rest)
}
