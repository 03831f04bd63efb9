//! Escapes in the bytes between double quotes.
ghost use Rattle.std.specs.Prelude.{◌≡◌, ◌++◌, false, OnOk, IfOk};
ghost use Rattle.ioc_dblex.specs.Bytes.{escapes};
ghost use Rattle.ioc_dblex.specs.SeenSaid.{said_bytes};
ghost use Rattle.ioc_dblex.specs.Escapes.{control_of, escaped_byte, piece_of, unescaped_from};

use crate::{escapes, lacks};
use std::alloc::{AllocError, Global};

/// Returns the byte that a backslash and this byte escape in field values only.
#[tactic(auto, unfolding(crate::specs::Escapes::control_of))]
pub fn control_of(b: u8) -> Option<u8>
    ensures { result ≡ control_of b }
{
    match b {
        b'\'' => Some(b'\''),
        b'a' => Some(7),
        b'b' => Some(8),
        b't' => Some(b'\t'),
        b'n' => Some(b'\n'),
        b'v' => Some(11),
        b'f' => Some(12),
        b'r' => Some(b'\r'),
        _ => None,
    }
}

/// Returns the byte that a backslash and this byte escape.
#[tactic(auto, unfolding(crate::specs::Escapes::escaped_byte))]
fn escaped_byte(in_value: bool, b: u8) -> Option<u8>
    ensures { result ≡ escaped_byte in_value b }
{
    match b {
        b'"' | b'\\' => Some(b),
        _ => if in_value { control_of(b) } else { None },
    }
}

/// Appends what one more byte adds to the text. Returns whether the next byte is escaped.
#[tactic(auto, unfolding(crate::specs::Escapes::piece_of))]
fn add_piece(text: &mut Vec<u8>, in_value: bool, escaped: bool, b: u8) -> Result<bool, AllocError>
    ensures text { OnOk result (text.new.items ≡ text.old.items ++ piece_of in_value escaped b) }
    ensures next { IfOk result (λ e. e ≡ escapes escaped b) }
{
    if escaped {
        match escaped_byte(in_value, b) {
            Some(c) => text.push(c)?,
            None => text.extend_from_slice(&[b'\\', b])?,
        }
    } else if b != b'\\' {
        text.push(b)?;
    }
    Ok(escapes(escaped, b))
}

/// The text of a token.
#[derive(Drop)]
pub enum TokenText<'a> {
    /// The bytes as they are written.
    Written(&'a [u8]),
    /// The bytes with escapes replaced.
    Unescaped(Vec<u8>),
}

impl<'a> TokenText<'a> {
    /// Returns the bytes.
    pub fn as_slice(&self) -> &[u8]
        ensures { result.now ≡ said_bytes self.now }
    {
        match self {
            TokenText::Written(bytes) => bytes,
            TokenText::Unescaped(bytes) => bytes.as_slice(),
        }
    }
}

/// Returns the text of a token, in a field's value or in a name. It only allocates if there is a
/// backslash.
///
/// # Errors
///
/// [`AllocError`] if allocation fails.
pub fn read_escapes<'a>(
    alloc: Global,
    in_value: bool,
    bytes: &'a [u8],
) -> Result<TokenText<'a>, AllocError>
    ensures { IfOk result (λ s. said_bytes s ≡ unescaped_from in_value false bytes.now) }
{
    if lacks(b'\\', bytes) {
        return Ok(TokenText::Written(bytes));
    }
    Ok(TokenText::Unescaped(unescaped(alloc, in_value, bytes)?))
}

/// Returns the bytes between double quotes with escapes replaced, in a field's value or in a name.
/// A name has fewer escapes.
///
/// # Errors
///
/// [`AllocError`] if allocation fails.
pub fn unescaped(alloc: Global, in_value: bool, bytes: &[u8]) -> Result<Vec<u8>, AllocError>
    ensures { IfOk result (λ v. v.items ≡ unescaped_from in_value false bytes.now) }
{
    let mut text = Vec::new(alloc);
    let mut escaped = false;
    let mut rest = bytes;
    while let [first, after @ ..] = rest {
        escaped = add_piece(&mut text, in_value, escaped, *first)?;
        rest = after;
    }
    if escaped {
        text.push(b'\\')?;
    }
    Ok(text)
}
