//! Values as blocks of a database text.
ghost use Rattle.std.specs.Prelude.{◌≡◌, ◌++◌, ℕ, true, List, OnOk};
ghost use Rattle.std.specs.List.{flat_map};
ghost use Rattle.ioc_dblex.specs.Bytes.{is_word_byte};
ghost use Rattle.ioc_dblex.specs.Macros.{opens_macro};
ghost use Rattle.ioc_saved.specs.declared.value.SavedValue.{SavedValue};
ghost use Rattle.ioc_saved.specs.BlockLaws.{IsRead};
ghost use Rattle.ioc_saved.specs.Blocks.{letter_for, quoted_byte, quoted, setting, block_of};
ghost use Rattle.ioc_saved.specs.Blocks.{is_name_byte, is_field_byte, has_macro, some_of, has_block};

use crate::value::SavedValue;
use std::alloc::AllocError;

/// Returns the byte that stands behind a backslash for this one.
fn letter_for(byte: u8) -> Option<u8>
    ensures { result ≡ letter_for byte }
{
    match byte {
        b'"' | b'\\' => Some(byte),
        7 => Some(b'a'),
        8 => Some(b'b'),
        b'\t' => Some(b't'),
        b'\n' => Some(b'n'),
        11 => Some(b'v'),
        12 => Some(b'f'),
        b'\r' => Some(b'r'),
        _ => None,
    }
}

/// Appends a byte as it stands between double quotes.
fn add_quoted_byte(out: &mut Vec<u8>, byte: u8) -> Result<(), AllocError>
    ensures { OnOk result (out.new.items ≡ out.old.items ++ quoted_byte byte) }
{
    match letter_for(byte) {
        Some(letter) => out.extend_from_slice(&[b'\\', letter]),
        None => {
            out.push(byte)?;
            Ok(())
        }
    }
}

/// Appends the bytes of a text as they stand between double quotes.
fn add_quoted_bytes(out: &mut Vec<u8>, text: &[u8]) -> Result<(), AllocError>
    ensures { OnOk result (out.new.items ≡ out.old.items ++ flat_map quoted_byte text.now) }
{
    for byte in text {
        add_quoted_byte(out, *byte)?;
    }
    Ok(())
}

/// Appends a text between double quotes.
#[tactic(auto, unfolding(crate::specs::Blocks::quoted))]
fn add_quoted(out: &mut Vec<u8>, text: &[u8]) -> Result<(), AllocError>
    ensures { OnOk result (out.new.items ≡ out.old.items ++ quoted text.now) }
{
    out.push(b'"')?;
    add_quoted_bytes(out, text)?;
    out.push(b'"')?;
    Ok(())
}

/// Appends the setting of a field, and a line feed.
#[tactic(auto, unfolding(crate::specs::Blocks::setting))]
fn add_setting(out: &mut Vec<u8>, saved: &SavedValue) -> Result<(), AllocError>
    ensures { OnOk result (out.new.items ≡ out.old.items ++ setting saved.now) }
{
    out.extend_from_slice(b"{field(")?;
    out.extend_from_slice(saved.field.as_slice())?;
    out.push(b',')?;
    add_quoted(out, saved.value.as_slice())?;
    out.extend_from_slice(b")}")?;
    out.push(b'\n')?;
    Ok(())
}

/// Appends the line of a database text that gives the field of a record of this type the value. It is a second `record` of this
/// name, so it belongs behind the first one. What [`has_block`] refuses has a line too, which may be read as another value
/// or not at all.
///
/// ```text
/// record(ai,"plant:level"){field(HIGH,"40")}
/// ```
///
/// # Errors
///
/// [`AllocError`] if allocation fails; a part of the line may have been appended then.
#[tactic(auto, unfolding(crate::specs::Blocks::block_of))]
pub fn add_block(
    out: &mut Vec<u8>,
    record_type: &[u8],
    saved: &SavedValue,
) -> Result<(), AllocError>
    ensures { OnOk result (out.new.items ≡ out.old.items ++ block_of record_type.now saved.now) }
{
    out.extend_from_slice(b"record(")?;
    out.extend_from_slice(record_type)?;
    out.push(b',')?;
    add_quoted(out, saved.record_name.as_slice())?;
    out.push(b')')?;
    add_setting(out, saved)
}

/// Returns whether a record's name can have the byte.
fn is_name_byte(byte: u8) -> bool
    ensures { result ≡ is_name_byte byte }
{
    byte >= 33 && byte <= 126 && byte != b'"' && byte != b'$' && byte != b'\'' && byte != b'.'
}

/// Returns whether a field's name can have the byte.
fn is_field_byte(byte: u8) -> bool
    ensures { result ≡ is_field_byte byte }
{
    (byte >= b'A' && byte <= b'Z') || (byte >= b'0' && byte <= b'9')
}

/// Returns whether the text can be a record's name.
fn is_name(text: &[u8]) -> bool
    ensures { result ≡ some_of is_name_byte text.now }
{
    let mut rest = text;
    while let [first, after @ ..] = rest {
        if !is_name_byte(*first) {
            return false;
        }
        rest = after;
    }
    !text.is_empty()
}

/// Returns whether the text can be a field's name.
fn is_field(text: &[u8]) -> bool
    ensures { result ≡ some_of is_field_byte text.now }
{
    let mut rest = text;
    while let [first, after @ ..] = rest {
        if !is_field_byte(*first) {
            return false;
        }
        rest = after;
    }
    !text.is_empty()
}

/// Returns whether the first byte is an opening bracket.
fn opens_macro(bytes: &[u8]) -> bool
    ensures { result ≡ opens_macro bytes.now }
{
    match bytes {
        [first, ..] => *first == b'(' || *first == b'{',
        [] => false,
    }
}

/// Returns whether a macro would be replaced in the text.
fn has_macro(text: &[u8]) -> bool
    ensures { result ≡ has_macro text.now }
{
    let mut rest = text;
    while let [first, after @ ..] = rest {
        if *first == b'$' && opens_macro(after) {
            return true;
        }
        rest = after;
    }
    false
}

/// Returns whether the line that [`add_block`] appends gives the value when it is loaded. Otherwise the value has `$(` or `${`,
/// with which a macro begins, or a name is none that a database text has: the record's has bytes from 33 to 126, without `"`, `$`,
/// `'` and `.`, and the field's capital letters and digits.
#[tactic(auto, unfolding(crate::specs::Blocks::has_block))]
pub fn has_block(saved: &SavedValue) -> bool
    ensures { result ≡ has_block saved.now }
{
    is_name(saved.record_name.as_slice())
        && is_field(saved.field.as_slice())
        && !has_macro(saved.value.as_slice())
}

/// The line of a value that has a block is read as the record's name, the field's name and the value,
/// whatever macros are defined. The record's type is a bareword.
pub fn blocks_are_read()
    ensures { (record_type : List ℕ) (saved : SavedValue) → some_of is_word_byte record_type ≡ true → has_block saved ≡ true
        → IsRead record_type saved }
{}
