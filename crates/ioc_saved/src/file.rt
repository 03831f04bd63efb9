//! Whole files.
ghost use Rattle.std.specs.Prelude.{◌≡◌, ◌++◌, ◌<◌, ◌^◌, ℕ, true, List, decimal, ◌∷◌, Some, Ok, Err, OnOk, IfOk};
ghost use Rattle.ioc_saved.specs.declared.value.SavedValue.{SavedValue};
ghost use Rattle.ioc_saved.specs.declared.fault.SavedFault.TheVariants.{NoEnd};
ghost use Rattle.ioc_saved.specs.Words.{lines_of};
ghost use Rattle.ioc_saved.specs.Lines.{is_saveable, saved_in};
ghost use Rattle.ioc_saved.specs.Files.{head, value_line, end_line, file_of, is_whole, is_end, values_of, values_in, Reads};
ghost use Rattle.ioc_saved.specs.Files.{EndsWell, AllSaveable};

use crate::fault::SavedFault;
use crate::line::{SavedLine, add_row, line_in};
use crate::value::SavedValue;
use crate::words::{ends_line, last_line, split};
use itoa::Buffer;
use std::alloc::{AllocError, Global};

/// Appends a number.
fn add_number(out: &mut Vec<u8>, number: u64) -> Result<(), AllocError>
    ensures { OnOk result (out.new.items ≡ out.old.items ++ decimal number) }
{
    out.extend_from_slice(Buffer::new().format(number).as_bytes())
}

/// Appends the head of a file: what it is, and of which place of the journal the values are.
///
/// # Errors
///
/// [`AllocError`] if allocation fails; a part of the head may have been appended then.
#[tactic(auto, unfolding(crate::specs::Files::head))]
pub fn begin_saved(out: &mut Vec<u8>, place: u64) -> Result<(), AllocError>
    ensures { OnOk result (out.new.items ≡ out.old.items ++ head place) }
{
    out.extend_from_slice(b"# Saved values of channels, as of the place ")?;
    add_number(out, place)?;
    out.extend_from_slice(b" of the journal")?;
    out.push(b'\n')?;
    Ok(())
}

/// Appends the line of a value: the record, a dot, the field, a space and the value. A line feed in
/// the value is `\n`, a carriage return `\r`, a tab `\t`, a backslash `\\`, and any other byte below
/// 32 and the byte 127 is `\xHH`. A value that can't be saved ([`SavedValue::is_saveable`]) has a
/// line too, which may be read as another value or not at all.
///
/// # Errors
///
/// [`AllocError`] if allocation fails; a part of the line may have been appended then.
pub fn add_saved(out: &mut Vec<u8>, saved: &SavedValue) -> Result<(), AllocError>
    ensures { OnOk result (out.new.items ≡ out.old.items ++ value_line saved.now) }
{
    add_row(out, saved)?;
    out.push(b'\n')?;
    Ok(())
}

/// Appends the last line, `<END>`.
///
/// # Errors
///
/// [`AllocError`] if allocation fails.
pub fn end_saved(out: &mut Vec<u8>) -> Result<(), AllocError>
    ensures { OnOk result (out.new.items ≡ out.old.items ++ end_line) }
{
    out.extend_from_slice(b"<END>\n")
}

/// Returns whether the line is `<END>`.
fn is_end(line: &[u8]) -> bool
    ensures { result ≡ is_end line.now }
{
    line == b"<END>".as_slice()
}

/// Returns whether the last line is `<END>`, with its line feed.
fn is_whole(text: &[u8]) -> bool
    ensures { result ≡ is_whole text.now }
{
    ends_line(text) && is_end(last_line(text))
}

/// Reads the values of the lines before the last one.
fn values_of(alloc: Global, text: &[u8]) -> Result<Vec<SavedValue>, SavedFault>
    ensures { Reads (λ values. values.items) result (values_of 1 (lines_of text.now)) }
{
    let mut values = Vec::new(alloc);
    let mut number = 0;
    let mut rest = text;
    while !rest.is_empty() {
        let (line, after) = split(b'\n', rest);
        if after.is_empty() {
            return Ok(values);
        }
        number += 1;
        match line_in(line) {
            SavedLine::Passed => {}
            SavedLine::Value(value) => values.push(value)?,
            SavedLine::Bad => return Err(SavedFault::BadLine(number)),
        }
        rest = after;
    }
    Ok(values)
}

/// Reads the values of a file, in their order. Empty lines and lines that begin with `#` or `!` are
/// passed over. Each value can be saved again.
///
/// A line of a value is the record, a dot, the field, a space and the value, which goes to the end
/// of the line and may have spaces. Where there is no space, the value is empty. Its escapes are
/// those of [`add_saved`], where `\xHH` may stand for any byte and have capital letters.
///
/// # Errors
///
/// [`SavedFault::NoEnd`] if the last line isn't `<END>` with its line feed. Otherwise
/// [`SavedFault::BadLine`] with the number of the first line that has no dot, an empty or too long
/// name, a value that is too long, or a backslash that begins no escape.
/// [`SavedFault::NoMemory`] if allocation fails.
#[tactic(auto, unfolding(crate::specs::Files::values_in))]
pub fn parse_saved(alloc: Global, text: &[u8]) -> Result<Vec<SavedValue>, SavedFault>
    ensures values { Reads (λ values. values.items) result (values_in text.now) }
    ensures ended { IfOk result (λ values. EndsWell text.now) }
    ensures saveable { IfOk result (λ values. AllSaveable values.items) }
{
    if !is_whole(text) {
        return Err(SavedFault::NoEnd);
    }
    values_of(alloc, text)
}

/// The line of a value that can be saved is read as this value.
pub fn saved_lines_read_back()
    ensures { (saved : SavedValue) → is_saveable saved ≡ true → saved_in (value_line saved) ≡ Some saved }
{}

/// The file of values that can be saved is read as these values.
pub fn saved_files_read_back()
    ensures { (place : ℕ) (values : List SavedValue) → place < 2 ^ 64 → AllSaveable values → values_in (file_of place values) ≡ Ok values }
{}

/// Different values have different files.
pub fn saved_files_differ()
    ensures { (place other_place : ℕ) (values others : List SavedValue) → place < 2 ^ 64 → other_place < 2 ^ 64
        → AllSaveable values → AllSaveable others
        → file_of place values ≡ file_of other_place others → values ≡ others }
{}

/// The file of values that can be saved is refused wherever it is cut short.
pub fn cut_files_are_refused()
    ensures { (place : ℕ) (values : List SavedValue) (front rest : List ℕ) (next : ℕ) → place < 2 ^ 64 → AllSaveable values
        → file_of place values ≡ front ++ next ∷ rest → values_in front ≡ Err NoEnd }
{}
