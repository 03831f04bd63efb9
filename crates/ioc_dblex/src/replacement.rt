//! Replacement of macros in texts.
ghost use Rattle.std.specs.Prelude.{◌≡◌, ◌<◌, length, Some, None, option_map, ◌==◌, ◌&&◌, IfOk, if◌then◌else◌};
ghost use Rattle.ioc_dblex.specs.Macros.{used, closing_of, use_at, opens_macro, onto_text, replaced};
ghost use Rattle.ioc_dblex.specs.SeenMacros.{UseSo, PieceSo};

use crate::macros::{Macros, is_macro_name};
use crate::search::{lacks, split_at_byte};
use std::alloc::AllocError;

/// Returns the value of `N` or `N=D` between its brackets.
#[tactic(auto, unfolding(crate::specs::Macros::used))]
fn used<'a>(macros: &'a Macros, inner: &'a [u8]) -> Option<&'a [u8]>
    ensures { option_map (λ v. v.now) result ≡ used macros.now inner.now }
{
    let (name, assigned) = split_at_byte(b'=', inner);
    if !is_macro_name(name) || !lacks(b'$', inner) {
        return None;
    }
    if let Some(value) = macros.value_of(name) {
        return Some(value);
    }
    match assigned {
        [] => None,
        [_, default @ ..] => Some(default),
    }
}

/// Returns the closing bracket of an opening one.
#[tactic(auto, unfolding(crate::specs::Macros::closing_of))]
fn closing_of(bracket: u8) -> u8
    ensures { result ≡ closing_of bracket }
{
    if bracket == b'(' { b')' } else { b'}' }
}

/// Returns the value of the macro that is used after a `$`, and the bytes after its closing
/// bracket.
#[tactic(auto, unfolding(crate::specs::Macros::use_at))]
fn use_at<'a>(macros: &'a Macros, bytes: &'a [u8]) -> Option<(&'a [u8], &'a [u8])>
    ensures { UseSo (use_at macros.now bytes.now) bytes.now result }
{
    let [bracket, opened @ ..] = bytes else {
        return None;
    };
    let (inner, closed) = split_at_byte(closing_of(*bracket), opened);
    let [_, behind @ ..] = closed else {
        return None;
    };
    let value = used(macros, inner)?;
    Some((value, behind))
}

fn opens_macro(bytes: &[u8]) -> bool
    ensures { result ≡ opens_macro bytes.now }
{
    match bytes {
        [] => false,
        [first, ..] => *first == b'(' || *first == b'{',
    }
}

/// Returns whether a macro use begins with this byte, followed by the others.
fn begins_use(first: u8, after: &[u8]) -> bool
    ensures { result ≡ ((first == 36) && opens_macro after.now) }
{
    first == b'$' && opens_macro(after)
}

/// Returns the next piece of a text and the bytes after it. A piece is a macro's value, or the
/// bytes up to the next `$`.
fn piece_at<'a>(macros: &'a Macros, text: &'a [u8]) -> Option<(&'a [u8], &'a [u8])>
    requires { 0 < length text.now }
    ensures { PieceSo macros.now text.now result }
{
    let [first, after @ ..] = text else {
        return None;
    };
    if begins_use(*first, after) {
        return use_at(macros, after);
    }
    let (run, behind) = split_at_byte(b'$', after);
    Some((text.split_at(run.len() + 1).0, behind))
}

/// Appends a text with its macros replaced. Returns whether they can be replaced.
///
/// # Errors
///
/// [`AllocError`] if allocation fails.
pub fn add_replaced(macros: &Macros, text: &[u8], bytes: &mut Vec<u8>) -> Result<bool, AllocError>
    ensures { IfOk result (λ can. onto_text bytes.old.items (replaced macros.now text.now) ≡ (if can then Some bytes.new.items else None)) }
{
    let mut rest = text;
    while !rest.is_empty() {
        let Some((piece, behind)) = piece_at(macros, rest) else {
            return Ok(false);
        };
        bytes.extend_from_slice(piece)?;
        rest = behind;
    }
    Ok(true)
}
