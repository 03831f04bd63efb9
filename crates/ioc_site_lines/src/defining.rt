//! Texts that define macros, as `A=x,B="y z"`.
ghost use Rattle.std.specs.Prelude.{◌≡◌, ◌++◌, List, None, false, map, option_map, IfOk, OnOk};
ghost use Rattle.ioc_dblex.specs.Macros.{Defined};
ghost use Rattle.ioc_site_lines.specs.Defining.{quote_after, cuts, bare_front, bare_back, trimmed, definition_in, onto, definitions_of, seen};

use crate::macros::Definition;
use ioc_dblex::escapes;
use std::alloc::{AllocError, Global};

/// What a text defines.
#[derive(Debug, Drop)]
pub struct Definitions {
    /// The definitions in the order of the text.
    pub list: Vec<Definition>,
    /// The first part of the text that defines nothing.
    pub fault: Option<Vec<u8>>,
}

/// Returns the quote that is open behind a byte, which a backslash before it escapes or doesn't.
#[tactic(auto, unfolding(crate::specs::Defining::quote_after))]
fn quote_after(quote: Option<u8>, is_escaped: bool, byte: u8) -> Option<u8>
    ensures { result ≡ quote_after quote is_escaped byte }
{
    if is_escaped {
        return quote;
    }
    match quote {
        None => if byte == b'"' || byte == b'\'' {
            Some(byte)
        } else {
            None
        },
        Some(open) => if open == byte { None } else { Some(open) },
    }
}

/// Returns whether a text is cut at this byte: it is the sign, outside quotes and not escaped.
#[tactic(auto, unfolding(crate::specs::Defining::cuts))]
fn cuts(sign: u8, quote: Option<u8>, is_escaped: bool, byte: u8) -> bool
    ensures { result ≡ cuts sign quote is_escaped byte }
{
    match quote {
        Some(_) => false,
        None => if is_escaped { false } else { byte == sign },
    }
}

/// Splits a text at the first of this sign that is outside quotes and not escaped. The sign is in
/// neither part.
pub fn split_bare<'a>(sign: u8, text: &'a [u8]) -> (&'a [u8], Option<&'a [u8]>)
    ensures front { result.0.now ≡ bare_front sign None false text.now }
    ensures back { option_map (λ r. r.now) result.1 ≡ bare_back sign None false text.now }
{
    let mut quote = None;
    let mut is_escaped = false;
    let mut count = 0;
    let mut rest = text;
    while let [first, after @ ..] = rest {
        if cuts(sign, quote, is_escaped, *first) {
            return (text.split_at(count).0, Some(after));
        }
        quote = quote_after(quote, is_escaped, *first);
        is_escaped = escapes(is_escaped, *first);
        count += 1;
        rest = after;
    }
    (text, None)
}

/// Returns a text without blanks at its ends.
fn trimmed(text: &[u8]) -> &[u8]
    ensures { result.now ≡ trimmed text.now }
{
    text.trim_ascii()
}

/// Returns a definition of `NAME=VALUE`, or `None` if it is no definition.
#[tactic(auto, unfolding(crate::specs::Defining::assigned))]
fn definition(alloc: Global, text: &[u8]) -> Result<Option<Definition>, AllocError>
    ensures { IfOk result (λ d. option_map seen d ≡ definition_in text.now) }
{
    let (name, value) = split_bare(b'=', text);
    let name = trimmed(name);
    let Some(value) = value else {
        return Ok(None);
    };
    if name.is_empty() {
        return Ok(None);
    }
    Ok(Some(Definition::new(alloc, name, trimmed(value))?))
}

/// Notes a part that defines nothing, unless it is empty or not the first one.
fn note_fault(alloc: Global, part: &[u8], fault: &mut Option<Vec<u8>>) -> Result<(), AllocError> {
    let text = part.trim_ascii();
    if fault.is_none() && !text.is_empty() {
        *fault = Some(text.to_vec(alloc)?);
    }
    Ok(())
}

/// Appends a definition if there is one.
fn add_found(list: &mut Vec<Definition>, found: Option<Definition>) -> Result<(), AllocError>
    ensures { (ds : List Defined) → OnOk result (map seen list.new.items ++ ds ≡ map seen list.old.items ++ onto (option_map seen found) ds) }
{
    match found {
        Some(definition) => Ok(list.push(definition)?),
        None => Ok(()),
    }
}

/// Reads definitions as `A=x,B="y z"`, with commas between them. Quotes and backslashes stay in the
/// values, since they are dropped where a value is used.
///
/// # Errors
///
/// [`AllocError`] if allocation fails.
pub fn parse_definitions(alloc: Global, text: &[u8]) -> Result<Definitions, AllocError>
    ensures { IfOk result (λ d. map seen d.list.items ≡ definitions_of text.now) }
{
    let mut list = Vec::new(alloc);
    let mut fault = None;
    let mut rest = Some(text);
    while let Some(left) = rest {
        let (part, behind) = split_bare(b',', left);
        let found = definition(alloc, part)?;
        if found.is_none() {
            note_fault(alloc, part, &mut fault)?;
        }
        add_found(&mut list, found)?;
        rest = behind;
    }
    Ok(Definitions { list, fault })
}
