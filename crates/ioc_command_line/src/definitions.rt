//! The definitions of macros on a command line.
ghost use Rattle.std.specs.Prelude.{◌≡◌, Some, OnOk, IfErr, map, option_map};
ghost use Rattle.ioc_command_line.specs.Definitions.{definition_of, first_piece, behind_piece, pieces, defined_by, all_defined, Undefined};

use crate::ending::{Stage, Stop, UsageFault};
use ioc_dblex::macros::is_macro_name;
use ioc_dblex::{Macros, split_at_byte};
use ioc_values::IocError;
use std::alloc::{AllocError, Global};

// Returns the name and the value of NAME=VALUE, which is cut at its first `=`.
fn definition(bytes: &[u8]) -> Option<(&[u8], &[u8])>
    ensures { option_map (λ d. record { name = d.0.now; value = d.1.now }) result ≡ definition_of bytes.now }
{
    let (name, assigned) = split_at_byte(b'=', bytes);
    match assigned {
        [_, value @ ..] if is_macro_name(name) => Some((name, value)),
        _ => None,
    }
}

// Cuts the bytes at the first comma that another definition follows, which is in neither part.
fn cut(bytes: &[u8]) -> (&[u8], Option<&[u8]>)
    ensures front { result.0.now ≡ first_piece bytes.now }
    ensures back { option_map (λ r. r.now) result.1 ≡ behind_piece bytes.now }
{
    let mut rest = bytes;
    let mut count = 0;
    while let [first, after @ ..] = rest {
        if *first == b',' && definition(after).is_some() {
            return (bytes.split_at(count).0, Some(after));
        }
        count += 1;
        rest = after;
    }
    (bytes, None)
}

/// Defines the macros of a word `NAME=VALUE`, or of several with commas between them, as
/// `P=a,R=b`. A comma that no `NAME=` follows belongs to the value.
///
/// # Errors
///
/// [`UsageFault::NoDefinition`] if the word defines no macro. [`Stop::Memory`] if allocation fails.
pub fn define(alloc: Global, word: &str, macros: &mut Macros) -> Result<(), Stop>
    ensures ok { OnOk result (defined_by macros.old (pieces word.now) ≡ Some macros.new) }
    ensures err { IfErr result (Undefined (defined_by macros.old (pieces word.now))) }
{
    let mut rest = Some(word.as_bytes());
    while let Some(bytes) = rest {
        let (piece, behind) = cut(bytes);
        let Some((name, value)) = definition(piece) else {
            return Err(Stop::Usage(UsageFault::NoDefinition(String::from_str(alloc, word)?)));
        };
        if macros.define(alloc, name, value).is_err() {
            return Err(Stop::Memory(Stage::Loading));
        }
        rest = behind;
    }
    Ok(())
}

/// Appends the definitions of a word as [`define`] takes them, each behind a byte 0.
///
/// # Errors
///
/// [`AllocError`] if allocation fails.
pub(crate) fn add_definitions(out: &mut Vec<u8>, word: &[u8]) -> Result<(), AllocError> {
    out.push(0)?;
    let mut rest = word;
    while let [first, after @ ..] = rest {
        let is_between = *first == b',' && definition(after).is_some();
        out.push(if is_between { 0 } else { *first })?;
        rest = after;
    }
    Ok(())
}

/// Defines the macros of these words.
///
/// # Errors
///
/// [`UsageFault::NoDefinition`] if a word defines no macro. [`Stop::Memory`] if allocation fails.
#[tactic(auto, using(crate::proofs::Cutting::word_more, crate::proofs::Cutting::word_none))]
pub fn defined(alloc: Global, words: &[&str], macros: &mut Macros) -> Result<(), Stop>
    ensures ok { OnOk result (all_defined macros.old (map (λ w. w.now) words.now) ≡ Some macros.new) }
    ensures err { IfErr result (Undefined (all_defined macros.old (map (λ w. w.now) words.now))) }
{
    let mut rest = words;
    while let [word, after @ ..] = rest {
        define(alloc, word, macros)?;
        rest = after;
    }
    Ok(())
}
