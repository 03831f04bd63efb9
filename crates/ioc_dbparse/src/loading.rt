//! Fills a database from a text.
ghost use Rattle.ioc_dbparse.specs.Loading.{filled_by};
ghost use Rattle.ioc_dbparse.specs.Statements.{Gives};

use crate::builder::Builder;
use crate::statements::fill;
use ioc_dblex::{Macros, Tokens, expand};
use ioc_values::LoadError;
use std::alloc::Global;

/// Fills a database from a text and the macros that it may use. A text of more than
/// [`MAX_BYTES`](crate::MAX_BYTES) bytes is refused at that limit.
///
/// # Errors
///
/// [`LoadError::BadDb`] with the line and the kind of the first fault in the text, and
/// [`LoadError::NoMemory`] if allocation fails. The database must not be used then.
pub fn fill_by_text<B: Builder>(
    alloc: Global,
    text: &[u8],
    macros: &Macros,
    builder: &mut B,
) -> Result<(), LoadError>
    ensures { Gives (λ _. builder.new) result (filled_by B.rules builder.old macros.now text.now) }
{
    let texts = expand(alloc, macros, text)?;
    let mut tokens = Tokens::new(&texts);
    let last = texts.lengths.len() as u64;
    let turns = texts.bytes.len() as u64 + 2;
    fill(alloc, turns, last, builder, &mut tokens)
}
