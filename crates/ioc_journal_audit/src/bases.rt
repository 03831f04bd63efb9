//! The saved values that a run has taken: the lines behind the header of its journal.
ghost use Rattle.std.specs.Prelude.{◌≡◌, ◌++◌, ◌∷◌, [], IfOk, IfSome, OnOk};
ghost use Rattle.ioc_journal_audit.specs.Bases.{begins_base, Peeks, TakesBase, HasBases};

use crate::journal::{AuditFault, LastLine, next_line};
use ioc_journal_lines::base_of;
use ioc_saved::SavedValue;
use std::alloc::{AllocError, Global};
use std::io::BufRead;

/// Returns the first byte of what is left, if there is one.
pub(crate) fn first_byte<R: BufRead>(journal: &mut R) -> Result<Option<u8>, AuditFault>
    ensures { IfOk result (λ first. IfSome (R.remaining journal.old) (λ rest. Peeks rest first (R.remaining journal.new))) }
{
    match journal.fill_buf() {
        Ok(bytes) => Ok(bytes.first().copied()),
        Err(e) => Err(AuditFault::Read(e)),
    }
}

/// Returns whether the line of a saved value can begin with this byte.
fn begins_base(first: Option<u8>) -> bool
    ensures { result ≡ begins_base first }
{
    match first {
        Some(byte) => byte == b'b',
        None => false,
    }
}

/// What stands next in a journal.
#[derive(Clone, Copy)]
enum NextBase {
    /// The line of this value, which was read.
    Value(SavedValue),
    /// A line that begins as those of values do, and is none. It was read.
    Broken,
    /// Something else, of which nothing was read.
    Other,
}

/// Reads the next line if it begins as those of values do.
fn next_base<R: BufRead>(
    alloc: Global,
    journal: &mut R,
    text: &mut Vec<u8>,
) -> Result<NextBase, AuditFault>
    ensures { IfOk result (λ next. IfSome (R.remaining journal.old) (λ rest. TakesBase rest next (R.remaining journal.new))) }
{
    if !begins_base(first_byte(journal)?) {
        return Ok(NextBase::Other);
    }
    next_line(journal, text)?;
    match base_of(alloc, text.as_slice())? {
        Some(saved) => Ok(NextBase::Value(saved)),
        None => Ok(NextBase::Broken),
    }
}

/// Appends a value.
fn add_value(values: &mut Vec<SavedValue>, saved: SavedValue) -> Result<(), AllocError>
    ensures { OnOk result (values.new.items ≡ values.old.items ++ saved ∷ []) }
{
    values.push(saved)?;
    Ok(())
}

/// The saved values that a run has taken.
#[derive(Drop)]
pub(crate) struct Bases {
    pub values: Vec<SavedValue>,
    /// Whether the line behind theirs begins as they do, and is none. Then it was read last.
    pub is_broken: bool,
}

/// Reads the lines of values at the front of what is left, and covers them.
///
/// # Errors
///
/// [`AuditFault::Read`] if a read fails, and [`AuditFault::Memory`] if allocation fails.
pub(crate) fn read_bases<R: BufRead>(
    alloc: Global,
    journal: &mut R,
    last: &mut LastLine,
) -> Result<Bases, AuditFault>
    ensures { IfOk result (λ bases. IfSome (R.remaining journal.old) (λ text. HasBases text bases.values.items)) }
{
    let mut values = Vec::new(alloc);
    for _ in 0..u64::MAX {
        match next_base(alloc, journal, &mut last.text)? {
            NextBase::Value(saved) => add_value(&mut values, saved)?,
            NextBase::Broken => {
                let is_broken = true;
                return Ok(Bases { values, is_broken });
            }
            NextBase::Other => {
                let is_broken = false;
                return Ok(Bases { values, is_broken });
            }
        }
        last.cover();
    }
    Err(AuditFault::Memory)
}
