//! The lines of a base, behind the header of a journal's file that goes on behind an earlier one.
ghost use Rattle.std.specs.Prelude.{◌≡◌, ◌++◌, ◌∷◌, [], IfOk, IfSome, OnOk};
ghost use Rattle.ioc_journal_audit.specs.BaseItems.{begins_item, TakesItem, HasItems};

use crate::bases::first_byte;
use crate::journal::{AuditFault, LastLine, next_line};
use ioc_journal_file::{BaseItem, item_of};
use std::alloc::{AllocError, Global};
use std::io::BufRead;
use std::slice;

/// Returns whether a line of a base can begin with this byte.
fn begins_item(first: Option<u8>) -> bool
    ensures { result ≡ begins_item first }
{
    match first {
        Some(byte) => byte == b'b' || byte == b's' || byte == b'w' || byte == b'd',
        None => false,
    }
}

/// What stands next in a journal.
#[derive(Clone, Copy)]
enum NextItem {
    /// This line, which was read.
    Item(BaseItem),
    /// A line that begins as those of a base do, and is none. It was read.
    Broken,
    /// Something else, of which nothing was read.
    Other,
}

/// Reads the next line if it begins as those of a base do.
fn next_item<R: BufRead>(
    alloc: Global,
    journal: &mut R,
    text: &mut Vec<u8>,
) -> Result<NextItem, AuditFault>
    ensures { IfOk result (λ next. IfSome (R.remaining journal.old) (λ rest. TakesItem rest next (R.remaining journal.new))) }
{
    if !begins_item(first_byte(journal)?) {
        return Ok(NextItem::Other);
    }
    next_line(journal, text)?;
    match item_of(alloc, text.as_slice())? {
        Some(item) => Ok(NextItem::Item(item)),
        None => Ok(NextItem::Broken),
    }
}

/// Appends a line.
fn add_item(items: &mut Vec<BaseItem>, item: BaseItem) -> Result<(), AllocError>
    ensures { OnOk result (items.new.items ≡ items.old.items ++ item ∷ []) }
{
    items.extend_from_slice(slice::from_ref(&item))
}

/// The lines of a base.
#[derive(Drop)]
pub(crate) struct Items {
    pub items: Vec<BaseItem>,
    /// Whether the line behind them begins as they do, and is none. Then it was read last.
    pub is_broken: bool,
}

/// Reads the lines of a base at the front of what is left, and covers them.
///
/// # Errors
///
/// [`AuditFault::Read`] if a read fails, and [`AuditFault::Memory`] if allocation fails.
pub(crate) fn read_items<R: BufRead>(
    alloc: Global,
    journal: &mut R,
    last: &mut LastLine,
) -> Result<Items, AuditFault>
    ensures { IfOk result (λ read. IfSome (R.remaining journal.old) (λ text. HasItems text read.items.items)) }
{
    let mut items = Vec::new(alloc);
    for _ in 0..u64::MAX {
        match next_item(alloc, journal, &mut last.text)? {
            NextItem::Item(item) => add_item(&mut items, item)?,
            NextItem::Broken => {
                let is_broken = true;
                return Ok(Items { items, is_broken });
            }
            NextItem::Other => {
                let is_broken = false;
                return Ok(Items { items, is_broken });
            }
        }
        last.cover();
    }
    Err(AuditFault::Memory)
}
