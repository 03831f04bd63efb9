//! Whole bases: the lines of a database's state, and the state of such lines.
ghost use Rattle.std.specs.Prelude.{◌≡◌, ◌++◌, ◌≤◌, IsTrue, IfOk, IfSome, OnOk, length};
ghost use Rattle.std.specs.List.{flat_map};
ghost use Rattle.ioc_journal_file.specs.Bases.{item_line};
ghost use Rattle.ioc_journal_base.specs.Whole.{records_items, waiting_items, desk_items, base_items};

use crate::records::{add_items, push, record_of};
use ioc_journal_file::{BaseItem, add_item};
use ioc_names::RecordNo;
use ioc_notify::Waiting;
use rec_types::Record;
use std::alloc::{AllocError, Global};

/// How many calls a desk has made.
#[derive(Clone, Copy, PartialEq, Eq)]
pub struct DeskCalls {
    pub desk: u64,
    pub calls: u64,
}

/// The state of a database at one place of its journal, and how many calls each desk had made.
#[derive(Drop)]
pub struct Base {
    /// The records, each at the place of its number.
    pub records: Vec<Record>,
    /// The puts with notification that wait, those of each record in order.
    pub waiting: Vec<Waiting>,
    pub desks: Vec<DeskCalls>,
}

// Appends the lines of these records, of which the first has the number 0.
fn add_records(
    alloc: Global,
    items: &mut Vec<BaseItem>,
    records: &[Record],
) -> Result<(), AllocError>
    ensures { OnOk result (items.new.items ≡ items.old.items ++ records_items 0 records.now) }
{
    let mut number = 0;
    let mut rest = records;
    while let [record, others @ ..] = rest {
        add_items(alloc, items, RecordNo::new(number), record)?;
        number += 1;
        rest = others;
    }
    Ok(())
}

// Appends the lines of puts with notification that wait.
fn add_waiting(items: &mut Vec<BaseItem>, waiting: &[Waiting]) -> Result<(), AllocError>
    ensures { OnOk result (items.new.items ≡ items.old.items ++ waiting_items waiting.now) }
{
    for put in waiting {
        push(items, &BaseItem::Waiting(*put))?;
    }
    Ok(())
}

// Appends the lines of the counts of calls.
fn add_desks(items: &mut Vec<BaseItem>, desks: &[DeskCalls]) -> Result<(), AllocError>
    ensures { OnOk result (items.new.items ≡ items.old.items ++ desk_items desks.now) }
{
    for counted in desks {
        push(items, &BaseItem::Desk(counted.desk, counted.calls))?;
    }
    Ok(())
}

/// Returns the lines of a base.
///
/// # Errors
///
/// [`AllocError`] if allocation fails.
#[tactic(auto, unfolding(crate::specs::Whole::base_items))]
pub fn items_of(alloc: Global, base: &Base) -> Result<Vec<BaseItem>, AllocError>
    ensures { IfOk result (λ items. items.items ≡ base_items base.now) }
{
    let mut items = Vec::new(alloc);
    add_records(alloc, &mut items, base.records.as_slice())?;
    add_waiting(&mut items, base.waiting.as_slice())?;
    add_desks(&mut items, base.desks.as_slice())?;
    Ok(items)
}

// Appends these lines.
fn add_lines(out: &mut Vec<u8>, items: &[BaseItem]) -> Result<(), AllocError>
    ensures { OnOk result (out.new.items ≡ out.old.items ++ flat_map item_line items.now) }
{
    for item in items {
        add_item(out, item)?;
    }
    Ok(())
}

/// Appends the lines of a base.
///
/// # Errors
///
/// [`AllocError`] if allocation fails; some lines may have been appended then.
pub fn add_base(alloc: Global, out: &mut Vec<u8>, base: &Base) -> Result<(), AllocError>
    ensures { OnOk result (out.new.items ≡ out.old.items ++ flat_map item_line (base_items base.now)) }
{
    let items = items_of(alloc, base)?;
    add_lines(out, items.as_slice())
}

// Returns how many lines there are up to the first one that tells what no field shows, with it.
fn count_of_record(items: &[BaseItem]) -> usize
    ensures { result ≤ length items.now }
{
    let mut count = 0;
    let mut rest = items;
    while let [item, others @ ..] = rest {
        count += 1;
        rest = others;
        if let BaseItem::State(_, _) = item {
            break;
        }
    }
    count
}

// Returns the base to which these lines lead, whatever they are.
fn base_by(alloc: Global, loaded: &[Record], items: &[BaseItem]) -> Result<Base, AllocError> {
    let mut records = Vec::with_capacity(alloc, loaded.len())?;
    let mut waiting = Vec::new(alloc);
    let mut desks = Vec::new(alloc);
    let mut rest = items;
    for record in loaded {
        let (own, behind) = rest.split_at(count_of_record(rest));
        records.push(record_of(alloc, record, own)?)?;
        rest = behind;
    }
    while let [item, others @ ..] = rest {
        match item {
            BaseItem::Waiting(put) => waiting.push(*put)?,
            BaseItem::Desk(desk, calls) => desks.push(DeskCalls {
                desk: *desk,
                calls: *calls,
            })?,
            BaseItem::Field(..) | BaseItem::State(..) => {}
        }
        rest = others;
    }
    Ok(Base {
        records,
        waiting,
        desks,
    })
}

// Returns whether a base has these lines.
fn has_lines(alloc: Global, base: &Base, items: &[BaseItem]) -> Result<bool, AllocError>
    ensures { IfOk result (λ has. IsTrue has → flat_map item_line items.now ≡ flat_map item_line (base_items base.now)) }
{
    let mut lines = Vec::new(alloc);
    add_base(alloc, &mut lines, base)?;
    let mut read = Vec::new(alloc);
    add_lines(&mut read, items)?;
    Ok(read.as_slice() == lines.as_slice())
}

/// Returns the base with these lines of a database whose records have the types and names of these, or
/// `None` if there is none.
///
/// # Errors
///
/// [`AllocError`] if allocation fails.
pub fn base_of(
    alloc: Global,
    loaded: &[Record],
    items: &[BaseItem],
) -> Result<Option<Base>, AllocError>
    ensures found { IfOk result (λ read. IfSome read (λ base. flat_map item_line items.now ≡ flat_map item_line (base_items base))) }
{
    let base = base_by(alloc, loaded, items)?;
    if !has_lines(alloc, &base, items)? {
        return Ok(None);
    }
    Ok(Some(base))
}
