//! The lines of a record's state, and the record that they lead to.
ghost use Rattle.std.specs.Prelude.{◌≡◌, ◌++◌, ◌∷◌, [], IfOk, OnOk};
ghost use Rattle.rec_types.specs.Record.{Record};
ghost use Rattle.ioc_journal_base.specs.Items.{part_words, is_same, is_same_part, with_expression, fresh_of, field_items};
ghost use Rattle.ioc_journal_base.specs.Items.{record_items, part_for, given_part, chosen_part, hidden_given, with_chosen};
ghost use Rattle.ioc_journal_base.specs.Items.{rebuilt};

use crate::parts::{hidden_of, part_of, set_hidden, set_part};
use ioc_fields::field_list::fields;
use ioc_fields::{FieldNo, OwnField, name_of};
use ioc_journal_file::{BaseItem, HiddenState, Part, add_part};
use ioc_names::RecordNo;
use ioc_record::RecordKind;
use rec_types::{Body, Record};
use std::alloc::{AllocError, Global};
use std::slice;

// Returns whether two words are the same.
fn is_same(one: &[u8], other: &[u8]) -> bool
    ensures { result ≡ is_same one.now other.now }
{
    one == other
}

// Returns the words of what a field has.
fn part_words(alloc: Global, part: &Option<Part>) -> Result<Vec<u8>, AllocError>
    ensures { IfOk result (λ words. words.items ≡ part_words part.now) }
{
    let mut words = Vec::new(alloc);
    if let Some(part) = part {
        add_part(&mut words, part)?;
    }
    Ok(words)
}

// Returns whether two fields have the same, by their words.
fn is_same_part(alloc: Global, one: &Option<Part>, other: &Option<Part>) -> Result<bool, AllocError>
    ensures { IfOk result (λ same. same ≡ is_same_part one.now other.now) }
{
    let words = part_words(alloc, one)?;
    let others = part_words(alloc, other)?;
    Ok(is_same(words.as_slice(), others.as_slice()))
}

// Gives a record the expression that another one has in this field, if it has one there.
fn copy_expression(from: &Record, record: &mut Record, field: FieldNo)
    ensures { «record».new ≡ with_expression from.now «record».old field }
{
    if let Some(calculation) = from.calculation(field) {
        record.set_calculation(field, calculation.copy());
    }
}

/// Returns a new record with the type, the name and the expressions of this one: a database text alone
/// sets expressions.
///
/// # Errors
///
/// [`AllocError`] if allocation fails.
pub fn fresh_of(alloc: Global, record: &Record) -> Result<Record, AllocError>
    ensures { IfOk result (λ fresh. fresh ≡ fresh_of «record».now) }
{
    let body = Body::new(alloc, record.record_type())?;
    let mut fresh = ioc_record::Record::new(record.common.name, body);
    copy_expression(record, &mut fresh, FieldNo::Own(OwnField::Calc));
    copy_expression(record, &mut fresh, FieldNo::Own(OwnField::Ocal));
    Ok(fresh)
}

// Appends a line.
pub(crate) fn push(items: &mut Vec<BaseItem>, item: &BaseItem) -> Result<(), AllocError>
    ensures { OnOk result (items.new.items ≡ items.old.items ++ item.now ∷ []) }
{
    items.extend_from_slice(slice::from_ref(item))
}

// Appends what a field has, if that isn't what it has in the new record.
fn add_field(
    alloc: Global,
    items: &mut Vec<BaseItem>,
    number: RecordNo,
    fresh: &Record,
    record: &Record,
    field: FieldNo,
) -> Result<(), AllocError>
    ensures { OnOk result (items.new.items ≡ items.old.items ++ field_items number fresh.now «record».now field) }
{
    let part = part_of(record, field);
    if is_same_part(alloc, &part_of(fresh, field), &part)? {
        return Ok(());
    }
    match part {
        Some(part) => push(items, &BaseItem::Field(number, field, part)),
        None => Ok(()),
    }
}

/// Appends the lines of a record's state: what each field has in which it differs from a new record of
/// its type and name, and what no field shows.
///
/// # Errors
///
/// [`AllocError`] if allocation fails; some may have been appended then.
#[tactic(auto, unfolding(crate::specs::Items::record_items))]
pub fn add_items(
    alloc: Global,
    items: &mut Vec<BaseItem>,
    number: RecordNo,
    record: &Record,
) -> Result<(), AllocError>
    ensures { OnOk result (items.new.items ≡ items.old.items ++ record_items number «record».now) }
{
    let fresh = fresh_of(alloc, record)?;
    let all = fields();
    for field in all {
        add_field(alloc, items, number, &fresh, record, *field)?;
    }
    push(items, &BaseItem::State(number, hidden_of(record)))
}

// Returns what a line gives a field.
fn part_for(item: &BaseItem, field: FieldNo) -> Option<Part>
    ensures { result ≡ part_for item.now field }
{
    match item {
        BaseItem::Field(_, other, part) => {
            if is_same(name_of(*other).as_bytes(), name_of(field).as_bytes()) {
                Some(*part)
            } else {
                None
            }
        }
        _ => None,
    }
}

// Returns what the first of these lines gives a field that gives it something.
fn given_part(items: &[BaseItem], field: FieldNo) -> Option<Part>
    ensures { result ≡ given_part items.now field }
{
    let mut rest = items;
    while let [item, others @ ..] = rest {
        if let Some(part) = part_for(item, field) {
            return Some(part);
        }
        rest = others;
    }
    None
}

// Returns what these lines, or else the new record, give a field.
fn chosen_part(items: &[BaseItem], fresh: &Record, field: FieldNo) -> Option<Part>
    ensures { result ≡ chosen_part items.now fresh.now field }
{
    match given_part(items, field) {
        Some(part) => Some(part),
        None => part_of(fresh, field),
    }
}

// Returns what the first of these lines gives that tells what no field shows.
fn hidden_given(items: &[BaseItem], fresh: &Record) -> HiddenState
    ensures { result ≡ hidden_given items.now fresh.now }
{
    let mut rest = items;
    while let [item, others @ ..] = rest {
        if let BaseItem::State(_, hidden) = item {
            return *hidden;
        }
        rest = others;
    }
    hidden_of(fresh)
}

// Sets what a field has, if it has something.
fn set_chosen(
    alloc: Global,
    record: &mut Record,
    field: FieldNo,
    part: &Option<Part>,
) -> Result<(), AllocError>
    ensures { OnOk result («record».new ≡ with_chosen «record».old field part.now) }
{
    match part {
        Some(part) => set_part(alloc, record, field, part),
        None => Ok(()),
    }
}

/// Returns the record to which these lines lead from a new one with the type and the name of this one.
///
/// # Errors
///
/// [`AllocError`] if allocation fails.
#[tactic(auto, unfolding(crate::specs::Items::rebuilt))]
pub fn record_of(alloc: Global, loaded: &Record, items: &[BaseItem]) -> Result<Record, AllocError>
    ensures { IfOk result (λ made. made ≡ rebuilt loaded.now items.now) }
{
    let fresh = fresh_of(alloc, loaded)?;
    let mut record = fresh_of(alloc, loaded)?;
    let all = fields();
    for field in all {
        let part = chosen_part(items, &fresh, *field);
        set_chosen(alloc, &mut record, *field, &part)?;
    }
    set_hidden(&mut record.common, &hidden_given(items, &fresh));
    Ok(record)
}
