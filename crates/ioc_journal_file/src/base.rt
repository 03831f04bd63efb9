//! The lines of a base: the state of a database at one place of its journal, with which a file begins
//! that goes on behind an earlier one.
ghost use Rattle.std.specs.Prelude.{◌≡◌, ◌++◌, ◌∷◌, decimal, OnOk, IfOk, IfSome, Some};
ghost use Rattle.ioc_fields.specs.Names.{name_of};
ghost use Rattle.ioc_journal_file.specs.Bases.{option_text, part_text, state_text, item_line, IsItem};
ghost use Rattle.ioc_journal_file.specs.Form.{value_text};
ghost use Rattle.ioc_journal_file.specs.BaseReading.{some_at, option_at, value_part_at, link_part_at, part_at, state_at};
ghost use Rattle.ioc_journal_file.specs.BaseReading.{field_item_at, state_item_at, waiting_item_at, desk_item_at, item_at};
ghost use Rattle.ioc_journal_file.specs.Reading.{Gives};

use crate::links::{add_field, add_link_field, field_at, link_field_at};
use crate::lists::kind_of;
use crate::numbers::{add_number, add_record, notification_at, number_at, record_at};
use crate::values::{add_value, value_at};
use crate::words::{is_same, is_word, split};
use ioc_dbcommon::LinkField;
use ioc_fields::FieldNo;
use ioc_names::RecordNo;
use ioc_notify::{NotifyId, Waiting};
use ioc_values::Value;
use std::alloc::{AllocError, Global};

/// What a field of a record has.
#[derive(Clone, Copy, PartialEq, Eq)]
pub enum Part {
    Value(Value),
    Link(LinkField),
}

/// What no field of a record shows.
#[derive(Clone, Copy, PartialEq, Eq)]
pub struct HiddenState {
    /// The time stamp, in nanoseconds since 1970-01-01 00:00 UTC.
    pub time: u64,
    /// The number of the completion that the record waits for.
    pub pending: Option<u64>,
    /// The number that was last assigned to a completion.
    pub last_pending: u64,
    /// The number that was last assigned to a change of the record's scan list.
    pub last_change: u64,
    /// The put with notification that the record is part of.
    pub notification: Option<NotifyId>,
}

/// One line of a base.
#[derive(Clone, Copy, PartialEq, Eq)]
pub enum BaseItem {
    /// A field of a record has this.
    Field(RecordNo, FieldNo, Part),
    /// The rest of a record's state.
    State(RecordNo, HiddenState),
    /// A put with notification waits for its record.
    Waiting(Waiting),
    /// The desk of the first number has made so many calls.
    Desk(u64, u64),
}

/// Appends a number, or `none`.
#[tactic(auto, unfolding(crate::specs::Bases::option_text))]
fn add_option(out: &mut Vec<u8>, number: Option<u64>) -> Result<(), AllocError>
    ensures { OnOk result (out.new.items ≡ out.old.items ++ option_text number) }
{
    match number {
        Some(number) => add_number(out, number),
        None => out.extend_from_slice(b"none"),
    }
}

/// Appends the number of a put with notification, or `none`.
#[tactic(auto, unfolding(crate::specs::Bases::option_text))]
fn add_notification(out: &mut Vec<u8>, number: Option<NotifyId>) -> Result<(), AllocError>
    ensures { OnOk result (out.new.items ≡ out.old.items ++ option_text number) }
{
    match number {
        Some(number) => add_number(out, number.number()),
        None => out.extend_from_slice(b"none"),
    }
}

/// Appends what a field has, as in the line of a base.
///
/// # Errors
///
/// [`AllocError`] if allocation fails; a part may have been appended then.
#[tactic(auto, unfolding(crate::specs::Bases::part_text))]
pub fn add_part(out: &mut Vec<u8>, part: &Part) -> Result<(), AllocError>
    ensures { OnOk result (out.new.items ≡ out.old.items ++ part_text part.now) }
{
    match part {
        Part::Value(value) => add_value(out, value),
        Part::Link(link) => add_link_field(out, link),
    }
}

/// Appends what no field shows.
#[tactic(auto, unfolding(crate::specs::Bases::state_text))]
fn add_state(out: &mut Vec<u8>, state: &HiddenState) -> Result<(), AllocError>
    ensures { OnOk result (out.new.items ≡ out.old.items ++ state_text state.now) }
{
    add_number(out, state.time)?;
    out.push(b'\t')?;
    add_option(out, state.pending)?;
    out.push(b'\t')?;
    add_number(out, state.last_pending)?;
    out.push(b'\t')?;
    add_number(out, state.last_change)?;
    out.push(b'\t')?;
    add_notification(out, state.notification)
}

/// Appends a put with notification that waits.
fn add_waiting(out: &mut Vec<u8>, waiting: &Waiting) -> Result<(), AllocError>
    ensures { OnOk result (out.new.items ≡ out.old.items ++ decimal waiting.now.number ++ 9 ∷ decimal waiting.now.target
        ++ 9 ∷ name_of waiting.now.field ++ 9 ∷ value_text waiting.now.value) }
{
    add_number(out, waiting.number.number())?;
    out.push(b'\t')?;
    add_record(out, waiting.target)?;
    out.push(b'\t')?;
    add_field(out, waiting.field)?;
    out.push(b'\t')?;
    add_value(out, &waiting.value)
}

/// Appends a line of a base.
///
/// # Errors
///
/// [`AllocError`] if allocation fails; a part of the line may have been appended then.
#[tactic(auto, unfolding(crate::specs::Bases::item_line))]
pub fn add_item(out: &mut Vec<u8>, item: &BaseItem) -> Result<(), AllocError>
    ensures { OnOk result (out.new.items ≡ out.old.items ++ item_line item.now) }
{
    match item {
        BaseItem::Field(record, field, part) => {
            out.extend_from_slice(b"base\t")?;
            add_record(out, *record)?;
            out.push(b'\t')?;
            add_field(out, *field)?;
            out.push(b'\t')?;
            add_part(out, part)?;
        }
        BaseItem::State(record, state) => {
            out.extend_from_slice(b"state\t")?;
            add_record(out, *record)?;
            out.push(b'\t')?;
            add_state(out, state)?;
        }
        BaseItem::Waiting(waiting) => {
            out.extend_from_slice(b"waiting\t")?;
            add_waiting(out, waiting)?;
        }
        BaseItem::Desk(desk, calls) => {
            out.extend_from_slice(b"desk\t")?;
            add_number(out, *desk)?;
            out.push(b'\t')?;
            add_number(out, *calls)?;
        }
    }
    out.push(b'\n')?;
    Ok(())
}

#[tactic(auto, unfolding(crate::specs::BaseReading::some_at))]
fn some_at(bytes: &[u8]) -> Option<(Option<u64>, &[u8])>
    ensures { Gives (λ x. (x.0, x.1.now)) result (some_at bytes.now) }
{
    let (number, rest) = number_at(bytes)?;
    Some((Some(number), rest))
}

/// Reads a number, or `none`.
#[tactic(auto, unfolding(crate::specs::BaseReading::option_at))]
fn option_at(bytes: &[u8]) -> Option<(Option<u64>, &[u8])>
    ensures { Gives (λ x. (x.0, x.1.now)) result (option_at bytes.now) }
{
    let (word, rest) = split(bytes);
    if is_word(word, b"none") {
        return Some((None, rest));
    }
    some_at(bytes)
}

#[tactic(auto, unfolding(crate::specs::BaseReading::value_part_at))]
fn value_part_at(bytes: &[u8]) -> Option<(Part, &[u8])>
    ensures { Gives (λ x. (x.0, x.1.now)) result (value_part_at bytes.now) }
{
    let Some((value, rest)) = value_at(bytes) else {
        return None;
    };
    Some((Part::Value(value), rest))
}

#[tactic(auto, unfolding(crate::specs::BaseReading::link_part_at))]
fn link_part_at(bytes: &[u8]) -> Option<(Part, &[u8])>
    ensures { Gives (λ x. (x.0, x.1.now)) result (link_part_at bytes.now) }
{
    let Some((link, rest)) = link_field_at(bytes) else {
        return None;
    };
    Some((Part::Link(link), rest))
}

/// Reads what a field has: a value begins with its kind.
#[tactic(auto, unfolding(crate::specs::BaseReading::part_at))]
fn part_at(bytes: &[u8]) -> Option<(Part, &[u8])>
    ensures { Gives (λ x. (x.0, x.1.now)) result (part_at bytes.now) }
{
    let (word, _rest) = split(bytes);
    match kind_of(word) {
        Some(_kind) => value_part_at(bytes),
        None => link_part_at(bytes),
    }
}

/// Reads what no field shows.
#[tactic(auto, unfolding(crate::specs::BaseReading::state_at))]
fn state_at(bytes: &[u8]) -> Option<(HiddenState, &[u8])>
    ensures { Gives (λ x. (x.0, x.1.now)) result (state_at bytes.now) }
{
    let Some((time, rest)) = number_at(bytes) else {
        return None;
    };
    let Some((pending, rest)) = option_at(rest) else {
        return None;
    };
    let Some((last_pending, rest)) = number_at(rest) else {
        return None;
    };
    let Some((last_change, rest)) = number_at(rest) else {
        return None;
    };
    let Some((notification, rest)) = option_at(rest) else {
        return None;
    };
    let state = HiddenState {
        time,
        pending,
        last_pending,
        last_change,
        notification: notification.map(NotifyId::new),
    };
    Some((state, rest))
}

#[tactic(auto, unfolding(crate::specs::BaseReading::field_item_at))]
fn field_item_at(bytes: &[u8]) -> Option<BaseItem>
    ensures { Gives (λ x. x) result (field_item_at bytes.now) }
{
    let Some((record, rest)) = record_at(bytes) else {
        return None;
    };
    let Some((field, rest)) = field_at(rest) else {
        return None;
    };
    let Some((part, _rest)) = part_at(rest) else {
        return None;
    };
    Some(BaseItem::Field(record, field, part))
}

#[tactic(auto, unfolding(crate::specs::BaseReading::state_item_at))]
fn state_item_at(bytes: &[u8]) -> Option<BaseItem>
    ensures { Gives (λ x. x) result (state_item_at bytes.now) }
{
    let Some((record, rest)) = record_at(bytes) else {
        return None;
    };
    let Some((state, _rest)) = state_at(rest) else {
        return None;
    };
    Some(BaseItem::State(record, state))
}

#[tactic(auto, unfolding(crate::specs::BaseReading::waiting_item_at))]
fn waiting_item_at(bytes: &[u8]) -> Option<BaseItem>
    ensures { Gives (λ x. x) result (waiting_item_at bytes.now) }
{
    let Some((number, rest)) = notification_at(bytes) else {
        return None;
    };
    let Some((target, rest)) = record_at(rest) else {
        return None;
    };
    let Some((field, rest)) = field_at(rest) else {
        return None;
    };
    let Some((value, _rest)) = value_at(rest) else {
        return None;
    };
    let waiting = Waiting {
        number,
        target,
        field,
        value,
    };
    Some(BaseItem::Waiting(waiting))
}

#[tactic(auto, unfolding(crate::specs::BaseReading::desk_item_at))]
fn desk_item_at(bytes: &[u8]) -> Option<BaseItem>
    ensures { Gives (λ x. x) result (desk_item_at bytes.now) }
{
    let Some((desk, rest)) = number_at(bytes) else {
        return None;
    };
    let Some((calls, _rest)) = number_at(rest) else {
        return None;
    };
    Some(BaseItem::Desk(desk, calls))
}

/// Reads the parts of a line of a base.
#[tactic(auto, unfolding(crate::specs::BaseReading::item_at))]
fn item_at(line: &[u8]) -> Option<BaseItem>
    ensures { Gives (λ x. x) result (item_at line.now) }
{
    let (word, rest) = split(line);
    if is_word(word, b"base") {
        return field_item_at(rest);
    }
    if is_word(word, b"state") {
        return state_item_at(rest);
    }
    if is_word(word, b"waiting") {
        return waiting_item_at(rest);
    }
    desk_item_at(rest)
}

/// Reads a line, with the line break at its end: the part of a base that [`add_item`] writes so, or
/// `None` if no part of a base has this line.
///
/// # Errors
///
/// [`AllocError`] if allocation fails.
pub fn item_of(alloc: Global, line: &[u8]) -> Result<Option<BaseItem>, AllocError>
    ensures found { IfOk result (λ read. IfSome read (λ item. line.now ≡ item_line item)) }
    ensures only { (item : BaseItem) → IsItem item → line.now ≡ item_line item → IfOk result (λ read. read ≡ Some item) }
{
    let Some(item) = item_at(line) else {
        return Ok(None);
    };
    let mut out = Vec::new(alloc);
    add_item(&mut out, &item)?;
    if !is_same(out.as_slice(), line) {
        return Ok(None);
    }
    Ok(Some(item))
}
