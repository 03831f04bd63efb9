//! What a record's state is: what its fields have, and what no field shows.
ghost use Rattle.std.specs.Prelude.{◌≡◌, OnOk};
ghost use Rattle.ioc_journal_base.specs.States.{link_or_value, part_of, with_value, with_part, hidden_of, with_hidden};

use crate::kept_fields::set_kept;
use crate::settled_fields::set_common;
use ioc_dbcommon::{Common, LinkBox};
use ioc_fields::{CommonField, FieldNo};
use ioc_journal_file::{HiddenState, Part};
use ioc_record::{RecordBody, RecordKind};
use ioc_values::Value;
use rec_types::Record;
use std::alloc::{AllocError, Global};

// Returns the link or the value of a field.
#[tactic(auto, unfolding(crate::specs::States::part_of))]
fn link_or_value(record: &Record, field: FieldNo) -> Option<Part>
    ensures { result ≡ link_or_value «record».now field }
{
    if let Some(link) = record.link(field) {
        return Some(Part::Link(link.get()));
    }
    match record.get(field) {
        Some(value) => Some(Part::Value(value)),
        None => None,
    }
}

/// Returns what a field has that is part of the record's state: a link or a value. NAME and TSE never
/// change, and the time stamp stands beside the fields.
#[tactic(auto, unfolding(crate::specs::States::part_of))]
pub fn part_of(record: &Record, field: FieldNo) -> Option<Part>
    ensures { result ≡ part_of «record».now field }
{
    match field {
        FieldNo::Common(CommonField::Name | CommonField::Tse | CommonField::Time) => None,
        _ => link_or_value(record, field),
    }
}

// Sets the value of a field as it is: no other field follows it, as UDF does a put.
#[tactic(auto, unfolding(crate::specs::States::with_value))]
fn set_value(record: &mut Record, field: FieldNo, value: Value)
    ensures { «record».new ≡ with_value «record».old field value }
{
    match field {
        FieldNo::Common(field) => set_common(&mut record.common, field, value),
        FieldNo::Own(field) => {
            let again = value;
            let mut condition = record.common.condition;
            record.body.store(&mut condition, field, value);
            set_kept(&mut record.body, field, again);
        }
    }
}

/// Sets what a field has.
///
/// # Errors
///
/// [`AllocError`] if allocation fails.
#[tactic(auto, unfolding(crate::specs::States::with_part))]
pub(crate) fn set_part(
    alloc: Global,
    record: &mut Record,
    field: FieldNo,
    part: &Part,
) -> Result<(), AllocError>
    ensures { OnOk result («record».new ≡ with_part «record».old field part.now) }
{
    match part {
        Part::Value(value) => set_value(record, field, *value),
        Part::Link(link) => record.set_link(field, LinkBox::new(alloc, *link)?),
    }
    Ok(())
}

/// Returns what no field of a record shows.
pub fn hidden_of(record: &Record) -> HiddenState
    ensures { result ≡ hidden_of «record».now }
{
    let common = &record.common;
    HiddenState {
        time: common.time,
        pending: common.pending,
        last_pending: common.last_pending,
        last_change: common.last_change,
        notification: common.notification,
    }
}

/// Sets what no field shows.
pub(crate) fn set_hidden(common: &mut Common, hidden: &HiddenState)
    ensures { common.new ≡ with_hidden common.old hidden.now }
{
    common.time = hidden.time;
    common.pending = hidden.pending;
    common.last_pending = hidden.last_pending;
    common.last_change = hidden.last_change;
    common.notification = hidden.notification;
}
