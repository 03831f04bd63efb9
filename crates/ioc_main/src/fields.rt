//! The fields that lines of a script name.
ghost use Rattle.std.specs.Prelude.{◌≡◌, IsSome, IfOk, OnOk};
ghost use Rattle.rec_types.specs.Record.{record_rules};
ghost use Rattle.ioc_fields.specs.Table.{row_of, kind_of};
ghost use Rattle.ioc_store.specs.World.{Has, at};
ghost use Rattle.ioc_sim.specs.SeenMachine.{machine_of};
ghost use Rattle.ioc_main.specs.Replay.{channel, record_named};
ghost use Rattle.ioc_main.specs.Relink.{linked_in};

use ioc_events::Reply;
use ioc_fields::{FieldKind, FieldNo, field, kind_of};
use ioc_links::parse;
use ioc_names::{Names, RecordNo};
use ioc_record::{RecordKind, stops_put};
use ioc_sim::Machine;
use ioc_store::Store;
use ioc_values::IocError;
use std::alloc::AllocError;

/// Finds the record with this name.
///
/// # Errors
///
/// [`IocError::NoRecord`] if there is none.
#[inline(always)]
pub fn record(names: &Names, name: &[u8]) -> Result<RecordNo, IocError>
    ensures { result ≡ record_named names.now name.now }
{
    names.find(name).ok_or(IocError::NoRecord)
}

/// Finds the field with this name of the record with this name.
///
/// # Errors
///
/// [`IocError::NoRecord`] or [`IocError::NoField`], in this order, if there is no such record or
/// field.
#[inline(always)]
#[tactic(auto, unfolding(crate::specs::Replay::channel))]
pub fn channel(
    names: &Names,
    machine: &Machine,
    record_name: &[u8],
    field_name: &[u8],
) -> Result<(RecordNo, FieldNo), IocError>
    ensures value { result ≡ channel record_rules names.now (machine_of machine.now).world record_name.now field_name.now }
    ensures there { IfOk result (λ c. Has (machine_of machine.now).world c.0
        × IsSome (row_of (record_rules.record_type (at record_rules (machine_of machine.now).world c.0)) c.1)) }
{
    let number = record(names, record_name)?;
    let map = machine.map();
    if !map.has(number) {
        return Err(IocError::NoRecord);
    }
    let record_type = map.record(number).record_type();
    match field(record_type, field_name) {
        Some(found) => Ok((number, found)),
        None => Err(IocError::NoField),
    }
}

/// Changes a link field of a record to the link of this text. The reply is a refusal if the field
/// is no link, DISP forbids the change, or the text isn't a valid link.
///
/// # Errors
///
/// [`AllocError`] if allocation fails.
pub fn relink(
    names: &Names,
    machine: &mut Machine,
    number: RecordNo,
    field: FieldNo,
    text: &[u8],
) -> Result<Reply, AllocError>
    requires { Has (machine_of machine.old).world number }
    ensures machine { OnOk result (machine_of machine.new
        ≡ (linked_in record_rules names.now (machine_of machine.old) number field text.now
        (kind_of (record_rules.record_type (at record_rules (machine_of machine.old).world number)) field)).machine) }
    ensures reply { IfOk result (λ reply. reply
        ≡ (linked_in record_rules names.now (machine_of machine.old) number field text.now
        (kind_of (record_rules.record_type (at record_rules (machine_of machine.old).world number)) field)).reply) }
{
    let item = machine.map().record(number);
    let Some(FieldKind::Link(role)) = kind_of(item.record_type(), field) else {
        return Ok(Reply::Refused(IocError::NoField));
    };
    if stops_put(item.common(), field) {
        return Ok(Reply::Refused(IocError::PutDisabled));
    }
    match parse(role.link_kind(), text) {
        Ok(link) => machine.link(names, number, field, &link),
        Err(refused) => Ok(Reply::Refused(refused)),
    }
}
