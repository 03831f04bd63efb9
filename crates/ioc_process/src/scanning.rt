//! The place of a record on the scan lists, and what changes it.
ghost use Rattle.std.specs.Prelude.{◌≡◌, ◌<◌, ◌-◌};
ghost use Rattle.std.specs.Option.{option_copied};
ghost use Rattle.ioc_store.specs.Scanning.{places_record, text_in, device_of, moved, rescanned, rewired};
ghost use Rattle.ioc_store.specs.World.{Has};

use crate::steps::{common, renumber_change};
use ioc_dbcommon::LinkBox;
use ioc_fields::{CommonField, FieldNo, OwnField};
use ioc_links::MAX_DEVICE_BYTES;
use ioc_names::RecordNo;
use ioc_record::RecordKind;
use ioc_store::{OutboxItem, ScanChange, Store};
use ioc_values::Short;

// Returns whether a put to the field removes the record from its scan list and adds it again.
fn places_record(field: FieldNo) -> bool
    ensures { result ≡ places_record field }
{
    matches!(
        field,
        FieldNo::Common(
            CommonField::Scan | CommonField::Phas | CommonField::Prio | CommonField::Evnt
        )
    )
}

// Returns the text of the device link in a field; empty if there is none.
fn text_in(link: Option<&LinkBox>) -> Short<MAX_DEVICE_BYTES>
    ensures { result ≡ text_in (option_copied link.entry) }
{
    match link {
        Some(link) => link.device_text(),
        None => Short::new(),
    }
}

/// Returns the text of a record's device link, in INP or OUT; empty if it has none.
#[tactic(auto, unfolding(ioc_store::specs::Scanning::device_of))]
pub fn device_of<K: RecordKind>(record: &K) -> Short<MAX_DEVICE_BYTES>
    ensures { result ≡ device_of K.rules record.now }
{
    let input = text_in(record.link(FieldNo::Own(OwnField::Inp)));
    if input.as_slice().is_empty() {
        text_in(record.link(FieldNo::Own(OwnField::Out)))
    } else {
        input
    }
}

// Moves a record to the scan list that its fields name now: sends a change with the next number of
// this record.
#[tactic(auto, unfolding(ioc_store::specs::Scanning::moved))]
fn move_record<S: Store>(store: &mut S, number: RecordNo)
    requires { Has (S.world store.old) number }
    ensures world { S.world store.new ≡ moved S.Record.rules (S.world store.old) number }
    ensures given { S.given store.new ≡ S.given store.old }
{
    let last = common(store, number).last_change;
    if last == u64::MAX {
        store.count_dropped();
        return;
    }
    let scanning = common(store, number).scanning;
    let device = device_of(store.record(number));
    renumber_change(store, number);
    store.send(OutboxItem::Change(ScanChange {
        target: number,
        number: last + 1,
        scanning,
        device,
    }));
}

/// Sends a change of the scan list if the field, which was put to, is one that determines it.
#[tactic(auto, unfolding(ioc_store::specs::Scanning::rescanned))]
pub fn rescan<S: Store>(store: &mut S, number: RecordNo, field: FieldNo)
    requires { Has (S.world store.old) number }
    ensures world { S.world store.new ≡ rescanned S.Record.rules (S.world store.old) number field }
    ensures given { S.given store.new ≡ S.given store.old }
{
    if places_record(field) {
        move_record(store, number);
    }
}

/// Sends a change of the scan list if the text of the record's device link is no longer `before`.
#[tactic(auto, unfolding(ioc_store::specs::Scanning::rewired))]
pub fn rewire<S: Store>(store: &mut S, number: RecordNo, before: Short<MAX_DEVICE_BYTES>)
    requires { Has (S.world store.old) number }
    ensures world { S.world store.new ≡ rewired S.Record.rules before (S.world store.old) number }
    ensures given { S.given store.new ≡ S.given store.old }
{
    let after = device_of(store.record(number));
    if before.as_slice() != after.as_slice() {
        move_record(store, number);
    }
}
