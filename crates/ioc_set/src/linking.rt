//! The steps of a link change on the members of lock sets.
ghost use Rattle.std.specs.Prelude.{◌≡◌, ◌≤◌, [], length, IsSome, vec_capacity};
ghost use Rattle.std.specs.FinMap.{get};
ghost use Rattle.ioc_set_records.specs.Contents.{RecordsAreLikeTheirBase};
ghost use Rattle.ioc_store.specs.Scanning.{rewired};
ghost use Rattle.ioc_store.specs.World.{begun_at};
ghost use Rattle.ioc_set.specs.Doing.{with_records};
ghost use Rattle.ioc_set.specs.Resting.{resting};
ghost use Rattle.ioc_ledger.specs.Requests.{added};
ghost use Rattle.ioc_set.specs.Puts.{begun_with};
ghost use Rattle.ioc_set.specs.SetStore.{world_of};

use crate::event_buffers::EventBuffers;
use crate::live_puts::LivePuts;
use ioc_device::Device;
use ioc_events::EventEntry;
use ioc_ledger::Tally;
use ioc_links::MAX_DEVICE_BYTES;
use ioc_names::RecordNo;
use ioc_process::scanning::rewire;
use ioc_record::RecordKind;
use ioc_set_records::Members;
use ioc_values::Short;
use std::mem;

/// Clears the history of a set, so that each record equals its base and the puts with notification
/// are those before the history. It is not inlined, since it is done once in 64 events.
#[inline(never)]
pub fn clear_history<K: RecordKind, D>(
    members: &mut Members<K, D>,
    puts: &mut LivePuts,
    tally: &Tally,
    base_tally: &mut Tally,
    history: &mut Vec<EventEntry>,
)
    requires like { RecordsAreLikeTheirBase K.rules members.old }
    requires fits { length puts.old.waiting ≤ 256 }
    ensures members { members.new ≡ record members.old { base = members.old.records } }
    ensures puts { puts.new ≡ begun_with puts.old }
    ensures tally { base_tally.new ≡ tally.now }
    ensures history { history.new.items ≡ [] }
    ensures room { vec_capacity history.new ≡ vec_capacity history.old }
{
    members.fold();
    puts.begin_history();
    *base_tally = *tally;
    history.clear();
}

/// Adds the counts of another set to those of a set.
pub fn add_counts(tally: &mut Tally, other: &Tally)
    ensures { tally.new ≡ added tally.old other.now }
{
    tally.begun = tally.begun.saturating_add(other.begun);
    tally.processed = tally.processed.saturating_add(other.processed);
    tally.disabled = tally.disabled.saturating_add(other.disabled);
    tally.active = tally.active.saturating_add(other.active);
    tally.reprocess = tally.reprocess.saturating_add(other.reprocess);
    tally.started = tally.started.saturating_add(other.started);
    tally.completed = tally.completed.saturating_add(other.completed);
}

/// Sends a change of the scan list of a record, if the text of its device link is no longer
/// `before`.
pub fn rescan_on<K: RecordKind + Drop, D: Device>(
    buffers: &mut EventBuffers<K, D>,
    members: &mut Members<K, D>,
    moment: u64,
    number: RecordNo,
    before: Short<MAX_DEVICE_BYTES>,
)
    requires there { IsSome (get members.old.records number) }
    ensures left { with_records members.new.records (world_of buffers.new.store)
        ≡ rewired K.rules before (begun_at moment (resting members.old.records [] [])) number }
    ensures devices { members.new.devices ≡ members.old.devices }
    ensures base { members.new.base ≡ members.old.base }
{
    members.devices_are_owned();
    mem::swap(&mut buffers.store.members, members);
    buffers.store.begin_at(moment);
    rewire(&mut buffers.store, number, before);
    mem::swap(members, &mut buffers.store.members);
    members.devices_are_owned();
}
