//! One event on the records of a lock set.
ghost use Rattle.std.specs.Prelude.{◌≡◌, ◌≤◌, true, List, vec_capacity};
ghost use Rattle.std.specs.FinMap.{len};
ghost use Rattle.ioc_events.specs.Holding.{IsCounted};
ghost use Rattle.ioc_set.specs.Resting.{resting};
ghost use Rattle.ioc_set.specs.Puts.{is_put_with_notification};
ghost use Rattle.ioc_set.specs.Doing.{Did};

use crate::event_buffers::{EventBuffers, kept_answers};
use crate::laws::{none_live_stays_so, notifications_begin_by_notify};
use crate::live_puts::LivePuts;
use ioc_device::Device;
use ioc_events::event_rules::rules_are_steps;
use ioc_events::{Event, EventEntry, run_event};
use ioc_ledger::Tally;
use ioc_record::RecordKind;
use ioc_set_records::Members;
use std::alloc::Global;
use std::mem;

// Returns a copy of the event. A request is constructed again, so that the size of the largest
// event isn't copied.
#[inline(always)]
fn copy_of(event: &Event) -> Event
    ensures { result ≡ event.now }
{
    match event {
        Event::Process { record } => Event::Process { record: *record },
        _ => *event,
    }
}

/// Does an event on the members of a set and its puts with notification, and returns its history
/// entry. There must be room for the frames and the answers, and for a put with notification, if it
/// is one.
#[inline(always)]
pub fn run_set_event<K: RecordKind + Drop, D: Device>(
    buffers: &mut EventBuffers<K, D>,
    members: &mut Members<K, D>,
    puts: &mut LivePuts,
    moment: u64,
    event: &Event,
    tally: &mut Tally,
    alloc: Global,
) -> EventEntry
    requires counted { IsCounted K.rules (resting members.old.records puts.old.live puts.old.waiting) }
    requires puts { is_put_with_notification event.now ≡ true → puts.old.has_room ≡ true }
    requires frames { len members.old.records ≤ vec_capacity buffers.old.frames }
    requires answers { 256 ≤ vec_capacity buffers.old.spare }
    ensures moment { result.moment ≡ moment }
    ensures event { result.event ≡ event.now }
    ensures did { Did K.rules D.gives members.old puts.old tally.old result members.new puts.new tally.new buffers.new.store }
{
    rules_are_steps::<K>();
    none_live_stays_so::<K>();
    notifications_begin_by_notify::<K>();
    members.devices_are_owned();
    puts.none_without_room();
    mem::swap(&mut buffers.store.members, members);
    puts.lend(&mut buffers.store.event.follow_ups.notifications);
    buffers.store.begin_at(moment);
    let told = run_event(&mut buffers.store, &mut buffers.frames, event, tally);
    let answers = kept_answers(&buffers.store.event.calls, &mut buffers.spare, alloc);
    puts.take_back(&mut buffers.store.event.follow_ups.notifications);
    mem::swap(members, &mut buffers.store.members);
    members.devices_are_owned();
    EventEntry {
        moment,
        event: copy_of(event),
        answers,
        reply: told,
    }
}
