//! Events on the map of a machine, whose steps may be traced.
ghost use Rattle.rec_types.specs.Record.{record_rules};
ghost use Rattle.ioc_store.specs.OneMap.{world_of, given_of};
ghost use Rattle.ioc_process.specs.Running.{CanRun, HasRun};
ghost use Rattle.ioc_events.specs.Events.{HasStepped};
ghost use Rattle.ioc_sim.specs.Deeds.{event_of};
ghost use Rattle.ioc_sim.specs.Machine.{TakesAnswer};

use crate::scripted::Scripted;
use ioc_events::{Event, Reply, run_event, run_put};
use ioc_fields::FieldNo;
use ioc_ledger::Tally;
use ioc_names::RecordNo;
use ioc_notify::NotifyId;
use ioc_record::Given;
use ioc_store::{Frame, OneMap, Store};
use ioc_trace::TracedMap;
use ioc_values::{Finished, Input};
use rec_types::Record;

/// The map that takes the place of a machine's map during an event, if events are traced.
pub(crate) type Traced = Option<TracedMap<Record, Scripted>>;

/// An event of a machine, by its parts.
#[derive(Clone, Copy)]
pub(crate) enum Deed<'a> {
    /// The request of a record.
    Process(RecordNo),
    /// The put of a text into a field.
    Put(RecordNo, FieldNo, &'a [u8]),
    /// The completion of the wait with this number.
    Complete(RecordNo, u64, Finished),
    /// The put of a value into a field, with this notification.
    Notify(RecordNo, NotifyId, FieldNo, Input),
    /// The cancel of a put with notification.
    Cancel(NotifyId),
}

// Does an event on a store.
#[inline(always)]
fn run_on<S: Store>(
    store: &mut S,
    frames: &mut Vec<Frame>,
    deed: &Deed<'_>,
    tally: &mut Tally,
) -> Reply
    requires { CanRun S.Record.rules (S.world store.old) frames.old }
    ensures step { HasStepped S.Record.rules (S.given store.new) (S.world store.old) (S.world store.new) result
        tally.old tally.new (event_of deed.now) }
    ensures run { HasRun S.Record.rules S.Device.gives (S.world store.old) (S.world store.new) (S.given store.old) (S.given store.new)
        frames.old frames.new }
{
    let event = match *deed {
        Deed::Process(record) => Event::Process { record },
        Deed::Put(record, field, text) => {
            return run_put(store, frames, record, field, Given::Text(text), tally);
        }
        Deed::Complete(record, wait, finished) => Event::Complete {
            record,
            wait,
            finished,
        },
        Deed::Notify(record, notification, field, value) => Event::Notify {
            record,
            notification,
            field,
            value,
        },
        Deed::Cancel(notification) => Event::Cancel { notification },
    };
    run_event(store, frames, &event, tally)
}

// Does an event and traces it. Not inlined, because most machines trace nothing.
#[inline(never)]
fn run_traced(
    traced: &mut TracedMap<Record, Scripted>,
    map: &mut OneMap<Record, Scripted>,
    frames: &mut Vec<Frame>,
    deed: &Deed<'_>,
    tally: &mut Tally,
) -> Reply
    requires { CanRun record_rules (world_of map.old) frames.old }
    ensures step { HasStepped record_rules (given_of map.new) (world_of map.old) (world_of map.new) result
        tally.old tally.new (event_of deed.now) }
    ensures run { HasRun record_rules TakesAnswer (world_of map.old) (world_of map.new) (given_of map.old) (given_of map.new)
        frames.old frames.new }
{
    traced.swap(map);
    let reply = run_on(traced, frames, deed, tally);
    traced.swap(map);
    reply
}

/// Does an event, and traces it if events are traced.
#[inline(always)]
pub(crate) fn run_deed(
    traced: &mut Traced,
    map: &mut OneMap<Record, Scripted>,
    frames: &mut Vec<Frame>,
    deed: &Deed<'_>,
    tally: &mut Tally,
) -> Reply
    requires { CanRun record_rules (world_of map.old) frames.old }
    ensures step { HasStepped record_rules (given_of map.new) (world_of map.old) (world_of map.new) result
        tally.old tally.new (event_of deed.now) }
    ensures run { HasRun record_rules TakesAnswer (world_of map.old) (world_of map.new) (given_of map.old) (given_of map.new)
        frames.old frames.new }
{
    match traced {
        Some(traced) => run_traced(traced, map, frames, deed, tally),
        None => run_on(map, frames, deed, tally),
    }
}
