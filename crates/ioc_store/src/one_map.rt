//! All records in one map, by their numbers from 0 on.
ghost use Rattle.std.specs.Prelude.{◌≡◌, ◌≤◌, [], List, map, true, IfOk};
ghost use Rattle.ioc_store.specs.World.{freed};
ghost use Rattle.std.specs.FinMap.{len};
ghost use Rattle.std.specs.Vec.{vec_capacity};

use crate::call::Call;
use crate::event_store::{EventStore, FollowUps};
use crate::frames::Frame;
use crate::store::Store;
use ioc_device::{Answer, Ask, Device, answer_of};
use ioc_names::RecordNo;
use ioc_notify::NotifyId;
use ioc_record::RecordKind;
use std::alloc::{AllocError, Global};

/// The records, each at its number, the devices of those that have one, and the state of the event.
#[derive(Drop)]
pub struct OneMap<K, D> {
    pub records: Vec<K>,
    /// The devices, each at the number of its record. A record past the end has none.
    pub devices: Vec<Option<D>>,
    pub event: EventStore,
}

impl<K: RecordKind, D: Device> OneMap<K, D> {
    ghost use Rattle.ioc_store.specs.OneMap.{given_of, world_of};
    ghost use Rattle.ioc_store.specs.World.{begun, begun_at};
    ghost use Rattle.ioc_store.specs.Given.{DeviceGives};

    /// Creates a map of these records, numbered from 0 on, with these devices. No event has begun.
    pub fn new(records: Vec<K>, devices: Vec<Option<D>>, event: EventStore) -> Self
        ensures records { result.records ≡ records }
        ensures devices { result.devices ≡ devices }
        ensures fresh { world_of result ≡ begun_at 0 (world_of result) }
        ensures live { (world_of result).live ≡ event.follow_ups.notifications.live.live }
        ensures waiting { (world_of result).waiting ≡ event.follow_ups.notifications.waiting.waiting }
    {
        let mut map = OneMap {
            records,
            devices,
            event,
        };
        map.event.begin(0);
        map
    }

    /// Returns an empty list of open frames with room for all records. It serves the requests of
    /// any number of events, one after another.
    pub fn frames(&self, alloc: Global) -> Result<Vec<Frame>, AllocError>
        ensures empty { IfOk result (λ f. f.items ≡ []) }
        ensures room { IfOk result (λ f. len (world_of self.now).records ≤ vec_capacity f) }
    {
        let frames = Vec::with_capacity(alloc, self.records.len())?;
        Ok(frames)
    }

    // Returns the answer of a record's device, or a fault if the record has none.
    fn device_gives(&mut self, number: RecordNo, ask: &Ask) -> Answer
        ensures gives { DeviceGives D.gives (given_of self.old).devices (given_of self.old).moment
            (record { target = number; ask = ask.now; answer = result }) (given_of self.new).devices }
        ensures records { self.new.records ≡ self.old.records }
        ensures event { self.new.event ≡ self.old.event }
    {
        let moment = self.event.moment;
        let place = number.index();
        if place >= self.devices.len() {
            return Answer::Fault;
        }
        match &mut self.devices[place] {
            Some(device) => answer_of(device, ask, moment),
            None => Answer::Fault,
        }
    }

    /// Begins an event with the time stamp of the last one: no device call is made yet, and nothing
    /// is sent.
    pub fn begin(&mut self)
        ensures world { world_of self.new ≡ begun (world_of self.old) }
        ensures devices { self.new.devices ≡ self.old.devices }
    {
        let moment = self.event.moment;
        self.event.begin(moment);
    }

    /// Begins an event with this time stamp, in nanoseconds since 1970-01-01 00:00 UTC.
    pub fn begin_at(&mut self, moment: u64)
        ensures world { world_of self.new ≡ begun_at moment (world_of self.old) }
        ensures devices { self.new.devices ≡ self.old.devices }
    {
        self.event.begin(moment);
    }
}

// Removes the record from this put with notification, if it is part of it.
fn free<K: RecordKind>(record: &mut K, notification: NotifyId)
    ensures { record.new ≡ freed K.rules notification record.old }
{
    if record.common().notification == Some(notification) {
        record.common_mut().notification = None;
    }
}

// Removes all records from this put with notification.
fn free_all<K: RecordKind>(records: &mut Vec<K>, notification: NotifyId)
    ensures { records.new.items ≡ map (freed K.rules notification) records.old.items }
{
    for record in records.iter_mut() {
        free(record, notification);
    }
}

impl<K: RecordKind, D: Device> Store for OneMap<K, D> {
    type Record = K;

    type Device = D;

    ghost use Rattle.ioc_store.specs.OneMap.{world_of, given_of, with_record, with_follow_ups};
    ghost use Rattle.ioc_store.specs.OneMapLaws.{with_record-world, with_record-given, calls-given, moment-given};
    ghost use Rattle.ioc_store.specs.OneMapLaws.{with_follow_ups-world, with_follow_ups-given};

    ghost world = { world_of };

    ghost given = { given_of };

    ghost with_record = { with_record };

    ghost with_follow_ups = { with_follow_ups };

    ghost with_record_world = { with_record-world };

    ghost with_record_given = { with_record-given };

    ghost calls_given = { calls-given };

    ghost moment_given = { moment-given };

    ghost with_follow_ups_world = { with_follow_ups-world };

    ghost with_follow_ups_given = { with_follow_ups-given };

    fn has(&self, number: RecordNo) -> bool {
        let place = number.index();
        place < self.records.len()
    }

    fn record(&self, number: RecordNo) -> &K {
        let place = number.index();
        &self.records[place]
    }

    fn record_mut(&mut self, number: RecordNo) -> &mut K {
        let place = number.index();
        &mut self.records[place]
    }

    #[tactic(auto, unfolding(crate::specs::World::called))]
    fn ask(&mut self, number: RecordNo, ask: Ask) -> Answer {
        let answer = self.device_gives(number, &ask);
        let call = Call::new(number, ask, answer);
        self.event.calls.push(&call);
        call.answer
    }

    #[tactic(auto, unfolding(crate::specs::World::cancelled))]
    fn cancel(&mut self, notification: NotifyId) {
        free_all(&mut self.records, notification);
        self.event.follow_ups.notifications.forget(notification);
    }

    fn event(&self) -> &EventStore {
        &self.event
    }

    fn follow_ups_mut(&mut self) -> &mut FollowUps {
        let event = &mut self.event;
        &mut event.follow_ups
    }
}
