//! The records of a lock set as the store of an event.
ghost use Rattle.std.specs.Prelude.{◌≡◌};
ghost use Rattle.std.specs.FinMap.{len};

use crate::attached::Attached;
use ioc_device::{Answer, Ask, Device};
use ioc_names::RecordNo;
use ioc_notify::NotifyId;
use ioc_record::RecordKind;
use ioc_set_records::{Change, Members};
use ioc_store::{Call, EventStore, FollowUps, Store};

/// The records of a lock set with their devices, and the state of the event.
#[derive(Drop)]
pub struct SetStore<K, D> {
    pub members: Members<K, D>,
    pub event: EventStore,
}

impl<K, D> SetStore<K, D> {
    ghost use Rattle.ioc_set.specs.SetStore.{world_of};
    ghost use Rattle.ioc_store.specs.World.{begun_at};

    /// Begins an event with this time stamp, in nanoseconds since 1970-01-01 00:00 UTC: no device
    /// call is made yet, and nothing is sent.
    pub fn begin_at(&mut self, moment: u64)
        ensures world { world_of self.new ≡ begun_at moment (world_of self.old) }
        ensures members { self.new.members ≡ self.old.members }
    {
        self.event.begin(moment);
    }
}

// Removes the records that are part of a put with notification from it.
#[derive(Drop)]
struct Freeing {
    notification: NotifyId,
}

impl<K: RecordKind> Change<K> for Freeing {
    ghost use Rattle.ioc_store.specs.World.{freed};

    ghost changed = { λ f item. freed K.rules f.notification item };

    fn apply(&self, item: &mut K) {
        if item.common().notification == Some(self.notification) {
            item.common_mut().notification = None;
        }
    }
}

// The effect of an event on the devices of the store leaves the bases unchanged, which are beside
// the devices.
impl<K: RecordKind + Drop, D: Device> Store for SetStore<K, D> {
    type Record = K;

    type Device = Attached<K, D>;

    ghost use Rattle.ioc_set.specs.SetStore.{world_of, given_of, with_record, with_follow_ups};
    ghost use Rattle.ioc_set.specs.SetStoreLaws.{with_record-world, with_record-given, calls-given, moment-given};
    ghost use Rattle.ioc_set.specs.SetStoreLaws.{with_follow_ups-world, with_follow_ups-given};

    ghost world = { world_of };

    ghost given = { given_of };

    ghost with_record = { with_record };

    ghost with_follow_ups = { with_follow_ups };

    ghost with_record_world = { with_record-world };

    ghost with_record_given = { with_record-given };

    ghost calls_given = { calls-given };

    ghost moment_given = { moment-given };

    ghost with_follow_ups_world = { with_follow_ups-world };

    ghost with_follow_ups_given = { with_follow_ups-given };

    #[inline(always)]
    fn has(&self, number: RecordNo) -> bool {
        self.members.has(number)
    }

    #[inline(always)]
    fn record(&self, number: RecordNo) -> &K {
        self.members.record(number)
    }

    #[inline(always)]
    fn record_mut(&mut self, number: RecordNo) -> &mut K {
        self.members.record_mut(number)
    }

    #[tactic(auto, unfolding(ioc_store::specs::World::called))]
    fn ask(&mut self, number: RecordNo, ask: Ask) -> Answer {
        self.members.devices_are_owned();
        let answer = self.members.device_gives(number, &ask, self.event.moment);
        let call = Call::new(number, ask, answer);
        self.event.calls.push(&call);
        call.answer
    }

    #[tactic(auto, unfolding(ioc_store::specs::World::cancelled))]
    fn cancel(&mut self, notification: NotifyId) {
        self.members.change_all(&Freeing { notification });
        self.event.follow_ups.notifications.forget(notification);
    }

    fn event(&self) -> &EventStore {
        &self.event
    }

    fn follow_ups_mut(&mut self) -> &mut FollowUps {
        let event = &mut self.event;
        &mut event.follow_ups
    }
}
