//! Stores of records.
ghost use Rattle.std.specs.Prelude.{◌≡◌, ◌<◌, ◌+◌, ℕ, List, [], ◌∷◌, ◌++◌, length, drop};
ghost use Rattle.std.specs.Borrow.{Lends, sem};
ghost use Rattle.std.specs.FinMap.{contains_key};
ghost use Rattle.ioc_store.specs.World.{World, Has, at, put, called, sent, lost, taken_on, let_go, has_place, admitted, queued};
ghost use Rattle.ioc_store.specs.World.{unqueued, cancelled};
ghost use Rattle.ioc_notify.specs.Living.{is_live};
ghost use Rattle.ioc_store.specs.Given.{Given, DeviceGives, later_among};
ghost use Rattle.ioc_store.specs.FollowUps.{IsEventOf, followed_by};
ghost use Rattle.ioc_store.specs.declared.event_store.FollowUps.{FollowUps};
ghost use Rattle.ioc_store.specs.contracts.event_store.FollowUps.{the_row as follow_ups_row};

use crate::event_store::{EventStore, FollowUps};
use crate::outbox::OutboxItem;
use crate::trace_step::TraceStep;
use ioc_device::{Answer, Ask, Device};
use ioc_names::RecordNo;
use ioc_notify::{NotifyId, Waiting};
use ioc_record::RecordKind;

/// A store of records by their numbers, each with its device.
pub trait Store {
    type Record: RecordKind;

    type Device: Device;

    ghost world: { Self → World Self.Record };

    /// What the devices have done in this event.
    ghost given: { Self → Given Self.Device };

    /// The store with this record set.
    ghost with_record: { Self → ℕ → Self.Record → Self };

    /// The store with these items sent and these puts with notification.
    ghost with_follow_ups: { Self → FollowUps → Self };

    /// Returns whether there is a record with this number.
    fn has(&self, number: RecordNo) -> bool
        ensures { result ≡ contains_key (world self.now).records number };

    fn record(&self, number: RecordNo) -> &Self::Record
        requires { Has (world self.now) number }
        ensures { result.now ≡ at Self.Record.rules (world self.now) number };

    fn record_mut(&mut self, number: RecordNo) -> &mut Self::Record
        requires { Has (world self.old) number }
        ensures* lends { sem 𝓛 (Lends Self.row Self.Record.row self.entry result (with_record self.old number)) }
        ensures value { result.now ≡ at Self.Record.rules (world self.old) number };

    /// Asks the record's device and returns its answer, or a fault if the record has none. Every
    /// other device keeps its state.
    fn ask(&mut self, number: RecordNo, ask: Ask) -> Answer
        requires there { Has (world self.old) number }
        requires room { length (world self.old).calls < 256 }
        ensures world { world self.new ≡ called (record { target = number; ask = ask; answer = result }) (world self.old) }
        ensures calls { (given self.new).calls ≡ (given self.old).calls ++ (record { target = number; ask = ask; answer = result }) ∷ [] }
        ensures moment { (given self.new).moment ≡ (given self.old).moment }
        ensures gives { DeviceGives Self.Device.gives (given self.old).devices (given self.old).moment
            (record { target = number; ask = ask; answer = result }) (given self.new).devices };

    /// Returns the state of the event: its time stamp, its device calls, and what follows it.
    fn event(&self) -> &EventStore
        ensures { IsEventOf result.now (world self.now) };

    /// Returns what follows the event: the items that it sends, and the puts with notification.
    fn follow_ups_mut(&mut self) -> &mut FollowUps
        ensures* lends { sem 𝓛 (Lends Self.row follow_ups_row self.entry result (with_follow_ups self.old)) }
        ensures value { followed_by result.now (world self.old) ≡ world self.old };

    /// Cancels this put with notification: it is removed from all records and from the waiting
    /// list, is no longer live, and does not count as ended.
    fn cancel(&mut self, notification: NotifyId)
        ensures world { world self.new ≡ cancelled Self.Record.rules notification (world self.old) }
        ensures given { given self.new ≡ given self.old };

    /// Is told of a step of processing. Most stores do nothing then; no record and no device
    /// changes.
    #[inline(always)]
    fn trace(&self, _step: &TraceStep<'_>) {}

    ghost with_record_world: { (s : Self) (n : ℕ) (r : Self.Record)
        → Has (world s) n → world (with_record s n r) ≡ put (world s) n r };

    ghost with_record_given: { (s : Self) (n : ℕ) (r : Self.Record)
        → Has (world s) n → given (with_record s n r) ≡ given s };

    ghost calls_given: { (s : Self) → (given s).calls ≡ (world s).calls };

    ghost moment_given: { (s : Self) → (given s).moment ≡ (world s).moment };

    ghost with_follow_ups_world: { (s : Self) (f : FollowUps) → world (with_follow_ups s f) ≡ followed_by f (world s) };

    ghost with_follow_ups_given: { (s : Self) (f : FollowUps) → given (with_follow_ups s f) ≡ given s };

    /// Returns the time stamp of the event, in nanoseconds since 1970-01-01 00:00 UTC.
    final fn moment(&self) -> u64
        ensures { result ≡ (world self.now).moment }
    {
        self.event().moment
    }

    /// Sends an item, or counts it as dropped if 256 were sent already.
    final fn send(&mut self, item: OutboxItem)
        ensures world { world self.new ≡ sent item (world self.old) }
        ensures given { given self.new ≡ given self.old }
    {
        self.follow_ups_mut().outbox.send(item);
    }

    /// Counts an item as dropped.
    final fn count_dropped(&mut self)
        ensures world { world self.new ≡ lost (world self.old) }
        ensures given { given self.new ≡ given self.old }
    {
        self.follow_ups_mut().outbox.count_dropped();
    }

    /// Counts one more record that is part of this put with notification.
    final fn take_on(&mut self, notification: NotifyId)
        ensures world { world self.new ≡ taken_on notification (world self.old) }
        ensures given { given self.new ≡ given self.old }
    {
        self.follow_ups_mut().notifications.take_on(notification);
    }

    /// Counts one record less that is part of this put with notification, which ends with the last
    /// one.
    final fn let_go(&mut self, notification: NotifyId)
        ensures world { world self.new ≡ let_go notification (world self.old) }
        ensures given { given self.new ≡ given self.old }
    {
        self.follow_ups_mut().notifications.let_go(notification);
    }

    /// Returns whether one more put with notification may begin with this number: at most 256 are
    /// live, and the number must be free.
    final fn has_place(&self, notification: NotifyId) -> bool
        ensures { result ≡ has_place (world self.now) notification }
    {
        self.event()
            .follow_ups
            .notifications
            .has_place(notification)
    }

    /// Returns whether this put with notification is live.
    final fn is_live(&self, notification: NotifyId) -> bool
        ensures { result ≡ is_live notification (world self.now).live }
    {
        self.event().follow_ups.notifications.is_live(notification)
    }

    /// Begins a put with notification, with one record or waiting list that is part of it.
    final fn admit(&mut self, notification: NotifyId)
        requires { length (world self.old).live + length (world self.old).ended < 256 }
        ensures world { world self.new ≡ admitted notification (world self.old) }
        ensures given { given self.new ≡ given self.old }
    {
        self.follow_ups_mut().notifications.admit(notification);
    }

    /// Returns the puts with notification that wait for their record, in the order in which they
    /// came.
    final fn waiting(&self) -> &[Waiting]
        ensures { result.now ≡ (world self.now).waiting }
    {
        self.event().follow_ups.notifications.waiting()
    }

    /// Appends a put with notification to those that wait for their record.
    final fn queue(&mut self, item: &Waiting)
        requires { length (world self.old).waiting < 256 }
        ensures world { world self.new ≡ queued item.now (world self.old) }
        ensures given { given self.new ≡ given self.old }
    {
        self.follow_ups_mut().notifications.queue(item);
    }

    /// Removes this put with notification from those that wait.
    final fn unqueue(&mut self, notification: NotifyId)
        ensures world { world self.new ≡ unqueued notification (world self.old) }
        ensures given { given self.new ≡ given self.old }
    {
        self.follow_ups_mut().notifications.unqueue(notification);
    }

    /// Returns the number of device calls made in this event.
    final fn asked(&self) -> usize
        ensures { result ≡ length (world self.now).calls }
    {
        self.event().calls.len()
    }

    /// Returns how many of the calls from `start` on are answered later.
    final fn later_from(&self, start: usize) -> usize
        ensures { result ≡ later_among (drop start (world self.now).calls) }
    {
        self.event().calls.later_from(start)
    }
}
