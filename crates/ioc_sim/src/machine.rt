//! The database that a script works on.
ghost use Rattle.std.specs.Prelude.{◌≡◌, ◌≤◌, [], map, Ok, IfOk, OnOk};
ghost use Rattle.std.specs.FinMap.{len};
ghost use Rattle.std.specs.Vec.{vec_capacity};
ghost use Rattle.rec_types.specs.Record.{Record, record_rules};
ghost use Rattle.ioc_process.specs.Rules.{IsSettled};
ghost use Rattle.ioc_dbfile.specs.FirstWorld.{first_world};
ghost use Rattle.ioc_events.specs.declared.event.Event.{Event};
ghost use Rattle.ioc_events.specs.Step.{stepped};
ghost use Rattle.ioc_store.specs.Given.{Answers};
ghost use Rattle.ioc_store.specs.OneMap.{world_of};
ghost use Rattle.ioc_store.specs.World.{World, begun};
ghost use Rattle.ioc_callback.specs.Serving.{no_items};
ghost use Rattle.ioc_scan_rules.specs.declared.places.Occasion.TheVariants.{Scanning};
ghost use Rattle.ioc_scan_rules.specs.FirstLists.{first_lists};
ghost use Rattle.ioc_sim.specs.Deeds.{event_of};
ghost use Rattle.ioc_sim.specs.Machine.{first_queue};

use crate::leads::lead_among;
use crate::scanner::Scanner;
use crate::scripted::Scripted;
use crate::settled::{event_leaves_settled, link_change_keeps};
use crate::tracing::{Deed, Traced, run_deed};
use ioc_dbcommon::{LinkBox, LinkField};
use ioc_dbfile::{Owners, owners_of, owns_device};
use ioc_events::{Reply, run_link};
use ioc_fields::FieldNo;
use ioc_ledger::Tally;
use ioc_links::Link;
use ioc_names::{Names, RecordNo};
use ioc_notify::NotifyId;
use ioc_scan::Listed;
use ioc_scan_rules::first_lists::{first_lists, starters};
use ioc_scan_rules::places::Occasion;
use ioc_store::{EventStore, Frame, OneMap};
use ioc_trace::{TraceLog, TracedMap};
use ioc_values::{Finished, Input};
use rec_types::Record;
use std::alloc::{AllocError, Global};

/// A database with devices whose answers are queued, the counts of requests, scan lists, and
/// waiting requests. Between events no link leaves the database, and a record is active exactly if
/// its completion is pending.
#[derive(Drop)]
pub struct Machine {
    pub(crate) map: OneMap<Record, Scripted>,
    // Open frames of the current event, with room for all records from the load on.
    pub(crate) frames: Vec<Frame>,
    pub(crate) tally: Tally,
    pub(crate) scanner: Scanner,
    pub(crate) owners: Owners,
    // The number of the next put with notification.
    pub(crate) next: u64,
    // The puts with notification that have ended since this was last cleared. Room for all that can
    // be live at once is reserved at the load.
    pub(crate) ended: Vec<NotifyId>,
    // Takes the place of the map during an event, if events are traced.
    traced: Traced,
    pub(crate) alloc: Global,
    ghost settled: { IsSettled record_rules (world_of map) },
    ghost empty: { frames.items ≡ [] },
    ghost room: { len (world_of map).records ≤ vec_capacity frames },
}

// Begins an event, which leaves a settled database settled.
fn begin_event(map: &mut OneMap<Record, Scripted>)
    ensures world { world_of map.new ≡ begun (world_of map.old) }
    ensures devices { map.new.devices ≡ map.old.devices }
    ensures settled { (answers : Answers) (w : World Record) (event : Event) → IsSettled record_rules w
        → IsSettled record_rules (stepped record_rules answers w event).world }
{
    event_leaves_settled();
    map.begin();
}

// Returns a device without queued answers for each record that owns a device.
fn devices_of(alloc: Global, records: &[Record]) -> Result<Vec<Option<Scripted>>, AllocError>
    ensures { IfOk result (λ v. v.items ≡ map (first_queue record_rules) records.now) }
{
    let mut devices = Vec::new(alloc);
    let mut rest = records;
    while let [item, others @ ..] = rest {
        let device = if owns_device(item) {
            Some(Scripted::new(alloc))
        } else {
            None
        };
        devices.push(device)?;
        rest = others;
    }
    Ok(devices)
}

// Returns the scan lists of these records, without waiting requests.
fn scanner_of(alloc: Global, records: &[Record]) -> Result<Scanner, AllocError>
    ensures { IfOk result (λ s. s ≡ record { lists = first_lists record_rules Scanning records.now; queues = no_items }) }
{
    let lists = first_lists(alloc, Occasion::Scanning, records)?;
    Scanner::new(alloc, lists)
}

// Pairs a value with the value of a result. It is generic because dropping the parts of a machine
// one by one is slow to prove.
fn with_first<T: Drop, U>(first: T, second: Result<U, AllocError>) -> Result<(T, U), AllocError>
    ensures { IfOk result (λ x. (x.0 ≡ first) × (second ≡ Ok x.1)) }
{
    let second = second?;
    Ok((first, second))
}

// Returns these records before any event, with their devices, and an empty list of frames with room
// for all records.
fn map_of(
    alloc: Global,
    records: Vec<Record>,
) -> Result<(OneMap<Record, Scripted>, Vec<Frame>), AllocError>
    ensures world { IfOk result (λ m. world_of m.0 ≡ first_world records.items) }
    ensures devices { IfOk result (λ m. m.0.devices.items ≡ map (first_queue record_rules) records.items) }
    ensures empty { IfOk result (λ m. m.1.items ≡ []) }
    ensures room { IfOk result (λ m. len (world_of m.0).records ≤ vec_capacity m.1) }
{
    let devices = devices_of(alloc, records.as_slice())?;
    let event = EventStore::new(alloc)?;
    let map = OneMap::new(records, devices, event);
    let room = map.frames(alloc);
    with_first(map, room)
}

impl Machine {
    ghost use Rattle.ioc_events.specs.declared.event.Event.TheVariants.{Process, Put, Complete};
    ghost use Rattle.ioc_values.specs.Conversion.{input_of};
    ghost use Rattle.ioc_scan_rules.specs.FirstLists.{starters};
    ghost use Rattle.ioc_sim.specs.Leads.{field_of_link};
    ghost use Rattle.ioc_sim.specs.Machine.{loaded_machine, first_machine, Gives, stepped_on, done, notified, given_up};
    ghost use Rattle.ioc_sim.specs.Machine.{relinked_on, linked, each_requested};
    ghost use Rattle.ioc_sim.specs.Machine.{with_ended_kept, with_sent, with_none_ended};
    ghost use Rattle.ioc_sim.specs.SeenMachine.{machine_of};

    // Returns these records before any event. All memory that events need, except for scan lists,
    // is reserved here.
    fn loaded(alloc: Global, records: Vec<Record>) -> Result<Self, AllocError>
        requires { IsSettled record_rules (first_world records.items) }
        ensures { IfOk result (λ m. machine_of m ≡ loaded_machine record_rules records.items) }
    {
        let ended = Vec::with_capacity(alloc, 256)?;
        let scanner = scanner_of(alloc, records.as_slice())?;
        let owners = owners_of(alloc, records.as_slice());
        let places = with_first(scanner, owners)?;
        let map = map_of(alloc, records);
        let parts = with_first(places, map)?;
        let ((scanner, owners), (map, frames)) = parts;
        Ok(Machine {
            map,
            frames,
            tally: Tally::default(),
            scanner,
            owners,
            next: 1,
            ended,
            traced: None,
            alloc,
        })
    }

    // Traces the events from now on to this log, if there is one.
    fn trace_to(&mut self, log: Option<&TraceLog>) -> Result<(), AllocError>
        ensures { machine_of self.new ≡ machine_of self.old }
    {
        if let Some(log) = log {
            self.traced = Some(TracedMap::new(self.alloc, log)?);
        }
        Ok(())
    }

    // Requests these records, each in its own event, and traces them and what follows to this log,
    // if there is one.
    fn request_first(
        &mut self,
        starters: &[Listed],
        log: Option<&TraceLog>,
    ) -> Result<(), AllocError>
        ensures { OnOk result (machine_of self.new ≡ each_requested record_rules (machine_of self.old) starters.now) }
    {
        self.trace_to(log)?;
        self.request_each(starters)
    }

    /// Creates a machine with these records, and processes those with PINI. Its events are traced
    /// to the log, if there is one.
    ///
    /// # Errors
    ///
    /// [`AllocError`] if allocation fails.
    #[tactic(auto, unfolding(ioc_scan_rules::specs::FirstLists::starters))]
    pub fn new(
        alloc: Global,
        records: Vec<Record>,
        log: Option<&TraceLog>,
    ) -> Result<Self, AllocError>
        requires { IsSettled record_rules (first_world records.items) }
        ensures { IfOk result (λ m. machine_of m ≡ first_machine record_rules records.items) }
    {
        let starters = starters(alloc, records.as_slice())?;
        let mut machine = Machine::loaded(alloc, records)?;
        let requested = machine.request_first(starters.as_slice(), log);
        let parts = with_first(machine, requested)?;
        Ok(parts.0)
    }

    /// The records.
    pub fn map(&self) -> &OneMap<Record, Scripted>
        ensures { result.now ≡ self.now.map }
    {
        &self.map
    }

    /// The counts of requests.
    pub fn tally(&self) -> &Tally
        ensures { result.now ≡ self.now.tally }
    {
        &self.tally
    }

    /// Returns the number of dropped items.
    pub fn dropped(&self) -> u64
        ensures { result ≡ self.now.scanner.queues.dropped }
    {
        self.scanner.dropped()
    }

    // Does an event, without taking what it sends, and traces it if events are traced. It is inlined,
    // so that each caller knows the kind of its event.
    #[inline(always)]
    #[tactic(auto, using(crate::proofs::Eventing::closed_on, crate::proofs::Eventing::room_on))]
    fn run(&mut self, deed: &Deed<'_>) -> Reply
        ensures { Gives (stepped_on record_rules (machine_of self.old) (event_of deed.now)) (machine_of self.new) result }
    {
        begin_event(&mut self.map);
        run_deed(
            &mut self.traced,
            &mut self.map,
            &mut self.frames,
            deed,
            &mut self.tally,
        )
    }

    // Changes a link, without taking what the change sends.
    fn relink(&mut self, number: RecordNo, field: FieldNo, link: LinkBox) -> Reply
        ensures { Gives (relinked_on record_rules (machine_of self.old) number field link) (machine_of self.new) result }
    {
        link_change_keeps();
        begin_event(&mut self.map);
        match run_link(&mut self.map, number, field, link) {
            Ok(()) => Reply::Plain,
            Err(refused) => Reply::Refused(refused),
        }
    }

    // Keeps the puts with notification that ended in an event. Not inlined, because in most events
    // none does.
    #[inline(never)]
    fn keep_ended(&mut self) -> Result<(), AllocError>
        ensures { OnOk result (machine_of self.new ≡ with_ended_kept (machine_of self.old)) }
    {
        self.ended
            .extend_from_slice(self.map.event.follow_ups.notifications.ended())
    }

    // Takes what an event has sent, and keeps the puts with notification that ended in it.
    #[tactic(auto, unfolding(crate::specs::Scanner::with_outbox))]
    fn send(&mut self) -> Result<(), AllocError>
        ensures { OnOk result (machine_of self.new ≡ with_sent (machine_of self.old)) }
    {
        self.scanner.do_outbox(&self.map.event.follow_ups.outbox)?;
        if self.map.event.follow_ups.notifications.ended().is_empty() {
            return Ok(());
        }
        self.keep_ended()
    }

    /// Requests a record, and returns the reply.
    ///
    /// # Errors
    ///
    /// [`AllocError`] if allocation fails; not all that the event has sent is taken then.
    pub fn process(&mut self, number: RecordNo) -> Result<Reply, AllocError>
        ensures { IfOk result (λ reply. Gives (done record_rules (machine_of self.old) (Process number))
            (machine_of self.new) reply) }
    {
        let reply = self.run(&Deed::Process(number));
        self.send()?;
        Ok(reply)
    }

    // Requests a record without returning the reply.
    #[inline(never)]
    pub(crate) fn process_untold(&mut self, number: RecordNo) -> Result<(), AllocError>
        ensures { OnOk result (machine_of self.new ≡ (done record_rules (machine_of self.old) (Process number)).machine) }
    {
        let _reply = self.process(number)?;
        Ok(())
    }

    /// Puts the value of a text into a field, and returns the reply.
    ///
    /// # Errors
    ///
    /// [`AllocError`] if allocation fails; not all that the event has sent is taken then.
    pub fn put(
        &mut self,
        number: RecordNo,
        field: FieldNo,
        text: &[u8],
    ) -> Result<Reply, AllocError>
        ensures { IfOk result (λ reply. Gives (done record_rules (machine_of self.old) (Put number field (input_of text.now)))
            (machine_of self.new) reply) }
    {
        let reply = self.run(&Deed::Put(number, field, text));
        self.send()?;
        Ok(reply)
    }

    /// Completes a record with the asynchronous answer of its device.
    ///
    /// # Errors
    ///
    /// [`AllocError`] if allocation fails; not all that the event has sent is taken then.
    pub fn complete(
        &mut self,
        number: RecordNo,
        wait: u64,
        finished: Finished,
    ) -> Result<Reply, AllocError>
        ensures { IfOk result (λ reply. Gives (done record_rules (machine_of self.old) (Complete number wait finished))
            (machine_of self.new) reply) }
    {
        let reply = self.run(&Deed::Complete(number, wait, finished));
        self.send()?;
        Ok(reply)
    }

    /// Changes a link field to this link, which leads where these names and the owners of devices
    /// say.
    ///
    /// # Errors
    ///
    /// [`AllocError`] if allocation fails: for the link, and nothing has changed then, or for what
    /// the event has sent.
    pub fn link(
        &mut self,
        names: &Names,
        number: RecordNo,
        field: FieldNo,
        link: &Link,
    ) -> Result<Reply, AllocError>
        ensures { IfOk result (λ reply. Gives (linked record_rules (machine_of self.old) number field
            (field_of_link record_rules names.now (machine_of self.old).owner
            (machine_of self.old).world number link.now))
            (machine_of self.new) reply) }
    {
        let lead = lead_among(names, &self.map, &self.owners, number, link);
        let kept = LinkBox::new(self.alloc, LinkField { link: *link, lead })?;
        let reply = self.relink(number, field, kept);
        self.send()?;
        Ok(reply)
    }

    /// Puts a value into a field with a notification, under the next number, from 1 on. A refused
    /// put uses no number.
    ///
    /// # Errors
    ///
    /// [`AllocError`] if allocation fails; not all that the event has sent is taken then.
    pub fn notify(
        &mut self,
        number: RecordNo,
        field: FieldNo,
        given: Input,
    ) -> Result<Reply, AllocError>
        ensures { IfOk result (λ reply. Gives (notified record_rules (machine_of self.old) number field given)
            (machine_of self.new) reply) }
    {
        let notification = NotifyId::new(self.next);
        let reply = self.run(&Deed::Notify(number, notification, field, given));
        self.send()?;
        if !matches!(reply, Reply::Refused(_)) {
            self.next = self.next.saturating_add(1);
        }
        Ok(reply)
    }

    /// Cancels a put with notification, which then doesn't end.
    ///
    /// # Errors
    ///
    /// [`AllocError`] if allocation fails; not all that the event has sent is taken then.
    pub fn cancel(&mut self, notification: NotifyId) -> Result<Reply, AllocError>
        ensures { IfOk result (λ reply. Gives (given_up record_rules (machine_of self.old) notification)
            (machine_of self.new) reply) }
    {
        let reply = self.run(&Deed::Cancel(notification));
        self.send()?;
        Ok(reply)
    }

    /// Returns the puts with notification that have ended since they were last forgotten, in order.
    pub fn ended(&self) -> &[NotifyId]
        ensures { result.now ≡ (machine_of self.now).ended }
    {
        self.ended.as_slice()
    }

    /// Forgets the puts with notification that have ended.
    pub fn forget_ended(&mut self)
        ensures { machine_of self.new ≡ with_none_ended (machine_of self.old) }
    {
        self.ended.clear();
    }
}
