//! The end of an engine.
ghost use Rattle.std.specs.Prelude.{◌≡◌, ◌<◌, ◌≤◌, ◌⊎◌, ◌++◌, ℕ, Some, slice_get, [], length, map, take, drop, IfOk, IfSome, IfNone, OnOk};
ghost use Rattle.rec_types.specs.Record.{record_rules};
ghost use Rattle.ioc_journal.specs.Account.{IsEntryOf, calls, calls_by};
ghost use Rattle.ioc_journal.specs.Base.{IsBaseOf};
ghost use Rattle.ioc_journal.specs.Counting.{counts_of, dropped_in};
ghost use Rattle.ioc_ledger.specs.Requests.{capped};
ghost use Rattle.ioc_journal.specs.Legal.{IsLegal, map_of};
ghost use Rattle.ioc_journal.specs.Line.{Begins};
ghost use Rattle.ioc_journaled_set.specs.SameDevice.{IsDeviceOf};
ghost use Rattle.ioc_engine_core.specs.Ended.{IsEnd, counts_in};
ghost use Rattle.ioc_journal.specs.Ticketed.{AreTicketed};
ghost use Rattle.ioc_engine.specs.Stopped.{stopped_of, GivesBack};

use crate::Receipt;
use crate::desk::Desk;
use crate::engine::Engine;
use crate::engine_name::EngineName;
use ioc_device::Device;
use ioc_engine_core::{CoreReport, EndedSet};
use ioc_journal::{JournalBase, JournalEntry, TicketTally};
use ioc_ledger::Tally;
use ioc_names::RecordNo;
use ioc_set_records::Slot;
use rec_types::Record;
use std::alloc::{AllocError, Global};
use std::fmt;
use std::sync::Wait;

/// What is left of an engine when it ends by [`Engine::stop`]: its records with their devices, its
/// journal, and its counts.
///
/// ```rust
/// let mut report = engine.stop(rt);
/// // In nanoseconds since 1970-01-01 00:00 UTC.
/// let moment = report.entry(rt, &mut receipt).map(|entry| entry.moment());
/// let requests = report.tally().begun;
/// let records = report.into_records(alloc)?;
/// ```
#[derive(Drop)]
pub struct Report<B: EngineName<D>, D: Device> {
    pub(crate) core: CoreReport<Record, B, D>,
}

/// A record of an engine that was stopped, with its number and its device, if it has one.
///
/// ```rust
/// for stopped in report.into_records(alloc)? {
///     if stopped.name() == b"level" {
///         return Ok(stopped.device);
///     }
/// }
/// ```
#[derive(Drop)]
pub struct StoppedRecord<D> {
    pub number: RecordNo,
    pub fields: Record,
    pub device: Option<D>,
}

impl<D> StoppedRecord<D> {
    /// Returns the name of the record.
    pub fn name(&self) -> &[u8]
        ensures { result.now ≡ self.now.fields.common.name }
    {
        self.fields.common.name.as_slice()
    }
}

// Appends the records of these slots, each with its device.
fn add_records<D: Drop>(
    all: &mut Vec<StoppedRecord<D>>,
    slots: Vec<Slot<Record, D>>,
) -> Result<(), AllocError>
    ensures { OnOk result (all.new.items ≡ all.old.items ++ map stopped_of slots.items) }
{
    for slot in slots {
        let Slot {
            number,
            fields,
            base: _,
            is_changed: _,
            device,
        } = slot;
        all.push(StoppedRecord {
            number,
            fields,
            device,
        })?;
    }
    Ok(())
}

// Returns the records of these sets, those of one set after another in ascending order of their
// numbers, each with its device.
fn records_in<B: EngineName<D>, D: Device>(
    alloc: Global,
    sets: Vec<EndedSet<Record, B, D>>,
) -> Result<Vec<StoppedRecord<D>>, AllocError>
    ensures { IfOk result (λ all. GivesBack (IsDeviceOf D.gives B.devices) sets.items all.items) }
{
    let mut all = Vec::new(alloc);
    for set in sets {
        set.keeps_devices();
        add_records(&mut all, set.into_slots())?;
    }
    Ok(all)
}

impl<B: EngineName<D>, D: Device, C: Drop> Engine<B, D, C> {
    /// Ends the engine, once all its calls are finished, since it takes the engine by value. It
    /// allocates nothing, so an engine can be stopped even if memory is short.
    pub fn stop<R: Wait>(self, rt: &R) -> Report<B, D>
        ensures end { IsEnd record_rules B.base (IsDeviceOf D.gives B.devices) self.core.count result.core.journal.filled
            result.core.sets.items }
        ensures tickets { AreTicketed record_rules B.base result.core.journal.filled result.core.tickets }
        ensures tally { counts_in result.core.sets.items ≡ counts_of record_rules B.base result.core.journal.filled }
        ensures dropped { result.core.dropped ≡ capped (dropped_in record_rules B.base result.core.journal.filled) }
    {
        let Engine {
            core,
            lookup: _,
            clock: _,
            alloc,
            limits: _,
        } = self;
        Report {
            core: core.stop(rt, alloc),
        }
    }
}

impl<B: EngineName<D>, D: Device> Report<B, D> {
    /// Returns the counts of requests and of asynchronous answers of all lock sets together. Each
    /// count stops at 2^64 - 1.
    pub fn tally(&self) -> Tally
        ensures { result ≡ counts_in self.now.core.sets.items }
    {
        self.core.tally()
    }

    /// Returns the numbers of tickets. Each request among the calls of the journal has spent one; one
    /// was begun for each once request that the events of these calls have sent, and for each request
    /// that an event or an interrupt has put on the callback queues. Those of requests that waited at
    /// the end, were dropped, or were refused are handed back.
    pub fn tickets(&self) -> TicketTally
        ensures { result ≡ self.now.core.tickets }
    {
        self.core.tickets
    }

    /// Returns the number of desks that were opened, also by the engine itself. No call of the
    /// journal is of a desk with this number or a higher one.
    pub fn desks(&self) -> u64
        ensures count { result ≡ self.now.core.journal.desks }
        ensures none { (number : ℕ) → self.now.core.journal.desks ≤ number
            → calls_by number (calls self.now.core.journal.filled) ≡ [] }
    {
        self.core.journal.desks()
    }

    /// Compares a desk with the journal: the calls of the desk among all calls are those that it has
    /// seen of its own. So a program that has kept all its desks, of which
    /// [`Report::desks`] tells the number, knows that the journal has their calls and no others.
    /// Afterwards the desk has seen all calls.
    pub fn compare<R: Wait>(&mut self, rt: &R, desk: &mut Desk<B, D>)
        ensures begins { Begins desk.old.account.seen self.old.core.journal.filled }
        ensures calls { calls_by desk.old.account.number (calls self.old.core.journal.filled)
            ≡ calls_by desk.old.account.number (calls desk.old.account.seen) }
        ensures number { desk.new.account.number ≡ desk.old.account.number }
        ensures seen { desk.new.account.seen ≡ self.old.core.journal.filled }
        ensures same { self.new.core.journal ≡ self.old.core.journal }
    {
        self.core.journal.compare(rt, &mut desk.account);
    }

    /// Returns the number of requests that were dropped because their queue was full: 2,000 wait on
    /// a callback queue at most, and 1,000 on the once queue.
    pub fn requests_dropped(&self) -> u64
        ensures { result ≡ self.now.core.requests_dropped }
    {
        self.core.requests_dropped
    }

    /// Returns the number of items that the events of all calls have dropped, up to 2^64 - 1: an event
    /// may send 256 once requests, posted events and changes of scan lists, and a record has 2^64 - 1
    /// changes. A refused call has dropped nothing.
    pub fn dropped(&self) -> u64
        ensures { result ≡ self.now.core.dropped }
    {
        self.core.dropped
    }

    /// Returns the number of items that events have sent and that couldn't be done: posted events for
    /// whose list allocation failed, and changes of scan lists past the last number of their order.
    pub fn items_undone(&self) -> u64
        ensures { result ≡ self.now.core.undone }
    {
        self.core.undone
    }

    /// Returns the number of requests of [`Engine::scan`] that were refused.
    pub fn refused(&self) -> u64
        ensures { result ≡ self.now.core.refused }
    {
        self.core.refused
    }

    /// Returns the entry of a call in the journal: the desk, the number of the call at its desk,
    /// the event, its time stamp, the answers of devices, and the reply. Returns `None` exactly for
    /// a place before [`Report::first_place`].
    pub fn entry<R: Wait>(&mut self, rt: &R, receipt: &mut Receipt<B>) -> Option<&JournalEntry>
        ensures entry { IfSome result (λ e. IsEntryOf receipt.old self.old.core.journal.filled e.now) }
        ensures begins { Begins receipt.old self.old.core.journal.filled }
        ensures kept { IfSome result (λ _. self.old.core.journal.dropped < length receipt.old) }
        ensures dropped { IfNone result (length receipt.old ≤ self.old.core.journal.dropped) }
    {
        self.core.journal.entry(rt, receipt)
    }

    /// Returns the entry at a place of the journal. Returns `None` exactly for a place before
    /// [`Report::first_place`] and for one past the last.
    pub fn entry_at(&self, place: u64) -> Option<&JournalEntry>
        ensures entry { IfSome result (λ e. slice_get (calls self.now.core.journal.filled) place ≡ Some e.now) }
        ensures kept { IfSome result (λ _. self.now.core.journal.dropped ≤ place) }
        ensures none { IfNone result ((place < self.now.core.journal.dropped) ⊎ (length self.now.core.journal.filled ≤ place)) }
    {
        self.core.journal.entry_at(place)
    }

    /// Returns the place of the first entry that the journal has, which is the number of calls
    /// before the last checkpoint, or 0 if there was none.
    pub fn first_place(&self) -> u64
        ensures { result ≡ self.now.core.journal.dropped }
    {
        self.core.journal.dropped()
    }

    /// Returns the records as they were at the last checkpoint, and the puts with notification that
    /// waited then, or `None` if there was no checkpoint. The calls before it lead from the load to
    /// these records, and the entries of the journal from there to those at the end.
    pub fn base(&self) -> Option<&JournalBase<Record>>
        ensures base { IfSome result (λ base. IsBaseOf
            (map_of record_rules B.base (take self.now.core.journal.dropped self.now.core.journal.filled))
            base.now.records.items base.now.waiting.items) }
        ensures none { IfNone result (self.now.core.journal.dropped ≡ 0) }
        ensures legal { IsLegal record_rules
            (map_of record_rules B.base (take self.now.core.journal.dropped self.now.core.journal.filled))
            (drop self.now.core.journal.dropped self.now.core.journal.filled) }
    {
        self.core.journal.base()
    }

    /// Returns the records of all lock sets, those of one set after another in ascending order of
    /// their numbers, each with its device: the one that the seed gave it, as its own answers left
    /// it.
    ///
    /// # Errors
    ///
    /// [`AllocError`] if allocation fails; the records are dropped then.
    pub fn into_records(self, alloc: Global) -> Result<Vec<StoppedRecord<D>>, AllocError>
        ensures { IfOk result (λ all. GivesBack (IsDeviceOf D.gives B.devices) self.core.sets.items all.items) }
    {
        let Report { core } = self;
        let CoreReport {
            sets,
            journal: _,
            tickets: _,
            requests_dropped: _,
            dropped: _,
            undone: _,
            refused: _,
        } = core;
        records_in(alloc, sets)
    }
}

/// Writes the counts of requests, and how many items events dropped, as the last line of `ioc-replay`
/// does.
impl<B: EngineName<D>, D: Device> fmt::Display for Report<B, D> {
    fn fmt<W: fmt::Write>(&self, f: &mut fmt::Formatter<W>) -> fmt::Result {
        write!(f, "tally {} dropped={}", self.tally(), self.dropped())
    }
}
