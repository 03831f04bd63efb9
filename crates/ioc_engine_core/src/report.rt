//! The end of the engine.
ghost use Rattle.std.specs.Prelude.{◌≡◌, ◌<◌, ◌≤◌, ◌+◌, ℕ, [], All, length, map};
ghost use Rattle.std.specs.Vec.{vec_capacity};
ghost use Rattle.std.specs.FinMap.{len};
ghost use Rattle.std.specs.List.{sum_by};
ghost use Rattle.ioc_journal.specs.Counting.{counts_of, dropped_in};
ghost use Rattle.ioc_ledger.specs.Requests.{capped, no_counts};
ghost use Rattle.ioc_journal.specs.Legal.{map_of};
ghost use Rattle.ioc_store.specs.World.{Has};
ghost use Rattle.ioc_topology.specs.Gathered.{HoldEach};
ghost use Rattle.ioc_watched.specs.Watched.{AreFresh};
ghost use Rattle.ioc_journaled_set.specs.Copies.{IsIn};
ghost use Rattle.ioc_journaled_set.specs.Holding.{IsSoundlyHeld, KeepsDevices, numbers_of};
ghost use Rattle.ioc_journaled_set.specs.SameDevice.{IsDeviceOf};
ghost use Rattle.ioc_engine_core.specs.Ended.{IsEnd, counts_in};
ghost use Rattle.ioc_engine_core.specs.Loading.{IsSpare};
ghost use Rattle.ioc_journal.specs.Ticketed.{AreTicketed};

use crate::cancelling::all_sound;
use crate::ended_journal::EndedJournal;
use crate::engine::EngineCore;
use crate::serving::give_up_waiting;
use ioc_device::Device;
use ioc_journal::legal_laws::lists_leave_sound;
use ioc_journal::{Cell, EngineCounts, Journal, JournalName, TicketTally};
use ioc_journaled_set::{EndedSet, JournaledSet, SetsName, move_all_on};
use ioc_ledger::laws::counts_are_added;
use ioc_ledger::{Tally, TallyShare};
use ioc_record::RecordKind;
use ioc_set::linking::add_counts;
use ioc_topology::Gathered;
use std::alloc::Global;
use std::sync::Wait;

/// What is left of an engine when it ends.
#[derive(Drop)]
pub struct CoreReport<K: RecordKind + Drop, B: SetsName<K, D>, D: Device> {
    /// The lock sets, each with its records and their devices.
    pub sets: Vec<EndedSet<K, B, D>>,
    /// All calls, in one order.
    pub journal: EndedJournal<K, B>,
    /// The numbers of tickets of requests.
    pub tickets: TicketTally,
    /// The number of requests that found their queue full.
    pub requests_dropped: u64,
    /// The number of items that the events of all calls have dropped. It stops at 2^64 - 1.
    pub dropped: u64,
    /// The number of items that events have sent and that couldn't be done.
    pub undone: u64,
    /// The number of requests of scans that were refused.
    pub refused: u64,
}

// Returns the counts of these sets together.
fn counts_of<K: RecordKind + Drop, B: SetsName<K, D>, D: Device>(
    sets: &[EndedSet<K, B, D>],
) -> Tally
    ensures { result ≡ counts_in sets.now }
{
    let mut tally = Tally::default();
    for held in sets {
        add_counts(&mut tally, &held.tally());
    }
    tally
}

// Ends all these sets, in reserved memory, and merges their shares with the parts that no set has.
fn end_all<K: RecordKind + Drop, B: SetsName<K, D>, D: Device>(
    spare: TallyShare<EngineCounts<K, B>>,
    sets: Vec<JournaledSet<K, B, D>>,
    room: Vec<EndedSet<K, B, D>>,
) -> (Vec<EndedSet<K, B, D>>, TallyShare<EngineCounts<K, B>>)
    requires none { spare.counts ≡ no_counts }
    requires room { (room.items ≡ []) × (length sets.items ≤ vec_capacity room) }
    ensures sets { result.0.items ≡ sets.items }
    ensures parts { result.1.parts ≡ spare.parts + sum_by (λ h. len h.set.records) sets.items }
    ensures counts { result.1.counts ≡ counts_in result.0.items }
{
    counts_are_added();
    let mut all = spare;
    let mut ended = room;
    for set in sets {
        ended.push_reserved(set.into_ended(&mut all));
    }
    (ended, all)
}

// Moves these sets on to the whole list of the journal, ends them, and compares their shares, merged
// with the parts that no set has, with the book: the counts of the sets are together those of all
// calls.
fn settle<K: RecordKind + Drop, B: SetsName<K, D>, D: Device, R: Wait>(
    rt: &R,
    cell: &Cell,
    journal: &mut Journal<K, B>,
    spare: TallyShare<EngineCounts<K, B>>,
    gathered: Gathered<JournaledSet<K, B, D>>,
) -> Vec<EndedSet<K, B, D>>
    requires table { cell.now.table.shared.table_id ≡ B.table }
    requires room { (gathered.room.items ≡ []) × (length gathered.sets.items ≤ vec_capacity gathered.room) }
    requires all { (count : ℕ) × IsSpare spare count × HoldEach numbers_of gathered.sets.items count
        × ((n : ℕ) → Has B.base n → n < count) }
    ensures sets { map (λ h. h.set) result.items ≡ map (λ h. h.set) gathered.sets.items }
    ensures sound { All (IsSoundlyHeld K.rules B.base) result.items }
    ensures are_in { All (IsIn (map_of K.rules B.base journal.old.filled)) gathered.sets.items }
    ensures journal { journal.new ≡ journal.old }
    ensures tally { counts_in gathered.sets.items ≡ counts_of K.rules B.base journal.old.filled }
{
    lists_leave_sound::<K>();
    journal.is_legal();
    let Gathered { mut sets, room } = gathered;
    move_all_on(rt, cell, journal, sets.as_mut_slice());
    all_sound(sets.as_slice());
    let (ended, mut share) = end_all(spare, sets, room);
    journal.audit(&mut share);
    ended
}

// States that each record of these sets has its device.
fn all_keep_devices<K: RecordKind + Drop, B: SetsName<K, D>, D: Device>(sets: &[EndedSet<K, B, D>])
    ensures { All (λ h. KeepsDevices (IsDeviceOf D.gives B.devices) h.set) sets.now }
{
    for held in sets {
        held.keeps_devices();
    }
}

// States that each watched record of these sets is marked, or ends as it was told last.
fn all_end_as_told<K: RecordKind + Drop, B: SetsName<K, D>, D: Device>(sets: &[EndedSet<K, B, D>])
    ensures { All (λ h. AreFresh K.rules B.base h.set.records h.watched) sets.now }
{
    for held in sets {
        held.ends_as_told();
    }
}

impl<K: RecordKind + Drop, B: SetsName<K, D>, D: Device> EngineCore<K, B, D> {
    /// Ends the engine. Allocates nothing. Waits forever if a record is in no set.
    pub fn stop<R: Wait>(self, rt: &R, alloc: Global) -> CoreReport<K, B, D>
        ensures end { IsEnd K.rules B.base (IsDeviceOf D.gives B.devices) self.count result.journal.filled result.sets.items }
        ensures tickets { AreTicketed K.rules B.base result.journal.filled result.tickets }
        ensures tally { counts_in result.sets.items ≡ counts_of K.rules B.base result.journal.filled }
        ensures dropped { result.dropped ≡ capped (dropped_in K.rules B.base result.journal.filled) }
    {
        let EngineCore {
            mut sets,
            journal: shared,
            puts: _,
            lists: _,
            queues,
            undone,
            refused,
            spare,
            marks: _,
            history: _,
        } = self;
        give_up_waiting::<K, B, D, R>(rt, &queues, &shared);
        let gathered = sets.gather(rt, alloc);
        let (cell, mut journal) = shared.into_parts();
        lists_leave_sound::<K>();
        journal.is_legal();
        let spare = spare.into_inner().into_share();
        let ended = settle(rt, &cell, &mut journal, spare, gathered);
        all_keep_devices(ended.as_slice());
        all_end_as_told(ended.as_slice());
        let tickets = journal.tickets();
        let dropped = journal.items_dropped();
        CoreReport {
            sets: ended,
            journal: EndedJournal::new(journal, cell),
            tickets,
            requests_dropped: queues.dropped(),
            dropped,
            undone: undone.into_inner(),
            refused: refused.into_inner(),
        }
    }
}

impl<K: RecordKind + Drop, B: SetsName<K, D>, D: Device> CoreReport<K, B, D> {
    /// Returns the counts of requests and of asynchronous answers of all sets together.
    pub fn tally(&self) -> Tally
        ensures { result ≡ counts_in self.now.sets.items }
    {
        counts_of(self.sets.as_slice())
    }
}
