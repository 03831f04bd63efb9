//! The start of an engine.
ghost use Rattle.std.specs.Prelude.{◌≡◌, ◌<◌, ◌-◌, ℕ, ◌^◌, ◌↔◌, [], All, IsTrue, IfOk, IfErr, OnOk, length, map};
ghost use Rattle.crossbeam_utils.specs.Seq.{cell_view};
ghost use Rattle.ioc_journal.specs.Line.{keeper};
ghost use Rattle.ioc_journal.specs.Account.{AreNoDesks, AreRecords};
ghost use Rattle.ioc_journal.specs.Places.{AreAllowed};
ghost use Rattle.ioc_journal.specs.Legal.{IsSound};
ghost use Rattle.std.specs.FinMap.{len};
ghost use Rattle.ioc_store.specs.World.{Has};
ghost use Rattle.ioc_set_records.specs.Joined.{IsClosed};
ghost use Rattle.ioc_set_records.specs.Linked.{AreParts, links_in};
ghost use Rattle.ioc_scan_rules.specs.FirstLists.{first_lists};
ghost use Rattle.ioc_scan_rules.specs.declared.places.Occasion.TheVariants.{Scanning};
ghost use Rattle.ioc_engine_core.specs.Loading.{loaded_world, device_in, IsIdle, IsSpare};
ghost use Rattle.ioc_ledger.specs.Requests.{no_counts};
ghost use Rattle.ioc_ledger.specs.Shared.{share_view, names_of};
ghost use Rattle.ioc_engine_core.specs.declared.starting.StartError.TheVariants.{BadValue, NotAtRest, LinkLeaves};

use crate::engine::{EngineCore, QueuedRequest};
use crate::engine_lists::EngineLists;
use crate::holding::hold_all;
use ioc_device::Device;
use ioc_journal::legal_laws::lists_leave_sound;
use ioc_journal::{
    Cell, EngineCounts, Journal, JournalName, KeyPass, Limits, SharedJournal, TicketCounts, pass,
};
use ioc_journaled_set::{JournaledSet, SetsName, SharedNotifications};
use ioc_ledger::{CountBlanks, TallyBook, TallyShare};
use ioc_record::RecordKind;
use ioc_scan::ScanLists;
use ioc_set_records::loaded_laws::dealt_sets_are_parts;
use ioc_set_records::{Loaded, deal, parts_of};
use ioc_shared_queues::CallbackQueues;
use ioc_topology::Directory;
use ioc_watched::MarkedRecords;
use std::alloc::{AllocError, Global};
use std::sync::ledger::Blank;

/// The reason why an engine can't be started.
#[derive(Clone, Copy, PartialEq, Eq)]
pub enum StartError {
    /// A limit is out of range.
    BadValue,
    /// Allocation fails.
    NoMemory,
    /// A record is active, awaits a completion, or is part of a put with notification.
    NotAtRest,
    /// A link leads to a record that doesn't exist.
    LinkLeaves,
}

// Returns whether a record is idle, awaits no completion, and is part of no put with notification.
fn is_at_rest<K: RecordKind>(item: &K) -> bool
    ensures { IsTrue result ↔ IsIdle K.rules item.now }
{
    let common = item.common();
    !common.active && common.pending.is_none() && common.notification.is_none()
}

// Returns whether all records are at rest.
fn are_at_rest<K: RecordKind, D>(all: &[Loaded<K, D>]) -> bool
    ensures { IsTrue result ↔ All (λ l. IsIdle K.rules l.fields) all.now }
{
    all.iter().all(|loaded| is_at_rest(&loaded.fields))
}

// Creates the table of puts with notification, whose pass gets their key, and the queues of
// requests. Both are empty.
fn new_lists<K: RecordKind, B: JournalName<K>>(
    alloc: Global,
    cell: &Cell,
    master: &mut KeyPass,
) -> Result<
    (
        SharedNotifications<K, B>,
        CallbackQueues<QueuedRequest<K, B>>,
    ),
    AllocError,
>
    requires table { (cell.now.table.shared.table_id ≡ B.table) × (master.old.table_id ≡ B.table) }
    requires master { cell_view master.old ≡ keeper [] (cell_view master.old).born }
    requires born { AreRecords (cell_view master.old).born }
    requires none { B.base.live ≡ [] }
    ensures table { master.new.table_id ≡ B.table }
    ensures master { cell_view master.new ≡ keeper [] (cell_view master.new).born }
    ensures born { AreNoDesks (cell_view master.new).born }
{
    let pass = pass::claim_key(cell, master, 2, 0);
    let puts = SharedNotifications::new(alloc, pass)?;
    let queues = CallbackQueues::new(alloc)?;
    Ok((puts, queues))
}

// Returns the part of each record, if an engine can be started with these records. They are passed
// by reference, so a refusal doesn't drop them.
fn startable_parts<K: RecordKind, D>(
    alloc: Global,
    all: &[Loaded<K, D>],
    limits: Limits,
) -> Result<Vec<usize>, StartError>
    ensures limits { OnOk result (AreAllowed limits) }
    ensures refused { IfErr result (λ e. (e ≡ BadValue) ↔ (AreAllowed limits → ⊥)) }
    ensures idle { OnOk result (All (λ l. IsIdle K.rules l.fields) all.now) }
    ensures closed { OnOk result (IsClosed (links_in K.rules all.now)) }
    ensures parts { IfOk result (λ parts. AreParts K.rules all.now parts.items) }
    ensures rest { IfErr result (λ e. e ≡ NotAtRest → All (λ l. IsIdle K.rules l.fields) all.now → ⊥) }
    ensures leaves { IfErr result (λ e. e ≡ LinkLeaves → IsClosed (links_in K.rules all.now) → ⊥) }
{
    if !limits.are_allowed() {
        return Err(StartError::BadValue);
    }
    if !are_at_rest(all) {
        return Err(StartError::NotAtRest);
    }
    let Ok(found) = parts_of(alloc, all) else {
        return Err(StartError::NoMemory);
    };
    let Some(parts) = found else {
        return Err(StartError::LinkLeaves);
    };
    Ok(parts)
}

// Creates all that an engine has beside the journal: the sets of all parts, the table and the queues.
// The cell, the pass and the share are passed by reference, so a failed allocation drops none of
// them.
fn holdings<K: RecordKind + Drop, B: SetsName<K, D>, D: Device>(
    alloc: Global,
    cell: &Cell,
    master: &mut KeyPass,
    spare: &mut TallyShare<EngineCounts<K, B>>,
    all: Vec<Loaded<K, D>>,
    parts: &[usize],
) -> Result<
    (
        Directory<JournaledSet<K, B, D>>,
        SharedNotifications<K, B>,
        CallbackQueues<QueuedRequest<K, B>>,
    ),
    AllocError,
>
    requires table { (cell.now.table.shared.table_id ≡ B.table) × (master.old.table_id ≡ B.table) }
    requires master { cell_view master.old ≡ keeper [] [] }
    requires spare { spare.old ≡ share_view (2 ^ 64 - 1) no_counts }
    requires base { B.base ≡ loaded_world all.items }
    requires devices { B.devices ≡ device_in all.items }
    requires copies { All (λ l. l.base ≡ l.fields) all.items }
    requires idle { All (λ l. IsIdle K.rules l.fields) all.items }
    requires parts { AreParts K.rules all.items parts.now }
    ensures count { IfOk result (λ x. x.0 ≡ length all.items) }
    ensures known { IfOk result (λ x. (n : ℕ) → Has B.base n → n < x.0) }
    ensures records { IfOk result (λ x. len B.base.records ≡ x.0) }
    ensures table { OnOk result (master.new.table_id ≡ B.table) }
    ensures master { OnOk result (cell_view master.new ≡ keeper [] (cell_view master.new).born) }
    ensures born { OnOk result (AreNoDesks (cell_view master.new).born) }
    ensures sound { OnOk result (IsSound K.rules B.base) }
    ensures spare { IfOk result (λ x. IsSpare spare.new x.0) }
{
    dealt_sets_are_parts::<K, D>();
    lists_leave_sound::<K>();
    let mut sets = deal(alloc, all, parts)?;
    let directory = hold_all::<K, B, D>(alloc, cell, master, spare, sets.as_mut_slice(), parts)?;
    let (puts, queues) = new_lists::<K, B>(alloc, cell, master)?;
    Ok((directory, puts, queues))
}

/// Starts an engine with these records, each with its device, and with their scan lists. No record
/// was requested yet. `B`
/// names the engine: its cell, the world and the devices of the records at the load, the ledger of
/// places, that of tickets, and those of counts. To start an engine, call a function that is generic
/// over such a name with `Brand` for `B`.
///
/// # Errors
///
/// [`StartError`] if the engine can't be started.
pub fn start<K: RecordKind + Drop, B: SetsName<K, D>, D: Device>(
    alloc: Global,
    cell: Cell,
    master: KeyPass,
    blank: Blank,
    tickets: Blank,
    counts: CountBlanks,
    all: Vec<Loaded<K, D>>,
    lists: ScanLists,
    limits: Limits,
) -> Result<EngineCore<K, B, D>, StartError>
    requires table { (cell.table.shared.table_id ≡ B.table) × (master.table_id ≡ B.table) }
    requires master { cell_view master ≡ keeper [] [] }
    requires places { (blank.name ≡ B.places) × (blank.parts ≡ 2 ^ 64 - 1) }
    requires tickets { (tickets.name ≡ B.tickets) × (tickets.parts ≡ 2 ^ 64 - 1) }
    requires counts { B.counts ≡ names_of counts }
    requires base { B.base ≡ loaded_world all.items }
    requires devices { B.devices ≡ device_in all.items }
    requires copies { All (λ l. l.base ≡ l.fields) all.items }
    requires lists { lists ≡ first_lists K.rules Scanning (map (λ l. l.fields) all.items) }
    ensures count { IfOk result (λ e. e.count ≡ length all.items) }
    ensures history { IfOk result (λ e. e.history ≡ limits.history) }
    ensures limits { OnOk result (AreAllowed limits) }
    ensures refused { IfErr result (λ e. (e ≡ BadValue) ↔ (AreAllowed limits → ⊥)) }
    ensures idle { OnOk result (All (λ l. IsIdle K.rules l.fields) all.items) }
    ensures closed { OnOk result (IsClosed (links_in K.rules all.items)) }
    ensures rest { IfErr result (λ e. e ≡ NotAtRest → All (λ l. IsIdle K.rules l.fields) all.items → ⊥) }
    ensures leaves { IfErr result (λ e. e ≡ LinkLeaves → IsClosed (links_in K.rules all.items) → ⊥) }
{
    let lists = EngineLists::new(lists);
    let parts = startable_parts(alloc, &all, limits)?;
    let mut master = master;
    let (counted, mut spare) = TallyBook::open(counts);
    let Ok(held) = holdings::<K, B, D>(alloc, &cell, &mut master, &mut spare, all, &parts) else {
        return Err(StartError::NoMemory);
    };
    let tickets = TicketCounts::new(tickets);
    let Ok((journal, free)) = Journal::new(alloc, master, blank, tickets, counted, limits) else {
        return Err(StartError::NoMemory);
    };
    let Ok(shared) = SharedJournal::new(alloc, cell, journal, free, limits.checkpoint_at) else {
        return Err(StartError::NoMemory);
    };
    let marks = MarkedRecords::new(alloc);
    Ok(EngineCore::new(held, shared, lists, spare, marks, limits.history))
}
