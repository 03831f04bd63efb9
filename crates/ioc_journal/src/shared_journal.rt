//! The journal under its lock.
ghost use Rattle.std.specs.Prelude.{◌≡◌, ◌<◌, ◌≤◌, ◌++◌, List, [], IfOk, IfErr};
ghost use Rattle.crossbeam_utils.specs.Seq.{cell_view};
ghost use Rattle.ioc_journal.specs.declared.entry.Note.{Note};
ghost use Rattle.ioc_journal.specs.Key.{Key, Has};
ghost use Rattle.ioc_journal.specs.Line.{holder};
ghost use Rattle.ioc_journal.specs.Account.{IsHolder, AreNoDesks, AreRecords, MayFollow, BothMayFollow, MayBegin, HasCalled};
ghost use Rattle.ioc_journal.specs.Account.{Added, AddedByBoth, AreKnown, AreMerged, calls, calls_by};
ghost use Rattle.ioc_journal.specs.Places.{IsNoPlace};
ghost use Rattle.ioc_journal.specs.Counting.{MayAppend, BothMayAppend, MaySend, BothMaySend, MayCount, BothMayCount, IsBacked};
ghost use Rattle.ioc_journal.specs.Counting.{IsGivenBack, IsFew, is_request};
ghost use Rattle.ioc_journal.specs.Tickets.{spent_by};
ghost use Rattle.ioc_ledger.specs.Shared.{MayDivide, AreDivided};
ghost use Rattle.ioc_values.specs.declared.error.IocError.TheVariants.{JournalFull};

use crate::cell::SharedCell;
use crate::desk::DeskAccount;
use crate::entries::Piece;
use crate::entry::JournalEntry;
use crate::event_counts::{EngineCounts, EventCounts};
use crate::free_places::{FreePlaces, Place};
use crate::gate::Gate;
use crate::journal::{Appended, Journal};
use crate::journal_name::JournalName;
use crate::request_tickets::RequestTickets;
use crate::shared_places::SharedPlaces;
use crate::short_lock::lock_soon;
use crate::{Cell, EntryName, KeyPass, Keys};
use crossbeam_utils::CachePadded;
use ioc_events::Entry;
use ioc_ledger::{TallyShare, Tickets};
use ioc_record::RecordKind;
use ioc_values::IocError;
use std::alloc::{AllocError, Global};
use std::marker::{Brand, Model};
use std::sync::{Mutex, MutexGuard, Wait};

/// The journal of an engine under its lock, its free places, and the cell that ties it to the
/// passes under other locks. A call takes a place without that lock, and takes the lock once, to
/// fill it. The lock is held briefly, but for a checkpoint, and no other lock is awaited meanwhile.
/// Contracts see the identity of the cell.
#[derive(Drop)]
pub struct SharedJournal<K: RecordKind, B: JournalName<K>> {
    pub(crate) cell: Cell,
    // Boxed, because an array in a type bounds the type's size in each contract that has it. Padded,
    // as is the gate, because each call reads them, and calls on other threads write to the journal's
    // lock.
    pub(crate) places: CachePadded<Box<SharedPlaces<K, B>>>,
    pub(crate) gate: CachePadded<Gate>,
    // If fewer places are free, a checkpoint is wanted.
    pub(crate) checkpoint_at: u64,
    pub(crate) journal: CachePadded<Mutex<Journal<K, B>>>,
}

impl<K: RecordKind, B: JournalName<K>> Model for SharedJournal<K, B> {
    ghost use Rattle.std.specs.Prelude.{◌≡◌};
    ghost use Rattle.atomic_table.specs.Seated.{TableId, table_id_coded};

    ghost Value = { TableId };

    ghost coded = { table_id_coded };

    ghost view = { λ b. b.cell.table.shared.table_id };

    ghost invariant = { λ b. b.cell.table.shared.table_id ≡ B.table };
}

impl<K: RecordKind + Drop, B: JournalName<K>> SharedJournal<K, B> {
    /// Puts a journal under a lock, with its cell and its free places. A checkpoint is wanted if
    /// fewer than `checkpoint_at` are free.
    ///
    /// # Errors
    ///
    /// [`AllocError`] if allocation fails.
    pub fn new(
        alloc: Global,
        cell: Cell,
        journal: Journal<K, B>,
        free: FreePlaces<K, B>,
        checkpoint_at: u64,
    ) -> Result<Self, AllocError>
        requires table { cell.table.shared.table_id ≡ B.table }
    {
        let places = Box::new(alloc, SharedPlaces::new(free))?;
        Ok(SharedJournal {
            cell,
            places: CachePadded::new(places),
            gate: CachePadded::new(Gate::new()),
            checkpoint_at,
            journal: CachePadded::new(Mutex::new(journal)),
        })
    }
}

impl<K: RecordKind, B: JournalName<K>> SharedJournal<K, B> {
    /// Opens a desk, which has seen all calls and made none.
    ///
    /// # Errors
    ///
    /// [`IocError::JournalFull`] if no number is left for a desk.
    pub fn open_desk<R: Wait>(&self, rt: &R) -> Result<DeskAccount<K, B>, IocError>
        ensures new { IfOk result (λ d. (d.next ≡ 0) × (calls_by d.number (calls d.seen) ≡ [])) }
        ensures refused { IfErr result (λ error. error ≡ JournalFull) }
    {
        lock_soon(rt, &self.journal).open_desk(&self.cell)
    }

    /// Returns the cell that ties the passes together.
    pub fn cell(&self) -> &Cell
        ensures { result.now.table.shared.table_id ≡ B.table }
    {
        &self.cell
    }

    /// Locks the journal, for a checkpoint. No call is added meanwhile.
    pub fn lock<R: Wait>(&self, rt: &R) -> MutexGuard<'_, Journal<K, B>> {
        lock_soon(rt, &self.journal)
    }

    /// Locks free places, to which others can be moved. It is locked before the journal.
    pub fn lock_places<R: Wait>(&self, rt: &R) -> MutexGuard<'_, FreePlaces<K, B>> {
        self.places.lock_stripe(rt, 0)
    }

    /// Takes a place for a call of a desk. If its stripe has none, the journal gets more memory.
    ///
    /// # Errors
    ///
    /// [`IocError::JournalFull`] if no place is free and the limit is reached, or
    /// [`IocError::NoMemory`] if none is free and allocation fails.
    #[inline(always)]
    pub fn reserve<R: Wait>(
        &self,
        rt: &R,
        alloc: Global,
        desk: &DeskAccount<K, B>,
    ) -> Result<Place<K, B>, IocError>
        ensures refused { IfErr result IsNoPlace }
    {
        match self.places.take_spare(rt, desk.number) {
            Some(place) => Ok(place),
            None => self.take_last(rt, alloc, desk.number),
        }
    }

    // Takes the last place of a stripe, or else refills it. If checkpoints are wanted, the next call
    // counts the free places.
    #[inline(never)]
    fn take_last<R: Wait>(
        &self,
        rt: &R,
        alloc: Global,
        caller: u64,
    ) -> Result<Place<K, B>, IocError>
        ensures refused { IfErr result IsNoPlace }
    {
        if self.checkpoint_at != 0 {
            self.gate.ask_to_count();
        }
        match self.places.take(rt, caller) {
            Some(place) => Ok(place),
            None => self.refill(rt, alloc, caller),
        }
    }

    /// Spreads free places over all stripes, as after a checkpoint, which frees all places of one.
    pub fn spread_places<R: Wait>(&self, rt: &R) {
        self.places.spread(rt);
    }

    /// Returns whether calls make checkpoints by themselves.
    pub fn makes_checkpoints(&self) -> bool {
        self.checkpoint_at != 0
    }

    /// Returns the gate that each call looks at before it begins.
    #[inline(always)]
    pub fn gate(&self) -> &Gate {
        &self.gate
    }

    /// Counts the free places, and returns whether there are fewer than `checkpoint_at`. Places that
    /// move between stripes meanwhile may be missed or counted twice.
    pub fn is_short<R: Wait>(&self, rt: &R) -> bool {
        let left = lock_soon(rt, &self.journal).places_left();
        self.places.len(rt).saturating_add(left) < self.checkpoint_at
    }

    // Takes a place for a caller from a stripe that has many, else from a new piece of memory, or else
    // from any stripe.
    fn refill<R: Wait>(&self, rt: &R, alloc: Global, caller: u64) -> Result<Place<K, B>, IocError>
        ensures refused { IfErr result IsNoPlace }
    {
        if let Some(place) = self.places.take_from_others(rt, caller) {
            return Ok(place);
        }
        match self.grow(rt, alloc, caller) {
            Ok(place) => Ok(place),
            Err(refused) => self.places.collect(rt, caller).ok_or(refused),
        }
    }

    // Adds a piece of memory, which is allocated without a lock, and takes a place of it. The
    // caller's stripe is locked meanwhile, so that no one collects while its places are on the way.
    fn grow<R: Wait>(&self, rt: &R, alloc: Global, caller: u64) -> Result<Place<K, B>, IocError>
        ensures refused { IfErr result IsNoPlace }
    {
        let next = lock_soon(rt, &self.journal).places_of_next();
        if next == 0 {
            return Err(IocError::JournalFull);
        }
        let Ok(piece) = Piece::new(alloc, next) else {
            return Err(IocError::NoMemory);
        };
        let mut stripe = self.places.lock_stripe(rt, caller);
        let mut more = lock_soon(rt, &self.journal).add_piece(piece);
        more.move_to(u64::MAX, &mut stripe);
        stripe.take().ok_or(IocError::JournalFull)
    }

    /// Takes back the tickets of once requests that weren't queued.
    pub fn hand_back<R: Wait>(&self, rt: &R, tickets: Tickets<RequestTickets<K, B>>) {
        lock_soon(rt, &self.journal).hand_back_many(tickets);
    }

    /// Frees a place whose call wasn't made.
    pub fn give_back<R: Wait>(&self, rt: &R, desk: &DeskAccount<K, B>, place: Place<K, B>) {
        self.places.give_back(rt, desk.number, place);
    }

    // Adds a call of a desk, of the event that `S` names.
    #[inline(always)]
    fn append_as<S: EntryName, R: Wait>(
        &self,
        rt: &R,
        place: Place<K, B>,
        set: &mut KeyPass,
        desk: &mut DeskAccount<K, B>,
        entry: Entry,
        counts: EventCounts<K, B>,
    ) -> Appended<K, B>
        requires entry { S.entry ≡ entry }
        requires table { set.old.table_id ≡ B.table }
        requires set { IsHolder (cell_view set.old) × AreNoDesks (cell_view set.old).owns }
        requires may { MayAppend K.rules B.base (cell_view set.old) S.entry counts.sent counts.share counts.before counts.after }
        ensures call { HasCalled K.rules B.base desk.old S.entry desk.new }
        ensures receipt { result.receipt ≡ desk.new.seen }
        ensures tickets { IsFew K.rules B.base desk.new.seen → result.tickets ≡ counts.sent.once }
        ensures spent { result.spent ≡ spent_by (is_request S.entry.call) counts.ticket }
        ensures share { IsGivenBack counts.share counts.after result.share }
        ensures set { (set.new.table_id ≡ set.old.table_id) × (cell_view set.new ≡ holder desk.new.seen (cell_view set.old).owns) }
        ensures added { (log : List Note) × Added K.rules B.base (cell_view set.old).seen (cell_view set.old).owns S.entry log
            desk.new.seen }
    {
        let made = JournalEntry {
            desk: desk.number,
            call: desk.next,
            entry,
        };
        let mut guard = lock_soon(rt, &self.journal);
        let journal = &mut *guard;
        let shared = SharedCell {
            rt,
            cell: &self.cell,
        };
        journal.append::<S, R>(&shared, place, set, desk, made, counts)
    }

    /// Adds a call of a desk, with what it counts. The caller holds the lock of the set that the call
    /// concerns; all keys of the set's pass are noted. Afterwards desk and pass know the whole list.
    #[inline(always)]
    pub fn append<R: Wait>(
        &self,
        rt: &R,
        place: Place<K, B>,
        set: &mut KeyPass,
        desk: &mut DeskAccount<K, B>,
        entry: Entry,
        counts: EventCounts<K, B>,
    ) -> Appended<K, B>
        requires table { set.old.table_id ≡ B.table }
        requires set { IsHolder (cell_view set.old) × AreNoDesks (cell_view set.old).owns }
        requires follows { MayFollow K.rules B.base (cell_view set.old).seen (cell_view set.old).owns entry }
        requires begins { MayBegin (cell_view set.old).seen (cell_view set.old).owns entry.call }
        requires sent { MaySend K.rules B.base (cell_view set.old).seen (cell_view set.old).owns entry counts.sent }
        requires counts { MayCount K.rules B.base (cell_view set.old).seen (cell_view set.old).owns entry
            counts.share counts.before counts.after }
        requires backed { IsBacked counts.share counts.before }
        ensures call { HasCalled K.rules B.base desk.old entry desk.new }
        ensures receipt { result.receipt ≡ desk.new.seen }
        ensures tickets { IsFew K.rules B.base desk.new.seen → result.tickets ≡ counts.sent.once }
        ensures spent { result.spent ≡ spent_by (is_request entry.call) counts.ticket }
        ensures share { IsGivenBack counts.share counts.after result.share }
        ensures set { (set.new.table_id ≡ set.old.table_id) × (cell_view set.new ≡ holder desk.new.seen (cell_view set.old).owns) }
        ensures added { (log : List Note) × Added K.rules B.base (cell_view set.old).seen (cell_view set.old).owns entry log desk.new.seen }
    {
        self.append_as::<Brand, R>(rt, place, set, desk, entry, counts)
    }

    // Adds a call of a desk, of the event that `S` names.
    #[inline(always)]
    fn append_two_as<P: Keys, S: EntryName, R: Wait>(
        &self,
        rt: &R,
        place: Place<K, B>,
        one: &mut KeyPass,
        other: &mut KeyPass,
        desk: &mut DeskAccount<K, B>,
        entry: Entry,
        counts: EventCounts<K, B>,
    ) -> Appended<K, B>
        requires entry { S.entry ≡ entry }
        requires table { (one.old.table_id ≡ B.table) × (other.old.table_id ≡ B.table) }
        requires one { IsHolder (cell_view one.old) × AreRecords (cell_view one.old).owns }
        requires other { IsHolder (cell_view other.old) × AreNoDesks (cell_view other.old).owns }
        requires within { (key : Key) → Has key (P.keys ++ P.rest) → Has key ((cell_view one.old).owns ++ (cell_view other.old).owns) }
        requires apart { (key : Key) → Has key P.keys → Has key P.rest → ⊥ }
        requires may { BothMayAppend K.rules B.base (cell_view one.old) (cell_view other.old) S.entry counts.sent counts.share
            counts.before counts.after }
        ensures call { HasCalled K.rules B.base desk.old S.entry desk.new }
        ensures receipt { result.receipt ≡ desk.new.seen }
        ensures tickets { IsFew K.rules B.base desk.new.seen → result.tickets ≡ counts.sent.once }
        ensures spent { result.spent ≡ spent_by (is_request S.entry.call) counts.ticket }
        ensures share { IsGivenBack counts.share counts.after result.share }
        ensures one { (one.new.table_id ≡ one.old.table_id) × (cell_view one.new ≡ holder desk.new.seen P.keys) }
        ensures other { (other.new.table_id ≡ other.old.table_id) × (cell_view other.new ≡ holder desk.new.seen P.rest) }
        ensures added { (log : List Note)
            × AddedByBoth K.rules B.base (cell_view one.old).seen (cell_view one.old).owns (cell_view other.old).seen
            (cell_view other.old).owns S.entry log desk.new.seen }
    {
        let call = desk.next;
        let made = JournalEntry {
            desk: desk.number,
            call,
            entry,
        };
        let mut guard = lock_soon(rt, &self.journal);
        let journal = &mut *guard;
        let shared = SharedCell {
            rt,
            cell: &self.cell,
        };
        journal.append_two::<P, S, R>(&shared, place, one, other, desk, made, counts)
    }

    /// Adds a call of a desk that concerns two sets, both of whose locks the caller holds, with what
    /// it counts. Afterwards the first pass owns the keys of `P` and the second the rest of `P`; the
    /// desk and both passes know the whole list.
    #[inline(always)]
    pub fn append_two<P: Keys, R: Wait>(
        &self,
        rt: &R,
        place: Place<K, B>,
        one: &mut KeyPass,
        other: &mut KeyPass,
        desk: &mut DeskAccount<K, B>,
        entry: Entry,
        counts: EventCounts<K, B>,
    ) -> Appended<K, B>
        requires table { (one.old.table_id ≡ B.table) × (other.old.table_id ≡ B.table) }
        requires one { IsHolder (cell_view one.old) × AreRecords (cell_view one.old).owns }
        requires other { IsHolder (cell_view other.old) × AreNoDesks (cell_view other.old).owns }
        requires within { (key : Key) → Has key (P.keys ++ P.rest) → Has key ((cell_view one.old).owns ++ (cell_view other.old).owns) }
        requires apart { (key : Key) → Has key P.keys → Has key P.rest → ⊥ }
        requires follows { BothMayFollow K.rules B.base (cell_view one.old).seen (cell_view one.old).owns (cell_view other.old).seen
            (cell_view other.old).owns entry }
        requires begins { MayBegin (cell_view other.old).seen (cell_view other.old).owns entry.call }
        requires sent { BothMaySend K.rules B.base (cell_view one.old).seen (cell_view one.old).owns (cell_view other.old).seen
            (cell_view other.old).owns entry counts.sent }
        requires counts { BothMayCount K.rules B.base (cell_view one.old).seen (cell_view one.old).owns (cell_view other.old).seen
            (cell_view other.old).owns entry counts.share counts.before counts.after }
        requires backed { IsBacked counts.share counts.before }
        ensures call { HasCalled K.rules B.base desk.old entry desk.new }
        ensures receipt { result.receipt ≡ desk.new.seen }
        ensures tickets { IsFew K.rules B.base desk.new.seen → result.tickets ≡ counts.sent.once }
        ensures spent { result.spent ≡ spent_by (is_request entry.call) counts.ticket }
        ensures share { IsGivenBack counts.share counts.after result.share }
        ensures one { (one.new.table_id ≡ one.old.table_id) × (cell_view one.new ≡ holder desk.new.seen P.keys) }
        ensures other { (other.new.table_id ≡ other.old.table_id) × (cell_view other.new ≡ holder desk.new.seen P.rest) }
        ensures added { (log : List Note)
            × AddedByBoth K.rules B.base (cell_view one.old).seen (cell_view one.old).owns (cell_view other.old).seen
            (cell_view other.old).owns entry log desk.new.seen }
    {
        self.append_two_as::<P, Brand, R>(rt, place, one, other, desk, entry, counts)
    }

    /// Moves calls that are answered later from the counts of a share to those of another, which has
    /// none yet. A full count stays full.
    pub fn divide_started<R: Wait>(
        &self,
        rt: &R,
        share: &mut TallyShare<EngineCounts<K, B>>,
        other: &mut TallyShare<EngineCounts<K, B>>,
        started: u64,
        count: u64,
    )
        requires may { MayDivide share.old other.old started count }
        ensures divided { AreDivided share.old other.old count share.new other.new }
    {
        lock_soon(rt, &self.journal).divide_started(share, other, started, count);
    }

    /// Compares two passes: they have no key in common. Afterwards both know the same list.
    pub fn compare<R: Wait>(&self, rt: &R, one: &mut KeyPass, other: &mut KeyPass)
        requires table { (one.old.table_id ≡ B.table) × (other.old.table_id ≡ B.table) }
        requires holders { IsHolder (cell_view one.old) × IsHolder (cell_view other.old) }
        ensures table { (one.new.table_id ≡ one.old.table_id) × (other.new.table_id ≡ other.old.table_id) }
        ensures known { (log : List Note)
            × AreKnown K.rules B.base (cell_view one.old) (cell_view other.old) log (cell_view one.new)
            (cell_view other.new) }
        ensures apart { (key : Key) → Has key (cell_view one.old).owns → Has key (cell_view other.old).owns → ⊥ }
    {
        let mut guard = lock_soon(rt, &self.journal);
        let journal = &mut *guard;
        journal.compare(rt, &self.cell, one, other);
    }

    /// Moves the keys of the second pass to the first. Afterwards the second owns nothing, and both
    /// know the same list.
    pub fn merge<R: Wait>(&self, rt: &R, one: &mut KeyPass, other: &mut KeyPass)
        requires table { (one.old.table_id ≡ B.table) × (other.old.table_id ≡ B.table) }
        requires holders { IsHolder (cell_view one.old) × IsHolder (cell_view other.old) }
        ensures table { (one.new.table_id ≡ one.old.table_id) × (other.new.table_id ≡ other.old.table_id) }
        ensures merged { (log : List Note)
            × AreMerged K.rules B.base (cell_view one.old) (cell_view other.old) log (cell_view one.new)
            (cell_view other.new) }
        ensures apart { (key : Key) → Has key (cell_view one.old).owns → Has key (cell_view other.old).owns → ⊥ }
    {
        let mut guard = lock_soon(rt, &self.journal);
        let journal = &mut *guard;
        journal.merge(rt, &self.cell, one, other);
    }
}
