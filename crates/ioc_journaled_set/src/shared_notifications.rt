//! The puts with notification of all lock sets, in one table.
ghost use Rattle.std.specs.Prelude.{◌≡◌, ◌⊎◌, ◌↔◌, ◌+◌, ◌≤◌, ◌<◌, ◌^◌, ◌∷◌, ◌++◌, ℕ, [], true, false, length, not, IfOk, IfErr};
ghost use Rattle.ioc_journal.specs.Tickets.{spent_by};
ghost use Rattle.std.specs.Prelude.{OnErr, IfNone, List, Some, Contains, IsTrue};
ghost use Rattle.std.specs.List.{filter};
ghost use Rattle.std.specs.Option.{IfSome};
ghost use Rattle.std.specs.Sync.Mutex.{mutex_guard_value};
ghost use Rattle.crossbeam_utils.specs.Seq.{cell_view};
ghost use Rattle.ioc_notify.specs.Living.{is_live};
ghost use Rattle.ioc_notify.specs.Counts.{IsTable, holders_in};
ghost use Rattle.ioc_journal.specs.declared.entry.Note.{Note};
ghost use Rattle.ioc_journal.specs.Counting.{BothMaySend, BothMayCount, IsBacked, IsGivenBack, is_request, once_in};
ghost use Rattle.ioc_journaled_set.specs.Sent.{AreTicketsFor};
ghost use Rattle.ioc_journal.specs.Line.{holder};
ghost use Rattle.ioc_journal.specs.Account.{IsHolder, AreRecords, BothMayFollow, HasCalled, AddedByBoth, number_begun};
ghost use Rattle.ioc_journal.specs.Account.{number_given, puts_key};
ghost use Rattle.ioc_set.specs.SetStore.{world_of};
ghost use Rattle.ioc_journaled_set.specs.Puts.{puts_view, MayTake, NoneMayTake, CanBegin, NoneMayBegin, NoneIsAbove, AreTaken};
ghost use Rattle.ioc_journaled_set.specs.Puts.{AreCounted, AreMoved};
ghost use Rattle.ioc_journaled_set.specs.PutPlaces.{without};

use crate::journal_access::JournalAccess;
use crate::put_places::PutPlaces;
use crate::running::Ran;
use ioc_events::{Call, Event};
use ioc_journal::legal_laws::{lists_leave_sound, live_lasts, one_may_begin};
use ioc_journal::{Appended, DeskAccount, EventCounts, JournalName, KeyPass};
use ioc_notify::table_laws::{lines_tell_holders, tables_are_short};
use ioc_notify::{Live, NotificationCounts, NotifyId};
use ioc_record::RecordKind;
use ioc_set::{EventBuffers, LockSet};
use std::alloc::{AllocError, Global};
use std::marker::{Brand, Model, PhantomData};
use std::sync::{Mutex, MutexGuard, Wait};

/// The live puts with notification, each with the number of records and waiting lists of all sets
/// that are part of it, the numbers taken for those that are about to begin, and the pass that owns
/// their key. Contracts see the lines of the table, these numbers, the last number taken, and the
/// beginning of the journal's list that the pass has seen. The lines are the live puts with
/// notification of the world of all records after that list.
#[derive(Drop)]
pub struct SharedNotifications<K: RecordKind, B: JournalName<K>> {
    pub table: NotificationCounts,
    pub(crate) places: PutPlaces,
    pub(crate) last: u64,
    pub pass: KeyPass,
    of: PhantomData<B>,
    kind: PhantomData<K>,
}

impl<K: RecordKind, B: JournalName<K>> Model for SharedNotifications<K, B> {
    ghost use Rattle.ioc_journaled_set.specs.Puts.{PutsView};
    ghost use Rattle.ioc_journaled_set.specs.PutsViewCode.{puts_code};

    ghost Value = { PutsView };

    ghost coded = { puts_code };

    ghost use Rattle.crossbeam_utils.specs.Seq.{cell_view};
    ghost use Rattle.ioc_journaled_set.specs.Puts.{puts_view, AreKept};

    ghost view = { λ p. puts_view p.table.live p.places.taken p.last (cell_view p.pass).seen };

    ghost invariant = { λ p. AreKept K.rules B.base B.table p.pass p.table p.places p.last };
}

impl<K: RecordKind, B: JournalName<K>> SharedNotifications<K, B> {
    /// An empty table: no put with notification is live, and no number is taken. The pass owns the
    /// key of the puts with notification, and has seen no call.
    ///
    /// # Errors
    ///
    /// [`AllocError`] if allocation fails.
    pub fn new(alloc: Global, pass: KeyPass) -> Result<Self, AllocError>
        requires table { pass.table_id ≡ B.table }
        requires holds { cell_view pass ≡ holder [] puts_key }
        requires none { B.base.live ≡ [] }
        ensures { IfOk result (λ p. p ≡ puts_view [] [] 0 []) }
    {
        let mut table = NotificationCounts::new(alloc);
        table.reserve(512)?;
        let places = PutPlaces::new(alloc)?;
        Ok(SharedNotifications {
            table,
            places,
            last: 0,
            pass,
            of: PhantomData,
            kind: PhantomData,
        })
    }

    /// States the invariant: each put with notification has one line with its count in the world of
    /// all records, none began under a number above the last one taken, and none has begun for which
    /// a number is taken.
    pub fn is_counted(&self)
        ensures table { IsTable self.now.live }
        ensures counted { AreCounted K.rules B.base self.now.live self.now.seen }
        ensures below { NoneIsAbove self.now.last self.now.seen }
        ensures taken { AreTaken self.now.live self.now.taken self.now.last self.now.seen }
    {
        self.table.is_table();
    }

    /// Takes the next number, with a place, for a put with notification that is about to begin.
    /// Returns `None` if none may begin.
    pub fn take(&mut self) -> Option<NotifyId>
        ensures taken { IfSome result (λ n. MayTake self.old n × (self.new
            ≡ puts_view self.old.live (self.old.taken ++ n ∷ []) n self.old.seen)) }
        ensures full { IfNone result (NoneMayTake self.old × (self.new ≡ self.old)) }
    {
        self.table.is_table();
        if self.last == u64::MAX {
            return None;
        }
        let number = NotifyId::new(self.last + 1);
        if self.table.is_live(number) || !self.places.make_room(&self.table) {
            return None;
        }
        self.places.take(number);
        self.last = number.number();
        Some(number)
    }

    /// Frees the place of a number that was taken for a put with notification that doesn't begin.
    /// The number isn't taken again.
    pub fn give_back(&mut self, number: NotifyId)
        ensures { self.new ≡ puts_view self.old.live (without number self.old.taken) self.old.last self.old.seen }
    {
        self.places.give_back(number);
    }

    /// Frees the place of a number that was taken for a put with notification, which begins then.
    /// Returns whether it was taken. If not, nothing has changed.
    pub fn release(&mut self, number: NotifyId) -> bool
        ensures taken { IsTrue result ↔ Contains self.old.taken number }
        ensures can { result ≡ true → CanBegin self.new number }
        ensures freed { result ≡ true → self.new ≡ puts_view self.old.live (without number self.old.taken) self.old.last self.old.seen }
        ensures none { result ≡ false → self.new ≡ self.old }
    {
        if !self.places.has_taken(number) {
            return false;
        }
        self.table.is_table();
        self.places.are_few();
        self.places.give_back(number);
        true
    }
}

// Takes the next number for a put with notification that is about to begin. Returns `None` if none
// may begin.
pub(crate) fn take_number<K: RecordKind, B: JournalName<K>, R: Wait>(
    rt: &R,
    puts: &Mutex<SharedNotifications<K, B>>,
) -> Option<NotifyId>
    ensures full { IfNone result (NoneMayBegin K.rules B.base) }
{
    let mut guard = puts.lock(rt);
    let all = &mut *guard;
    all.is_counted();
    all.take()
}

// Locks the table, in which a number was taken, for a put with notification that begins under it.
// The first turn finds the number: it stays taken until its call begins or gives it back. No clause
// says so, because the table was free meanwhile.
fn lock_taken<'a, K: RecordKind, B: JournalName<K>, R: Wait>(
    rt: &R,
    puts: &'a Mutex<SharedNotifications<K, B>>,
    number: NotifyId,
) -> MutexGuard<'a, SharedNotifications<K, B>>
    ensures can { CanBegin (mutex_guard_value result) number }
{
    for _ in rt.forever() {
        let mut guard = puts.lock(rt);
        if guard.release(number) {
            return guard;
        }
    }
    unreachable!()
}

// Locks the table for an event on a set. If it begins a put with notification, its number was taken
// in the table.
pub(crate) fn lock_for<'a, K: RecordKind, B: JournalName<K>, R: Wait>(
    rt: &R,
    puts: &'a Mutex<SharedNotifications<K, B>>,
    event: &Event,
) -> MutexGuard<'a, SharedNotifications<K, B>>
    ensures can { IfSome (number_begun event.now) (λ number. CanBegin (mutex_guard_value result) number) }
{
    match event {
        Event::Notify { notification, .. } => lock_taken(rt, puts, *notification),
        _ => puts.lock(rt),
    }
}

// Returns the number of the put with notification that an event begins, if it is one.
fn number_begun(event: &Event) -> Option<NotifyId>
    ensures { result ≡ number_begun event.now }
{
    match event {
        Event::Notify { notification, .. } => Some(*notification),
        _ => None,
    }
}

// Gives a place to the put with notification that a call begins, if it begins one.
fn place_begun(places: &mut PutPlaces, made: &Call, live: &NotificationCounts)
    requires room { IfSome (number_given made.now) (λ _. length live.now.live + length places.old.taken < 256) }
    requires new { IfSome (number_given made.now) (λ n. Contains places.old.begun n → ⊥) }
    ensures taken { places.new.taken ≡ places.old.taken }
    ensures own { IfSome (number_given made.now) (λ n. Contains places.new.begun n) }
    ensures kept { (n : ℕ) → is_live n live.now.live ≡ true → Contains places.old.begun n → Contains places.new.begun n }
    ensures within { (n : ℕ) → Contains places.new.begun n → (number_given made.now ≡ Some n) ⊎ Contains places.old.begun n }
{
    let Call::Event(event, _) = made else {
        return;
    };
    if let Some(number) = number_begun(event) {
        places.begin(number, live);
    }
}

// Returns whether a set's live puts with notification and their counts are the same after an event.
fn are_same(before: &[Live], after: &[Live]) -> bool
    ensures { IsTrue result → before.now ≡ after.now }
{
    let count = before.len();
    if after.len() != count {
        return false;
    }
    for i in 0..count {
        let one = before[i];
        let other = after[i];
        if one.number.number() != other.number.number() || one.holders != other.holders {
            return false;
        }
    }
    true
}

// Subtracts the counts that a set had before an event from the table, and adds those that it has
// after it. Most events change no count.
fn recount(table: &mut NotificationCounts, before: &[Live], after: &[Live])
    requires there { (n : ℕ) → holders_in n before.now ≤ holders_in n table.old.live }
    requires fits { (n : ℕ) → holders_in n table.old.live + holders_in n after.now < 2 ^ 64 + holders_in n before.now }
    requires few { length table.old.live ≤ 256 }
    requires few_after { length after.now ≤ 256 }
    requires room { 512 ≤ table.old.room }
    ensures counts { (n : ℕ)
        → holders_in n table.new.live + holders_in n before.now ≡ holders_in n table.old.live + holders_in n after.now }
    ensures room { table.new.room ≡ table.old.room }
{
    if are_same(before, after) {
        return;
    }
    table.take_off(before);
    table.add_on(after);
}

/// Adds an event that was done on a set to the journal, with the keys of the set's records and the
/// key of the puts with notification, and updates the table by the set's counts before and after
/// it. The buffers of the event then tell what has ended among all sets.
#[inline(always)]
pub(crate) fn keep_beside<K: RecordKind, B: JournalName<K>, D, R: Wait>(
    access: &JournalAccess<'_, K, B, R>,
    ran: Ran<K, B>,
    pass: &mut KeyPass,
    all: &mut SharedNotifications<K, B>,
    desk: &mut DeskAccount<K, B>,
    buffers: &mut EventBuffers<K, D>,
    counts: EventCounts<K, B>,
    set: &LockSet<K, D>,
) -> Appended<K, B>
    requires table { pass.old.table_id ≡ B.table }
    requires set { IsHolder (cell_view pass.old) × AreRecords (cell_view pass.old).owns }
    requires follows { BothMayFollow K.rules B.base (cell_view pass.old).seen (cell_view pass.old).owns all.old.seen puts_key ran.entry }
    requires begins { IfSome (number_given ran.entry.call) (λ number. CanBegin all.old number) }
    requires sent { BothMaySend K.rules B.base (cell_view pass.old).seen (cell_view pass.old).owns all.old.seen puts_key ran.entry
        counts.sent }
    requires outbox { counts.sent.once ≡ length (once_in (world_of buffers.old.store).outbox) }
    requires counts { BothMayCount K.rules B.base (cell_view pass.old).seen (cell_view pass.old).owns all.old.seen puts_key ran.entry
        counts.share counts.before counts.after }
    requires backed { IsBacked counts.share counts.before }
    requires moves { (log longer : List Note) → AddedByBoth K.rules B.base (cell_view pass.old).seen (cell_view pass.old).owns
        all.old.seen puts_key ran.entry log longer →
        AreMoved K.rules B.base log longer ran.before.items set.now.live }
    requires few { length set.now.live ≤ 256 }
    ensures call { HasCalled K.rules B.base desk.old ran.entry desk.new }
    ensures receipt { result.receipt ≡ desk.new.seen }
    ensures tickets { AreTicketsFor K.rules B.base desk.new.seen (world_of buffers.old.store).outbox result.tickets }
    ensures spent { result.spent ≡ spent_by (is_request ran.entry.call) counts.ticket }
    ensures share { IsGivenBack counts.share counts.after result.share }
    ensures pass { (pass.new.table_id ≡ B.table) × (cell_view pass.new ≡ holder desk.new.seen (cell_view pass.old).owns) }
    ensures seen { all.new.seen ≡ desk.new.seen }
    ensures taken { (all.new.taken ≡ all.old.taken) × (all.new.last ≡ all.old.last) }
    ensures added { (log : List Note)
        × AddedByBoth K.rules B.base (cell_view pass.old).seen (cell_view pass.old).owns all.old.seen puts_key ran.entry
        log desk.new.seen }
    ensures counted { IsTable all.new.live × AreCounted K.rules B.base all.new.live all.new.seen }
    ensures ended { buffers.new.ended_everywhere.items ≡ filter (λ n. not (is_live n all.new.live)) (world_of buffers.old.store).ended }
    ensures store { buffers.new.store ≡ buffers.old.store }
{
    live_lasts::<K>();
    lines_tell_holders();
    tables_are_short();
    one_may_begin::<K>();
    lists_leave_sound::<K>();
    all.table.is_table();
    let Ran {
        place,
        before,
        reply: _,
        entry,
    } = ran;
    place_begun(&mut all.places, &entry.call, &all.table);
    let appended = access
        .journal
        .append_two::<Brand, R>(access.rt, place, pass, &mut all.pass, desk, entry, counts);
    recount(&mut all.table, &before, set.live_puts());
    all.table.is_table();
    buffers.tell_ended(&all.table);
    all.is_counted();
    appended
}
