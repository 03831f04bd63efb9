//! Sets whose events are added to the journal.
ghost use Rattle.std.specs.Prelude.{◌≡◌, ◌⊎◌, ℕ, true, [], None, Some, Err, IfOk, IfErr, OnOk, OnErr, Contains};
ghost use Rattle.ioc_journal.specs.Tickets.{spent_by};
ghost use Rattle.ioc_journal.specs.Counting.{is_request};
ghost use Rattle.ioc_events.specs.declared.event.Call.TheVariants as call;
ghost use Rattle.std.specs.Option.{IfSome};
ghost use Rattle.crossbeam_utils.specs.Seq.{cell_view};
ghost use Rattle.ioc_events.specs.Step.{names, shown};
ghost use Rattle.ioc_notify.specs.Living.{is_live};
ghost use Rattle.ioc_journaled_set.specs.Sent.{AreTicketsFor};
ghost use Rattle.ioc_journal.specs.Covering.{Holds};
ghost use Rattle.ioc_journal.specs.Legal.{map_of};
ghost use Rattle.ioc_set.specs.SetState.{NoneIsLive, folded, now_of};
ghost use Rattle.ioc_set.specs.NoCalls.{no_call};
ghost use Rattle.ioc_set.specs.Doing.{is_ordinary};
ghost use Rattle.ioc_journal.specs.Places.{IsNoPlace};
ghost use Rattle.ioc_set.specs.SetStore.{world_of};
ghost use Rattle.ioc_journal.specs.Account.{number_begun, HasSeenMore, IsAccount};
ghost use Rattle.ioc_journaled_set.specs.Puts.{BeginsUnder, HaveEnded};
ghost use Rattle.ioc_journaled_set.specs.Holding.{is_on_record, IsCounted, IsLent, IsOwner, KeepsDevices, held_view, numbers_of};
ghost use Rattle.ioc_journaled_set.specs.Holding.{Serves, Tells, IsNoCall};
ghost use Rattle.ioc_journaled_set.specs.SameDevice.{IsDeviceOf};

use crate::call_laws::calls_have_laws;
use crate::counts::{counts_since, take_share};
use crate::journal_access::JournalAccess;
use crate::running::{Served, run_counted, run_with_answers};
use crate::sets_name::SetsName;
use crate::shared_notifications::{SharedNotifications, keep_beside, lock_for};
use ioc_device::Device;
use ioc_events::{Call, Entry, Event, KeptAnswers};
use ioc_fields::FieldNo;
use ioc_journal::count_laws::questions_count_nothing;
use ioc_journal::legal_laws::{events_are_held, holding_lasts};
use ioc_journal::{
    Cell, DeskAccount, EngineCounts, EventCounts, KeyPass, Receipt, RequestTickets, SharedJournal,
    pass,
};
use ioc_ledger::{TallyShare, Ticket};
use ioc_names::RecordNo;
use ioc_notify::NotifyId;
use ioc_notify::table_laws::lines_tell_holders;
use ioc_record::{FieldText, RecordKind};
use ioc_set::{EventBuffers, LockSet, sets_stay_without_puts};
use ioc_values::IocError;
use ioc_watched::WatchList;
use std::alloc::Global;
use std::marker::Model;
use std::sync::{Mutex, Wait};

/// A set, the pass that owns the keys of its records, its share of the engine's counts, and its watched records; only a
/// set without records may have no pass and no share. Contracts see the set, the watched records, and the beginning of the
/// journal's list that the pass has seen: the set is equal to the world of all records at its own records.
#[derive(Drop)]
pub struct JournaledSet<K: RecordKind, B: SetsName<K, D>, D: Device> {
    pub set: LockSet<K, D>,
    pub(crate) pass: Option<KeyPass>,
    pub(crate) share: Option<TallyShare<EngineCounts<K, B>>>,
    // None if no record is watched.
    pub(crate) watched: Option<Box<WatchList>>,
}

impl<K: RecordKind, B: SetsName<K, D>, D: Device> Model for JournaledSet<K, B, D> {
    ghost use Rattle.ioc_journaled_set.specs.Holding.{HeldView};
    ghost use Rattle.ioc_journaled_set.specs.JournaledSetCode.{held_view_code};

    ghost Value = { HeldView K D };

    ghost coded = { held_view_code K.code D.code };

    ghost use Rattle.ioc_journaled_set.specs.Holding.{watching, seen_by, IsHeld, IsCounted};
    ghost use Rattle.ioc_watched.specs.Watched.{AreFresh, watched_by};
    ghost use Rattle.ioc_journaled_set.specs.SameDevice.{IsDeviceOf};

    ghost view = { λ h. watching h.set (seen_by h.pass) (watched_by h.watched) };

    ghost invariant = { λ h. IsHeld K.rules B.base (IsDeviceOf D.gives B.devices) B.table h.pass h.set × IsCounted h.share h.set
        × AreFresh K.rules B.base h.set.records (watched_by h.watched) };
}

impl<K: RecordKind, B: SetsName<K, D>, D: Device> JournaledSet<K, B, D> {
    /// A set with the pass of its records and its share of the engine's counts. The world has the
    /// set's records, and each record has its device.
    pub fn new(
        set: LockSet<K, D>,
        pass: KeyPass,
        share: Option<TallyShare<EngineCounts<K, B>>>,
    ) -> Self
        requires owner { IsOwner B.table pass.table_id (cell_view pass) (now_of set) }
        requires counted { IsCounted share set }
        requires holds { Holds K.rules (map_of K.rules B.base (cell_view pass).seen) (now_of set) }
        requires devices { KeepsDevices (IsDeviceOf D.gives B.devices) set }
        ensures { result ≡ held_view set (cell_view pass).seen }
    {
        JournaledSet {
            set,
            pass: Some(pass),
            share,
            watched: None,
        }
    }

    /// Clears the set's history, and gives its memory back.
    pub fn fold(&mut self, alloc: Global)
        ensures set { self.new.set ≡ folded self.old.set }
        ensures seen { self.new.seen ≡ self.old.seen }
        ensures watched { self.new.watched ≡ self.old.watched }
    {
        self.set.fold(alloc);
    }

    /// Returns the set, the pass that owns the keys of its records, and its share of the engine's
    /// counts. A set without records and pass gets a pass. Its records are watched no more.
    pub fn into_parts(
        self,
        cell: &Cell,
        keeper: &mut KeyPass,
    ) -> (
        LockSet<K, D>,
        KeyPass,
        Option<TallyShare<EngineCounts<K, B>>>,
    )
        requires table { (keeper.old.table_id ≡ B.table) × (cell.now.table.shared.table_id ≡ B.table) }
        ensures keeper { (keeper.new.table_id ≡ keeper.old.table_id) × (cell_view keeper.new ≡ cell_view keeper.old) }
        ensures set { result.0 ≡ self.set }
        ensures lent { IsLent K.rules B.base (IsDeviceOf D.gives B.devices) B.table result.0 (Some result.1) }
        ensures counted { IsCounted result.2 result.0 }
    {
        let JournaledSet {
            set,
            pass: owner,
            share,
            watched: _,
        } = self;
        match owner {
            Some(own) => (set, own, share),
            None => (set, pass::copy(cell, keeper), share),
        }
    }
}

impl<K: RecordKind + Drop, B: SetsName<K, D>, D: Device> JournaledSet<K, B, D> {
    /// Returns whether the put with notification with this number is live on the set.
    pub fn has_live(&self, number: NotifyId) -> bool
        ensures { result ≡ is_live number self.now.set.live }
    {
        self.set
            .live_puts()
            .iter()
            .any(|live| live.number == number)
    }

    /// Moves the set and a desk on to the list of all calls. The set stays as it is. It has a record.
    pub fn learn<R: Wait>(
        &mut self,
        rt: &R,
        journal: &SharedJournal<K, B>,
        desk: &mut DeskAccount<K, B>,
    )
        requires some { (n : ℕ) × Contains (numbers_of self.old) n }
        ensures set { self.new.set ≡ self.old.set }
        ensures watched { self.new.watched ≡ self.old.watched }
        ensures seen { self.new.seen ≡ desk.new.seen }
        ensures desk { HasSeenMore desk.old desk.new }
        ensures account { IsAccount K.rules B.base desk.new.seen }
    {
        holding_lasts::<K>();
        let Some(mut pass) = self.pass.take() else {
            unreachable!();
        };
        journal.tell_both(rt, &mut pass, desk);
        self.pass = Some(pass);
    }

    // Refuses a put that names no field of its record, or one that can't be put. Such a call isn't
    // added to the journal.
    #[inline(always)]
    pub(crate) fn test_call(&self, event: &Event) -> Result<(), IocError>
        requires there { (n : ℕ) → Contains (names event.now) n → Contains (numbers_of self.now) n }
        ensures ok { OnOk result (no_call K.rules (now_of self.now.set) event.now ≡ None) }
        ensures err { IfErr result (λ reason. no_call K.rules (now_of self.now.set) event.now ≡ Some reason) }
    {
        match self.set.no_call(event) {
            Some(reason) => Err(reason),
            None => Ok(()),
        }
    }

    // Performs a request, a put or a completion on a set on which no put with notification is live.
    #[inline(always)]
    fn serve_alone<R: Wait>(
        &mut self,
        access: &JournalAccess<'_, K, B, R>,
        desk: &mut DeskAccount<K, B>,
        buffers: &mut EventBuffers<K, D>,
        event: &Event,
        moment: u64,
        ticket: &mut Option<Ticket<RequestTickets<K, B>>>,
    ) -> Result<Served<K, B>, IocError>
        requires ordinary { is_ordinary event.now ≡ true }
        requires there { (n : ℕ) → Contains (names event.now) n → Contains (numbers_of self.old) n }
        requires is_call { no_call K.rules (now_of self.old.set) event.now ≡ None }
        requires none { NoneIsLive self.old.set }
        requires unwatched { self.old.watched ≡ [] }
        ensures serves { IfOk result (λ x. Serves K.rules D.gives B.base access.now.history self.old desk.old moment event.now
            x.reply self.new desk.new (world_of buffers.new.store)) }
        ensures receipt { IfOk result (λ x. x.receipt ≡ desk.new.seen) }
        ensures tickets { IfOk result (λ x. AreTicketsFor K.rules B.base desk.new.seen (world_of buffers.new.store).outbox x.tickets) }
        ensures ended { OnOk result (HaveEnded K.rules B.base (world_of buffers.new.store).ended desk.new.seen
            buffers.new.ended_everywhere.items) }
        ensures refused { IfErr result IsNoPlace }
        ensures err { OnErr result ((self.new ≡ self.old) × (desk.new ≡ desk.old)) }
        ensures ticket { OnErr result (ticket.new ≡ ticket.old) }
        ensures gone { OnOk result (ticket.new ≡ None) }
        ensures spent { IfOk result (λ x. x.spent ≡ spent_by (is_request (call.Event event.now x.reply)) ticket.old) }
    {
        calls_have_laws::<K>();
        sets_stay_without_puts::<K, D>();
        self.set.is_sound();
        let before = self.set.tally();
        let place = access.journal.reserve(access.rt, access.alloc, desk)?;
        let (reply, answers) = match run_with_answers(
            &mut self.set,
            buffers,
            access.alloc,
            event,
            moment,
            access.history,
        ) {
            Ok(done) => done,
            Err(_refused) => {
                access.journal.give_back(access.rt, desk, place);
                return Err(IocError::NoMemory);
            }
        };
        buffers.ended_everywhere.clear();
        let answer = &reply;
        let entry = Entry {
            moment,
            call: Call::Event(*event, *answer),
            answers,
        };
        let Some(mut pass) = self.pass.take() else {
            unreachable!();
        };
        let share = take_share(&mut self.share);
        let counts = counts_since(share, before, &self.set, buffers, ticket);
        let appended = access
            .journal
            .append(access.rt, place, &mut pass, desk, entry, counts);
        self.pass = Some(pass);
        self.share = appended.share;
        Ok(Served {
            reply,
            receipt: appended.receipt,
            tickets: appended.tickets,
            spent: appended.spent,
        })
    }

    // Performs an event on a set on which puts with notification are live, or one may begin: the
    // counts of all are updated with it. Not inlined, because such events are rare.
    #[inline(never)]
    pub(crate) fn serve_counted<R: Wait>(
        &mut self,
        access: &JournalAccess<'_, K, B, R>,
        puts: &Mutex<SharedNotifications<K, B>>,
        desk: &mut DeskAccount<K, B>,
        buffers: &mut EventBuffers<K, D>,
        event: &Event,
        moment: u64,
        ticket: &mut Option<Ticket<RequestTickets<K, B>>>,
    ) -> Result<Served<K, B>, IocError>
        requires on_record { is_on_record event.now ≡ true }
        requires there { (n : ℕ) → Contains (names event.now) n → Contains (numbers_of self.old) n }
        requires is_call { no_call K.rules (now_of self.old.set) event.now ≡ None }
        requires unwatched { self.old.watched ≡ [] }
        ensures serves { IfOk result (λ x. Serves K.rules D.gives B.base access.now.history self.old desk.old moment event.now
            x.reply self.new desk.new (world_of buffers.new.store)) }
        ensures begins { OnOk result (IfSome (number_begun event.now) (λ number. BeginsUnder K.rules B.base number desk.new.seen)) }
        ensures receipt { IfOk result (λ x. x.receipt ≡ desk.new.seen) }
        ensures tickets { IfOk result (λ x. AreTicketsFor K.rules B.base desk.new.seen (world_of buffers.new.store).outbox x.tickets) }
        ensures ended { OnOk result (HaveEnded K.rules B.base (world_of buffers.new.store).ended desk.new.seen
            buffers.new.ended_everywhere.items) }
        ensures refused { IfErr result IsNoPlace }
        ensures err { OnErr result ((self.new ≡ self.old) × (desk.new ≡ desk.old)) }
        ensures ticket { OnErr result (ticket.new ≡ ticket.old) }
        ensures gone { OnOk result (ticket.new ≡ None) }
        ensures spent { IfOk result (λ x. x.spent ≡ spent_by (is_request (call.Event event.now x.reply)) ticket.old) }
    {
        calls_have_laws::<K>();
        lines_tell_holders();
        self.set.is_sound();
        let tally = self.set.tally();
        let ran = run_counted(access, desk, &mut self.set, buffers, event, moment)?;
        let Some(mut pass) = self.pass.take() else {
            unreachable!();
        };
        let share = take_share(&mut self.share);
        let counts = counts_since(share, tally, &self.set, buffers, ticket);
        let mut guard = lock_for(access.rt, puts, event);
        let all = &mut *guard;
        all.is_counted();
        let reply = ran.reply;
        let appended = keep_beside(
            access, ran, &mut pass, all, desk, buffers, counts, &self.set,
        );
        self.pass = Some(pass);
        self.share = appended.share;
        Ok(Served {
            reply,
            receipt: appended.receipt,
            tickets: appended.tickets,
            spent: appended.spent,
        })
    }

    /// Performs a request, a put or a completion on the set, and adds it to the journal.
    /// [`EventBuffers::ended`] returns the puts with notification that end by it. A request that
    /// comes from a queue spends its own ticket; any other call comes with `None`.
    ///
    /// # Errors
    ///
    /// [`IocError::NoField`] or [`IocError::NoMod`] for a put if the record has no such field or
    /// the field can't be put, [`IocError::JournalFull`] if the journal has no place left, and
    /// [`IocError::NoMemory`] if allocation fails. Nothing has changed then, and the ticket is still
    /// there. Any other refusal is a reply, which is added to the journal too.
    #[inline(always)]
    pub fn serve<R: Wait>(
        &mut self,
        access: &JournalAccess<'_, K, B, R>,
        puts: &Mutex<SharedNotifications<K, B>>,
        desk: &mut DeskAccount<K, B>,
        buffers: &mut EventBuffers<K, D>,
        event: &Event,
        moment: u64,
        ticket: &mut Option<Ticket<RequestTickets<K, B>>>,
    ) -> Result<Served<K, B>, IocError>
        requires ordinary { is_ordinary event.now ≡ true }
        requires there { (n : ℕ) → Contains (names event.now) n → Contains (numbers_of self.old) n }
        ensures serves { IfOk result (λ x. Serves K.rules D.gives B.base access.now.history self.old desk.old moment event.now
            x.reply self.new desk.new (world_of buffers.new.store)) }
        ensures receipt { IfOk result (λ x. x.receipt ≡ desk.new.seen) }
        ensures tickets { IfOk result (λ x. AreTicketsFor K.rules B.base desk.new.seen (world_of buffers.new.store).outbox x.tickets) }
        ensures ended { OnOk result (HaveEnded K.rules B.base (world_of buffers.new.store).ended desk.new.seen
            buffers.new.ended_everywhere.items) }
        ensures refused { IfErr result (IsNoCall K.rules self.old.set event.now) }
        ensures err { OnErr result ((self.new ≡ self.old) × (desk.new ≡ desk.old)) }
        ensures ticket { OnErr result (ticket.new ≡ ticket.old) }
        ensures gone { OnOk result (ticket.new ≡ None) }
        ensures spent { IfOk result (λ x. x.spent ≡ spent_by (is_request (call.Event event.now x.reply)) ticket.old) }
    {
        self.test_call(event)?;
        if self.watched.is_some() {
            return self.serve_watched(access, puts, desk, buffers, event, moment, ticket);
        }
        self.serve_unwatched(access, puts, desk, buffers, event, moment, ticket)
    }

    // Performs a request, a put or a completion on a set of which no record is watched.
    #[inline(always)]
    pub(crate) fn serve_unwatched<R: Wait>(
        &mut self,
        access: &JournalAccess<'_, K, B, R>,
        puts: &Mutex<SharedNotifications<K, B>>,
        desk: &mut DeskAccount<K, B>,
        buffers: &mut EventBuffers<K, D>,
        event: &Event,
        moment: u64,
        ticket: &mut Option<Ticket<RequestTickets<K, B>>>,
    ) -> Result<Served<K, B>, IocError>
        requires ordinary { is_ordinary event.now ≡ true }
        requires there { (n : ℕ) → Contains (names event.now) n → Contains (numbers_of self.old) n }
        requires is_call { no_call K.rules (now_of self.old.set) event.now ≡ None }
        requires unwatched { self.old.watched ≡ [] }
        ensures serves { IfOk result (λ x. Serves K.rules D.gives B.base access.now.history self.old desk.old moment event.now
            x.reply self.new desk.new (world_of buffers.new.store)) }
        ensures receipt { IfOk result (λ x. x.receipt ≡ desk.new.seen) }
        ensures tickets { IfOk result (λ x. AreTicketsFor K.rules B.base desk.new.seen (world_of buffers.new.store).outbox x.tickets) }
        ensures ended { OnOk result (HaveEnded K.rules B.base (world_of buffers.new.store).ended desk.new.seen
            buffers.new.ended_everywhere.items) }
        ensures refused { IfErr result IsNoPlace }
        ensures err { OnErr result ((self.new ≡ self.old) × (desk.new ≡ desk.old)) }
        ensures ticket { OnErr result (ticket.new ≡ ticket.old) }
        ensures gone { OnOk result (ticket.new ≡ None) }
        ensures spent { IfOk result (λ x. x.spent ≡ spent_by (is_request (call.Event event.now x.reply)) ticket.old) }
    {
        if self.set.none_is_live() {
            return self.serve_alone(access, desk, buffers, event, moment, ticket);
        }
        self.serve_counted(access, puts, desk, buffers, event, moment, ticket)
    }

    /// The text of a field, kept in the journal with its moment. It changes nothing in the set.
    ///
    /// # Errors
    ///
    /// [`IocError::NoField`] if the record has no such field, [`IocError::JournalFull`] if the
    /// journal has no place left, and [`IocError::NoMemory`] if allocation fails. Nothing has
    /// changed then.
    pub fn get<R: Wait>(
        &mut self,
        access: &JournalAccess<'_, K, B, R>,
        desk: &mut DeskAccount<K, B>,
        number: RecordNo,
        field: FieldNo,
        moment: u64,
    ) -> Result<(FieldText, Receipt<K, B>), IocError>
        requires there { Contains (numbers_of self.old) number }
        ensures tells { IfOk result (λ x. Tells K.rules B.base self.old desk.old moment number field x.0 self.new desk.new) }
        ensures receipt { IfOk result (λ x. x.1 ≡ desk.new.seen) }
        ensures refused { IfErr result (λ error. (shown K.rules (now_of self.old.set) number field ≡ Err error) ⊎ IsNoPlace error) }
        ensures err { OnErr result ((self.new ≡ self.old) × (desk.new ≡ desk.old)) }
    {
        holding_lasts::<K>();
        events_are_held::<K>();
        questions_count_nothing::<K>();
        let text = self.set.get(number, field)?;
        let place = access.journal.reserve(access.rt, access.alloc, desk)?;
        let entry = Entry {
            moment,
            call: Call::Get(number, field, Ok(text)),
            answers: KeptAnswers::new(Vec::new(access.alloc)),
        };
        let Some(mut pass) = self.pass.take() else {
            unreachable!();
        };
        let appended = access.journal.append(
            access.rt,
            place,
            &mut pass,
            desk,
            entry,
            EventCounts::none(),
        );
        self.pass = Some(pass);
        Ok((text, appended.receipt))
    }
}
