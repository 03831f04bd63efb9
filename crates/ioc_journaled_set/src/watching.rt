//! Watched records of journaled sets. Each is marked, or is what it was after the calls up to which it was told last.
ghost use Rattle.std.specs.Prelude.{◌≡◌, ◌≤◌, ◌+◌, ◌++◌, ◌∷◌, ℕ, [], length, true, false, None, map, if◌then◌else◌, Contains, IfOk, MatchOption};
ghost use Rattle.ioc_journal.specs.Tickets.{spent_by};
ghost use Rattle.ioc_journal.specs.Counting.{is_request};
ghost use Rattle.ioc_events.specs.declared.event.Call.TheVariants as call;
ghost use Rattle.std.specs.Prelude.{IfErr, OnOk, OnErr};
ghost use Rattle.std.specs.List.{list_any};
ghost use Rattle.std.specs.Vec.{vec_capacity};
ghost use Rattle.ioc_events.specs.Step.{names};
ghost use Rattle.ioc_journal.specs.Places.{IsNoPlace};
ghost use Rattle.ioc_set.specs.SetState.{now_of};
ghost use Rattle.ioc_set.specs.NoCalls.{no_call};
ghost use Rattle.ioc_set.specs.Doing.{is_ordinary};
ghost use Rattle.std.specs.Option.{IfSome};
ghost use Rattle.ioc_journal.specs.Account.{number_begun};
ghost use Rattle.ioc_set.specs.SetStore.{world_of};
ghost use Rattle.ioc_watched.specs.Watched.{AreFresh, StayWatched, is_number, told_now, unwatched, newly_watched, watched_by};
ghost use Rattle.ioc_journaled_set.specs.Sent.{AreTicketsFor};
ghost use Rattle.ioc_journaled_set.specs.Puts.{BeginsUnder, HaveEnded};
ghost use Rattle.ioc_journaled_set.specs.Watching.{watched_numbers, IsSameSet, WatchesOn, WatchesThose};
ghost use Rattle.ioc_journaled_set.specs.Holding.{held_view, is_on_record, kept_at_most, numbers_of, watching, Serves};

use crate::journal_access::JournalAccess;
use crate::journaled_set::JournaledSet;
use crate::running::Served;
use crate::sets_name::SetsName;
use crate::shared_notifications::SharedNotifications;
use crate::watch_signs::{NoMoreWatched, NowWatched};
use ioc_device::Device;
use ioc_events::Event;
use ioc_journal::legal_laws::holding_lasts;
use ioc_journal::{Cell, DeskAccount, RequestTickets, pass};
use ioc_ledger::Ticket;
use ioc_names::RecordNo;
use ioc_record::RecordKind;
use ioc_set::{EventBuffers, histories_begin_before};
use ioc_values::IocError;
use ioc_watched::kept_list::{add_to, remove_from, tell_in};
use ioc_watched::{WatchList, Watched};
use std::alloc::{AllocError, Global};
use std::sync::{Mutex, Wait};

/// The room for the watched records of a set after a link change.
#[derive(Drop)]
pub(crate) struct WatchRoom {
    pub list: Box<WatchList>,
    pub records: Vec<Watched>,
}

impl WatchRoom {
    /// Takes room for so many records.
    ///
    /// # Errors
    ///
    /// [`AllocError`] if allocation fails.
    pub fn new(alloc: Global, count: usize) -> Result<Self, AllocError>
        ensures { IfOk result (λ r. (r.records.items ≡ []) × (count ≤ vec_capacity r.records)) }
    {
        let records = Vec::with_capacity(alloc, count)?;
        let list = Box::new(alloc, WatchList::new(alloc))?;
        Ok(WatchRoom { list, records })
    }
}

impl<K: RecordKind + Drop, B: SetsName<K, D>, D: Device> JournaledSet<K, B, D> {
    /// Returns whether a record is watched.
    pub fn is_watched(&self, number: RecordNo) -> bool
        ensures { result ≡ list_any (is_number number) self.now.watched }
    {
        match &self.watched {
            Some(list) => list.is_watched(number),
            None => false,
        }
    }

    /// Returns the sign that a record is watched, if it is.
    pub fn watched_sign(&self, number: RecordNo) -> Option<NowWatched<B>>
        ensures { MatchOption result (list_any (is_number number) self.now.watched ≡ false)
            (λ sign. (sign ≡ number) × (list_any (is_number number) self.now.watched ≡ true)) }
    {
        if self.is_watched(number) {
            return Some(NowWatched::new(number));
        }
        None
    }

    /// Watches a record of the set from now on. It is marked, since it wasn't told yet.
    ///
    /// # Errors
    ///
    /// [`AllocError`] if allocation fails; nothing has changed then.
    pub fn watch(
        &mut self,
        alloc: Global,
        cell: &Cell,
        number: RecordNo,
    ) -> Result<NowWatched<B>, AllocError>
        requires table { cell.now.table.shared.table_id ≡ B.table }
        requires there { Contains (numbers_of self.old) number }
        ensures ok { OnOk result (self.new ≡ watching self.old.set self.old.seen (self.old.watched
            ++ newly_watched number self.old.seen ∷ [])) }
        ensures err { OnErr result (self.new ≡ self.old) }
        ensures sign { IfOk result (λ sign. sign ≡ number) }
    {
        let Some(mut pass) = self.pass.take() else {
            unreachable!();
        };
        let told = pass::copy(cell, &mut pass);
        self.pass = Some(pass);
        add_to(alloc, &mut self.watched, number, told)?;
        Ok(NowWatched::new(number))
    }

    /// Watches a record no more.
    pub fn unwatch(&mut self, number: RecordNo) -> NoMoreWatched<B>
        ensures set { self.new ≡ watching self.old.set self.old.seen (unwatched number self.old.watched) }
        ensures sign { result ≡ number }
    {
        remove_from(&mut self.watched, number);
        NoMoreWatched::new(number)
    }

    /// Takes the mark off a record of the set, if it is watched: whoever calls this has shown what it is now.
    pub fn take_mark(&mut self, cell: &Cell, number: RecordNo)
        requires table { cell.now.table.shared.table_id ≡ B.table }
        requires there { Contains (numbers_of self.old) number }
        ensures { self.new ≡ watching self.old.set self.old.seen (map (told_now number self.old.seen) self.old.watched) }
    {
        if self.watched.is_none() {
            return;
        }
        let Some(mut pass) = self.pass.take() else {
            unreachable!();
        };
        tell_in(&mut self.watched, cell, &mut pass, number);
        self.pass = Some(pass);
    }

    // Returns the number of watched records.
    pub(crate) fn watched_count(&self) -> usize
        ensures { result ≡ length self.now.watched }
    {
        match &self.watched {
            Some(list) => list.len(),
            None => 0,
        }
    }

    // Adds the numbers of the watched records to a list with room for them.
    pub(crate) fn copy_watched(&self, numbers: &mut Vec<RecordNo>)
        requires room { length numbers.old.items + length self.now.watched ≤ vec_capacity numbers.old }
        ensures numbers { numbers.new.items ≡ numbers.old.items ++ watched_numbers self.now.watched }
    {
        if let Some(list) = &self.watched {
            list.copy_numbers(numbers);
        }
    }

    // Watches those of these records that are in the set, in a room for all of them, and no others. Each is marked.
    pub(crate) fn watch_those<R: Wait>(
        &mut self,
        access: &JournalAccess<'_, K, B, R>,
        numbers: &[RecordNo],
        room: WatchRoom,
    )
        requires none { room.records.items ≡ [] }
        requires room { length numbers.now ≤ vec_capacity room.records }
        ensures same { IsSameSet self.new self.old }
        ensures watched { WatchesThose numbers.now self.new }
    {
        let WatchRoom { mut list, records } = room;
        let Some(mut pass) = self.pass.take() else {
            self.watched = None;
            return;
        };
        let mut marks = access.marks.lock(access.rt);
        let cell = access.journal.cell();
        list.fill(numbers, &self.set, cell, &mut pass, records, &mut marks);
        self.pass = Some(pass);
        self.watched = Some(list);
    }

    // Gives the set its list back after a cancel. Each of its records is marked.
    pub(crate) fn keep_marked<R: Wait>(
        &mut self,
        access: &JournalAccess<'_, K, B, R>,
        list: Option<Box<WatchList>>,
    )
        ensures same { IsSameSet self.new self.old }
        ensures watched { WatchesOn (watched_by list) self.new }
    {
        let Some(mut watched) = list else {
            self.keep_watched(None);
            return;
        };
        let mut marks = access.marks.lock(access.rt);
        watched.mark_in(&self.set, &mut marks);
        self.keep_watched(Some(watched));
    }

    // Takes the list of the watched records out of the set, which watches none then.
    pub(crate) fn take_watched(&mut self) -> Option<Box<WatchList>>
        ensures list { watched_by result ≡ self.old.watched }
        ensures fresh { AreFresh K.rules B.base self.old.set.records self.old.watched }
        ensures rest { self.new ≡ held_view self.old.set self.old.seen }
    {
        self.watched.take()
    }

    // Gives the set a list of watched records.
    pub(crate) fn keep_watched(&mut self, list: Option<Box<WatchList>>)
        requires fresh { AreFresh K.rules B.base self.old.set.records (watched_by list) }
        ensures { self.new ≡ watching self.old.set self.old.seen (watched_by list) }
    {
        self.watched = list;
    }

    // Gives the set its list back after an event, before which the list was fresh. The records that the event may have changed are
    // marked.
    fn keep_changed<R: Wait>(
        &mut self,
        access: &JournalAccess<'_, K, B, R>,
        list: Option<Box<WatchList>>,
    )
        requires fresh { AreFresh K.rules B.base self.old.set.base.records (watched_by list) }
        ensures set { self.new.set ≡ self.old.set }
        ensures seen { self.new.seen ≡ self.old.seen }
        ensures stay { StayWatched (watched_by list) self.new.watched }
    {
        let Some(mut watched) = list else {
            self.keep_watched(None);
            return;
        };
        let mut marks = access.marks.lock(access.rt);
        self.set.has_its_base();
        watched.mark_changed(&self.set, &mut marks);
        self.keep_watched(Some(watched));
    }

    // Returns the access by which an event is done on the set. If records of the set are watched, it keeps no event before it in its
    // history, so that the base tells what the event may have changed.
    fn access_for<'a, R>(&self, access: &JournalAccess<'a, K, B, R>) -> JournalAccess<'a, K, B, R>
        ensures { result.history ≡ kept_at_most access.now.history self.now.watched }
    {
        let history = if self.watched_count() == 0 {
            access.history
        } else {
            0
        };
        JournalAccess {
            rt: access.rt,
            alloc: access.alloc,
            journal: access.journal,
            marks: access.marks,
            history,
        }
    }

    // Performs a request, a put or a completion on a set with watched records.
    #[inline(never)]
    pub(crate) fn serve_watched<R: Wait>(
        &mut self,
        access: &JournalAccess<'_, K, B, R>,
        puts: &Mutex<SharedNotifications<K, B>>,
        desk: &mut DeskAccount<K, B>,
        buffers: &mut EventBuffers<K, D>,
        event: &Event,
        moment: u64,
        ticket: &mut Option<Ticket<RequestTickets<K, B>>>,
    ) -> Result<Served<K, B>, IocError>
        requires ordinary { is_ordinary event.now ≡ true }
        requires there { (n : ℕ) → Contains (names event.now) n → Contains (numbers_of self.old) n }
        requires is_call { no_call K.rules (now_of self.old.set) event.now ≡ None }
        ensures serves { IfOk result (λ x. Serves K.rules D.gives B.base access.now.history self.old desk.old moment event.now
            x.reply self.new desk.new (world_of buffers.new.store)) }
        ensures receipt { IfOk result (λ x. x.receipt ≡ desk.new.seen) }
        ensures tickets { IfOk result (λ x. AreTicketsFor K.rules B.base desk.new.seen (world_of buffers.new.store).outbox x.tickets) }
        ensures ended { OnOk result (HaveEnded K.rules B.base (world_of buffers.new.store).ended desk.new.seen
            buffers.new.ended_everywhere.items) }
        ensures refused { IfErr result IsNoPlace }
        ensures err { OnErr result ((self.new ≡ self.old) × (desk.new ≡ desk.old)) }
        ensures ticket { OnErr result (ticket.new ≡ ticket.old) }
        ensures gone { OnOk result (ticket.new ≡ None) }
        ensures spent { IfOk result (λ x. x.spent ≡ spent_by (is_request (call.Event event.now x.reply)) ticket.old) }
    {
        histories_begin_before::<K, D>();
        self.set.is_sound();
        let alone = self.access_for(access);
        let list = self.take_watched();
        let served = self.serve_unwatched(&alone, puts, desk, buffers, event, moment, ticket);
        match served {
            Ok(done) => {
                self.keep_changed(access, list);
                Ok(done)
            }
            Err(refused) => {
                self.keep_watched(list);
                Err(refused)
            }
        }
    }

    // Performs an event on a set on which puts with notification are live, or one may begin, as `serve_counted` does, also if records
    // of it are watched. Not inlined, because such events are rare.
    #[inline(never)]
    pub(crate) fn serve_noted<R: Wait>(
        &mut self,
        access: &JournalAccess<'_, K, B, R>,
        puts: &Mutex<SharedNotifications<K, B>>,
        desk: &mut DeskAccount<K, B>,
        buffers: &mut EventBuffers<K, D>,
        event: &Event,
        moment: u64,
        ticket: &mut Option<Ticket<RequestTickets<K, B>>>,
    ) -> Result<Served<K, B>, IocError>
        requires on_record { is_on_record event.now ≡ true }
        requires there { (n : ℕ) → Contains (names event.now) n → Contains (numbers_of self.old) n }
        requires is_call { no_call K.rules (now_of self.old.set) event.now ≡ None }
        ensures serves { IfOk result (λ x. Serves K.rules D.gives B.base access.now.history self.old desk.old moment event.now
            x.reply self.new desk.new (world_of buffers.new.store)) }
        ensures begins { OnOk result (IfSome (number_begun event.now) (λ number. BeginsUnder K.rules B.base number desk.new.seen)) }
        ensures receipt { IfOk result (λ x. x.receipt ≡ desk.new.seen) }
        ensures tickets { IfOk result (λ x. AreTicketsFor K.rules B.base desk.new.seen (world_of buffers.new.store).outbox x.tickets) }
        ensures ended { OnOk result (HaveEnded K.rules B.base (world_of buffers.new.store).ended desk.new.seen
            buffers.new.ended_everywhere.items) }
        ensures refused { IfErr result IsNoPlace }
        ensures err { OnErr result ((self.new ≡ self.old) × (desk.new ≡ desk.old)) }
        ensures ticket { OnErr result (ticket.new ≡ ticket.old) }
        ensures gone { OnOk result (ticket.new ≡ None) }
        ensures spent { IfOk result (λ x. x.spent ≡ spent_by (is_request (call.Event event.now x.reply)) ticket.old) }
    {
        if self.watched.is_none() {
            return self.serve_counted(access, puts, desk, buffers, event, moment, ticket);
        }
        histories_begin_before::<K, D>();
        self.set.is_sound();
        let alone = self.access_for(access);
        let list = self.take_watched();
        let served = self.serve_counted(&alone, puts, desk, buffers, event, moment, ticket);
        match served {
            Ok(done) => {
                self.keep_changed(access, list);
                Ok(done)
            }
            Err(refused) => {
                self.keep_watched(list);
                Err(refused)
            }
        }
    }
}
