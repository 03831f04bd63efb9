//! All calls of an engine in one order.
ghost use Rattle.std.specs.Prelude.{◌≡◌, ◌↔◌, ◌<◌, ◌≤◌, ◌+◌, ◌-◌, ◌^◌, ◌++◌, [], if◌then◌else◌, length, IfOk, IfErr, OnOk, OnErr};
ghost use Rattle.crossbeam_utils.specs.Seq.{cell_view};
ghost use Rattle.ioc_journal.specs.Key.{Key, Has};
ghost use Rattle.ioc_journal.specs.Line.{keeper, holder, Continues};
ghost use Rattle.ioc_journal.specs.Desks.{IsReceipt};
ghost use Rattle.ioc_journal.specs.Legal.{IsLegal, IsSound};
ghost use Rattle.ioc_values.specs.declared.error.IocError.TheVariants.{JournalFull};
ghost use Rattle.ioc_journal.specs.Account.{AreNoDesks, AreRecords, IsHolder, HasCalled, Added, AddedByBoth, AreMerged, calls};
ghost use Rattle.ioc_journal.specs.Account.{calls_by, journalled};
ghost use Rattle.ioc_journal.specs.Counting.{MayAppend, BothMayAppend, IsGivenBack, IsFew, is_request, counts_of, dropped_in};
ghost use Rattle.ioc_ledger.specs.Requests.{capped, no_counts};
ghost use Rattle.ioc_ledger.specs.Shared.{MayDivide, AreDivided};
ghost use Rattle.ioc_journal.specs.Ticketed.{AreTicketed};
ghost use Rattle.ioc_journal.specs.Tickets.{tickets_view, TakesTicket, AreCalled, AreBack, spent_by};
ghost use Rattle.ioc_ledger.specs.Counts.{counts};
ghost use Rattle.ioc_journal.specs.Places.{AreAllowed, journal_of, one_more_desk, with_tickets};

use crate::base::JournalBase;
use crate::cell::SharedCell;
use crate::desk::DeskAccount;
use crate::entries::{Entries, Piece};
use crate::entry::JournalEntry;
use crate::event_counts::{EngineCounts, EventCounts, count_dropped, record_event};
use crate::free_places::{FreePlaces, Place};
use crate::journal_name::JournalName;
use crate::key_division::{deal, take_over};
use crate::limits::Limits;
use crate::receipt::Receipt;
use crate::request_tickets::{CallTickets, RequestTickets, SpentTicket, TicketCounts, TicketTally};
use crate::{Cell, EntryName, KeyPass, Keys, pass};
use ioc_ledger::{TallyBook, TallyShare, Ticket, Tickets};
use ioc_record::RecordKind;
use ioc_values::IocError;
use std::alloc::{AllocError, Global};
use std::marker::{Brand, Model, PhantomData};
use std::sync::Wait;
use std::sync::ledger::Blank;

/// All calls of an engine, each with its desk and its number. Contracts see them as one list with
/// the keys that each call concerns, the number of those calls whose entries were dropped, the
/// number of places that have memory, the limit of that number, and the number of desks that were
/// opened.
#[derive(Drop)]
pub struct Journal<K: RecordKind, B: JournalName<K>> {
    pub(crate) entries: Entries<K, B>,
    // The number of calls whose entries were dropped, and where these lead.
    pub(crate) dropped: u64,
    pub(crate) from: Option<JournalBase<K>>,
    pub(crate) desks: u64,
    pub(crate) tickets: TicketCounts<K, B>,
    // The counts of all calls.
    pub(crate) counted: TallyBook<EngineCounts<K, B>>,
    // The number of items that the events of all calls have dropped.
    pub(crate) items_dropped: u64,
    pub(crate) pass: KeyPass,
}

impl<K: RecordKind, B: JournalName<K>> Model for Journal<K, B> {
    ghost use Rattle.ioc_journal.specs.declared.entry.Note.{Note};
    ghost use Rattle.ioc_journal.specs.Places.{JournalOf};
    ghost use Rattle.ioc_journal.specs.PlacesCode.{journal_code};

    ghost Value = { JournalOf Note };

    ghost coded = { journal_code };

    ghost use Rattle.crossbeam_utils.specs.Seq.{cell_view};
    ghost use Rattle.ioc_journal.specs.Desks.{IsKept};
    ghost use Rattle.ioc_journal.specs.Places.{journal_of};

    ghost view = { λ j. journal_of (cell_view j.pass).seen j.dropped j.entries.given j.entries.limit j.desks j.tickets };

    ghost invariant = { λ j. IsKept K.rules B.base B.table j.pass.table_id (cell_view j.pass) j.entries.filled j.dropped j.from j.desks
        j.tickets j.counted j.items_dropped };
}

/// A call that was added to the journal.
#[derive(Drop)]
pub struct Appended<K: RecordKind, B: JournalName<K>> {
    pub receipt: Receipt<K, B>,
    /// The tickets of the once requests that the event has sent.
    pub tickets: Tickets<RequestTickets<K, B>>,
    /// The ticket with which the call came, if it is a request that came with one.
    pub spent: Option<SpentTicket<K, B>>,
    /// The share of the set on which the event was done, if it came with one.
    pub share: Option<TallyShare<EngineCounts<K, B>>>,
}

impl<K: RecordKind, B: JournalName<K>> Appended<K, B> {
    // The call at this place, from a pass that knows the list up to it.
    #[inline(always)]
    fn new(
        place: u64,
        pass: KeyPass,
        tickets: CallTickets<K, B>,
        share: Option<TallyShare<EngineCounts<K, B>>>,
    ) -> Self
        requires ends { IsReceipt K.rules B.base B.table pass.table_id (cell_view pass) place }
        ensures receipt { result.receipt ≡ (cell_view pass).seen }
        ensures tickets { result.tickets ≡ tickets.begun }
        ensures spent { result.spent ≡ tickets.spent }
        ensures share { result.share ≡ share }
    {
        let receipt = Receipt {
            place,
            pass,
            of: PhantomData,
            kind: PhantomData,
        };
        Appended {
            receipt,
            tickets: tickets.begun,
            spent: tickets.spent,
            share,
        }
    }
}

impl<K: RecordKind, B: JournalName<K>> Journal<K, B> {
    /// Creates a journal without calls, with the tickets of their requests and the book of their
    /// counts, and the free places that it has memory for. The keeper's pass has created only keys of
    /// records.
    ///
    /// # Errors
    ///
    /// [`AllocError`] if allocation fails.
    pub fn new(
        alloc: Global,
        master: KeyPass,
        blank: Blank,
        tickets: TicketCounts<K, B>,
        counted: TallyBook<EngineCounts<K, B>>,
        limits: Limits,
    ) -> Result<(Self, FreePlaces<K, B>), AllocError>
        requires table { master.table_id ≡ B.table }
        requires pass { cell_view master ≡ keeper [] (cell_view master).born }
        requires given { AreNoDesks (cell_view master).born }
        requires name { blank.name ≡ B.places }
        requires parts { blank.parts ≡ 2 ^ 64 - 1 }
        requires none { (tickets ≡ tickets_view (counts 0 0 0 0) 0 0 0) × (counted ≡ no_counts) }
        requires limits { AreAllowed limits }
        requires sound { IsSound K.rules B.base }
        ensures { IfOk result (λ x. x.0 ≡ journal_of [] 0 x.1 limits.journal 0 tickets) }
    {
        let (entries, free) = Entries::new(alloc, blank, limits)?;
        Ok((
            Journal::without_calls(entries, tickets, counted, master),
            free,
        ))
    }

    // Creates a journal with these entries, of which there are none.
    fn without_calls(
        entries: Entries<K, B>,
        tickets: TicketCounts<K, B>,
        counted: TallyBook<EngineCounts<K, B>>,
        master: KeyPass,
    ) -> Self
        requires none { (entries.filled ≡ []) × (counted ≡ no_counts) }
        requires tickets { tickets ≡ tickets_view (counts 0 0 0 0) 0 0 0 }
        requires table { master.table_id ≡ B.table }
        requires pass { cell_view master ≡ keeper [] (cell_view master).born }
        requires given { AreNoDesks (cell_view master).born }
        requires sound { IsSound K.rules B.base }
        ensures { result ≡ journal_of [] 0 entries.given entries.limit 0 tickets }
    {
        Journal {
            entries,
            dropped: 0,
            from: None,
            desks: 0,
            tickets,
            counted,
            items_dropped: 0,
            pass: master,
        }
    }

    /// Returns the number of calls, with those whose entries were dropped.
    #[inline(always)]
    pub fn len(&self) -> u64
        ensures count { result ≡ length self.now.filled }
        ensures few { result < 2 ^ 64 - 1 }
    {
        self.dropped + self.entries.len() as u64
    }

    /// Opens a desk, which has seen all calls and made none. Its number is the number of desks
    /// opened before.
    ///
    /// # Errors
    ///
    /// [`IocError::JournalFull`] exactly if no number is left for a desk.
    pub fn open_desk(&mut self, cell: &Cell) -> Result<DeskAccount<K, B>, IocError>
        requires table { cell.now.table.shared.table_id ≡ B.table }
        ensures desk { IfOk result (λ d. (d.number ≡ self.old.desks) × (d.next ≡ 0) × (d.seen ≡ self.old.filled)
            × (calls_by d.number (calls d.seen) ≡ [])) }
        ensures opened { OnOk result (self.new ≡ one_more_desk self.old) }
        ensures refused { IfErr result (λ error. (error ≡ JournalFull) × (self.old.desks ≡ 2 ^ 64 - 1)) }
        ensures same { OnErr result (self.new ≡ self.old) }
    {
        if self.desks == u64::MAX {
            return Err(IocError::JournalFull);
        }
        let number = self.desks;
        let pass = pass::claim_key(cell, &mut self.pass, 1, number);
        self.desks += 1;
        Ok(DeskAccount {
            number,
            next: 0,
            pass,
            of: PhantomData,
            kind: PhantomData,
        })
    }

    /// Returns the number of places that have no memory yet.
    pub fn places_left(&self) -> u64
        ensures { self.now.given + result ≡ self.now.limit }
    {
        self.entries.places_left()
    }

    /// Returns the number of places that one more piece of memory would have, which is 0 if the
    /// limit is reached.
    pub fn places_of_next(&self) -> u64
        ensures { (result ≡ 0) ↔ (self.now.given ≡ self.now.limit) }
    {
        self.entries.places_of_next()
    }

    /// Adds a piece of memory, whose places are free.
    pub fn add_piece(&mut self, piece: Piece) -> FreePlaces<K, B>
        ensures given { self.new ≡ journal_of self.old.filled self.old.dropped (self.old.given + result) self.old.limit self.old.desks
            self.old.tickets }
        ensures none { (result ≡ 0) ↔ (self.old.given ≡ self.old.limit) }
    {
        self.entries.add_piece(piece)
    }

    /// Adds the next call of a desk, of the event that `S` names, with what it counts. The caller
    /// holds the lock of the set that the call concerns; all keys of the set's pass are noted.
    #[inline(always)]
    pub fn append<S: EntryName, R: Wait>(
        &mut self,
        shared: &SharedCell<'_, R>,
        place: Place<K, B>,
        set: &mut KeyPass,
        desk: &mut DeskAccount<K, B>,
        made: JournalEntry,
        counts: EventCounts<K, B>,
    ) -> Appended<K, B>
        requires table { (shared.now.cell.now.table.shared.table_id ≡ B.table) × (set.old.table_id ≡ B.table) }
        requires set { IsHolder (cell_view set.old) × AreNoDesks (cell_view set.old).owns }
        requires stored { made ≡ journalled desk.old.number desk.old.next S.entry }
        requires may { MayAppend K.rules B.base (cell_view set.old) S.entry counts.sent counts.share counts.before counts.after }
        ensures call { HasCalled K.rules B.base desk.old S.entry desk.new }
        ensures receipt { result.receipt ≡ desk.new.seen }
        ensures tickets { IsFew K.rules B.base self.new.filled → result.tickets ≡ counts.sent.once }
        ensures taken { TakesTicket (is_request S.entry.call) counts.ticket self.old.tickets self.new.tickets }
        ensures spent { result.spent ≡ spent_by (is_request S.entry.call) counts.ticket }
        ensures share { IsGivenBack counts.share counts.after result.share }
        ensures list { self.new ≡ journal_of desk.new.seen self.old.dropped self.old.given self.old.limit self.old.desks self.new.tickets }
        ensures set { (set.new.table_id ≡ set.old.table_id) × (cell_view set.new ≡ holder self.new.filled (cell_view set.old).owns) }
        ensures added { Added K.rules B.base (cell_view set.old).seen (cell_view set.old).owns S.entry self.old.filled self.new.filled }
    {
        let index = self.len();
        let is_request = made.is_request();
        let pass = pass::append::<Brand, Brand, R>(
            shared.rt,
            shared.cell,
            &mut self.pass,
            set,
            &mut desk.pass,
            &made,
        );
        let tickets = self
            .tickets
            .add(is_request, counts.ticket, counts.sent.once);
        count_dropped(&mut self.items_dropped, counts.sent);
        let share = record_event(
            &mut self.counted,
            counts.share,
            &counts.before,
            &counts.after,
        );
        self.entries.fill(place, made);
        desk.next += 1;
        Appended::new(index, pass, tickets, share)
    }

    /// Adds the next call of a desk, of the event that `S` names, which concerns two sets, with what
    /// it counts. The caller holds the locks of both. Afterwards the first pass owns the keys of `P`
    /// and the second the rest of `P`.
    #[inline(always)]
    pub fn append_two<P: Keys, S: EntryName, R: Wait>(
        &mut self,
        shared: &SharedCell<'_, R>,
        place: Place<K, B>,
        one: &mut KeyPass,
        other: &mut KeyPass,
        desk: &mut DeskAccount<K, B>,
        made: JournalEntry,
        counts: EventCounts<K, B>,
    ) -> Appended<K, B>
        requires table { (shared.now.cell.now.table.shared.table_id ≡ B.table) × (one.old.table_id ≡ B.table)
            × (other.old.table_id ≡ B.table) }
        requires one { IsHolder (cell_view one.old) × AreRecords (cell_view one.old).owns }
        requires other { IsHolder (cell_view other.old) × AreNoDesks (cell_view other.old).owns }
        requires within { (key : Key) → Has key (P.keys ++ P.rest) → Has key ((cell_view one.old).owns ++ (cell_view other.old).owns) }
        requires apart { (key : Key) → Has key P.keys → Has key P.rest → ⊥ }
        requires stored { made ≡ journalled desk.old.number desk.old.next S.entry }
        requires may { BothMayAppend K.rules B.base (cell_view one.old) (cell_view other.old) S.entry counts.sent counts.share
            counts.before counts.after }
        ensures call { HasCalled K.rules B.base desk.old S.entry desk.new }
        ensures receipt { result.receipt ≡ desk.new.seen }
        ensures tickets { IsFew K.rules B.base self.new.filled → result.tickets ≡ counts.sent.once }
        ensures taken { TakesTicket (is_request S.entry.call) counts.ticket self.old.tickets self.new.tickets }
        ensures spent { result.spent ≡ spent_by (is_request S.entry.call) counts.ticket }
        ensures share { IsGivenBack counts.share counts.after result.share }
        ensures list { self.new ≡ journal_of desk.new.seen self.old.dropped self.old.given self.old.limit self.old.desks self.new.tickets }
        ensures one { (one.new.table_id ≡ one.old.table_id) × (cell_view one.new ≡ holder self.new.filled P.keys) }
        ensures other { (other.new.table_id ≡ other.old.table_id) × (cell_view other.new ≡ holder self.new.filled P.rest) }
        ensures added { AddedByBoth K.rules B.base (cell_view one.old).seen (cell_view one.old).owns (cell_view other.old).seen
            (cell_view other.old).owns S.entry self.old.filled self.new.filled }
    {
        let call = desk.next;
        let index = self.len();
        let is_request = made.is_request();
        let pass = deal::<Brand, Brand, Brand, R>(
            shared.rt,
            shared.cell,
            &mut self.pass,
            one,
            other,
            &mut desk.pass,
            &made,
        );
        let tickets = self
            .tickets
            .add(is_request, counts.ticket, counts.sent.once);
        count_dropped(&mut self.items_dropped, counts.sent);
        let share = record_event(
            &mut self.counted,
            counts.share,
            &counts.before,
            &counts.after,
        );
        self.entries.fill(place, made);
        desk.next = call + 1;
        Appended::new(index, pass, tickets, share)
    }

    /// Takes back the ticket of a request that wasn't made.
    pub fn hand_back(&mut self, ticket: Ticket<RequestTickets<K, B>>)
        ensures back { AreBack (if ticket then 1 else 0) self.old.tickets self.new.tickets }
        ensures same { self.new ≡ with_tickets self.old self.new.tickets }
    {
        self.tickets.hand_back(ticket);
    }

    /// Takes back tickets of requests that weren't made.
    pub fn hand_back_many(&mut self, tickets: Tickets<RequestTickets<K, B>>)
        ensures back { AreBack tickets self.old.tickets self.new.tickets }
        ensures same { self.new ≡ with_tickets self.old self.new.tickets }
    {
        self.tickets.hand_back_many(tickets);
    }

    /// Begins tickets for requests that are put on callback queues. Fewer than `count` are begun if
    /// more than 2^63 would have been begun for callback queues.
    pub fn begin_called(&mut self, count: u64) -> Tickets<RequestTickets<K, B>>
        ensures called { AreCalled result self.old.tickets self.new.tickets }
        ensures most { result ≤ count }
        ensures all { IsFew K.rules B.base self.old.filled → self.old.tickets.called + count ≤ 2 ^ 63 → result ≡ count }
        ensures same { self.new ≡ with_tickets self.old self.new.tickets }
    {
        self.tickets.call(count)
    }

    /// Returns the numbers of tickets: each request among the calls has spent one, and one was begun
    /// for each once request that the calls have sent, if these are fewer than 2^63 together. So many
    /// were begun as requests have spent without bringing one, and for once requests and callback
    /// queues.
    pub fn tickets(&self) -> TicketTally
        ensures { AreTicketed K.rules B.base self.now.filled result }
    {
        self.tickets.tally()
    }

    /// Returns the number of items that the events of all calls have dropped. It stops at 2^64 - 1.
    pub fn items_dropped(&self) -> u64
        ensures { result ≡ capped (dropped_in K.rules B.base self.now.filled) }
    {
        self.items_dropped
    }

    /// Moves calls that are answered later from the counts of a share to those of another, which has
    /// none yet. A full count stays full.
    pub fn divide_started(
        &mut self,
        share: &mut TallyShare<EngineCounts<K, B>>,
        other: &mut TallyShare<EngineCounts<K, B>>,
        started: u64,
        count: u64,
    )
        requires may { MayDivide share.old other.old started count }
        ensures divided { AreDivided share.old other.old count share.new other.new }
        ensures same { self.new ≡ self.old }
    {
        self.counted.divide_started(share, other, started, count);
    }

    /// Compares the share that has all parts with the book: its counts are those of all calls.
    pub fn audit(&mut self, share: &mut TallyShare<EngineCounts<K, B>>)
        requires parts { share.old.parts ≡ 2 ^ 64 - 1 }
        ensures same { (self.new ≡ self.old) × (share.new ≡ share.old) }
        ensures counts { share.old.counts ≡ counts_of K.rules B.base self.old.filled }
    {
        self.counted.audit(share);
    }

    /// Compares two passes: they have no key in common. Afterwards both know the whole list.
    pub fn compare<R: Wait>(&mut self, rt: &R, cell: &Cell, one: &mut KeyPass, other: &mut KeyPass)
        requires table { (cell.now.table.shared.table_id ≡ B.table) × (one.old.table_id ≡ B.table) × (other.old.table_id ≡ B.table) }
        requires holders { IsHolder (cell_view one.old) × IsHolder (cell_view other.old) }
        ensures one { (one.new.table_id ≡ one.old.table_id) × (cell_view one.new ≡ holder self.old.filled (cell_view one.old).owns) }
        ensures other { (other.new.table_id ≡ other.old.table_id)
            × (cell_view other.new ≡ holder self.old.filled (cell_view other.old).owns) }
        ensures goes_on { Continues (cell_view one.old).seen (cell_view one.old).owns self.old.filled
            × Continues (cell_view other.old).seen (cell_view other.old).owns self.old.filled }
        ensures legal { IsSound K.rules B.base × IsLegal K.rules B.base self.old.filled }
        ensures apart { (key : Key) → Has key (cell_view one.old).owns → Has key (cell_view other.old).owns → ⊥ }
        ensures same { self.new ≡ self.old }
    {
        pass::compare::<Brand, R>(rt, cell, &mut self.pass, one, other);
    }

    /// Moves the keys of the second pass to the first. Afterwards the second owns nothing, and both
    /// know the whole list.
    pub fn merge<R: Wait>(&mut self, rt: &R, cell: &Cell, one: &mut KeyPass, other: &mut KeyPass)
        requires table { (cell.now.table.shared.table_id ≡ B.table) × (one.old.table_id ≡ B.table) × (other.old.table_id ≡ B.table) }
        requires holders { IsHolder (cell_view one.old) × IsHolder (cell_view other.old) }
        ensures table { (one.new.table_id ≡ one.old.table_id) × (other.new.table_id ≡ other.old.table_id) }
        ensures merged { AreMerged K.rules B.base (cell_view one.old) (cell_view other.old) self.old.filled (cell_view one.new)
            (cell_view other.new) }
        ensures apart { (key : Key) → Has key (cell_view one.old).owns → Has key (cell_view other.old).owns → ⊥ }
        ensures same { self.new ≡ self.old }
    {
        take_over(rt, cell, &mut self.pass, one, other);
    }
}
