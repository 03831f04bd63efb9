//! Calls on records by their numbers.
ghost use Rattle.std.specs.Prelude.{◌≡◌, ◌<◌, ℕ, true, [], ◌∷◌, ◌⊎◌, Err, IfOk, IfErr, OnOk, OnErr};
ghost use Rattle.ioc_journal.specs.Tickets.{spent_by};
ghost use Rattle.ioc_journal.specs.Counting.{is_request};
ghost use Rattle.ioc_events.specs.declared.event.Call.TheVariants as call;
ghost use Rattle.ioc_values.specs.declared.error.IocError.TheVariants.{JournalFull, NoMemory, Stopped};
ghost use Rattle.ioc_events.specs.Step.{names};
ghost use Rattle.ioc_journal.specs.Line.{longer, Begins};
ghost use Rattle.ioc_set.specs.Doing.{is_ordinary};
ghost use Rattle.ioc_store.specs.World.{Has};
ghost use Rattle.ioc_set.specs.SetStore.{world_of};
ghost use Rattle.ioc_journal.specs.Account.{IsAccount, calls, calls_by};
ghost use Rattle.ioc_journal.specs.Places.{IsNoPlace};
ghost use Rattle.ioc_journaled_set.specs.Puts.{HaveEnded};
ghost use Rattle.std.specs.FinMap.{len};
ghost use Rattle.ioc_engine_core.specs.Loading.{IsSpare};
ghost use Rattle.ioc_engine_core.specs.Served.{target_of, WasTold, WasServed, CallIsRefused, GetIsRefused};

use crate::clock::Clock;
use crate::desk::Desk;
use crate::engine_lists::EngineLists;
use crate::spare_parts::SpareParts;
use ioc_device::Device;
use ioc_events::{Event, Reply};
use ioc_fields::FieldNo;
use ioc_journal::{EngineCounts, Receipt, RequestTickets, SharedJournal, SpentTicket};
use ioc_journaled_set::{JournalAccess, JournaledSet, Served, SetsName, SharedNotifications};
use ioc_ledger::{TallyShare, Ticket};
use ioc_names::RecordNo;
use ioc_record::{FieldText, RecordKind};
use ioc_set::EventBuffers;
use ioc_shared_queues::{CallbackQueues, RecordRequest};
use ioc_topology::{Busy, Directory, Locked};
use ioc_values::IocError;
use ioc_watched::MarkedRecords;
use std::alloc::Global;
use std::marker::Model;
use std::sync::atomic::AtomicU64;
use std::sync::{Mutex, Wait};

/// A request that waits on a queue of an engine, with its ticket.
pub type QueuedRequest<K, B> = RecordRequest<RequestTickets<K, B>>;

/// The lock of a set of an engine that a call keeps for long.
pub(crate) type BusySet<'a, K, B, D> = Busy<'a, JournaledSet<K, B, D>>;

/// The records of a database in their lock sets, each set under its own lock, the journal of all
/// calls, the scan lists, and the queues of requests that wait. Contracts see the number of records, and
/// the number of events that a set keeps at most.
#[derive(Drop)]
pub struct EngineCore<K: RecordKind + Drop, B: SetsName<K, D>, D: Device> {
    pub(crate) sets: Directory<JournaledSet<K, B, D>>,
    pub(crate) journal: SharedJournal<K, B>,
    // Locked while the lock of a set is held, and before the journal.
    pub(crate) puts: Mutex<SharedNotifications<K, B>>,
    // Locked while no other lock is held.
    pub(crate) lists: Mutex<EngineLists<K, B>>,
    pub(crate) queues: CallbackQueues<QueuedRequest<K, B>>,
    // The number of items that events have sent and that couldn't be done.
    pub(crate) undone: AtomicU64,
    // The number of requests of scans that were refused.
    pub(crate) refused: AtomicU64,
    // Locked at the end alone: a share may be sent to other threads, but not be seen by several.
    pub(crate) spare: Mutex<SpareParts<K, B>>,
    // The watched records that were marked since they were taken from here. Locked last.
    pub(crate) marks: Mutex<MarkedRecords>,
    // The number of events that a set keeps in its history at most.
    pub(crate) history: usize,
}

impl<K: RecordKind + Drop, B: SetsName<K, D>, D: Device> Model for EngineCore<K, B, D> {
    ghost use Rattle.ioc_engine_core.specs.EngineView.{EngineView};

    ghost Value = { EngineView };

    ghost use Rattle.std.specs.Prelude.{ℕ};
    ghost use Rattle.std.specs.Prelude.{◌<◌};
    ghost use Rattle.ioc_store.specs.World.{Has};
    ghost use Rattle.std.specs.Prelude.{◌≡◌};
    ghost use Rattle.std.specs.FinMap.{len};

    ghost view = { λ e. record { count = e.sets; history = e.history } };

    ghost invariant = { λ e. ((n : ℕ) → Has B.base n → n < e.sets) × (len B.base.records ≡ e.sets) };
}

impl<K: RecordKind + Drop, B: SetsName<K, D>, D: Device> EngineCore<K, B, D> {
    /// Creates an engine with its sets, the table of its puts with notification and the queues, the journal
    /// of its calls, the scan lists, the parts of the ledgers of counts that no set has, the list of marked
    /// records, and the number of events that a set keeps at most. The sets were made for all records of
    /// the load.
    pub fn new(
        held: (
            Directory<JournaledSet<K, B, D>>,
            SharedNotifications<K, B>,
            CallbackQueues<QueuedRequest<K, B>>,
        ),
        journal: SharedJournal<K, B>,
        lists: EngineLists<K, B>,
        spare: TallyShare<EngineCounts<K, B>>,
        marks: MarkedRecords,
        history: usize,
    ) -> Self
        requires known { (n : ℕ) → Has B.base n → n < held.0 }
        requires records { len B.base.records ≡ held.0 }
        requires spare { IsSpare spare held.0 }
        ensures count { result.count ≡ held.0 }
        ensures history { result.history ≡ history }
    {
        let (sets, puts, queues) = held;
        EngineCore {
            sets,
            journal,
            puts: Mutex::new(puts),
            lists: Mutex::new(lists),
            queues,
            undone: AtomicU64::new(0),
            refused: AtomicU64::new(0),
            spare: Mutex::new(SpareParts::new(spare)),
            marks: Mutex::new(marks),
            history,
        }
    }

    /// Closes the engine: no call begins from then on, and workers that sleep are woken. A call that
    /// has begun is finished.
    pub fn close<R: Wait>(&self, rt: &R) {
        self.journal.gate().close();
        self.queues.close(rt);
    }

    /// Returns whether the engine was closed.
    pub fn is_closed(&self) -> bool {
        self.journal.gate().is_closed()
    }

    // Returns what a call needs to be added to the journal.
    #[inline(always)]
    pub(crate) fn access<'a, R>(&'a self, rt: &'a R, alloc: Global) -> JournalAccess<'a, K, B, R>
        ensures { result.history ≡ self.now.history }
    {
        JournalAccess {
            rt,
            alloc,
            journal: &self.journal,
            marks: &self.marks,
            history: self.history,
        }
    }

    // Returns whether a call may begin: the engine wasn't closed. If the gate asks for it, the free
    // places are counted first, and if they are too few a checkpoint is made. If the checkpoint
    // fails, the call goes on without it.
    #[inline(always)]
    pub(crate) fn may_begin<R: Wait>(&self, rt: &R, alloc: Global) -> bool {
        self.journal.gate().is_open() || self.may_begin_after_count(rt, alloc)
    }

    // Makes room for a call that was refused since the journal had no place left, if calls make
    // checkpoints: waits for the checkpoint that another call makes, or makes one. If a set is busy,
    // waits for it, and holds nothing meanwhile. The call is tried again then. If it was refused for
    // another reason, or calls make no checkpoints, its refusal is the error, else that of the
    // checkpoint.
    #[inline(never)]
    pub(crate) fn make_room<R: Wait>(
        &self,
        rt: &R,
        alloc: Global,
        refused: IocError,
    ) -> Result<(), IocError>
        ensures other { (refused ≡ JournalFull → ⊥) → result ≡ Err refused }
        ensures error { IfErr result (λ error. (error ≡ refused) ⊎ IsNoPlace error) }
    {
        if refused != IocError::JournalFull || !self.journal.makes_checkpoints() {
            return Err(refused);
        }
        if let Some(busy) = self.checkpoint_if_short(rt, alloc)? {
            busy.wait(rt);
        }
        Ok(())
    }

    #[inline(never)]
    fn may_begin_after_count<R: Wait>(&self, rt: &R, alloc: Global) -> bool {
        if self.journal.gate().takes_count() && self.journal.is_short(rt) {
            let _ = self.checkpoint_if_short(rt, alloc);
        }
        !self.is_closed()
    }

    /// Opens a desk, by which a caller makes its calls, with the memory that they need. It has made none
    /// yet.
    ///
    /// # Errors
    ///
    /// [`IocError::Stopped`] if the engine was closed. [`IocError::JournalFull`] if no number is
    /// left for a desk. [`IocError::NoMemory`] if allocation fails.
    pub fn open_desk<R: Wait>(&self, rt: &R, alloc: Global) -> Result<Desk<K, B, D>, IocError>
        ensures new { IfOk result (λ d. (d.account.next ≡ 0) × (calls_by d.account.number (calls d.account.seen) ≡ [])) }
        ensures refused { IfErr result (λ error. (error ≡ Stopped) ⊎ ((error ≡ JournalFull) ⊎ (error ≡ NoMemory))) }
    {
        let buffers = EventBuffers::new(alloc)?;
        if self.is_closed() {
            return Err(IocError::Stopped);
        }
        let account = self.journal.open_desk(rt)?;
        Ok(Desk::new(alloc, account, buffers))
    }

    /// Moves a desk on to the list of a receipt, if that is longer than the list that the desk has
    /// seen.
    pub fn learn<R: Wait>(&self, rt: &R, desk: &mut Desk<K, B, D>, receipt: &mut Receipt<K, B>)
        ensures desk { (desk.new.account.number ≡ desk.old.account.number) × (desk.new.account.next ≡ desk.old.account.next) }
        ensures learnt { desk.new.account.seen ≡ longer desk.old.account.seen receipt.old }
        ensures own { Begins desk.old.account.seen desk.new.account.seen }
        ensures told { Begins receipt.old desk.new.account.seen }
        ensures calls { calls_by desk.new.account.number (calls desk.new.account.seen)
            ≡ calls_by desk.old.account.number (calls desk.old.account.seen) }
        ensures legal { IsAccount K.rules B.base desk.new.account.seen }
        ensures receipt { receipt.new ≡ receipt.old }
    {
        desk.account.learn(rt, self.journal.cell(), receipt);
    }
}

// Returns the record of a request, a put or a completion.
#[inline(always)]
fn target_of(event: &Event) -> RecordNo
    requires ordinary { is_ordinary event.now ≡ true }
    ensures target { result ≡ target_of event.now }
    ensures names { names event.now ≡ result ∷ [] }
{
    match event {
        Event::Process { record } => *record,
        Event::Put { record, .. } => *record,
        Event::Complete { record, .. } => *record,
        _ => unreachable!(),
    }
}

impl<K: RecordKind + Drop, B: SetsName<K, D>, D: Device> EngineCore<K, B, D> {
    /// Performs a request, a put or a completion on the set of its record, at the time that the clock
    /// gives while the set's lock is held, and then takes what the event has sent. A request that
    /// comes from a queue spends its ticket, which stays where it is if the call is refused. If the
    /// journal has no place left and calls make checkpoints, it waits for one. Inlined, as are its
    /// callees up to the journal, so that each call knows its kind of event and the entry is built in
    /// its place.
    ///
    /// # Errors
    ///
    /// [`IocError::Stopped`] if the engine was closed. [`IocError::NoRecord`] if there is no record
    /// with this number. [`IocError::NoField`] if the record has no such field. [`IocError::NoMod`]
    /// if the field can't be put. [`IocError::JournalFull`] if the journal has no place left and
    /// calls make no checkpoints. [`IocError::NoMemory`] if allocation fails, also that of the
    /// checkpoint that a call without a place waits for. Nothing has changed then. Any other refusal is a
    /// reply, which is added to the journal.
    #[inline(always)]
    pub fn serve<R: Wait, C: Clock>(
        &self,
        rt: &R,
        desk: &mut Desk<K, B, D>,
        event: &Event,
        clock: &C,
        ticket: &mut Option<Ticket<RequestTickets<K, B>>>,
    ) -> Result<(Reply, Receipt<K, B>, Option<SpentTicket<K, B>>), IocError>
        requires ordinary { is_ordinary event.now ≡ true }
        ensures served { IfOk result (λ x. (moment : ℕ) × C.gives clock.now moment
            × WasServed D K.rules B.base D.gives self.now.history (target_of event.now) desk.old.account
            moment event.now x.0 desk.new.account (world_of desk.new.buffers.store)) }
        ensures receipt { IfOk result (λ x. x.1 ≡ desk.new.account.seen) }
        ensures ended { OnOk result (HaveEnded K.rules B.base (world_of desk.new.buffers.store).ended desk.new.account.seen
            desk.new.buffers.ended_everywhere.items) }
        ensures refused { IfErr result (CallIsRefused D K.rules B.base self.now.count (target_of event.now) event.now) }
        ensures err { OnErr result (desk.new.account ≡ desk.old.account) }
        ensures ticket { OnErr result (ticket.new ≡ ticket.old) }
        ensures gone { OnOk result (ticket.new ≡ None) }
        ensures spent { IfOk result (λ x. x.2 ≡ spent_by (is_request (call.Event event.now x.0)) ticket.old) }
    {
        for _ in rt.forever() {
            match self.try_serve(rt, desk, event, clock, ticket) {
                Ok(told) => return Ok(told),
                Err(refused) => self.make_room(rt, desk.alloc, refused)?,
            }
        }
        unreachable!()
    }

    // Performs an event as `serve` does, and is refused if the journal has no place left.
    #[inline(always)]
    fn try_serve<R: Wait, C: Clock>(
        &self,
        rt: &R,
        desk: &mut Desk<K, B, D>,
        event: &Event,
        clock: &C,
        ticket: &mut Option<Ticket<RequestTickets<K, B>>>,
    ) -> Result<(Reply, Receipt<K, B>, Option<SpentTicket<K, B>>), IocError>
        requires ordinary { is_ordinary event.now ≡ true }
        ensures served { IfOk result (λ x. (moment : ℕ) × C.gives clock.now moment
            × WasServed D K.rules B.base D.gives self.now.history (target_of event.now) desk.old.account
            moment event.now x.0 desk.new.account (world_of desk.new.buffers.store)) }
        ensures receipt { IfOk result (λ x. x.1 ≡ desk.new.account.seen) }
        ensures ended { OnOk result (HaveEnded K.rules B.base (world_of desk.new.buffers.store).ended desk.new.account.seen
            desk.new.buffers.ended_everywhere.items) }
        ensures refused { IfErr result (CallIsRefused D K.rules B.base self.now.count (target_of event.now) event.now) }
        ensures err { OnErr result (desk.new.account ≡ desk.old.account) }
        ensures ticket { OnErr result (ticket.new ≡ ticket.old) }
        ensures gone { OnOk result (ticket.new ≡ None) }
        ensures spent { IfOk result (λ x. x.2 ≡ spent_by (is_request (call.Event event.now x.0)) ticket.old) }
    {
        if !self.may_begin(rt, desk.alloc) {
            return Err(IocError::Stopped);
        }
        let number = target_of(event);
        let mut held = self.sets.lock_set(rt, number)?;
        let moment = clock.now();
        let may_end = held.may_be_taken();
        let access = self.access(rt, desk.alloc);
        let Served {
            reply,
            receipt,
            tickets,
            spent,
        } = held.serve(
            &access,
            &self.puts,
            &mut desk.account,
            &mut desk.buffers,
            event,
            moment,
            ticket,
        )?;
        held.is_sound();
        if may_end {
            self.sets.settle_flag(number, &held);
        }
        drop(held);
        self.do_sent(rt, &desk.buffers, &mut desk.walked, tickets);
        Ok((reply, receipt, spent))
    }

    /// Returns the text of a field, at the time that the clock gives while the set's lock is held.
    ///
    /// # Errors
    ///
    /// [`IocError::Stopped`] if the engine was closed. [`IocError::NoRecord`] if there is no record
    /// with this number. [`IocError::NoField`] if the record has no such field.
    /// [`IocError::JournalFull`] if the journal has no place left. [`IocError::NoMemory`] if
    /// allocation fails. Nothing has changed then.
    pub fn get<R: Wait, C: Clock>(
        &self,
        rt: &R,
        desk: &mut Desk<K, B, D>,
        number: RecordNo,
        field: FieldNo,
        clock: &C,
    ) -> Result<(FieldText, Receipt<K, B>), IocError>
        ensures told { IfOk result (λ x. (moment : ℕ) × C.gives clock.now moment
            × WasTold D K.rules B.base number desk.old.account moment field
            x.0 desk.new.account) }
        ensures receipt { IfOk result (λ x. x.1 ≡ desk.new.account.seen) }
        ensures refused { IfErr result (GetIsRefused D K.rules B.base self.now.count number field) }
        ensures err { OnErr result (desk.new.account ≡ desk.old.account) }
    {
        for _ in rt.forever() {
            match self.try_get(rt, desk, number, field, clock) {
                Ok(told) => return Ok(told),
                Err(refused) => self.make_room(rt, desk.alloc, refused)?,
            }
        }
        unreachable!()
    }

    // Returns the text of a field as `get` does, and is refused if the journal has no place left.
    fn try_get<R: Wait, C: Clock>(
        &self,
        rt: &R,
        desk: &mut Desk<K, B, D>,
        number: RecordNo,
        field: FieldNo,
        clock: &C,
    ) -> Result<(FieldText, Receipt<K, B>), IocError>
        ensures told { IfOk result (λ x. (moment : ℕ) × C.gives clock.now moment
            × WasTold D K.rules B.base number desk.old.account moment field
            x.0 desk.new.account) }
        ensures receipt { IfOk result (λ x. x.1 ≡ desk.new.account.seen) }
        ensures refused { IfErr result (GetIsRefused D K.rules B.base self.now.count number field) }
        ensures err { OnErr result (desk.new.account ≡ desk.old.account) }
    {
        if !self.may_begin(rt, desk.alloc) {
            return Err(IocError::Stopped);
        }
        let mut held = self.sets.lock_set(rt, number)?;
        let moment = clock.now();
        let access = self.access(rt, desk.alloc);
        let told = held.get(&access, &mut desk.account, number, field, moment);
        held.is_sound();
        told
    }
}
