//! Engines.
ghost use Rattle.std.specs.Prelude.{◌≡◌, ◌⊎◌, ◌∷◌, ℕ, true, [], length, ok_or, IfOk, IfErr, OnOk, OnErr};
ghost use Rattle.ioc_values.specs.declared.error.IocError.TheVariants.{JournalFull, NoMemory, NoRecord, Stopped};
ghost use Rattle.rec_types.specs.Record.{record_rules};
ghost use Rattle.ioc_events.specs.declared.event.Event.TheVariants.{Process, Put, Complete};
ghost use Rattle.ioc_events.specs.Step.{names};
ghost use Rattle.ioc_set.specs.Doing.{is_ordinary};
ghost use Rattle.ioc_set.specs.SetStore.{world_of};
ghost use Rattle.ioc_journal.specs.Line.{longer, Begins};
ghost use Rattle.ioc_journal.specs.Account.{IsAccount, calls, calls_by};
ghost use Rattle.ioc_names.specs.NameTable.{number_of};
ghost use Rattle.ioc_journaled_set.specs.Puts.{HaveEnded};
ghost use Rattle.ioc_engine_core.specs.Served.{target_of, WasServed, WasTold, CallIsRefused, GetIsRefused};
ghost use Rattle.ioc_engine.specs.Channels.{channel_of};
ghost use Rattle.ioc_engine.specs.Refusals.{HasField, CanBePut, IsGetError, IsPutError, IsOfEngine};

use crate::Receipt;
use crate::channel::Channel;
use crate::desk::Desk;
use crate::engine_lookup::EngineLookup;
use crate::engine_name::EngineName;
use crate::type_laws::types_stay;
use ioc_device::Device;
use ioc_engine_core::{Clock, EngineCore, FixedClock};
use ioc_events::{Event, Reply};
use ioc_journal::Limits;
use ioc_names::RecordNo;
use ioc_record::FieldText;
use ioc_values::{Finished, Input, IocError};
use rec_types::Record;
use std::alloc::Global;
use std::sync::Wait;

/// An engine: the records of a loaded database in their lock sets, and the journal of all calls.
/// Threads share it by reference. `B` is its name in contracts, `D` the type of its devices, and
/// `C` that of its clock.
///
/// A call is refused with an error if nothing was added to the journal. Any other refusal is a
/// reply, [`Reply::Refused`], which has its place there.
///
/// ```rust
/// let Started { engine, .. } = Engine::<B, _, _>::start(rt, alloc, seed, CountingClock::new(), Limits::default())?;
/// let mut desk = engine.desk(rt)?;
/// engine.set_link(rt, &mut desk, engine.channel(b"copy.INP")?, b"level PP MS")?;
/// engine.process(rt, &mut desk, engine.record(b"copy")?)?;
/// let (shown, _receipt) = engine.get(rt, &mut desk, engine.channel(b"copy.SEVR")?)?;
/// ```
#[derive(Drop)]
pub struct Engine<B: EngineName<D>, D: Device, C: Drop> {
    pub(crate) core: EngineCore<Record, B, D>,
    pub(crate) lookup: EngineLookup<B, D>,
    pub(crate) clock: C,
    pub(crate) alloc: Global,
    pub(crate) limits: Limits,
    pub ghost counted: { length lookup.types.items ≡ core.count },
    pub ghost limited: { core.history ≡ limits.history },
}

impl<B: EngineName<D>, D: Device, C: Drop> Engine<B, D, C> {
    /// Opens a desk, with the memory that its calls need. It has made no call yet.
    ///
    /// # Errors
    ///
    /// [`IocError::Stopped`] if the engine was closed. [`IocError::JournalFull`] if no number is
    /// left for a desk. [`IocError::NoMemory`] if allocation fails.
    pub fn desk<R: Wait>(&self, rt: &R) -> Result<Desk<B, D>, IocError>
        ensures new { IfOk result (λ d. (d.account.next ≡ 0) × (calls_by d.account.number (calls d.account.seen) ≡ [])) }
        ensures refused { IfErr result (λ error. (error ≡ Stopped) ⊎ ((error ≡ JournalFull) ⊎ (error ≡ NoMemory))) }
    {
        self.core.open_desk(rt, self.alloc)
    }

    /// Closes the engine: no call begins from then on, and desks that serve requests
    /// ([`Engine::work`]) end. A call that has begun is finished. It waits for none of them.
    pub fn close<R: Wait>(&self, rt: &R) {
        self.core.close(rt);
    }

    /// Returns whether the engine was closed.
    pub fn is_closed(&self) -> bool {
        self.core.is_closed()
    }

    /// Returns the number of the record with this name or alias. It takes no lock.
    ///
    /// # Errors
    ///
    /// [`IocError::NoRecord`] if there is none.
    pub fn record(&self, name: &[u8]) -> Result<RecordNo, IocError>
        ensures { result ≡ ok_or (number_of self.now.lookup.names name.now) NoRecord }
    {
        self.lookup.get().record(name)
    }

    /// Returns the channel of a text `RECORD.FIELD`, or `RECORD` for its field VAL. It takes no
    /// lock. The record's type has the field, and no event changes the type of a record, so a get
    /// or a put of this engine with the channel gives neither of the errors below.
    ///
    /// # Errors
    ///
    /// [`IocError::NoRecord`] or [`IocError::NoField`], in this order, if there is no such record
    /// or field.
    pub fn channel(&self, text: &[u8]) -> Result<Channel, IocError>
        ensures channel { result ≡ channel_of self.now.lookup.names self.now.lookup.types.items text.now }
        ensures known { IfOk result (IsOfEngine B.base self.now.core.count) }
    {
        self.lookup.get().channel(text)
    }

    /// Moves a desk on to the list of a receipt, if that is longer than the list that the desk has
    /// seen: its next call comes after the receipt's.
    pub fn learn<R: Wait>(&self, rt: &R, desk: &mut Desk<B, D>, receipt: &mut Receipt<B>)
        ensures desk { (desk.new.account.number ≡ desk.old.account.number) × (desk.new.account.next ≡ desk.old.account.next) }
        ensures calls { calls_by desk.new.account.number (calls desk.new.account.seen)
            ≡ calls_by desk.old.account.number (calls desk.old.account.seen) }
        ensures learnt { desk.new.account.seen ≡ longer desk.old.account.seen receipt.old }
        ensures told { Begins receipt.old desk.new.account.seen }
        ensures legal { IsAccount record_rules B.base desk.new.account.seen }
        ensures receipt { receipt.new ≡ receipt.old }
        ensures ended { desk.new.buffers.ended_everywhere.items ≡ [] }
        ensures moved { desk.new.moved ≡ 0 }
    {
        self.core.learn(rt, desk, receipt);
        desk.begin();
    }
}

impl<B: EngineName<D>, D: Device, C: Clock + Drop> Engine<B, D, C> {
    // Performs an event on the set of a record, at the time of a clock. Inlined, so that each call
    // knows its kind of event.
    #[inline(always)]
    fn serve<R: Wait, T: Clock>(
        &self,
        rt: &R,
        desk: &mut Desk<B, D>,
        event: &Event,
        clock: &T,
    ) -> Result<(Reply, Receipt<B>), IocError>
        requires ordinary { is_ordinary event.now ≡ true }
        ensures done { IfOk result (λ x. (moment : ℕ) × T.gives clock.now moment
            × WasServed D record_rules B.base D.gives self.now.core.history (target_of event.now)
            desk.old.account moment event.now x.0 desk.new.account (world_of desk.new.buffers.store)) }
        ensures receipt { IfOk result (λ x. x.1 ≡ desk.new.account.seen) }
        ensures ended { OnOk result (HaveEnded record_rules B.base (world_of desk.new.buffers.store).ended desk.new.account.seen
            desk.new.buffers.ended_everywhere.items) }
        ensures refused { IfErr result (CallIsRefused D record_rules B.base self.now.core.count (target_of event.now) event.now) }
        ensures err { OnErr result (desk.new.account ≡ desk.old.account) }
        ensures none { OnErr result (desk.new.buffers.ended_everywhere.items ≡ []) }
        ensures moved { desk.new.moved ≡ 0 }
    {
        desk.begin();
        let mut own = None;
        let told = self.core.serve(rt, desk, event, clock, &mut own);
        desk.moved = 0;
        match told {
            Ok((reply, receipt, _spent)) => Ok((reply, receipt)),
            Err(refused) => {
                desk.buffers.ended_everywhere.clear();
                Err(refused)
            }
        }
    }

    /// Requests a record to be processed (dbProcess), at the time of the clock. The reply is the
    /// [`Outcome`](crate::Outcome) of the request.
    ///
    /// # Errors
    ///
    /// [`IocError::Stopped`] if the engine was closed. [`IocError::NoRecord`] if there is no record
    /// with this number. [`IocError::JournalFull`] if the journal has no place left.
    /// [`IocError::NoMemory`] if allocation fails. Nothing has changed then.
    pub fn process<R: Wait>(
        &self,
        rt: &R,
        desk: &mut Desk<B, D>,
        number: RecordNo,
    ) -> Result<(Reply, Receipt<B>), IocError>
        ensures done { IfOk result (λ x. (moment : ℕ) × C.gives self.now.clock moment × WasServed D record_rules B.base D.gives
            self.now.core.history number desk.old.account moment (Process number) x.0 desk.new.account
            (world_of desk.new.buffers.store)) }
        ensures receipt { IfOk result (λ x. x.1 ≡ desk.new.account.seen) }
        ensures ended { OnOk result (HaveEnded record_rules B.base (world_of desk.new.buffers.store).ended desk.new.account.seen
            desk.new.buffers.ended_everywhere.items) }
        ensures refused { IfErr result (CallIsRefused D record_rules B.base self.now.core.count number (Process number)) }
        ensures err { OnErr result (desk.new.account ≡ desk.old.account) }
        ensures none { OnErr result (desk.new.buffers.ended_everywhere.items ≡ []) }
        ensures moved { desk.new.moved ≡ 0 }
    {
        let event = Event::Process { record: number };
        self.serve(rt, desk, &event, &self.clock)
    }

    /// Requests a record to be processed with this time stamp, in nanoseconds since 1970-01-01
    /// 00:00 UTC. It may be earlier than that of a call before.
    ///
    /// # Errors
    ///
    /// As [`Engine::process`].
    pub fn process_at<R: Wait>(
        &self,
        rt: &R,
        desk: &mut Desk<B, D>,
        number: RecordNo,
        moment: u64,
    ) -> Result<(Reply, Receipt<B>), IocError>
        ensures done { IfOk result (λ x. WasServed D record_rules B.base D.gives self.now.core.history number desk.old.account moment
            (Process number) x.0 desk.new.account (world_of desk.new.buffers.store)) }
        ensures receipt { IfOk result (λ x. x.1 ≡ desk.new.account.seen) }
        ensures ended { OnOk result (HaveEnded record_rules B.base (world_of desk.new.buffers.store).ended desk.new.account.seen
            desk.new.buffers.ended_everywhere.items) }
        ensures refused { IfErr result (CallIsRefused D record_rules B.base self.now.core.count number (Process number)) }
        ensures err { OnErr result (desk.new.account ≡ desk.old.account) }
        ensures none { OnErr result (desk.new.buffers.ended_everywhere.items ≡ []) }
        ensures moved { desk.new.moved ≡ 0 }
    {
        let event = Event::Process { record: number };
        self.serve(rt, desk, &event, &FixedClock(moment))
    }

    /// Puts a value into a field, and processes the record if the field or the record asks for it
    /// (dbPutField). The reply is the outcome of this request, or [`Reply::Plain`] if there was
    /// none.
    ///
    /// # Errors
    ///
    /// [`IocError::Stopped`] if the engine was closed. [`IocError::NoMod`] if the field can't be
    /// put. [`IocError::JournalFull`] if the journal has no place left. [`IocError::NoMemory`] if
    /// allocation fails. Nothing has changed then. [`IocError::NoRecord`] and [`IocError::NoField`]
    /// if the channel is one of another engine, which has no such record or field. Any other
    /// refusal is a reply, which is added to the journal.
    pub fn put<R: Wait>(
        &self,
        rt: &R,
        desk: &mut Desk<B, D>,
        channel: Channel,
        given: Input,
    ) -> Result<(Reply, Receipt<B>), IocError>
        ensures done { IfOk result (λ x. (moment : ℕ) × C.gives self.now.clock moment × WasServed D record_rules B.base D.gives
            self.now.core.history channel.number desk.old.account moment (Put channel.number channel.field given) x.0 desk.new.account
            (world_of desk.new.buffers.store)) }
        ensures receipt { IfOk result (λ x. x.1 ≡ desk.new.account.seen) }
        ensures ended { OnOk result (HaveEnded record_rules B.base (world_of desk.new.buffers.store).ended desk.new.account.seen
            desk.new.buffers.ended_everywhere.items) }
        ensures refused { IfErr result (CallIsRefused D record_rules B.base self.now.core.count channel.number
            (Put channel.number channel.field given)) }
        ensures refused_by_type { IfErr result (IsPutError B.base channel) }
        ensures can_be_put { OnOk result (CanBePut B.base channel) }
        ensures err { OnErr result (desk.new.account ≡ desk.old.account) }
        ensures none { OnErr result (desk.new.buffers.ended_everywhere.items ≡ []) }
        ensures moved { desk.new.moved ≡ 0 }
    {
        types_stay::<Record>();
        let number = channel.record();
        let event = Event::Put {
            record: number,
            field: channel.field,
            value: given,
        };
        self.serve(rt, desk, &event, &self.clock)
    }

    /// Completes a record with the asynchronous answer of its device. `wait` is the number of the
    /// completion that the record awaits: 1 for its first one, and so on. The reply is
    /// [`Reply::Plain`].
    ///
    /// # Errors
    ///
    /// As [`Engine::process`]. A refusal because the record awaits no such completion is a reply,
    /// [`IocError::Stale`].
    pub fn complete<R: Wait>(
        &self,
        rt: &R,
        desk: &mut Desk<B, D>,
        number: RecordNo,
        wait: u64,
        finished: Finished,
    ) -> Result<(Reply, Receipt<B>), IocError>
        ensures done { IfOk result (λ x. (moment : ℕ) × C.gives self.now.clock moment × WasServed D record_rules B.base D.gives
            self.now.core.history number desk.old.account moment (Complete number wait finished) x.0 desk.new.account
            (world_of desk.new.buffers.store)) }
        ensures receipt { IfOk result (λ x. x.1 ≡ desk.new.account.seen) }
        ensures ended { OnOk result (HaveEnded record_rules B.base (world_of desk.new.buffers.store).ended desk.new.account.seen
            desk.new.buffers.ended_everywhere.items) }
        ensures refused { IfErr result (CallIsRefused D record_rules B.base self.now.core.count number (Complete number wait finished)) }
        ensures err { OnErr result (desk.new.account ≡ desk.old.account) }
        ensures none { OnErr result (desk.new.buffers.ended_everywhere.items ≡ []) }
        ensures moved { desk.new.moved ≡ 0 }
    {
        let event = Event::Complete {
            record: number,
            wait,
            finished,
        };
        self.serve(rt, desk, &event, &self.clock)
    }

    /// Returns the text of a field (dbGetField).
    ///
    /// # Errors
    ///
    /// As [`Engine::put`], except that every field can be read.
    pub fn get<R: Wait>(
        &self,
        rt: &R,
        desk: &mut Desk<B, D>,
        channel: Channel,
    ) -> Result<(FieldText, Receipt<B>), IocError>
        ensures answered { IfOk result (λ x. (moment : ℕ) × C.gives self.now.clock moment × WasTold D record_rules B.base
            channel.number desk.old.account moment channel.field x.0 desk.new.account) }
        ensures receipt { IfOk result (λ x. x.1 ≡ desk.new.account.seen) }
        ensures ended { desk.new.buffers.ended_everywhere.items ≡ [] }
        ensures refused { IfErr result (GetIsRefused D record_rules B.base self.now.core.count channel.number channel.field) }
        ensures refused_by_type { IfErr result (IsGetError B.base channel) }
        ensures has_field { OnOk result (HasField B.base channel) }
        ensures err { OnErr result (desk.new.account ≡ desk.old.account) }
        ensures moved { desk.new.moved ≡ 0 }
    {
        types_stay::<Record>();
        let told = self
            .core
            .get(rt, desk, channel.record(), channel.field, &self.clock);
        desk.begin();
        told
    }
}
