//! Scans, posted events, interrupts of devices, and requests that wait.
ghost use Rattle.std.specs.Prelude.{◌≡◌, ◌⊎◌, ℕ, [], false, None, take, IfOk, IfErr, OnErr};
ghost use Rattle.ioc_values.specs.declared.error.IocError.TheVariants.{BadValue, NoMemory, Stopped};
ghost use Rattle.rec_types.specs.Record.{record_rules};
ghost use Rattle.ioc_events.specs.declared.event.Call.TheVariants as call;
ghost use Rattle.ioc_journal.specs.Account.{HasCalled};
ghost use Rattle.ioc_journal.specs.Places.{IsNoPlace};
ghost use Rattle.ioc_scan.specs.Places.{period_of};
ghost use Rattle.ioc_engine_core.specs.Requested.{HasServed, HasServedSome};

use crate::Receipt;
use crate::desk::Desk;
use crate::engine::Engine;
use crate::engine_name::EngineName;
use ioc_device::Device;
use ioc_engine_core::Clock;
use ioc_menus::Scan;
use ioc_names::RecordNo;
use ioc_scan::period::period_of;
use ioc_scan::{ListName, Listed};
use ioc_values::{IocError, Text};
use std::alloc::Global;
use std::mem;
use std::sync::Wait;

// Returns the numbers of these records.
fn numbers_of(alloc: Global, listed: &[Listed]) -> Result<Vec<RecordNo>, IocError>
    ensures refused { IfErr result (λ error. error ≡ NoMemory) }
{
    let mut numbers = Vec::new(alloc);
    for member in listed {
        if numbers.push(member.number).is_err() {
            return Err(IocError::NoMemory);
        }
    }
    Ok(numbers)
}

impl<B: EngineName<D>, D: Device, C: Clock + Drop> Engine<B, D, C> {
    // Replaces the contents of `walked` with the records that are scanned with a period.
    fn walk_period<R: Wait>(
        &self,
        rt: &R,
        choice: Scan,
        walked: &mut Vec<Listed>,
    ) -> Result<(), IocError>
        ensures refused { IfErr result (λ error. (error ≡ Stopped) ⊎ (((error ≡ BadValue) × (period_of choice ≡ None))
            ⊎ (error ≡ NoMemory))) }
    {
        if self.is_closed() {
            return Err(IocError::Stopped);
        }
        let Some(period) = period_of(choice) else {
            return Err(IocError::BadValue);
        };
        self.core.walk(rt, Some(ListName::Period(period)), walked)
    }

    /// Returns the records with this choice of SCAN, which has to be a period, in the order in which
    /// they are processed: by PHAS, those with equal PHAS in the order in which they came to the
    /// list.
    ///
    /// # Errors
    ///
    /// [`IocError::Stopped`] if the engine was closed. [`IocError::BadValue`] if the choice is no
    /// period. [`IocError::NoMemory`] if allocation fails.
    pub fn scan_list<R: Wait>(&self, rt: &R, choice: Scan) -> Result<Vec<RecordNo>, IocError>
        ensures refused { IfErr result (λ error. (error ≡ Stopped) ⊎ (((error ≡ BadValue) × (period_of choice ≡ None))
            ⊎ (error ≡ NoMemory))) }
    {
        let mut walked = Vec::new(self.alloc);
        self.walk_period(rt, choice, &mut walked)?;
        numbers_of(self.alloc, walked.as_slice())
    }

    /// Scans a period once: requests each record with this choice of SCAN, as
    /// [`Engine::process`] does, in the order of [`Engine::scan_list`]. Returns how many were
    /// requested. A record whose request is refused is left out, and
    /// [`Report::refused`](crate::Report::refused) counts it. [`Desk::ended`] returns the puts with
    /// notification that have ended by any of these requests. A thread that scans calls this once in
    /// each period; the engine has no timer.
    ///
    /// # Errors
    ///
    /// As [`Engine::scan_list`]. No record was requested then.
    pub fn scan<R: Wait>(
        &self,
        rt: &R,
        desk: &mut Desk<B, D>,
        choice: Scan,
    ) -> Result<usize, IocError>
        ensures served { IfOk result (λ count. HasServed count desk.old.account desk.new.account) }
        ensures err { OnErr result (desk.new.account ≡ desk.old.account) }
        ensures none { OnErr result (desk.new.buffers.ended_everywhere.items ≡ []) }
        ensures refused { IfErr result (λ error. (error ≡ Stopped) ⊎ (((error ≡ BadValue) × (period_of choice ≡ None))
            ⊎ (error ≡ NoMemory))) }
        ensures moved { desk.new.moved ≡ 0 }
    {
        desk.begin();
        let mut walked = mem::replace(&mut desk.scanned, Vec::new(desk.alloc));
        let told = self.scan_walked(rt, desk, choice, &mut walked);
        desk.scanned = walked;
        desk.moved = 0;
        told
    }

    // Replaces the contents of `walked` with the records that are scanned with a period, and requests
    // each of them.
    fn scan_walked<R: Wait>(
        &self,
        rt: &R,
        desk: &mut Desk<B, D>,
        choice: Scan,
        walked: &mut Vec<Listed>,
    ) -> Result<usize, IocError>
        ensures served { IfOk result (λ count. HasServed count desk.old.account desk.new.account) }
        ensures err { OnErr result ((desk.new.account ≡ desk.old.account) × (desk.new.buffers ≡ desk.old.buffers)) }
        ensures refused { IfErr result (λ error. (error ≡ Stopped) ⊎ (((error ≡ BadValue) × (period_of choice ≡ None))
            ⊎ (error ≡ NoMemory))) }
    {
        self.walk_period(rt, choice, walked)?;
        self.core
            .request_each(rt, desk, walked.as_slice(), &self.clock)
    }

    /// Posts an event (post_event): a request of each record with SCAN Event whose EVNT is this name
    /// waits on the callback queue of its priority, PRIO, until a desk that works takes it. Names
    /// are compared without spaces at both ends; the empty name and `0` name no event. A name has 39
    /// bytes at most, and the rest is left off. Returns the number of these requests. One that finds
    /// its queue full is dropped, and [`Report::requests_dropped`](crate::Report::requests_dropped)
    /// counts it.
    ///
    /// # Errors
    ///
    /// [`IocError::Stopped`] if the engine was closed. [`IocError::JournalFull`] if the journal has
    /// no place left. [`IocError::NoMemory`] if allocation fails. Nothing has changed then.
    pub fn post_event<R: Wait>(
        &self,
        rt: &R,
        desk: &mut Desk<B, D>,
        name: &[u8],
    ) -> Result<(u64, Receipt<B>), IocError>
        ensures posted { IfOk result (λ x. (moment : ℕ) × C.gives self.now.clock moment × HasCalled record_rules B.base desk.old.account
            (record { moment = moment; call = call.Post (take 39 name.now) x.0; answers = [] }) desk.new.account) }
        ensures receipt { IfOk result (λ x. x.1 ≡ desk.new.account.seen) }
        ensures ended { desk.new.buffers.ended_everywhere.items ≡ [] }
        ensures moved { desk.new.moved ≡ 0 }
        ensures refused { IfErr result (λ error. (error ≡ Stopped) ⊎ IsNoPlace error) }
        ensures err { OnErr result (desk.new.account ≡ desk.old.account) }
    {
        let told = self.core.post_event(rt, desk, Text::cut(name), &self.clock);
        desk.begin();
        told
    }

    /// Tells of an interrupt of devices (scanIoRequest): a request of each record with SCAN I/O Intr
    /// whose device link begins with this word waits on the callback queue of its priority, as after
    /// [`Engine::post_event`].
    ///
    /// # Errors
    ///
    /// As [`Engine::post_event`].
    pub fn io_interrupt<R: Wait>(
        &self,
        rt: &R,
        desk: &mut Desk<B, D>,
        word: &[u8],
    ) -> Result<(u64, Receipt<B>), IocError>
        ensures posted { IfOk result (λ x. (moment : ℕ) × C.gives self.now.clock moment × HasCalled record_rules B.base desk.old.account
            (record { moment = moment; call = call.Interrupt (take 119 word.now) x.0; answers = [] }) desk.new.account) }
        ensures receipt { IfOk result (λ x. x.1 ≡ desk.new.account.seen) }
        ensures ended { desk.new.buffers.ended_everywhere.items ≡ [] }
        ensures moved { desk.new.moved ≡ 0 }
        ensures refused { IfErr result (λ error. (error ≡ Stopped) ⊎ IsNoPlace error) }
        ensures err { OnErr result (desk.new.account ≡ desk.old.account) }
    {
        let told = self.core.io_interrupt(rt, desk, word, &self.clock);
        desk.begin();
        told
    }

    /// Serves the requests that wait, by a desk: those of the callback queues HIGH, MEDIUM and LOW,
    /// and of the once queue, one after another, each time the first request of the first queue that
    /// has one. Sleeps while none waits, and returns the desk once the engine was closed and no
    /// request waits. A thread of the program calls this with a desk of its own, which makes it a
    /// callback task of an IOC. A request that is refused, because the engine was closed, the
    /// journal is full or allocation fails, is left out, and its ticket is handed back. The desk makes
    /// no other call.
    ///
    /// # Errors
    ///
    /// [`IocError::NoMemory`] if allocation fails; no request was served then.
    ///
    /// ```rust
    /// let desk = engine.desk(rt)?;
    /// let desk = engine.work(rt, desk)?;
    /// ```
    pub fn work<R: Wait>(&self, rt: &R, desk: Desk<B, D>) -> Result<Desk<B, D>, IocError>
        ensures served { IfOk result (λ d. HasServedSome desk.account d.account) }
        ensures told { IfOk result (λ d. (d.buffers.ended_everywhere.items ≡ []) × (d.moved ≡ 0)) }
        ensures refused { IfErr result (λ error. error ≡ NoMemory) }
    {
        let Ok(mut desk) = self.core.work(rt, desk, &self.clock) else {
            return Err(IocError::NoMemory);
        };
        desk.begin();
        Ok(desk)
    }

    /// Serves the first of the requests that wait, in the order of [`Engine::work`], and returns
    /// false if there is none. So a program with one thread serves its requests itself.
    pub fn serve_one<R: Wait>(&self, rt: &R, desk: &mut Desk<B, D>) -> bool
        ensures served { HasServedSome desk.old.account desk.new.account }
        ensures idle { result ≡ false → desk.new.account ≡ desk.old.account }
        ensures moved { desk.new.moved ≡ 0 }
    {
        desk.begin();
        let is_served = self.core.serve_one(rt, desk, &self.clock);
        desk.moved = 0;
        is_served
    }
}
