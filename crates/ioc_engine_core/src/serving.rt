//! Requests that wait on the queues, and the desks by which they are served.
ghost use Rattle.std.specs.Prelude.{◌≡◌, ◌≤◌, false, None, map, IfOk, IfErr, OnOk, OnErr};
ghost use Rattle.std.specs.Vec.{vec_capacity};
ghost use Rattle.ioc_values.specs.declared.error.IocError.TheVariants.{NoMemory};
ghost use Rattle.ioc_set.specs.SetStore.{world_of};
ghost use Rattle.ioc_engine_core.specs.Queued.{WasQueueServed, AreRequested};
ghost use Rattle.ioc_engine_core.specs.Requested.{HasServed, HasServedSome};

use crate::clock::Clock;
use crate::desk::Desk;
use crate::engine::{EngineCore, QueuedRequest};
use ioc_device::Device;
use ioc_events::Event;
use ioc_journal::{RequestTickets, SharedJournal, SpentTicket};
use ioc_journaled_set::SetsName;
use ioc_ledger::Ticket;
use ioc_names::RecordNo;
use ioc_notify::NotifyId;
use ioc_record::RecordKind;
use ioc_scan::Listed;
use ioc_shared_queues::{
    CallbackQueues, RecordRequest, Serve, SharedQueues, Worker, hand_back_all,
};
use ioc_values::IocError;
use std::alloc::AllocError;
use std::marker::PhantomData;
use std::sync::Wait;

// A desk that serves the requests of an engine's queues.
#[derive(Drop)]
struct Server<'e, K: RecordKind + Drop, B: SetsName<K, D>, D: Device, C> {
    core: &'e EngineCore<K, B, D>,
    clock: &'e C,
    desk: Desk<K, B, D>,
    // The ticket of the last request that was served.
    spent: Option<SpentTicket<K, B>>,
}

impl<'e, K: RecordKind + Drop, B: SetsName<K, D>, D: Device, C: Clock> Serve<QueuedRequest<K, B>>
    for Server<'e, K, B, D, C> {
    ghost use Rattle.ioc_engine_core.specs.Queued.{WasQueueServed};
    ghost use Rattle.std.specs.Prelude.{◌≡◌, Some};
    ghost use Rattle.ioc_set.specs.SetStore.{world_of};

    ghost serves = { λ a r b. WasQueueServed D K.rules B.base D.gives a.core.now.history (C.gives a.clock.now) r.«record» a.desk.account
        b.desk.account (world_of b.desk.buffers.store) × (b.spent ≡ Some r.ticket) };

    ghost refuses = { λ a r b. b.desk.account ≡ a.desk.account };

    ghost hands_back = { λ a r b. b.desk.account ≡ a.desk.account };

    fn serve<R: Wait>(
        &mut self,
        rt: &R,
        item: QueuedRequest<K, B>,
    ) -> Result<(), QueuedRequest<K, B>> {
        let RecordRequest {
            record: number,
            ticket,
        } = item;
        let mut own = Some(ticket);
        let told = self
            .core
            .request(rt, &mut self.desk, number, self.clock, &mut own);
        if let Ok(spent) = told {
            self.spent = spent;
            return Ok(());
        }
        let Some(ticket) = own else { unreachable!() };
        Err(RecordRequest {
            record: number,
            ticket,
        })
    }

    fn hand_back<R: Wait>(&mut self, rt: &R, item: QueuedRequest<K, B>) {
        let core = self.core;
        core.journal.hand_back_one(rt, item.ticket);
    }
}

// Serves the requests of these queues by a worker, until they were closed and are found empty.
fn run_server<
    K: RecordKind + Drop,
    B: SetsName<K, D>,
    D: Device,
    C: Clock,
    P,
    Q: SharedQueues<P, QueuedRequest<K, B>>,
    R: Wait,
>(rt: &R, queues: &Q, worker: &mut Worker<P>, server: &mut Server<'_, K, B, D, C>)
    requires { Q.is_lane queues.now worker.old.lane }
    ensures { HasServedSome server.old.desk.account server.new.desk.account }
{
    worker.run(rt, queues, server);
}

impl<K: RecordKind + Drop, B: SetsName<K, D>, D: Device> EngineCore<K, B, D> {
    /// Requests a record, as a call of a desk, for a scan or because it has waited on a queue: then
    /// it spends its ticket, which stays where it is if the call is refused. Not inlined, as calls
    /// of desks are.
    ///
    /// # Errors
    ///
    /// As [`EngineCore::serve`].
    #[inline(never)]
    pub fn request<R: Wait, C: Clock>(
        &self,
        rt: &R,
        desk: &mut Desk<K, B, D>,
        number: RecordNo,
        clock: &C,
        ticket: &mut Option<Ticket<RequestTickets<K, B>>>,
    ) -> Result<Option<SpentTicket<K, B>>, IocError>
        ensures served { OnOk result (WasQueueServed D K.rules B.base D.gives self.now.history (C.gives clock.now) number desk.old.account
            desk.new.account (world_of desk.new.buffers.store)) }
        ensures err { OnErr result (desk.new.account ≡ desk.old.account) }
        ensures ticket { OnErr result (ticket.new ≡ ticket.old) }
        ensures gone { OnOk result (ticket.new ≡ None) }
        ensures spent { IfOk result (λ spent. spent ≡ ticket.old) }
    {
        let event = Event::Process { record: number };
        let (_reply, _receipt, spent) = self.serve(rt, desk, &event, clock, ticket)?;
        Ok(spent)
    }

    /// Requests each of these records by a desk, one after another, until a request is refused.
    ///
    /// # Errors
    ///
    /// As [`EngineCore::serve`], for the request that is refused.
    pub fn request_all<R: Wait, C: Clock>(
        &self,
        rt: &R,
        desk: &mut Desk<K, B, D>,
        listed: &[Listed],
        clock: &C,
    ) -> Result<(), IocError>
        ensures { OnOk result (AreRequested D K.rules B.base D.gives self.now.history (C.gives clock.now) (map (λ l. l.number) listed.now)
            desk.old.account desk.new.account) }
    {
        let mut rest = listed;
        while let [item, others @ ..] = rest {
            let mut own = None;
            self.request(rt, desk, item.number, clock, &mut own)?;
            rest = others;
        }
        Ok(())
    }

    /// Requests each of these records by a desk, one after another, and returns how many requests
    /// weren't refused; the others are left out and counted. [`EventBuffers::ended`] returns the puts
    /// with notification that have ended by any of them, in order.
    ///
    /// # Errors
    ///
    /// [`IocError::NoMemory`] if allocation fails; nothing was requested then.
    pub fn request_each<R: Wait, C: Clock>(
        &self,
        rt: &R,
        desk: &mut Desk<K, B, D>,
        listed: &[Listed],
        clock: &C,
    ) -> Result<usize, IocError>
        ensures served { IfOk result (λ count. HasServed count desk.old.account desk.new.account) }
        ensures err { OnErr result ((desk.new.account ≡ desk.old.account) × (desk.new.buffers ≡ desk.old.buffers)) }
        ensures refused { IfErr result (λ error. error ≡ NoMemory) }
    {
        let Ok(mut ended) = Vec::with_capacity(desk.alloc, 256) else {
            return Err(IocError::NoMemory);
        };
        let mut requested = 0;
        for place in 0..listed.len() {
            let number = listed[place].number;
            requested += self.request_counted(rt, desk, number, clock, &mut ended);
        }
        desk.buffers.ended_everywhere = ended;
        Ok(requested)
    }

    // Requests a record and returns 1, or counts the refused request and returns 0. Adds the puts with
    // notification that have ended by it to `ended`, where room is kept for those of the next one.
    #[tactic(auto, using(crate::proofs::Requests::served_none, crate::proofs::Requests::served_one))]
    fn request_counted<R: Wait, C: Clock>(
        &self,
        rt: &R,
        desk: &mut Desk<K, B, D>,
        number: RecordNo,
        clock: &C,
        ended: &mut Vec<NotifyId>,
    ) -> usize
        requires room { 256 ≤ vec_capacity ended.old }
        ensures served { HasServed result desk.old.account desk.new.account }
        ensures most { result ≤ 1 }
        ensures room { 256 ≤ vec_capacity ended.new }
    {
        if ended.reserve(256).is_err() {
            self.count_refused();
            return 0;
        }
        let mut own = None;
        let requested = self.request(rt, desk, number, clock, &mut own);
        if requested.is_err() {
            self.count_refused();
            return 0;
        }
        let _kept = ended.append(&mut desk.buffers.ended_everywhere);
        1
    }

    /// Serves the requests that wait on the queues by a desk, each with its ticket, sleeps while
    /// there are none, and returns once the engine was closed and no request waits. A request that
    /// is refused is left out, and its ticket is handed back. The desk, which is given back, makes no
    /// other call.
    ///
    /// # Errors
    ///
    /// [`AllocError`] if allocation fails; no request was served then.
    pub fn work<R: Wait, C: Clock>(
        &self,
        rt: &R,
        desk: Desk<K, B, D>,
        clock: &C,
    ) -> Result<Desk<K, B, D>, AllocError>
        ensures served { IfOk result (λ d. HasServedSome desk.account d.account) }
    {
        let mut worker = self.queues.worker(rt, desk.alloc)?;
        let mut server = Server {
            core: self,
            clock,
            desk,
            spent: None,
        };
        run_server(rt, &self.queues, &mut worker, &mut server);
        Ok(server.desk)
    }

    /// Serves the first of the requests that wait on the queues: HIGH, MEDIUM, LOW, once. Returns
    /// false if all four queues are found empty. A request that is refused is left out, and its
    /// ticket is handed back. The desk makes no other call.
    #[tactic(auto, using(crate::proofs::Requests::some_none))]
    pub fn serve_one<R: Wait, C: Clock>(&self, rt: &R, desk: &mut Desk<K, B, D>, clock: &C) -> bool
        ensures served { HasServedSome desk.old.account desk.new.account }
        ensures idle { result ≡ false → desk.new.account ≡ desk.old.account }
    {
        let mut lane = self.queues.lane();
        let Some(request) = self.queues.take_first(rt, &mut lane) else {
            return false;
        };
        self.serve_taken(rt, desk, request, clock);
        true
    }

    // Serves a request that was taken from a queue. If it is refused, its ticket is handed back.
    fn serve_taken<R: Wait, C: Clock>(
        &self,
        rt: &R,
        desk: &mut Desk<K, B, D>,
        request: QueuedRequest<K, B>,
        clock: &C,
    )
        ensures { HasServedSome desk.old.account desk.new.account }
    {
        let RecordRequest {
            record: number,
            ticket,
        } = request;
        let mut own = Some(ticket);
        let told = self.request(rt, desk, number, clock, &mut own);
        if told.is_err() {
            if let Some(ticket) = own {
                self.journal.hand_back_one(rt, ticket);
            }
        }
    }
}

// By which the tickets of requests that nobody serves any more are handed back.
#[derive(Drop)]
struct Returning<'e, K: RecordKind, B: SetsName<K, D>, D: Device> {
    journal: &'e SharedJournal<K, B>,
    devices: PhantomData<D>,
}

impl<'e, K: RecordKind, B: SetsName<K, D>, D: Device> Serve<QueuedRequest<K, B>>
    for Returning<'e, K, B, D> {
    ghost serves = { λ _ _ _. ⊥ };

    ghost refuses = { λ _ _ _. Unit {0} };

    ghost hands_back = { λ _ _ _. Unit {0} };

    fn serve<R: Wait>(
        &mut self,
        _rt: &R,
        item: QueuedRequest<K, B>,
    ) -> Result<(), QueuedRequest<K, B>> {
        Err(item)
    }

    fn hand_back<R: Wait>(&mut self, rt: &R, item: QueuedRequest<K, B>) {
        self.journal.hand_back_one(rt, item.ticket);
    }
}

/// Hands back the tickets of the requests that wait on the queues of an engine that ends.
pub(crate) fn give_up_waiting<K: RecordKind, B: SetsName<K, D>, D: Device, R: Wait>(
    rt: &R,
    queues: &CallbackQueues<QueuedRequest<K, B>>,
    journal: &SharedJournal<K, B>,
) {
    let mut lane = queues.lane();
    let mut returning = Returning::<K, B, D> {
        journal,
        devices: PhantomData,
    };
    hand_back_all(rt, queues, &mut lane, &mut returning);
}
