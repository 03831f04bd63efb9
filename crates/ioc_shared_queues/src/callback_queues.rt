//! The three callback queues and the once queue, which threads share without a lock.
ghost use Rattle.std.specs.Prelude.{◌≡◌, [], IfOk, IfErr, IfSome, IfNone, OnOk, OnErr, true, false};
ghost use Rattle.crossbeam_queue.specs.Passes.{view, IsPassOf, ruled_capacity};
ghost use Rattle.ioc_shared_queues.specs.Seen.{Puts, Takes, HeldThen};
ghost use Rattle.ioc_shared_queues.specs.Lanes.{seen_at, PutsAt, TakesAt, FindsEmptyAt, FindsFullAt};

use crate::idle_workers::IdleWorkers;
use crate::order::{OrderedQueue, PutsItem, QueuePass, TakesItem};
use crate::queues::SharedQueues;
use crate::rank::Rank;
use crate::worker::Worker;
use std::alloc::{AllocError, Global};
use std::marker::Model;
use std::sync::Wait;
use std::sync::atomic::AtomicU64;
use std::sync::atomic::Ordering::SeqCst;

/// The number of items that a callback queue holds at most.
pub const CALLBACK_LIMIT: usize = 2000;

/// The number of items that the once queue holds at most.
pub const ONCE_LIMIT: usize = 1000;

/// By which a thread calls the four queues: its passes of them, which take no bytes. Contracts see
/// what was done to each queue up to the lane's last call that changed it.
#[derive(Drop)]
pub struct Lane<T> {
    high: QueuePass<T>,
    medium: QueuePass<T>,
    low: QueuePass<T>,
    once: QueuePass<T>,
}

impl<T> Model for Lane<T> {
    ghost use Rattle.std.specs.Prelude.{◌≡◌, [], ◌∷◌};
    ghost use Rattle.crossbeam_queue.specs.Passes.{view as seen};
    ghost use Rattle.ioc_shared_queues.specs.Lanes.{LaneView};

    ghost Value = { LaneView T };

    ghost view = { λ l. record {
      of = l.high.table_id ∷ l.medium.table_id ∷ l.low.table_id ∷ l.once.table_id ∷ [];
      high = seen l.high;
      medium = seen l.medium;
      low = seen l.low;
      once = seen l.once;
    } };

    ghost invariant = { λ l. (l.high.me.1 ≡ []) × (l.medium.me.1 ≡ []) × (l.low.me.1 ≡ []) × (l.once.me.1 ≡ []) };
}

/// The queues, with the list of their workers that sleep. Contracts see which queues they are.
#[derive(Drop)]
pub struct CallbackQueues<T> {
    high: OrderedQueue<T>,
    medium: OrderedQueue<T>,
    low: OrderedQueue<T>,
    once: OrderedQueue<T>,
    idle: IdleWorkers,
    dropped: AtomicU64,
}

impl<T> Model for CallbackQueues<T> {
    ghost use Rattle.std.specs.Prelude.{◌≡◌, List, [], ◌∷◌};
    ghost use Rattle.atomic_table.specs.Seated.{TableId};
    ghost use Rattle.crossbeam_queue.specs.Passes.{ruled_capacity};

    ghost Value = { List TableId };

    ghost view = { λ q. q.high.table.shared.table_id ∷ q.medium.table.shared.table_id
        ∷ q.low.table.shared.table_id ∷ q.once.table.shared.table_id ∷ [] };

    ghost invariant = { λ q. (ruled_capacity q.high ≡ 2000) × (ruled_capacity q.medium ≡ 2000)
        × (ruled_capacity q.low ≡ 2000) × (ruled_capacity q.once ≡ 1000) };
}

impl<T> CallbackQueues<T> {
    /// Creates empty queues. All their memory is allocated now.
    ///
    /// # Errors
    ///
    /// [`AllocError`] if allocation fails.
    pub fn new(alloc: Global) -> Result<Self, AllocError>
    where
        T: Drop,
    {
        let (high, _) = OrderedQueue::<T>::ruled(alloc, CALLBACK_LIMIT)?;
        let (medium, _) = OrderedQueue::<T>::ruled(alloc, CALLBACK_LIMIT)?;
        let (low, _) = OrderedQueue::<T>::ruled(alloc, CALLBACK_LIMIT)?;
        let (once, _) = OrderedQueue::<T>::ruled(alloc, ONCE_LIMIT)?;
        Ok(CallbackQueues {
            high,
            medium,
            low,
            once,
            idle: IdleWorkers::new(alloc),
            dropped: AtomicU64::new(0),
        })
    }

    /// Makes one more lane. It has seen nothing yet.
    pub fn lane(&self) -> Lane<T>
        ensures of { result.of ≡ self.now }
        ensures new { (rank : _) → seen_at rank result ≡ [] }
    {
        Lane {
            high: self.high.pass(),
            medium: self.medium.pass(),
            low: self.low.pass(),
            once: self.once.pass(),
        }
    }

    /// Makes a worker, with a lane of its own.
    ///
    /// # Errors
    ///
    /// [`AllocError`] if allocation fails.
    pub fn worker<R: Wait>(&self, rt: &R, alloc: Global) -> Result<Worker<Lane<T>>, AllocError>
    where
        T: Drop,
        ensures of { IfOk result (λ w. w.lane.of ≡ self.now) }
        ensures new { IfOk result (λ w. (rank : _) → seen_at rank w.lane ≡ []) }
    {
        Worker::new(rt, alloc, self.lane(), &self.idle)
    }

    /// Closes the queues: workers end once they find all of them empty. Items can still be put and
    /// taken.
    pub fn close<R: Wait>(&self, rt: &R) {
        self.idle.close(rt);
    }

    /// Returns the number of items that found their queue full, modulo 2^64.
    pub fn dropped(&self) -> u64 {
        self.dropped.load(SeqCst)
    }
}

impl<T> SharedQueues<Lane<T>, T> for CallbackQueues<T> {
    ghost use Rattle.std.specs.Prelude.{◌≡◌};
    ghost use Rattle.ioc_shared_queues.specs.Lanes.{PutsAt, TakesAt, FindsEmptyAt, FindsFullAt};

    ghost is_lane = { λ q l. l.of ≡ q };

    ghost puts = { PutsAt };

    ghost finds_full = { FindsFullAt };

    ghost takes = { TakesAt };

    ghost finds_empty = { FindsEmptyAt };

    ghost sees_closed = { λ l m. m ≡ l };

    fn put<R: Wait>(&self, rt: &R, lane: &mut Lane<T>, rank: Rank, item: T) -> Result<(), T>
        requires { lane.old.of ≡ self.now }
        ensures lane { lane.new.of ≡ self.now }
        ensures put { OnOk result (PutsAt lane.old rank item lane.new) }
        ensures given_back { IfErr result (λ given. given ≡ item) }
        ensures full { OnErr result (FindsFullAt lane.old rank lane.new) }
    {
        match rank {
            Rank::High => put(rt, &self.high, &mut lane.high, item, &self.dropped),
            Rank::Medium => put(rt, &self.medium, &mut lane.medium, item, &self.dropped),
            Rank::Low => put(rt, &self.low, &mut lane.low, item, &self.dropped),
            Rank::Once => put(rt, &self.once, &mut lane.once, item, &self.dropped),
        }
    }

    fn take<R: Wait>(&self, rt: &R, lane: &mut Lane<T>, rank: Rank) -> Option<T>
        requires { lane.old.of ≡ self.now }
        ensures lane { lane.new.of ≡ self.now }
        ensures taken { IfSome result (λ item. TakesAt lane.old rank item lane.new) }
        ensures empty { IfNone result (FindsEmptyAt lane.old rank lane.new) }
    {
        match rank {
            Rank::High => take(rt, &self.high, &mut lane.high),
            Rank::Medium => take(rt, &self.medium, &mut lane.medium),
            Rank::Low => take(rt, &self.low, &mut lane.low),
            Rank::Once => take(rt, &self.once, &mut lane.once),
        }
    }

    fn looks_closed(&self, _lane: &mut Lane<T>) -> bool {
        self.idle.is_closed()
    }

    fn idle_workers(&self) -> &IdleWorkers {
        &self.idle
    }
}

// Puts an item at the end of a queue. It comes back and is counted if the queue was full.
fn put<T, R: Wait>(
    rt: &R,
    queue: &OrderedQueue<T>,
    pass: &mut QueuePass<T>,
    item: T,
    dropped: &AtomicU64,
) -> Result<(), T>
    requires { IsPassOf queue.now pass.old }
    ensures pass { IsPassOf queue.now pass.new × (pass.new.table_id ≡ pass.old.table_id) }
    ensures put { OnOk result (Puts (view pass.old) item (view pass.new)) }
    ensures given_back { IfErr result (λ given. given ≡ item) }
    ensures full { OnErr result ((view pass.new ≡ view pass.old) × HeldThen (view pass.old) (ruled_capacity queue.now)) }
{
    let pushed = queue.push_as::<PutsItem, R>(rt, pass, item);
    if pushed.is_err() {
        dropped.fetch_add(1, SeqCst);
    }
    pushed
}

// Takes the first item of a queue, unless it was empty.
fn take<T, R: Wait>(rt: &R, queue: &OrderedQueue<T>, pass: &mut QueuePass<T>) -> Option<T>
    requires { IsPassOf queue.now pass.old }
    ensures pass { IsPassOf queue.now pass.new × (pass.new.table_id ≡ pass.old.table_id) }
    ensures taken { IfSome result (λ item. Takes (view pass.old) item (view pass.new)) }
    ensures empty { IfNone result ((view pass.new ≡ view pass.old) × HeldThen (view pass.old) 0) }
{
    queue.pop_as::<TakesItem, R>(rt, pass)
}
