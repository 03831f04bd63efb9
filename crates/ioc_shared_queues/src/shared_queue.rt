//! A queue that threads share without a lock.
ghost use Rattle.std.specs.Prelude.{◌≡◌, ◌<◌, [], IfOk, IfErr, IfSome, IfNone, OnOk, OnErr};
ghost use Rattle.crossbeam_queue.specs.Passes.{view, IsPassOf, ruled_capacity};
ghost use Rattle.ioc_shared_queues.specs.Seen.{Puts, Takes, HeldThen};

use crate::order::{OrderedQueue, PutsItem, QueuePass, TakesItem};
use std::alloc::{AllocError, Global};
use std::marker::Model;
use std::sync::Wait;

/// A queue of a fixed size. Items are taken in the order in which they were put, each once, over any
/// threads.
///
/// ```rust
/// let queue = SharedQueue::<u64>::new(alloc, 4)?;
/// let mut lane = queue.lane();
/// let _full = queue.put(rt, &mut lane, 7);
/// let first = queue.take(rt, &mut lane);
/// ```
#[derive(Drop)]
pub struct SharedQueue<T> {
    queue: OrderedQueue<T>,
}

impl<T> Model for SharedQueue<T> {
    ghost use Rattle.crossbeam_queue.specs.Passes.{ruled_capacity};
    ghost use Rattle.ioc_shared_queues.specs.SharedQueues.{QueueView};

    ghost Value = { QueueView };

    ghost view = { λ q. record { id = q.queue.table.shared.table_id; capacity = ruled_capacity q.queue } };
}

/// By which a thread calls a shared queue; it takes no bytes. Contracts see what was done to the queue
/// up to the lane's last put or taking.
#[derive(Drop)]
pub struct QueueLane<T> {
    pass: QueuePass<T>,
}

impl<T> Model for QueueLane<T> {
    ghost use Rattle.std.specs.Prelude.{◌≡◌, []};
    ghost use Rattle.crossbeam_queue.specs.Passes.{view as seen};
    ghost use Rattle.ioc_shared_queues.specs.SharedQueues.{QueueLaneView};

    ghost Value = { QueueLaneView T };

    ghost view = { λ l. record { of = l.pass.table_id; seen = seen l.pass } };

    ghost invariant = { λ l. l.pass.me.1 ≡ [] };
}

impl<T> SharedQueue<T> {
    /// Creates an empty queue for `most` items. All its memory is allocated now.
    ///
    /// # Errors
    ///
    /// [`AllocError`] if allocation fails.
    pub fn new(alloc: Global, most: usize) -> Result<Self, AllocError>
    where
        T: Drop,
        requires { 0 < most }
        ensures { IfOk result (λ q. q.capacity ≡ most) }
    {
        let (queue, _) = OrderedQueue::<T>::ruled(alloc, most)?;
        Ok(SharedQueue { queue })
    }

    /// Makes one more lane. It has seen nothing yet.
    pub fn lane(&self) -> QueueLane<T>
        ensures of { result.of ≡ self.now.id }
        ensures new { result.seen ≡ [] }
    {
        QueueLane {
            pass: self.queue.pass(),
        }
    }

    /// Puts an item at the end of the queue.
    ///
    /// # Errors
    ///
    /// The item, if the queue is full.
    pub fn put<R: Wait>(&self, rt: &R, lane: &mut QueueLane<T>, item: T) -> Result<(), T>
        requires { lane.old.of ≡ self.now.id }
        ensures lane { lane.new.of ≡ lane.old.of }
        ensures put { OnOk result (Puts lane.old.seen item lane.new.seen) }
        ensures given_back { IfErr result (λ given. given ≡ item) }
        ensures full { OnErr result ((lane.new ≡ lane.old) × HeldThen lane.old.seen self.now.capacity) }
    {
        self.queue.push_as::<PutsItem, R>(rt, &mut lane.pass, item)
    }

    /// Takes the first item of the queue, unless it is empty.
    pub fn take<R: Wait>(&self, rt: &R, lane: &mut QueueLane<T>) -> Option<T>
        requires { lane.old.of ≡ self.now.id }
        ensures lane { lane.new.of ≡ lane.old.of }
        ensures taken { IfSome result (λ item. Takes lane.old.seen item lane.new.seen) }
        ensures empty { IfNone result ((lane.new ≡ lane.old) × HeldThen lane.old.seen 0) }
    {
        self.queue.pop_as::<TakesItem, R>(rt, &mut lane.pass)
    }

    /// Returns the number of items that the queue holds at most.
    pub fn capacity(&self) -> usize
        ensures { result ≡ self.now.capacity }
    {
        self.queue.capacity()
    }
}
