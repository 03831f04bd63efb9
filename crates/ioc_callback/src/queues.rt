//! The four queues of a database.
ghost use Rattle.std.specs.Prelude.{◌≡◌, ◌≢◌, ◌<◌, ◌+◌, [], ◌∷◌, ◌++◌, length, option_to_list, IsSome, ◌↔◌, IfOk, IfErr, OnOk, OnErr};

use crate::queue::Queue;
use ioc_menus::Priority;
use std::alloc::{AllocError, Global};

/// The callback queues, of 2,000 items each, and the once queue, of 1,000. All their memory is
/// allocated at creation.
#[derive(Drop)]
pub struct Queues<T> {
    pub high: Queue<T, 2000>,
    pub medium: Queue<T, 2000>,
    pub low: Queue<T, 2000>,
    pub once: Queue<T, 1000>,
    /// The number of items that found their queue full. The count saturates at 2^64 - 1.
    pub dropped: u64,
}

impl<T> Queues<T> {
    ghost use Rattle.ioc_callback.specs.Serving.{no_items, callbacks, with_callback, with_once, with_dropped, in_turn, served};

    /// Creates four empty queues, with room for all their items.
    ///
    /// # Errors
    ///
    /// [`AllocError`] if allocation fails.
    pub fn new(alloc: Global) -> Result<Self, AllocError>
    where
        T: Drop,
        ensures { IfOk result (λ q. q ≡ no_items) }
    {
        let high = Queue::new(alloc)?;
        let medium = Queue::new(alloc)?;
        let low = Queue::new(alloc)?;
        let once = Queue::new(alloc)?;
        Ok(Queues {
            high,
            medium,
            low,
            once,
            dropped: 0,
        })
    }

    /// Appends an item to the callback queue of this priority.
    ///
    /// # Errors
    ///
    /// The item, if that queue is full; the queues haven't changed then, and the item is counted as
    /// dropped.
    pub fn push(&mut self, priority: Priority, item: T) -> Result<(), T>
        ensures room { OnOk result (length (callbacks self.old priority) < 2000) }
        ensures pushed { OnOk result (self.new ≡ with_callback self.old priority item) }
        ensures full { OnErr result (length (callbacks self.old priority) ≡ 2000) }
        ensures dropped { OnErr result (self.new ≡ with_dropped self.old) }
        ensures given_back { IfErr result (λ given. given ≡ item) }
    {
        let pushed = match priority {
            Priority::High => self.high.push(item),
            Priority::Medium => self.medium.push(item),
            Priority::Low => self.low.push(item),
        };
        if pushed.is_err() {
            self.dropped = self.dropped.saturating_add(1);
        }
        pushed
    }

    /// Appends an item to the once queue.
    ///
    /// # Errors
    ///
    /// The item, if that queue is full; the queues haven't changed then, and the item is counted as
    /// dropped.
    pub fn push_once(&mut self, item: T) -> Result<(), T>
        ensures room { OnOk result (length self.old.once < 1000) }
        ensures pushed { OnOk result (self.new ≡ with_once self.old item) }
        ensures full { OnErr result (length self.old.once ≡ 1000) }
        ensures dropped { OnErr result (self.new ≡ with_dropped self.old) }
        ensures given_back { IfErr result (λ given. given ≡ item) }
    {
        let pushed = self.once.push(item);
        if pushed.is_err() {
            self.dropped = self.dropped.saturating_add(1);
        }
        pushed
    }

    /// Removes and returns the next item to serve: the first one of HIGH, or else of MEDIUM, of
    /// LOW, or of the once queue.
    pub fn next(&mut self) -> Option<T>
        ensures taken { in_turn self.old ≡ option_to_list result ++ in_turn self.new }
        ensures after { self.new ≡ served self.old }
        ensures some { IsSome result ↔ (0 < length (in_turn self.old)) }
    {
        if let Some(item) = self.high.pop() {
            return Some(item);
        }
        if let Some(item) = self.medium.pop() {
            return Some(item);
        }
        if let Some(item) = self.low.pop() {
            return Some(item);
        }
        self.once.pop()
    }
}
