//! A queue of limited length.
ghost use Rattle.std.specs.Prelude.{◌≡◌, ◌<◌, ◌↔◌, [], ◌∷◌, ◌++◌, ℕ, length, option_to_list, IsTrue, IsSome, IfOk, Ok, Err, OnOk};
ghost use Rattle.std.specs.Prelude.{OnErr, IfErr};

use std::alloc::{AllocError, Global};
use std::collections::VecDeque;
use std::marker::Model;

/// A queue, first in, first out, of at most `LIMIT` items. All its memory is allocated at creation.
#[derive(Drop)]
pub struct Queue<T, const LIMIT: usize> {
    items: VecDeque<T>,
}

impl<T, const LIMIT: usize> Model for Queue<T, LIMIT> {
    ghost use Rattle.std.specs.Prelude.{◌≡◌, ◌≤◌, List, length};
    ghost use Rattle.std.specs.VecDeque.{deque_len, deque_capacity};

    ghost Value = { List T };

    ghost view = { λ q. q.items.items };

    ghost invariant = { λ q. (length q.items.items ≤ LIMIT) × (deque_len q.items ≡ length q.items.items)
        × (deque_capacity q.items ≡ LIMIT) };
}

impl<T, const LIMIT: usize> Queue<T, LIMIT> {
    /// Creates an empty queue, with room for `LIMIT` items.
    ///
    /// # Errors
    ///
    /// [`AllocError`] if allocation fails.
    pub fn new(alloc: Global) -> Result<Self, AllocError>
        ensures { IfOk result (λ q. q ≡ []) }
    {
        let items = VecDeque::with_capacity(alloc, LIMIT)?;
        Ok(Queue { items })
    }

    /// Returns whether the queue is full.
    pub fn is_full(&self) -> bool
        ensures { IsTrue result ↔ (length self.now ≡ LIMIT) }
    {
        self.items.len() == LIMIT
    }

    /// Returns the number of items.
    pub fn len(&self) -> usize
        ensures { result ≡ length self.now }
    {
        self.items.len()
    }

    /// Returns whether the queue is empty.
    pub fn is_empty(&self) -> bool
        ensures { IsTrue result ↔ (self.now ≡ []) }
    {
        self.items.is_empty()
    }

    /// Appends an item.
    ///
    /// # Errors
    ///
    /// The item, if the queue is full; nothing has changed then.
    pub fn push(&mut self, item: T) -> Result<(), T>
        ensures room { OnOk result (length self.old < LIMIT) }
        ensures pushed { OnOk result (self.new ≡ self.old ++ item ∷ []) }
        ensures full { OnErr result (length self.old ≡ LIMIT) }
        ensures same { OnErr result (self.new ≡ self.old) }
        ensures given_back { IfErr result (λ given. given ≡ item) }
    {
        if self.items.len() == LIMIT {
            return Err(item);
        }
        self.items.push_back_reserved(item);
        Ok(())
    }

    /// Removes and returns the first item.
    pub fn pop(&mut self) -> Option<T>
        ensures taken { self.old ≡ option_to_list result ++ self.new }
        ensures some { IsSome result ↔ (0 < length self.old) }
    {
        self.items.pop_front()
    }
}
