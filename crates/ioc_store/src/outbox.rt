//! What an event sends.
ghost use Rattle.std.specs.Prelude.{◌≡◌, [], ◌∷◌, ◌++◌, length, nat_lt, if◌then◌else◌, IfOk};
ghost use Rattle.std.specs.Vec.{vec_capacity};
ghost use Rattle.ioc_ledger.specs.Requests.{more};

use crate::scan_change::ScanChange;
use ioc_names::RecordNo;
use ioc_values::Text;
use std::alloc::{AllocError, Global};

/// An item that an event sends, to be carried out after the event.
#[derive(Clone, Copy, PartialEq, Eq)]
pub enum OutboxItem {
    /// The request of a record that was marked for reprocessing.
    Once(RecordNo),
    /// Posts the event with this name.
    Post(Text),
    /// The record leaves its scan list and joins the one that its fields name now.
    Change(ScanChange),
}

/// At most 256 items, allocated in full when the outbox is created, and the number of items that
/// were dropped.
#[derive(Drop)]
pub struct Outbox {
    items: Vec<OutboxItem>,
    /// The number of items that were dropped, up to the largest `u64`.
    pub dropped: u64,
    ghost room: { vec_capacity items ≡ 256 },
}

impl Outbox {
    ghost use Rattle.ioc_store.specs.Outbox.{items_of};

    /// Creates an empty outbox.
    ///
    /// # Errors
    ///
    /// [`AllocError`] if allocation fails.
    pub fn new(alloc: Global) -> Result<Self, AllocError>
        ensures items { IfOk result (λ s. items_of s ≡ []) }
        ensures dropped { IfOk result (λ s. s.dropped ≡ 0) }
    {
        let items = Vec::with_capacity(alloc, 256)?;
        Ok(Outbox { items, dropped: 0 })
    }

    /// Returns the items, in the order in which they were sent.
    pub fn items(&self) -> &[OutboxItem]
        ensures { result.now ≡ items_of self.now }
    {
        self.items.as_slice()
    }

    /// Removes all items and resets the number of dropped ones.
    pub fn clear(&mut self)
        ensures items { items_of self.new ≡ [] }
        ensures dropped { self.new.dropped ≡ 0 }
    {
        self.items.clear();
        self.dropped = 0;
    }

    /// Sends an item, or counts it as dropped if 256 were sent already.
    pub fn send(&mut self, item: OutboxItem)
        ensures items { items_of self.new ≡ if nat_lt (length (items_of self.old)) 256 then items_of self.old ++ item ∷ []
            else items_of self.old }
        ensures dropped { self.new.dropped ≡ if nat_lt (length (items_of self.old)) 256 then self.old.dropped else more self.old.dropped }
    {
        if self.items.len() < 256 {
            self.items.push_reserved(item);
        } else {
            self.count_dropped();
        }
    }

    /// Counts an item as dropped.
    pub fn count_dropped(&mut self)
        ensures items { items_of self.new ≡ items_of self.old }
        ensures dropped { self.new.dropped ≡ more self.old.dropped }
    {
        self.dropped = self.dropped.saturating_add(1);
    }
}
