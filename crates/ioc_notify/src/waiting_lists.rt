//! Puts with notification that wait for their record.
ghost use Rattle.std.specs.Prelude.{◌≡◌, ◌↔◌, ◌+◌, ◌<◌, ◌≤◌, ◌==◌, length, IsTrue, IfOk, OnOk, OnErr, slice_get};
ghost use Rattle.std.specs.List.{list_any};
ghost use Rattle.ioc_notify.specs.Waits.{with_room, added, at_record, without};

use crate::notify_id::NotifyId;
use ioc_fields::FieldNo;
use ioc_names::RecordNo;
use ioc_values::Value;
use std::alloc::{AllocError, Global};
use std::marker::Model;

/// A put with notification that waits for its record.
#[derive(Clone, Copy, PartialEq, Eq)]
pub struct Waiting {
    pub number: NotifyId,
    pub target: RecordNo,
    pub field: FieldNo,
    /// The value to put, converted for the field.
    pub value: Value,
}

/// The waiting lists of records; each is first in, first out. All lists are in one table whose
/// memory is reserved in advance, so adding never allocates.
#[derive(Drop)]
pub struct WaitingLists {
    items: Vec<Waiting>,
}

impl Model for WaitingLists {
    ghost use Rattle.std.specs.Prelude.{◌≡◌, ◌≤◌, length};
    ghost use Rattle.std.specs.Vec.{vec_len, vec_capacity};
    ghost use Rattle.ioc_notify.specs.Waits.{Waits};

    ghost Value = { Waits };

    ghost view = { λ w. record { waiting = w.items.items; room = vec_capacity w.items } };
}

impl WaitingLists {
    /// Creates empty waiting lists with room for `room` puts with notification.
    ///
    /// # Errors
    ///
    /// [`AllocError`] if allocation fails.
    pub fn with_room(alloc: Global, room: usize) -> Result<Self, AllocError>
        ensures { IfOk result (λ w. w ≡ with_room room) }
    {
        let items = Vec::with_capacity(alloc, room)?;
        Ok(WaitingLists { items })
    }

    /// Reserves room for `additional` more.
    ///
    /// # Errors
    ///
    /// [`AllocError`] if allocation fails; nothing has changed then.
    pub fn reserve(&mut self, additional: usize) -> Result<(), AllocError>
        ensures same { self.new.waiting ≡ self.old.waiting }
        ensures room { OnOk result (length self.old.waiting + additional ≤ self.new.room) }
        ensures more { self.old.room ≤ self.new.room }
        ensures err { OnErr result (self.new ≡ self.old) }
    {
        self.items.reserve(additional)
    }

    /// Returns all that wait, in the order in which they were added.
    pub fn as_slice(&self) -> &[Waiting]
        ensures { result.now ≡ self.now.waiting }
    {
        self.items.as_slice()
    }

    /// Returns whether there is room for one more.
    pub fn has_room(&self) -> bool
        ensures { IsTrue result ↔ (length self.now.waiting < self.now.room) }
    {
        self.items.len() < self.items.capacity()
    }

    /// Adds a put with notification at the end of its record's list, with its number, the record,
    /// the field, and the value, converted for the field.
    pub fn add(&mut self, number: NotifyId, target: RecordNo, field: FieldNo, value: Value)
        requires { length self.old.waiting < self.old.room }
        ensures { self.new ≡ added self.old (record { number = number; target = target; field = field; value = value }) }
    {
        self.items.push_reserved(Waiting {
            number,
            target,
            field,
            value,
        });
    }

    /// Returns the put with notification that has waited longest for this record.
    pub fn first(&self, target: RecordNo) -> Option<Waiting>
        ensures { result ≡ slice_get (at_record target self.now.waiting) 0 }
    {
        for waiting in &self.items {
            if waiting.target == target {
                return Some(*waiting);
            }
        }
        None
    }

    /// Returns whether the put with notification with this number waits.
    pub fn has(&self, number: NotifyId) -> bool
        ensures { result ≡ list_any (λ w. w.number == number) self.now.waiting }
    {
        self.items.iter().any(|waiting| waiting.number == number)
    }

    /// Removes the put with notification with this number. Returns whether it waited.
    pub fn remove(&mut self, number: NotifyId) -> bool
        ensures waited { result ≡ list_any (λ w. w.number == number) self.old.waiting }
        ensures removed { self.new ≡ record self.old { waiting = without number self.old.waiting } }
    {
        let waited = self.has(number);
        self.items.retain(|waiting| waiting.number != number);
        waited
    }

    /// Copies the lists, with room for those that wait.
    ///
    /// # Errors
    ///
    /// [`AllocError`] if allocation fails.
    pub fn copy(&self, alloc: Global) -> Result<Self, AllocError>
        ensures { IfOk result (λ copy. copy.waiting ≡ self.now.waiting) }
    {
        let items = Vec::from_slice(alloc, self.items.as_slice())?;
        Ok(WaitingLists { items })
    }
}
