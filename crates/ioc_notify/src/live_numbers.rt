//! The live puts with notification, and how many records and waiting lists are part of each.
ghost use Rattle.std.specs.Prelude.{◌≡◌, ◌↔◌, ◌+◌, ◌-◌, ◌<◌, ◌^◌, ◌==◌, length, IsTrue, IfOk};
ghost use Rattle.std.specs.List.{list_any};
ghost use Rattle.std.specs.Vec.{vec_capacity};
ghost use Rattle.ioc_notify.specs.Living.{none_live, is_live, begun, gained, is_at_its_last, lost, forgotten, IsPlaceOf};

use crate::notify_id::NotifyId;
use std::alloc::{AllocError, Global};
use std::marker::Model;

/// A live put with notification, and how many records and waiting lists are part of it.
#[derive(Clone, Copy, PartialEq, Eq)]
pub struct Live {
    pub number: NotifyId,
    pub holders: u64,
}

/// The live puts with notification, at most 256, by the numbers that their callers gave. All memory
/// is allocated at creation. Each call takes time proportional to the number of live ones.
#[derive(Drop)]
pub struct LiveNumbers {
    items: Vec<Live>,
}

impl Model for LiveNumbers {
    ghost use Rattle.std.specs.Prelude.{◌≡◌};
    ghost use Rattle.std.specs.Vec.{vec_capacity};
    ghost use Rattle.ioc_notify.specs.Living.{Living};

    ghost Value = { Living };

    ghost view = { λ n. record { live = n.items.items } };

    ghost invariant = { λ n. vec_capacity n.items ≡ 256 };
}

impl LiveNumbers {
    /// Creates a table without live puts with notification.
    ///
    /// # Errors
    ///
    /// [`AllocError`] if allocation fails.
    pub fn new(alloc: Global) -> Result<Self, AllocError>
        ensures { IfOk result (λ n. n ≡ none_live) }
    {
        let items = Vec::with_capacity(alloc, 256)?;
        Ok(LiveNumbers { items })
    }

    /// Returns how many are live, at most 256.
    pub fn len(&self) -> usize
        ensures { result ≡ length self.now.live }
    {
        self.items.len()
    }

    /// Returns the live ones, in the order in which they began.
    pub fn as_slice(&self) -> &[Live]
        ensures { result.now ≡ self.now.live }
    {
        self.items.as_slice()
    }

    /// Begins the put with notification with this number. One record or waiting list is part of it.
    pub fn begin(&mut self, number: NotifyId)
        requires { length self.old.live < 256 }
        ensures { self.new ≡ record self.old { live = begun number self.old.live } }
    {
        self.items.push_reserved(Live { number, holders: 1 });
    }

    /// Returns whether the put with notification with this number is live.
    pub fn is_live(&self, number: NotifyId) -> bool
        ensures { result ≡ is_live number self.now.live }
    {
        self.items.iter().any(|live| live.number == number)
    }

    /// Adds a record to the put with notification with this number, if it is live.
    pub fn add_holder(&mut self, number: NotifyId)
        ensures { self.new ≡ record self.old { live = gained number self.old.live } }
    {
        add_holder(&mut self.items, number);
    }

    /// Removes a record or waiting list from the put with notification with this number. Returns
    /// whether that was the last one; it has ended then, and is no longer live.
    pub fn remove_holder(&mut self, number: NotifyId) -> bool
        ensures ended { result ≡ is_at_its_last number self.old.live }
        ensures lost { self.new ≡ record self.old { live = lost number self.old.live } }
    {
        remove_holder(&mut self.items, number)
    }

    /// Cancels the put with notification with this number. Returns whether it was live.
    pub fn forget(&mut self, number: NotifyId) -> bool
        ensures live { result ≡ is_live number self.old.live }
        ensures forgotten { self.new ≡ record self.old { live = forgotten number self.old.live } }
    {
        forget(&mut self.items, number)
    }
}

// Adds a record to the put with notification with this number.
fn add_holder(items: &mut Vec<Live>, number: NotifyId)
    ensures live { items.new.items ≡ gained number items.old.items }
    ensures room { vec_capacity items.new ≡ vec_capacity items.old }
{
    if let Some(place) = place_of(items.as_slice(), number) {
        let holders = items[place].holders;
        items[place] = Live {
            number,
            holders: holders.saturating_add(1),
        };
    }
}

// Removes a record or waiting list from it. Returns whether that was the last one.
fn remove_holder(items: &mut Vec<Live>, number: NotifyId) -> bool
    ensures ended { result ≡ is_at_its_last number items.old.items }
    ensures lost { items.new.items ≡ lost number items.old.items }
    ensures room { vec_capacity items.new ≡ vec_capacity items.old }
{
    let Some(place) = place_of(items.as_slice(), number) else {
        return false;
    };
    let holders = items[place].holders;
    if holders > 1 {
        items[place] = Live {
            number,
            holders: holders - 1,
        };
        return false;
    }
    let _live = items.remove(place);
    true
}

// Removes the put with notification. Returns whether it was live.
fn forget(items: &mut Vec<Live>, number: NotifyId) -> bool
    ensures live { result ≡ list_any (λ l. l.number == number) items.old.items }
    ensures forgotten { items.new.items ≡ forgotten number items.old.items }
    ensures room { vec_capacity items.new ≡ vec_capacity items.old }
{
    let Some(place) = place_of(items.as_slice(), number) else {
        return false;
    };
    let _live = items.remove(place);
    true
}

// Returns the index of the put with notification with this number, if it is live.
fn place_of(items: &[Live], number: NotifyId) -> Option<usize>
    ensures { IsPlaceOf number items.now result }
{
    for (place, live) in items.iter().enumerate() {
        if live.number == number {
            return Some(place);
        }
    }
    None
}
