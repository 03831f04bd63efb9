//! The counts of puts with notification over all lock sets.
ghost use Rattle.std.specs.Prelude.{◌≡◌, ℕ, ◌+◌, ◌<◌, ◌≤◌, ◌^◌, ◌==◌, ◌&&◌, not, nat_lt, [], length, IfOk, OnOk, OnErr};
ghost use Rattle.std.specs.Vec.{vec_capacity};
ghost use Rattle.std.specs.List.{position};
ghost use Rattle.ioc_notify.specs.Living.{holders_of, is_live};
ghost use Rattle.ioc_notify.specs.Counts.{IsTable, has_by, holders_in};

use crate::{Live, NotifyId};
use std::alloc::{AllocError, Global};
use std::marker::Model;

/// The live puts with notification, each with the number of records and waiting lists that are part
/// of it, over all lock sets. It is updated with the changes of each set's own counts: the set's
/// old counts are subtracted, and its new ones are added.
#[derive(Drop)]
pub struct NotificationCounts {
    items: Vec<Live>,
}

impl Model for NotificationCounts {
    ghost use Rattle.std.specs.Vec.{vec_capacity};
    ghost use Rattle.ioc_notify.specs.Counts.{Table, IsTable};

    ghost Value = { Table };

    ghost view = { λ t. record { live = t.items.items; room = vec_capacity t.items } };

    ghost invariant = { λ t. IsTable t.items.items };
}

impl NotificationCounts {
    /// Creates an empty table.
    pub fn new(alloc: Global) -> Self
        ensures { result.live ≡ [] }
    {
        NotificationCounts {
            items: Vec::new(alloc),
        }
    }

    /// Reserves room for `additional` more.
    ///
    /// # Errors
    ///
    /// [`AllocError`] if allocation fails; nothing has changed then.
    pub fn reserve(&mut self, additional: usize) -> Result<(), AllocError>
        ensures same { self.new.live ≡ self.old.live }
        ensures room { OnOk result (length self.old.live + additional ≤ self.new.room) }
        ensures err { OnErr result (self.new ≡ self.old) }
    {
        self.items.reserve(additional)
    }

    /// States the invariant of a table: each live put with notification has one line, and its count
    /// isn't 0.
    pub fn is_table(&self)
        ensures { IsTable self.now.live }
    {
        let _ = &self.items;
    }

    /// Returns whether a put with notification with this number can begin: fewer than 256 are live
    /// over all sets, and this one isn't.
    pub fn has_place(&self, number: NotifyId) -> bool
        ensures { result ≡ (nat_lt (length self.now.live) 256 && not (is_live number self.now.live)) }
    {
        self.items.len() < 256 && !self.is_live(number)
    }

    /// Returns whether the put with notification with this number is live.
    pub fn is_live(&self, number: NotifyId) -> bool
        ensures { result ≡ is_live number self.now.live }
    {
        self.items.iter().any(|live| live.number == number)
    }

    /// Returns how many records and waiting lists are part of the put with notification with this
    /// number; 0 if it isn't live.
    pub fn holders(&self, number: NotifyId) -> u64
        ensures { result ≡ holders_of number self.now.live }
    {
        holders_by(self.items.as_slice(), number)
    }

    /// Subtracts the counts of a set's puts with notification.
    pub fn take_off(&mut self, puts: &[Live])
        requires there { (n : ℕ) → holders_in n puts.now ≤ holders_in n self.old.live }
        ensures counts { (n : ℕ) → holders_in n self.new.live + holders_in n puts.now ≡ holders_in n self.old.live }
        ensures fewer { length self.new.live ≤ length self.old.live }
        ensures room { self.new.room ≡ self.old.room }
    {
        for live in puts {
            take_off_one(&mut self.items, live.number, live.holders);
        }
    }

    /// Adds the counts of a set's puts with notification.
    pub fn add_on(&mut self, puts: &[Live])
        requires room { length self.old.live + length puts.now ≤ self.old.room }
        requires fits { (n : ℕ) → holders_in n self.old.live + holders_in n puts.now < 2 ^ 64 }
        ensures counts { (n : ℕ) → holders_in n self.new.live ≡ holders_in n self.old.live + holders_in n puts.now }
        ensures longer { length self.new.live ≤ length self.old.live + length puts.now }
        ensures room { self.new.room ≡ self.old.room }
    {
        for live in puts {
            add_on_one(&mut self.items, live.number, live.holders);
        }
    }
}

// Subtracts from the count of this number, and removes its line if nothing is left.
fn take_off_one(items: &mut Vec<Live>, number: NotifyId, holders: u64)
    requires table { IsTable items.old.items }
    requires there { holders ≤ holders_in number items.old.items }
    ensures table { IsTable items.new.items }
    ensures counts { (n : ℕ) → holders_in n items.new.items + has_by n (record { number = number; holders = holders })
        ≡ holders_in n items.old.items }
    ensures fewer { length items.new.items ≤ length items.old.items }
    ensures room { vec_capacity items.new ≡ vec_capacity items.old }
{
    let Some(place) = place_of(items.as_slice(), number) else {
        return;
    };
    let before = items[place].holders;
    if before > holders {
        items[place] = Live {
            number,
            holders: before - holders,
        };
        return;
    }
    let _live = items.remove(place);
}

// Adds to the count of this number.
fn add_on_one(items: &mut Vec<Live>, number: NotifyId, holders: u64)
    requires table { IsTable items.old.items }
    requires room { length items.old.items < vec_capacity items.old }
    requires fits { holders_in number items.old.items + holders < 2 ^ 64 }
    ensures table { IsTable items.new.items }
    ensures counts { (n : ℕ) → holders_in n items.new.items ≡ holders_in n items.old.items + has_by n
        (record { number = number; holders = holders }) }
    ensures longer { length items.new.items ≤ length items.old.items + 1 }
    ensures room { vec_capacity items.new ≡ vec_capacity items.old }
{
    if holders == 0 {
        return;
    }
    match place_of(items.as_slice(), number) {
        Some(place) => {
            let before = items[place].holders;
            items[place] = Live {
                number,
                holders: before + holders,
            };
        }
        None => items.push_reserved(Live { number, holders }),
    }
}

/// Returns the count of the put with notification with this number by its first line; 0 if there is
/// none.
pub fn holders_by(items: &[Live], number: NotifyId) -> u64
    ensures { result ≡ holders_of number items.now }
{
    for line in items {
        if line.number == number {
            return line.holders;
        }
    }
    0
}

// Returns the index of the line for this number, if there is one.
fn place_of(items: &[Live], number: NotifyId) -> Option<usize>
    ensures { result ≡ position (λ l. l.number == number) items.now }
{
    items.iter().position(|live| live.number == number)
}
