//! Places of a journal that are neither filled nor held.
ghost use Rattle.std.specs.Prelude.{◌≡◌, ◌≤◌, ◌+◌, ◌⊎◌, IfSome, IfNone};

use crate::journal_name::JournalName;
use std::marker::{Model, PhantomData};
use std::sync::ledger::{Book, Ledger, Share};

/// The parts of the ledger of places. Each held place has one.
pub const PLACES: u64 = u64::MAX;

/// The ledger of the places of an engine's journal, whether they are free, held or filled. Its
/// total is their number.
pub struct Places<K, B: JournalName<K>> {
    of: PhantomData<B>,
    kind: PhantomData<K>,
}

impl<K, B: JournalName<K>> Ledger for Places<K, B> {
    ghost name = { B.places };

    ghost parts = { 18446744073709551615 };
}

/// A held place of a journal. It can't be dropped: it has to be filled or given back.
pub struct Place<K, B: JournalName<K>> {
    pub(crate) share: Share<Places<K, B>>,
    ghost one: { (share.parts ≡ 1) × (share.amount ≡ 1) },
}

/// Some of the free places of a journal. Contracts see their number.
#[derive(Drop)]
pub struct FreePlaces<K, B: JournalName<K>> {
    count: u64,
    share: Share<Places<K, B>>,
}

impl<K, B: JournalName<K>> Model for FreePlaces<K, B> {
    ghost use Rattle.std.specs.Prelude.{ℕ, ◌≡◌};

    ghost Value = { ℕ };

    ghost view = { λ f. f.count };

    ghost invariant = { λ f. (f.share.parts ≡ f.count) × (f.share.amount ≡ f.count) };
}

impl<K, B: JournalName<K>> FreePlaces<K, B> {
    /// The free places that a share of the ledger stands for.
    pub(crate) fn new(count: u64, share: Share<Places<K, B>>) -> Self
        requires parts { share.parts ≡ count }
        requires amount { share.amount ≡ count }
        ensures { result ≡ count }
    {
        FreePlaces { count, share }
    }

    /// Takes one of these places, or returns `None` if there is none.
    #[inline(always)]
    pub fn take(&mut self) -> Option<Place<K, B>>
        ensures taken { IfSome result (λ _. self.old ≡ self.new + 1) }
        ensures none { IfNone result ((self.old ≡ 0) × (self.new ≡ 0)) }
    {
        if self.count == 0 {
            return None;
        }
        self.count -= 1;
        let share = self.share.split_off(1, 1);
        Some(Place { share })
    }

    /// Takes one of these places if there are two or more.
    #[inline(always)]
    pub fn take_spare(&mut self) -> Option<Place<K, B>>
        ensures taken { IfSome result (λ _. self.old ≡ self.new + 1) }
        ensures none { IfNone result ((self.old ≤ 1) × (self.new ≡ self.old)) }
    {
        if self.count <= 1 {
            return None;
        }
        self.count -= 1;
        let share = self.share.split_off(1, 1);
        Some(Place { share })
    }

    /// Returns the number of these places.
    pub fn len(&self) -> u64
        ensures { result ≡ self.now }
    {
        self.count
    }

    /// Adds a place that was taken.
    pub fn give_back(&mut self, place: Place<K, B>)
        ensures { self.new ≡ self.old + 1 }
    {
        let Place { share } = place;
        self.share.merge(share);
        self.count += 1;
    }

    /// Moves `most` of these places to others, or all if they are fewer.
    pub fn move_to(&mut self, most: u64, other: &mut FreePlaces<K, B>)
        ensures sum { self.new + other.new ≡ self.old + other.old }
        ensures most { (other.new ≡ other.old + most) ⊎ (self.new ≡ 0) }
    {
        let count = if self.count < most { self.count } else { most };
        self.share.give(&mut other.share, count, count);
        self.count -= count;
        other.count += count;
    }

    /// Returns none of these places.
    pub fn none(&mut self) -> Self
        ensures none { result ≡ 0 }
        ensures same { self.new ≡ self.old }
    {
        let share = self.share.split_off(0, 0);
        FreePlaces { count: 0, share }
    }

    // Adds these places to a share of the ledger, compares it with the total, and takes them back.
    pub(crate) fn lend_to(
        &mut self,
        book: &mut Book<Places<K, B>>,
        filled: &mut Share<Places<K, B>>,
    )
        ensures within { filled.old.amount + self.old ≤ book.old.total }
        ensures book { book.new.total ≡ book.old.total }
        ensures filled { (filled.new.amount ≡ filled.old.amount) × (filled.new.parts ≡ filled.old.parts) }
        ensures same { self.new ≡ self.old }
    {
        book.audit(filled);
        let count = self.count;
        self.share.give(filled, count, count);
        book.audit(filled);
        filled.give(&mut self.share, count, count);
    }
}
