//! The 256 places for puts with notification of all lock sets.
ghost use Rattle.std.specs.Prelude.{◌≡◌, ◌⊎◌, ◌↔◌, ◌+◌, ◌<◌, ◌≤◌, ◌∷◌, ◌++◌, ℕ, [], true, false, nat_lt, length, IsTrue, Contains, IfOk};
ghost use Rattle.ioc_notify.specs.Living.{is_live};
ghost use Rattle.ioc_journaled_set.specs.PutPlaces.{places_of, without, AreFew};

use ioc_notify::{NotificationCounts, NotifyId};
use std::alloc::{AllocError, Global};
use std::marker::Model;

// The number of puts with notification that can be live.
const PLACES: usize = 256;

/// The numbers that have a place: those that were taken for puts with notification that haven't
/// begun yet, and those of puts with notification that have begun. One that has ended keeps its
/// place until all others are used.
#[derive(Drop)]
pub struct PutPlaces {
    taken: Vec<NotifyId>,
    begun: Vec<NotifyId>,
}

impl Model for PutPlaces {
    ghost use Rattle.std.specs.Vec.{vec_capacity};
    ghost use Rattle.ioc_journaled_set.specs.PutPlaces.{Places, HavePlaces, places_of};

    ghost Value = { Places };

    ghost view = { λ p. places_of p.taken.items p.begun.items };

    ghost invariant = { λ p. HavePlaces (places_of p.taken.items p.begun.items) (vec_capacity p.taken) (vec_capacity p.begun) };
}

impl PutPlaces {
    /// Creates the places, of which none is used.
    ///
    /// # Errors
    ///
    /// [`AllocError`] if allocation fails.
    pub fn new(alloc: Global) -> Result<Self, AllocError>
        ensures { IfOk result (λ p. p ≡ places_of [] []) }
    {
        let taken = Vec::with_capacity(alloc, PLACES)?;
        let begun = Vec::with_capacity(alloc, PLACES)?;
        Ok(PutPlaces { taken, begun })
    }

    /// States the invariant: at most 256 places are used, and no number has begun twice.
    pub fn are_few(&self)
        ensures { AreFew self.now }
    {
        let _ = &self.taken;
    }

    // Returns whether a place is free.
    fn has_free(&self) -> bool
        ensures { result ≡ nat_lt (length self.now.taken + length self.now.begun) 256 }
    {
        self.taken.len() + self.begun.len() < PLACES
    }

    /// Returns whether a place is free. If all are used, those of puts with notification that have
    /// begun and aren't live any more are freed first.
    pub fn make_room(&mut self, live: &NotificationCounts) -> bool
        ensures taken { self.new.taken ≡ self.old.taken }
        ensures kept { (n : ℕ) → is_live n live.now.live ≡ true → Contains self.old.begun n → Contains self.new.begun n }
        ensures within { (n : ℕ) → Contains self.new.begun n → Contains self.old.begun n }
        ensures room { result ≡ true → length self.new.taken + length self.new.begun < 256 }
        ensures full { result ≡ false → 256 ≤ length live.now.live + length self.new.taken }
    {
        if self.has_free() {
            return true;
        }
        self.begun.retain(|number| live.is_live(*number));
        self.has_free()
    }

    /// Returns whether this number was taken, and no put with notification has begun under it.
    pub fn has_taken(&self, number: NotifyId) -> bool
        ensures { IsTrue result ↔ Contains self.now.taken number }
    {
        self.taken.contains(&number)
    }

    /// Gives a place to a number that is taken.
    pub fn take(&mut self, number: NotifyId)
        requires room { length self.old.taken + length self.old.begun < 256 }
        ensures { self.new ≡ places_of (self.old.taken ++ number ∷ []) self.old.begun }
    {
        self.taken.push_reserved(number);
    }

    /// Frees the place of a number that was taken.
    pub fn give_back(&mut self, number: NotifyId)
        ensures { self.new ≡ places_of (without number self.old.taken) self.old.begun }
    {
        self.taken.retain(|taken| *taken != number);
    }

    /// Gives a place to a put with notification that begins.
    pub fn begin(&mut self, number: NotifyId, live: &NotificationCounts)
        requires room { length live.now.live + length self.old.taken < 256 }
        requires new { Contains self.old.begun number → ⊥ }
        ensures taken { self.new.taken ≡ self.old.taken }
        ensures own { Contains self.new.begun number }
        ensures kept { (n : ℕ) → is_live n live.now.live ≡ true → Contains self.old.begun n → Contains self.new.begun n }
        ensures within { (n : ℕ) → Contains self.new.begun n → (number ≡ n) ⊎ Contains self.old.begun n }
    {
        let _is_free = self.make_room(live);
        self.begun.push_reserved(number);
    }
}
