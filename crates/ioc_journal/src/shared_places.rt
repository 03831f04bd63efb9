//! The free places of a journal, which callers take without the journal's lock.
ghost use Rattle.std.specs.Prelude.{◌<◌};

use crate::free_places::{FreePlaces, Place};
use crate::journal_name::JournalName;
use crate::short_lock::lock_soon;
use crossbeam_utils::CachePadded;
use std::sync::{Mutex, MutexGuard, Wait};

// The number of stripes.
const STRIPES: usize = 8;

// The number of places that stay in a caller's stripe when all are collected.
const BATCH: u64 = 64;

/// The free places of a journal, in stripes under their own locks, so that callers on several
/// threads seldom meet. A caller takes places from its own stripe.
#[derive(Drop)]
pub struct SharedPlaces<K, B: JournalName<K>> {
    stripes: [CachePadded<Mutex<FreePlaces<K, B>>>; STRIPES],
}

fn stripe<K, B: JournalName<K>>(free: FreePlaces<K, B>) -> CachePadded<Mutex<FreePlaces<K, B>>> {
    CachePadded::new(Mutex::new(free))
}

// Returns the stripe of a caller.
fn stripe_of(caller: u64) -> usize
    ensures { result < 8 }
{
    (caller % STRIPES as u64) as usize
}

impl<K, B: JournalName<K>> SharedPlaces<K, B> {
    /// Puts free places under locks.
    pub fn new(free: FreePlaces<K, B>) -> Self {
        let mut free = free;
        let [a, b, c, d, e, f, g] = [
            free.none(),
            free.none(),
            free.none(),
            free.none(),
            free.none(),
            free.none(),
            free.none(),
        ];
        SharedPlaces {
            stripes: [
                stripe(free),
                stripe(a),
                stripe(b),
                stripe(c),
                stripe(d),
                stripe(e),
                stripe(f),
                stripe(g),
            ],
        }
    }

    /// Locks the stripe of a caller.
    #[inline(always)]
    pub fn lock_stripe<R: Wait>(&self, rt: &R, caller: u64) -> MutexGuard<'_, FreePlaces<K, B>> {
        lock_soon(rt, &self.stripes[stripe_of(caller)])
    }

    /// Takes a place from the stripe of a caller if it has two or more.
    #[inline(always)]
    pub fn take_spare<R: Wait>(&self, rt: &R, caller: u64) -> Option<Place<K, B>> {
        lock_soon(rt, &self.stripes[stripe_of(caller)]).take_spare()
    }

    /// Takes a place from the stripe of a caller, or returns `None` if it has none.
    pub fn take<R: Wait>(&self, rt: &R, caller: u64) -> Option<Place<K, B>> {
        lock_soon(rt, &self.stripes[stripe_of(caller)]).take()
    }

    /// Returns the number of places in all stripes, each of which is locked in turn.
    pub fn len<R: Wait>(&self, rt: &R) -> u64 {
        let mut count = 0u64;
        for stripe in &self.stripes {
            count = count.saturating_add(lock_soon(rt, stripe).len());
        }
        count
    }

    /// Frees a place of a caller.
    pub fn give_back<R: Wait>(&self, rt: &R, caller: u64, place: Place<K, B>) {
        self.lock_stripe(rt, caller).give_back(place);
    }

    /// Spreads the places of the first stripe over all stripes.
    pub fn spread<R: Wait>(&self, rt: &R) {
        let mut first = lock_soon(rt, &self.stripes[0]);
        let each = first.len() / STRIPES as u64;
        for at in 1..STRIPES {
            let mut stripe = lock_soon(rt, &self.stripes[at]);
            first.move_to(each, &mut stripe);
        }
    }

    /// Takes a place for a caller from another stripe, and moves half of that stripe's places to the
    /// caller's. Each stripe is locked in turn. Returns `None` if none of them has more than a few.
    pub fn take_from_others<R: Wait>(&self, rt: &R, caller: u64) -> Option<Place<K, B>> {
        let own = stripe_of(caller);
        for at in 0..STRIPES {
            if at != own {
                let mut moved = self.half_of(rt, at);
                if let Some(place) = moved.take() {
                    let mut stripe = lock_soon(rt, &self.stripes[own]);
                    moved.move_to(u64::MAX, &mut stripe);
                    return Some(place);
                }
            }
        }
        None
    }

    // Takes half of the places of a stripe, or none if it has few.
    fn half_of<R: Wait>(&self, rt: &R, at: usize) -> FreePlaces<K, B>
        requires { at < 8 }
    {
        let mut stripe = lock_soon(rt, &self.stripes[at]);
        let mut half = stripe.none();
        let count = stripe.len();
        if count > BATCH {
            stripe.move_to(count / 2, &mut half);
        }
        half
    }

    /// Collects the places of all stripes, under all their locks, and takes one for a caller. Its
    /// stripe keeps some of the others. Returns `None` only if no stripe has a place while all are
    /// locked.
    pub fn collect<R: Wait>(&self, rt: &R, caller: u64) -> Option<Place<K, B>> {
        let mut first = lock_soon(rt, &self.stripes[0]);
        let mut all = first.none();
        first.move_to(u64::MAX, &mut all);
        let found = self.collect_from(rt, 1, stripe_of(caller), &mut all);
        all.move_to(u64::MAX, &mut first);
        found
    }

    // Collects the places of the stripes from `at` on, and takes one when all are locked.
    fn collect_from<R: Wait>(
        &self,
        rt: &R,
        at: usize,
        own: usize,
        all: &mut FreePlaces<K, B>,
    ) -> Option<Place<K, B>> {
        if at >= STRIPES {
            return all.take();
        }
        let mut stripe = lock_soon(rt, &self.stripes[at]);
        stripe.move_to(u64::MAX, all);
        let found = self.collect_from(rt, at + 1, own, all);
        if at == own {
            all.move_to(BATCH, &mut stripe);
        }
        found
    }
}
