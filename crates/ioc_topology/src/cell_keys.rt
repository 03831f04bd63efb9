//! The keys of cells.
ghost use Rattle.std.specs.Prelude.{◌≡◌, ◌<◌, ◌≤◌, ℕ, [], None, IfOk, OnErr};
ghost use Rattle.std.specs.Vec.{vec_capacity};
ghost use Rattle.slab.specs.Slab.{ContainsKey, slab_len, SameValues, Updates};
ghost use Rattle.ioc_topology.specs.Keys.{TakesKey, TakesTwo};

use crate::directory::{KeyedCell, SetCell};
use crate::link_cells::NewCells;
use crate::locked::Locked;
use crossbeam_utils::CachePadded;
use slab::Slab;
use std::alloc::{AllocError, Global};
use std::mem;
use std::sync::Mutex;

/// The keys of the cells that have a set. No two sets have one key: a key is given out only while
/// it has no set, and has one until it is left. It also has the room for all sets that
/// [`Directory::gather`](crate::Directory::gather) needs.
#[derive(Drop)]
pub(crate) struct CellKeys<S: Locked> {
    // The keys that have a set.
    keys: Slab<()>,
    // Room for the set of each key.
    room: Vec<S>,
    // Room for what becomes of these sets.
    ended: Vec<S::Ended>,
    ghost is_empty: { room.items ≡ [] },
    ghost has_room: { slab_len keys ≤ vec_capacity room },
    ghost none_ended: { ended.items ≡ [] },
    ghost has_room_to_end: { slab_len keys ≤ vec_capacity ended },
}

/// The keys that have a set, with room for their sets and for what becomes of them.
pub(crate) struct Rooms<S: Locked> {
    pub(crate) keys: Slab<()>,
    pub(crate) sets: Vec<S>,
    pub(crate) ended: Vec<S::Ended>,
}

impl<S: Locked> CellKeys<S> {
    /// Creates the list, which has no key. Allocates nothing.
    pub fn new(alloc: Global) -> CellKeys<S>
        ensures { result.keys.slots ≡ [] }
    {
        CellKeys {
            keys: Slab::new(alloc),
            room: Vec::new(alloc),
            ended: Vec::new(alloc),
        }
    }

    /// Returns a number above all keys that have a set. It is at most about twice the number of
    /// keys that had a set at one time.
    pub fn bound(&self) -> usize
        ensures { (key : ℕ) → ContainsKey self.now.keys key → key < result }
    {
        self.keys.capacity()
    }

    /// Returns the keys that have a set, and lists with room for their sets and for what becomes of
    /// them. The keys are forgotten. Allocates nothing.
    pub fn take_room(&mut self, alloc: Global) -> Rooms<S>
        ensures keys { result.keys ≡ self.old.keys }
        ensures empty { (result.sets.items ≡ []) × (result.ended.items ≡ []) }
        ensures room { slab_len result.keys ≤ vec_capacity result.sets }
        ensures room_to_end { slab_len result.keys ≤ vec_capacity result.ended }
    {
        let CellKeys { keys, room, ended } = mem::replace(self, CellKeys::new(alloc));
        Rooms {
            keys,
            sets: room,
            ended,
        }
    }

    /// Takes a key that no set has, with its cell, which has a set without records. The lock of the
    /// cell is made if the key wasn't given out before. Makes the room for the set.
    ///
    /// # Errors
    ///
    /// [`AllocError`] if allocation fails, or if all cells have a set; no key has changed then.
    pub fn take<'a>(
        &mut self,
        alloc: Global,
        cells: &'a [SetCell<S>],
    ) -> Result<KeyedCell<'a, S>, AllocError>
        ensures taken { IfOk result (λ cell. TakesKey self.old.keys self.new.keys cell.key) }
        ensures err { OnErr result (SameValues self.old.keys self.new.keys) }
    {
        self.room.reserve(self.keys.len() + 1)?;
        self.ended.reserve(self.keys.len() + 1)?;
        self.keys.reserve(1)?;
        let lock = lock_of(alloc, cells, self.keys.vacant_key())?;
        let key = self.keys.insert_reserved(());
        Ok(KeyedCell { key, lock })
    }

    /// Takes two keys that no set has, with their cells, for a link change.
    ///
    /// # Errors
    ///
    /// [`AllocError`] if allocation fails, or if fewer than two cells have no set; no key has
    /// changed then.
    pub fn take_two<'a>(
        &mut self,
        alloc: Global,
        cells: &'a [SetCell<S>],
    ) -> Result<NewCells<'a, S>, AllocError>
        ensures taken { IfOk result (λ new. TakesTwo self.old.keys self.new.keys new.0 new.1) }
        ensures err { OnErr result (SameValues self.old.keys self.new.keys) }
    {
        let beside = self.take(alloc, cells)?;
        match self.take(alloc, cells) {
            Ok(spare) => Ok(NewCells { beside, spare }),
            Err(refused) => {
                self.leave(beside.key);
                Err(refused)
            }
        }
    }

    /// Leaves a key, which has no set from then on. Allocates nothing.
    pub fn leave(&mut self, key: usize)
        ensures { Updates self.old.keys self.new.keys key None }
    {
        self.keys.try_remove(key);
    }
}

// Returns the lock of the cell with a key, which is made for a set without records if there is
// none.
fn lock_of<S: Locked>(
    alloc: Global,
    cells: &[SetCell<S>],
    key: usize,
) -> Result<&Mutex<S>, AllocError> {
    let Some(cell) = cells.get(key) else {
        return Err(AllocError);
    };
    if let Some(lock) = cell.get() {
        return Ok(lock);
    }
    let lock = Box::new(alloc, CachePadded::new(Mutex::new(S::empty(alloc))))?;
    match cell.try_set(lock) {
        Ok(token) => Ok(cell.value(&token)),
        Err(_) => Err(AllocError),
    }
}
