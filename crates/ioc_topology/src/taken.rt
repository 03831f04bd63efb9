//! Sets that are taken out of their cells for the time of a call that concerns all of them at once.
ghost use Rattle.std.specs.Prelude.{◌≡◌, true, All, IfOk, IfSome};
ghost use Rattle.std.specs.Borrow.{Bor};
ghost use Rattle.std.specs.Fn.{FnReturnsAt};

use crate::busy::{Busy, lock_briefly};
use crate::directory::{Directory, KeyedCell};
use crate::locked::Locked;
use std::alloc::{AllocError, Global};
use std::mem;
use std::sync::{Mutex, Wait};

/// Sets that were taken out of their cells. A caller that looks for one of their records meanwhile
/// finds a set without records. It looks again, as while a record is being moved, and after some
/// looks waits for the topology guard. It can't be dropped: the sets have to be put back.
pub struct Taken<'a, S: Locked> {
    /// The sets. Their number must not change.
    pub sets: Vec<S>,
    // The cell of each, in the same order.
    cells: Vec<KeyedCell<'a, S>>,
    // The lock of a set that wasn't taken because a call keeps it.
    busy: Option<Busy<'a, S>>,
}

impl<S: Locked> Directory<S> {
    /// Takes each set that [may be taken](Locked::may_be_taken) and passes the test out of its
    /// cell, except those that are [`Busy`]. The caller holds the topology guard until all are put
    /// back, so no set parts or joins another meanwhile. The cells are locked one after another, only
    /// those of sets that may be taken, and the test takes no lock of the directory.
    ///
    /// # Errors
    ///
    /// [`AllocError`] if allocation fails; nothing has changed then.
    pub fn take_where<F: Fn(&S) -> bool, R: Wait>(
        &self,
        rt: &R,
        alloc: Global,
        test: &F,
    ) -> Result<Taken<'_, S>, AllocError>
        requires { (s : Bor S) → S.sound s.now → F.pre test.now s }
        ensures sound { IfOk result (λ t. All S.sound t.sets.items) }
        ensures met { IfOk result (λ t. All (λ s. FnReturnsAt F.Fn test.now s true) t.sets.items) }
    {
        let mut all = self.flagged(rt, alloc)?;
        let mut sets = Vec::with_capacity(alloc, all.len())?;
        let mut cells = Vec::with_capacity(alloc, all.len())?;
        let mut busy = None;
        while let Some(cell) = all.pop() {
            let found = match take_if(alloc, cell.lock, test) {
                Ok(found) => found,
                Err(kept) => {
                    busy = Some(kept);
                    continue;
                }
            };
            if let Some(set) = found {
                sets.push_reserved(set);
                cells.push_reserved(cell);
            }
        }
        Ok(Taken { sets, cells, busy })
    }

    /// Takes each set with records out of its cell, up to the first that is [`Busy`]. The caller
    /// holds the topology guard until all are put back, so no set parts or joins another meanwhile,
    /// and no cell is made. The cells are locked one after another, by rising key.
    ///
    /// # Errors
    ///
    /// [`AllocError`] if allocation fails; nothing has changed then.
    pub fn take_all<R: Wait>(&self, rt: &R, alloc: Global) -> Result<Taken<'_, S>, AllocError>
        ensures sound { IfOk result (λ t. All S.sound t.sets.items) }
    {
        let bound = self.keys.lock(rt).bound();
        let mut sets = Vec::with_capacity(alloc, bound)?;
        let mut cells = Vec::with_capacity(alloc, bound)?;
        let mut busy = None;
        for key in 0..bound {
            let Some(lock) = self.lock_at(key) else {
                continue;
            };
            let found = match take_filled(alloc, lock) {
                Ok(found) => found,
                Err(kept) => {
                    busy = Some(kept);
                    break;
                }
            };
            if let Some(set) = found {
                sets.push_reserved(set);
                cells.push_reserved(KeyedCell { key, lock });
            }
        }
        Ok(Taken { sets, cells, busy })
    }

    /// Puts the sets back into their cells, where they are found again. Returns the lock of a set
    /// that wasn't taken because it was busy, if there was one.
    pub fn put_back<'a, R: Wait>(&self, rt: &R, taken: Taken<'a, S>) -> Option<Busy<'a, S>> {
        let Taken { sets, cells, busy } = taken;
        for (cell, set) in cells.into_iter().zip(sets) {
            let mut guard = cell.lock.lock(rt);
            put_in(&mut *guard, set);
            self.set_flag(cell.key, guard.may_be_taken());
        }
        busy
    }
}

// Puts a set into a cell.
fn put_in<S: Locked>(cell: &mut S, set: S)
    ensures { cell.new ≡ set }
{
    *cell = set;
}

// Takes the set of a cell if it passes the test, and leaves a set without records there.
fn take_if<'a, S: Locked, F: Fn(&S) -> bool>(
    alloc: Global,
    lock: &'a Mutex<S>,
    test: &F,
) -> Result<Option<S>, Busy<'a, S>>
    requires { (s : Bor S) → S.sound s.now → F.pre test.now s }
    ensures sound { IfOk result (λ taken. IfSome taken S.sound) }
    ensures met { IfOk result (λ taken. IfSome taken (λ s. FnReturnsAt F.Fn test.now s true)) }
{
    let mut set = lock_briefly(lock)?;
    set.is_sound();
    if test(&set) {
        Ok(Some(mem::replace(&mut *set, S::empty(alloc))))
    } else {
        Ok(None)
    }
}

// Takes the set of a cell if it has records, and leaves a set without records there.
fn take_filled<'a, S: Locked>(alloc: Global, lock: &'a Mutex<S>) -> Result<Option<S>, Busy<'a, S>>
    ensures { IfOk result (λ taken. IfSome taken S.sound) }
{
    let mut set = lock_briefly(lock)?;
    if set.len() == 0 {
        return Ok(None);
    }
    set.is_sound();
    Ok(Some(mem::replace(&mut *set, S::empty(alloc))))
}
