//! The parts of a link change: the places of the sets of two records, their locks, and the homes of
//! the records afterwards.
ghost use Rattle.std.specs.Prelude.{◌≢◌, ◌↔◌, ◌<◌, IsTrue, IfSome, IfOk, IfErr, OnOk};
ghost use Rattle.ioc_topology.specs.Change.{AreKnown, AreLent, AreSound, OtherIsRefused, LinkIsRefused};
ghost use Rattle.ioc_topology.specs.Keys.{AllDiffer};

use crate::busy::{Busy, lock_briefly};
use crate::directory::{Directory, KeyedCell, set_homes};
use crate::locked::Locked;
use ioc_names::RecordNo;
use ioc_values::IocError;
use std::alloc::{AllocError, Global};
use std::marker::Model;
use std::sync::{MutexGuard, Wait};

/// Two cells with sets without records. They are the home of no record yet. Contracts see their
/// keys, which differ.
#[derive(Drop)]
pub struct NewCells<'a, S: Locked> {
    // The place of the second set, if no other set is concerned.
    pub(crate) beside: KeyedCell<'a, S>,
    // The place of the spare set.
    pub(crate) spare: KeyedCell<'a, S>,
}

impl<'a, S: Locked> Model for NewCells<'a, S> {
    ghost use Rattle.std.specs.Prelude.{ℕ, ◌≢◌};

    ghost Value = { ℕ × ℕ };

    ghost view = { λ n. (n.beside.key, n.spare.key) };

    ghost invariant = { λ n. n.beside.key ≢ n.spare.key };
}

impl<'a, S: Locked> NewCells<'a, S> {
    /// Locks the spare set.
    pub fn lock_spare<R: Wait>(&self, rt: &R) -> MutexGuard<'_, S> {
        self.spare.lock.lock(rt)
    }
}

/// The places of the two sets of a link change. Contracts see the keys of their cells, which
/// differ.
#[derive(Drop)]
pub struct LinkCells<'a, S: Locked> {
    first: KeyedCell<'a, S>,
    second: KeyedCell<'a, S>,
}

impl<'a, S: Locked> Model for LinkCells<'a, S> {
    ghost use Rattle.std.specs.Prelude.{ℕ, ◌≢◌};

    ghost Value = { ℕ × ℕ };

    ghost view = { λ l. (l.first.key, l.second.key) };

    ghost invariant = { λ l. l.first.key ≢ l.second.key };
}

impl<'a, S: Locked> LinkCells<'a, S> {
    /// Locks both sets.
    ///
    /// # Errors
    ///
    /// [`Busy`] if a call keeps one of them for long; neither is locked then.
    pub fn lock(&self) -> Result<(MutexGuard<'a, S>, MutexGuard<'a, S>), Busy<'a, S>> {
        let first = lock_briefly(self.first.lock)?;
        let second = lock_briefly(self.second.lock)?;
        Ok((first, second))
    }
}

impl<S: Locked> Directory<S> {
    /// Locks the topology: while the guard is held, no other caller changes a link.
    pub fn guard_topology<R: Wait>(&self, rt: &R) -> MutexGuard<'_, ()> {
        self.topology.lock(rt)
    }

    /// Returns the cells that a link change may need, which were left or are made now. Their keys
    /// are those of no other set.
    ///
    /// # Errors
    ///
    /// [`AllocError`] if allocation fails; nothing has changed then.
    pub fn new_cells<R: Wait>(&self, rt: &R, alloc: Global) -> Result<NewCells<'_, S>, AllocError>
        ensures apart { IfOk result (λ new. new.0 ≢ new.1) }
    {
        let mut keys = self.keys.lock(rt);
        keys.take_two(alloc, self.cells.as_slice())
    }

    /// Returns the places of both records, or `None` if one of them is in no set. If there is no
    /// other record, or both are in the same set, the second place is a new one. The cells of both
    /// places and of the spare set have different keys, so a link change locks none of them twice.
    ///
    /// # Errors
    ///
    /// [`IocError::NoRecord`] if the directory was made for fewer records.
    pub fn link_cells<'a>(
        &'a self,
        new: &NewCells<'a, S>,
        number: RecordNo,
        other: &Option<RecordNo>,
    ) -> Result<Option<LinkCells<'a, S>>, IocError>
        ensures known { IfOk result (λ both. IfSome both (λ _. AreKnown self.now number other.now)) }
        ensures apart { IfOk result (λ both. IfSome both (λ b. AllDiffer b.0 b.1 new.now.1)) }
        ensures refused { IfErr result (LinkIsRefused self.now number other.now) }
    {
        let Some(first) = self.place_of(number)? else {
            return Ok(None);
        };
        let Some(second) = self.second_place(&first, &new.beside, other)? else {
            return Ok(None);
        };
        // The new cells are the home of no record.
        let spare = new.spare.key;
        if first.key == second.key || first.key == spare || second.key == spare {
            return Ok(None);
        }
        Ok(Some(LinkCells { first, second }))
    }

    /// Leaves new cells, whose sets have no record.
    pub fn leave_new<R: Wait>(&self, rt: &R, new: &NewCells<'_, S>) {
        self.leave(rt, new.beside.key);
        self.leave(rt, new.spare.key);
    }

    /// Makes the three cells of a link change, whose sets are locked, the homes of the records that
    /// they have now, and leaves those without records.
    pub fn settle_all<R: Wait>(
        &self,
        rt: &R,
        both: &LinkCells<'_, S>,
        new: &NewCells<'_, S>,
        first: &S,
        second: &S,
        spare: &S,
    ) {
        self.settle(rt, first, both.first.key);
        self.settle(rt, second, both.second.key);
        self.settle(rt, spare, new.spare.key);
        if both.second.key != new.beside.key {
            self.leave(rt, new.beside.key);
        }
    }

    // Returns the place of the other record if it isn't the first place, otherwise `beside`.
    fn second_place<'a>(
        &'a self,
        first: &KeyedCell<'a, S>,
        beside: &KeyedCell<'a, S>,
        other: &Option<RecordNo>,
    ) -> Result<Option<KeyedCell<'a, S>>, IocError>
        ensures known { OnOk result (IfSome other.now (λ o. o < self.now)) }
        ensures refused { IfErr result (OtherIsRefused self.now other.now) }
    {
        if let Some(other) = other {
            let Some(place) = self.place_of(*other)? else {
                return Ok(None);
            };
            if place.key != first.key {
                return Ok(Some(place));
            }
        }
        Ok(Some(KeyedCell {
            key: beside.key,
            lock: beside.lock,
        }))
    }

    // Makes a cell the home of the records of its set, which is locked, or leaves the cell if there
    // are none. Its flag is as the set says.
    fn settle(&self, rt: &impl Wait, set: &S, key: usize) {
        self.set_flag(key, set.may_be_taken());
        if set.len() == 0 {
            self.leave(rt, key);
        } else {
            set_homes(&self.homes, set, key);
        }
    }

    // Leaves a cell, whose set has no records. Callers that wait for it will look again.
    fn leave(&self, rt: &impl Wait, key: usize) {
        self.keys.lock(rt).leave(key);
    }
}

/// States the invariants of three sets. Does nothing.
pub fn all_sound<S: Locked>(first: &S, second: &S, spare: &S)
    ensures { AreSound S.sound first.now second.now spare.now }
{
    first.is_sound();
    second.is_sound();
    spare.is_sound();
}

/// Returns whether a link change works on these sets.
pub fn are_lent<S: Locked>(
    first: &S,
    second: &S,
    spare: &S,
    number: RecordNo,
    other: &Option<RecordNo>,
) -> bool
    ensures { IsTrue result ↔ AreLent S.numbers number other.now first.now second.now spare.now }
{
    if !first.has(number) || spare.len() != 0 {
        return false;
    }
    match other {
        Some(other) => second.has(*other) || first.has(*other) && second.len() == 0,
        None => second.len() == 0,
    }
}
