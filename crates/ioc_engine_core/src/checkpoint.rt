//! Checkpoints of the journal.
ghost use Rattle.std.specs.Prelude.{◌≡◌, ◌⊎◌, take, drop, IfOk, IfErr, IfSome};
ghost use Rattle.ioc_values.specs.declared.error.IocError.TheVariants.{Stopped};
ghost use Rattle.ioc_journal.specs.Account.{calls, HasSeenMore, IsGiven, BeginsWhere};
ghost use Rattle.ioc_journal.specs.Places.{IsNoPlace};

use crate::desk::Desk;
use crate::engine::{BusySet, EngineCore};
use ioc_device::Device;
use ioc_journal::Excerpt;
use ioc_journaled_set::{SetsName, checkpoint_giving, checkpoint_on};
use ioc_record::RecordKind;
use ioc_values::IocError;
use std::alloc::{AllocError, Global};
use std::sync::Wait;

impl<K: RecordKind + Drop, B: SetsName<K, D>, D: Device> EngineCore<K, B, D> {
    /// Makes a checkpoint of the journal: the records and waiting puts with notification of all
    /// sets are copied, the entries of all calls so far are dropped, and their places are free. For
    /// that, the sets are taken out of their cells under the topology guard; calls wait meanwhile. If
    /// a call keeps a set for long, as while its device is asked, the others are put back, and this
    /// waits for that set before it tries again. Waits forever if a record is in no set.
    ///
    /// # Errors
    ///
    /// [`IocError::Stopped`] if the engine was closed. [`IocError::NoMemory`] if allocation fails.
    /// [`IocError::JournalFull`] if more than 2^63 calls were made. No entry is dropped then, and no
    /// history is cleared.
    pub fn checkpoint<R: Wait>(&self, rt: &R, alloc: Global) -> Result<(), IocError>
        ensures refused { IfErr result (λ error. (error ≡ Stopped) ⊎ IsNoPlace error) }
    {
        if self.is_closed() {
            return Err(IocError::Stopped);
        }
        for _ in rt.forever() {
            let guard = self.sets.guard_topology(rt);
            let (is_made, busy) = self.try_checkpoint(rt, alloc)?;
            drop(guard);
            if is_made {
                return Ok(());
            }
            wait_for(rt, busy);
        }
        unreachable!()
    }

    /// Makes a checkpoint as [`EngineCore::checkpoint`] does, and returns copies of the entries from a
    /// place on, which leave memory. They begin with the first that was kept if the one at the place
    /// was dropped before. The desk has seen all calls then.
    ///
    /// # Errors
    ///
    /// As [`EngineCore::checkpoint`]. No entry is dropped then, and no history is cleared.
    pub fn checkpoint_from<R: Wait>(
        &self,
        rt: &R,
        desk: &mut Desk<K, B, D>,
        from: u64,
    ) -> Result<Excerpt, IocError>
        ensures desk { HasSeenMore desk.old.account desk.new.account }
        ensures given { IfOk result (λ excerpt. IsGiven from (calls desk.new.account.seen) excerpt.first excerpt.kept_from excerpt.entries.items) }
        ensures refused { IfErr result (λ error. (error ≡ Stopped) ⊎ IsNoPlace error) }
    {
        if self.is_closed() {
            return Err(IocError::Stopped);
        }
        for _ in rt.forever() {
            let guard = self.sets.guard_topology(rt);
            let (given, busy) = self.try_checkpoint_from(rt, desk, from)?;
            drop(guard);
            if let Some(excerpt) = given {
                return Ok(excerpt);
            }
            wait_for(rt, busy);
        }
        unreachable!()
    }

    // Makes a checkpoint with the sets that are found, and returns copies of the entries. Returns
    // `None` if some record isn't in any of them, and the lock of a set that was busy, if there was
    // one; no entry is dropped then. The caller holds the topology guard.
    fn try_checkpoint_from<R: Wait>(
        &self,
        rt: &R,
        desk: &mut Desk<K, B, D>,
        from: u64,
    ) -> Result<(Option<Excerpt>, Option<BusySet<'_, K, B, D>>), IocError>
        ensures desk { HasSeenMore desk.old.account desk.new.account }
        ensures given { IfOk result (λ x. IfSome x.0 (λ excerpt. IsGiven from
            (calls desk.new.account.seen) excerpt.first excerpt.kept_from excerpt.entries.items)) }
        ensures refused { IfErr result IsNoPlace }
    {
        let mut taken = self.sets.take_all(rt, desk.alloc)?;
        let sets = taken.sets.as_mut_slice();
        let access = self.access(rt, desk.alloc);
        let given = checkpoint_giving(&access, &mut desk.account, sets, self.sets.len(), from);
        let busy = self.sets.put_back(rt, taken);
        if let Ok(Some(_)) = &given {
            self.journal.spread_places(rt);
        }
        Ok((given?, busy))
    }

    /// Returns copies of the entries from a place on, at most `most` of them. They begin with the
    /// first that is kept if the one at the place was dropped. The desk has seen all calls then.
    ///
    /// # Errors
    ///
    /// [`AllocError`] if allocation fails.
    pub fn entries<R: Wait>(
        &self,
        rt: &R,
        desk: &mut Desk<K, B, D>,
        from: u64,
        most: usize,
    ) -> Result<Excerpt, AllocError>
        ensures desk { HasSeenMore desk.old.account desk.new.account }
        ensures copies { IfOk result (λ excerpt. excerpt.entries.items ≡ take most (drop excerpt.first (calls desk.new.account.seen))) }
        ensures first { IfOk result (λ excerpt. BeginsWhere from excerpt.first excerpt.kept_from) }
    {
        self.journal
            .copy_from(rt, desk.alloc, &mut desk.account, from, most)
    }

    // Makes a checkpoint unless another call has made one while this one waited for the topology
    // guard, so that the journal has places again. Returns the lock of a set if none is made because
    // the set is busy.
    pub(crate) fn checkpoint_if_short<R: Wait>(
        &self,
        rt: &R,
        alloc: Global,
    ) -> Result<Option<BusySet<'_, K, B, D>>, IocError>
        ensures refused { IfErr result IsNoPlace }
    {
        let _guard = self.sets.guard_topology(rt);
        if !self.journal.is_short(rt) {
            return Ok(None);
        }
        let (_is_made, busy) = self.try_checkpoint(rt, alloc)?;
        Ok(busy)
    }

    // Makes a checkpoint with the sets that are found. Returns `false` if some record isn't in any
    // of them, and the lock of a set that was busy, if there was one; nothing is done then. The
    // caller holds the topology guard.
    fn try_checkpoint<R: Wait>(
        &self,
        rt: &R,
        alloc: Global,
    ) -> Result<(bool, Option<BusySet<'_, K, B, D>>), IocError>
        ensures refused { IfErr result IsNoPlace }
    {
        let mut taken = self.sets.take_all(rt, alloc)?;
        let sets = taken.sets.as_mut_slice();
        let made = checkpoint_on(rt, alloc, &self.journal, sets, self.sets.len());
        let busy = self.sets.put_back(rt, taken);
        let is_made = made?;
        if is_made {
            self.journal.spread_places(rt);
        }
        Ok((is_made, busy))
    }
}

// Waits for a set that was busy, if there was one.
pub(crate) fn wait_for<K: RecordKind + Drop, B: SetsName<K, D>, D: Device, R: Wait>(
    rt: &R,
    busy: Option<BusySet<'_, K, B, D>>,
) {
    if let Some(busy) = busy {
        busy.wait(rt);
    }
}
