//! Copies of all records, which are no calls.
ghost use Rattle.std.specs.Prelude.{◌≡◌, ◌⊎◌, length, IfOk, IfErr, IfSome};
ghost use Rattle.ioc_values.specs.declared.error.IocError.TheVariants.{NoMemory, Stopped};
ghost use Rattle.ioc_journal.specs.Account.{HasSeenMore, IsAccount};
ghost use Rattle.ioc_journal.specs.Base.{IsBaseOf};
ghost use Rattle.ioc_journal.specs.Legal.{map_of};

use crate::checkpoint::wait_for;
use crate::desk::Desk;
use crate::engine::{BusySet, EngineCore};
use ioc_device::Device;
use ioc_journaled_set::{RecordCopies, SetsName, copies_on};
use ioc_record::RecordKind;
use ioc_values::IocError;
use std::alloc::AllocError;
use std::sync::Wait;

impl<K: RecordKind + Drop, B: SetsName<K, D>, D: Device> EngineCore<K, B, D> {
    /// Copies all records, and the puts with notification that wait, as they are at one moment: the
    /// calls that the desk has seen then lead to them. For that, the sets are taken out of their cells
    /// under the topology guard; calls wait meanwhile. If a call keeps a set for long, as while its
    /// device is asked, the others are put back, and this waits for that set before it tries again.
    /// Waits forever if a record is in no set.
    ///
    /// # Errors
    ///
    /// [`IocError::Stopped`] if the engine was closed. [`IocError::NoMemory`] if allocation fails.
    pub fn copy_records<R: Wait>(
        &self,
        rt: &R,
        desk: &mut Desk<K, B, D>,
    ) -> Result<RecordCopies<K>, IocError>
        ensures copies { IfOk result (λ copies. IsBaseOf (map_of K.rules B.base desk.new.account.seen) copies.base.records.items
            copies.base.waiting.items) }
        ensures place { IfOk result (λ copies. copies.place ≡ length desk.new.account.seen) }
        ensures legal { IfOk result (λ _. IsAccount K.rules B.base desk.new.account.seen) }
        ensures desk { HasSeenMore desk.old.account desk.new.account }
        ensures buffers { desk.new.buffers ≡ desk.old.buffers }
        ensures moved { desk.new.moved ≡ desk.old.moved }
        ensures refused { IfErr result (λ error. (error ≡ Stopped) ⊎ (error ≡ NoMemory)) }
    {
        if self.is_closed() {
            return Err(IocError::Stopped);
        }
        for _ in rt.forever() {
            let guard = self.sets.guard_topology(rt);
            let (copies, busy) = self.try_copy_records(rt, desk)?;
            drop(guard);
            if let Some(copies) = copies {
                return Ok(copies);
            }
            wait_for(rt, busy);
        }
        unreachable!()
    }

    // Copies the records of the sets that are found. Returns `None` if some record isn't in any of
    // them, and the lock of a set that was busy, if there was one. The caller holds the topology guard.
    fn try_copy_records<R: Wait>(
        &self,
        rt: &R,
        desk: &mut Desk<K, B, D>,
    ) -> Result<(Option<RecordCopies<K>>, Option<BusySet<'_, K, B, D>>), AllocError>
        ensures copies { IfOk result (λ x. IfSome x.0 (λ copies. IsBaseOf
            (map_of K.rules B.base desk.new.account.seen) copies.base.records.items copies.base.waiting.items)) }
        ensures place { IfOk result (λ x. IfSome x.0 (λ copies. copies.place ≡ length desk.new.account.seen)) }
        ensures legal { IfOk result (λ x. IfSome x.0 (λ _. IsAccount K.rules B.base desk.new.account.seen)) }
        ensures desk { HasSeenMore desk.old.account desk.new.account }
        ensures buffers { desk.new.buffers ≡ desk.old.buffers }
        ensures moved { desk.new.moved ≡ desk.old.moved }
    {
        let mut taken = self.sets.take_all(rt, desk.alloc)?;
        let sets = taken.sets.as_mut_slice();
        let access = self.access(rt, desk.alloc);
        let copies = copies_on(&access, &mut desk.account, sets, self.sets.len());
        let busy = self.sets.put_back(rt, taken);
        Ok((copies?, busy))
    }
}
