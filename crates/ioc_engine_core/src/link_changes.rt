//! Link changes of the engine.
ghost use Rattle.std.specs.Prelude.{◌≡◌, ℕ, [], IfOk, IfErr, OnOk, OnErr};
ghost use Rattle.ioc_set.specs.SetStore.{world_of};
ghost use Rattle.ioc_topology.specs.Change.{AreKnown, AreLent};
ghost use Rattle.ioc_journaled_set.specs.Holding.{numbers_of};
ghost use Rattle.ioc_engine_core.specs.Linked.{other_of, WasLinked, LinkWasRefused};

use crate::clock::Clock;
use crate::desk::Desk;
use crate::engine::EngineCore;
use ioc_device::Device;
use ioc_journaled_set::{Changed, JournalAccess, JournaledSet, SetsName, change_link};
use ioc_record::RecordKind;
use ioc_set::LinkChange;
use ioc_topology::{all_sound, are_lent};
use ioc_values::IocError;
use std::sync::Wait;

impl<K: RecordKind + Drop, B: SetsName<K, D>, D: Device> EngineCore<K, B, D> {
    // Changes a link of a record of the first of these sets, at the time of the clock.
    fn change_lent<R: Wait, C: Clock>(
        &self,
        access: &JournalAccess<'_, K, B, R>,
        desk: &mut Desk<K, B, D>,
        first: &mut JournaledSet<K, B, D>,
        second: &mut JournaledSet<K, B, D>,
        spare: &mut JournaledSet<K, B, D>,
        change: LinkChange,
        clock: &C,
    ) -> Result<Changed<K, B>, IocError>
        requires base_link { change.base_link ≡ change.link }
        requires lent { AreLent numbers_of change.number (other_of change.link) first.old second.old spare.old }
        ensures changed { IfOk result (λ c. (moment : ℕ) × C.gives clock.now moment × WasLinked D K.rules B.base change.number change.field
            change.link desk.old.account moment c.reply c.moved desk.new.account (world_of desk.new.buffers.store)) }
        ensures receipt { IfOk result (λ c. c.receipt ≡ desk.new.account.seen) }
        ensures ended { OnOk result (desk.new.buffers.ended_everywhere.items ≡ []) }
        ensures refused { IfErr result (LinkWasRefused D K.rules B.base self.now.count change.number change.field change.link) }
        ensures err { OnErr result (desk.new.account ≡ desk.old.account) }
    {
        all_sound(first, second, spare);
        let moment = clock.now();
        let timed = LinkChange { moment, ..change };
        let changed = change_link(
            access,
            &mut desk.account,
            &mut desk.buffers,
            first,
            second,
            spare,
            timed,
        );
        all_sound(first, second, spare);
        changed
    }

    /// Changes a link of a record, under the topology guard and the locks of the sets that it
    /// concerns. The set of the record may part in two, or its part joins the set of the record
    /// that the link leads to. Each record is found in its set afterwards. The call has the time
    /// that the clock gives while the locks are held, and not that of `change`. What the change
    /// sends is done once the locks of the sets are released.
    ///
    /// # Errors
    ///
    /// [`IocError::Stopped`] if the engine was closed. [`IocError::NoRecord`] if there is no record
    /// with one of the two numbers. [`IocError::NoField`] if the field is no link of the record.
    /// [`IocError::JournalFull`] if the journal has no place left. [`IocError::NoMemory`] if
    /// allocation fails. Nothing is added to the journal then. If DISP forbids the change, the
    /// refusal is a reply, which is added to the journal.
    pub fn set_link<R: Wait, C: Clock>(
        &self,
        rt: &R,
        desk: &mut Desk<K, B, D>,
        change: LinkChange,
        clock: &C,
    ) -> Result<Changed<K, B>, IocError>
        requires base_link { change.base_link ≡ change.link }
        ensures changed { IfOk result (λ c. (moment : ℕ) × C.gives clock.now moment × WasLinked D K.rules B.base change.number change.field
            change.link desk.old.account moment c.reply c.moved desk.new.account (world_of desk.new.buffers.store)) }
        ensures receipt { IfOk result (λ c. c.receipt ≡ desk.new.account.seen) }
        ensures ended { OnOk result (desk.new.buffers.ended_everywhere.items ≡ []) }
        ensures known { OnOk result (AreKnown self.now.count change.number (other_of change.link)) }
        ensures refused { IfErr result (LinkWasRefused D K.rules B.base self.now.count change.number change.field change.link) }
        ensures err { OnErr result (desk.new.account ≡ desk.old.account) }
    {
        if !self.may_begin(rt, desk.alloc) {
            return Err(IocError::Stopped);
        }
        let changed = self.relink(rt, desk, change, clock)?;
        // After a refused change the buffers have what the desk's event before it sent.
        if changed.reply.is_ok() {
            self.do_changes(rt, &desk.buffers, &mut desk.walked);
        }
        Ok(changed)
    }

    // Finds and locks the sets of a link change under the topology guard, and changes the link. If one
    // of the sets is busy, waits for it without the guard.
    fn relink<R: Wait, C: Clock>(
        &self,
        rt: &R,
        desk: &mut Desk<K, B, D>,
        change: LinkChange,
        clock: &C,
    ) -> Result<Changed<K, B>, IocError>
        requires base_link { change.base_link ≡ change.link }
        ensures changed { IfOk result (λ c. (moment : ℕ) × C.gives clock.now moment × WasLinked D K.rules B.base change.number change.field
            change.link desk.old.account moment c.reply c.moved desk.new.account (world_of desk.new.buffers.store)) }
        ensures receipt { IfOk result (λ c. c.receipt ≡ desk.new.account.seen) }
        ensures ended { OnOk result (desk.new.buffers.ended_everywhere.items ≡ []) }
        ensures known { OnOk result (AreKnown self.now.count change.number (other_of change.link)) }
        ensures refused { IfErr result (LinkWasRefused D K.rules B.base self.now.count change.number change.field change.link) }
        ensures err { OnErr result (desk.new.account ≡ desk.old.account) }
    {
        let number = change.number;
        let other = change.link.record_named();
        for _ in rt.forever() {
            let guard = self.sets.guard_topology(rt);
            let new = self.sets.new_cells(rt, desk.alloc)?;
            let both = match self.sets.link_cells(&new, number, &other) {
                Ok(Some(both)) => both,
                Ok(None) => {
                    self.sets.leave_new(rt, &new);
                    continue;
                }
                Err(refused) => {
                    self.sets.leave_new(rt, &new);
                    return Err(refused);
                }
            };
            let (mut first_guard, mut second_guard) = match both.lock() {
                Ok(guards) => guards,
                Err(busy) => {
                    self.sets.leave_new(rt, &new);
                    drop(guard);
                    busy.wait(rt);
                    continue;
                }
            };
            let mut spare_guard = new.lock_spare(rt);
            let first = &mut *first_guard;
            let second = &mut *second_guard;
            let spare = &mut *spare_guard;
            if are_lent(first, second, spare, number, &other) {
                let access = self.access(rt, desk.alloc);
                let changed = self.change_lent(&access, desk, first, second, spare, change, clock);
                self.sets.settle_all(rt, &both, &new, first, second, spare);
                return changed;
            }
            self.sets.leave_new(rt, &new);
        }
        unreachable!()
    }
}
