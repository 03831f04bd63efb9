//! Cancels of puts with notification.
ghost use Rattle.std.specs.Prelude.{◌≡◌, ◌⊎◌, ℕ, [], All, IfOk, IfErr, IfNone, OnOk, OnErr};
ghost use Rattle.std.specs.Option.{IfSome};
ghost use Rattle.ioc_values.specs.declared.error.IocError.TheVariants.{Stale, Stopped};
ghost use Rattle.ioc_events.specs.declared.reply.Reply.TheVariants.{Plain, Refused};
ghost use Rattle.ioc_journal.specs.Places.{IsNoPlace};
ghost use Rattle.ioc_journaled_set.specs.Holding.{IsSoundlyHeld};
ghost use Rattle.ioc_engine_core.specs.Cancelled.{WasCancelled, WasGivenUp, WasNotLive};

use crate::clock::Clock;
use crate::desk::Desk;
use crate::engine::{BusySet, EngineCore};
use ioc_device::Device;
use ioc_events::Reply;
use ioc_journal::Receipt;
use ioc_journaled_set::{JournaledSet, SetsName, cancel_on};
use ioc_notify::NotifyId;
use ioc_record::RecordKind;
use ioc_topology::Locked;
use ioc_values::IocError;
use std::sync::Wait;

// States the invariant of each of these sets. Does nothing.
pub(crate) fn all_sound<K: RecordKind + Drop, B: SetsName<K, D>, D: Device>(
    sets: &[JournaledSet<K, B, D>],
)
    ensures { All (IsSoundlyHeld K.rules B.base) sets.now }
{
    for set in sets {
        set.is_sound();
    }
}

impl<K: RecordKind + Drop, B: SetsName<K, D>, D: Device> EngineCore<K, B, D> {
    // Refuses to cancel a put with notification that isn't live, with the reply `Stale`. Returns
    // `None` if it is live; nothing is done then.
    fn refuse_stale<R: Wait>(
        &self,
        rt: &R,
        desk: &mut Desk<K, B, D>,
        number: NotifyId,
        moment: u64,
    ) -> Result<Option<Receipt<K, B>>, IocError>
        ensures stale { IfOk result (λ told. IfSome told (λ _. WasNotLive D K.rules B.base number desk.old.account moment
            (Refused Stale) desk.new.account)) }
        ensures receipt { IfOk result (λ told. IfSome told (λ receipt. receipt ≡ desk.new.account.seen)) }
        ensures live { IfOk result (λ told. IfNone told (desk.new.account ≡ desk.old.account)) }
        ensures buffers { desk.new.buffers ≡ desk.old.buffers }
        ensures refused { IfErr result IsNoPlace }
        ensures err { OnErr result (desk.new.account ≡ desk.old.account) }
    {
        let mut puts = self.puts.lock(rt);
        if puts.is_live(number) {
            return Ok(None);
        }
        let receipt = puts.refuse_cancel(
            &self.access(rt, desk.alloc),
            &mut desk.account,
            number,
            moment,
        )?;
        Ok(Some(receipt))
    }

    // Cancels a put with notification in all sets on which it is live. Returns `None` if some of
    // its records aren't in these sets, and the lock of a set that was busy, if there was one; nothing
    // is done then. The caller holds the topology guard.
    fn give_up<R: Wait>(
        &self,
        rt: &R,
        desk: &mut Desk<K, B, D>,
        number: NotifyId,
        moment: u64,
    ) -> Result<(Option<Receipt<K, B>>, Option<BusySet<'_, K, B, D>>), IocError>
        ensures gave_up { IfOk result (λ x. IfSome x.0 (λ _. WasGivenUp D K.rules B.base number desk.old.account moment Plain
            desk.new.account self.now.history)) }
        ensures receipt { IfOk result (λ x. IfSome x.0 (λ receipt. receipt ≡ desk.new.account.seen)) }
        ensures ended { IfOk result (λ x. IfSome x.0 (λ _. desk.new.buffers.ended_everywhere.items ≡ [])) }
        ensures missing { IfOk result (λ x. IfNone x.0 (desk.new.account ≡ desk.old.account)) }
        ensures refused { IfErr result IsNoPlace }
        ensures err { OnErr result (desk.new.account ≡ desk.old.account) }
    {
        let mut taken = self.sets.take_where(
            rt,
            desk.alloc,
            &|held: &JournaledSet<K, B, D>| { held.has_live(number) },
        )?;
        let sets = taken.sets.as_mut_slice();
        let mut puts = self.puts.lock(rt);
        let access = self.access(rt, desk.alloc);
        let given = cancel_on(
            &access,
            &mut desk.account,
            &mut desk.buffers,
            &mut puts,
            sets,
            number,
            moment,
        );
        drop(puts);
        all_sound(sets);
        let busy = self.sets.put_back(rt, taken);
        Ok((given?, busy))
    }

    /// Cancels the put with notification with this number, in one event of all lock sets with its
    /// records: no record is part of it any more, it waits nowhere, and it doesn't end. For that,
    /// the sets are taken out of their cells under the topology guard. Only sets on which a put
    /// with notification may be live are locked. While a set with one of its records is busy, as
    /// during a call that waits for a device, the cancel is tried repeatedly, and other calls go on.
    ///
    /// # Errors
    ///
    /// [`IocError::Stopped`] if the engine was closed. [`IocError::JournalFull`] if the journal has
    /// no place left. [`IocError::NoMemory`] if allocation fails. Nothing has changed then. If the
    /// put with notification isn't live, [`IocError::Stale`] is the reply, which is added to the
    /// journal.
    pub fn cancel<R: Wait, C: Clock>(
        &self,
        rt: &R,
        desk: &mut Desk<K, B, D>,
        number: NotifyId,
        clock: &C,
    ) -> Result<(Reply, Receipt<K, B>), IocError>
        ensures cancelled { IfOk result (λ x. (moment : ℕ) × C.gives clock.now moment
            × WasCancelled D K.rules B.base number desk.old.account
            moment x.0 desk.new.account self.now.history) }
        ensures receipt { IfOk result (λ x. x.1 ≡ desk.new.account.seen) }
        ensures ended { OnOk result (desk.new.buffers.ended_everywhere.items ≡ []) }
        ensures refused { IfErr result (λ error. (error ≡ Stopped) ⊎ IsNoPlace error) }
        ensures err { OnErr result (desk.new.account ≡ desk.old.account) }
    {
        for _ in rt.forever() {
            match self.try_cancel(rt, desk, number, clock) {
                Ok(told) => return Ok(told),
                Err(refused) => self.make_room(rt, desk.alloc, refused)?,
            }
        }
        unreachable!()
    }

    // Cancels as `cancel` does, and is refused if the journal has no place left.
    fn try_cancel<R: Wait, C: Clock>(
        &self,
        rt: &R,
        desk: &mut Desk<K, B, D>,
        number: NotifyId,
        clock: &C,
    ) -> Result<(Reply, Receipt<K, B>), IocError>
        ensures cancelled { IfOk result (λ x. (moment : ℕ) × C.gives clock.now moment
            × WasCancelled D K.rules B.base number desk.old.account
            moment x.0 desk.new.account self.now.history) }
        ensures receipt { IfOk result (λ x. x.1 ≡ desk.new.account.seen) }
        ensures ended { OnOk result (desk.new.buffers.ended_everywhere.items ≡ []) }
        ensures refused { IfErr result (λ error. (error ≡ Stopped) ⊎ IsNoPlace error) }
        ensures err { OnErr result (desk.new.account ≡ desk.old.account) }
    {
        if !self.may_begin(rt, desk.alloc) {
            return Err(IocError::Stopped);
        }
        for _ in rt.forever() {
            desk.buffers.ended_everywhere.clear();
            let guard = self.sets.guard_topology(rt);
            let moment = clock.now();
            if let Some(receipt) = self.refuse_stale(rt, desk, number, moment)? {
                return Ok((Reply::Refused(IocError::Stale), receipt));
            }
            let (given, busy) = self.give_up(rt, desk, number, moment)?;
            if let Some(receipt) = given {
                return Ok((Reply::Plain, receipt));
            }
            drop(guard);
            // The busy set may be one without the put, so this doesn't wait until it is free.
            if let Some(busy) = busy {
                busy.pause();
            }
        }
        unreachable!()
    }
}
