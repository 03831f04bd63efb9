//! Puts with notification.
ghost use Rattle.std.specs.Prelude.{◌≡◌, ◌⊎◌, ℕ, IfOk, IfErr, OnOk, OnErr};
ghost use Rattle.ioc_values.specs.declared.error.IocError.TheVariants.{QueueFull, Stopped};
ghost use Rattle.ioc_events.specs.declared.event.Event.TheVariants.{Put};
ghost use Rattle.ioc_journal.specs.Places.{IsNoPlace};
ghost use Rattle.ioc_journaled_set.specs.Puts.{PutsView, WasAsked, NoneMayBegin, HaveEnded};
ghost use Rattle.ioc_set.specs.SetStore.{world_of};
ghost use Rattle.ioc_engine_core.specs.Served.{WasBegun, CallIsRefused};

use crate::clock::Clock;
use crate::desk::Desk;
use crate::engine::EngineCore;
use ioc_device::Device;
use ioc_events::Reply;
use ioc_journal::Receipt;
use ioc_journaled_set::{FieldPut, Served, SetsName};
use ioc_notify::NotifyId;
use ioc_record::RecordKind;
use ioc_topology::Locked;
use ioc_values::IocError;
use std::sync::Wait;

impl<K: RecordKind + Drop, B: SetsName<K, D>, D: Device> EngineCore<K, B, D> {
    /// Puts a value into a field with a notification: the records that are
    /// processed for it become part of the put with notification, which ends when the last of them
    /// is done. Its number is in the reply. If the record awaits its device, the put waits for it.
    /// The call has the time that the clock gives while the set's lock is held, and not that of
    /// `put`.
    ///
    /// # Errors
    ///
    /// [`IocError::Stopped`] if the engine was closed. [`IocError::NoRecord`] if there is no record
    /// with this number. [`IocError::NoField`] if the record has no such field. [`IocError::NoMod`]
    /// if the field can't be put. [`IocError::QueueFull`] if 256 puts with notification are live or
    /// about to begin or no number is left. [`IocError::JournalFull`] if the journal has no place
    /// left. [`IocError::NoMemory`] if allocation fails. Nothing has changed then, but the number
    /// may be used up. Any other refusal is a reply, which is added to the journal.
    pub fn put_notify<R: Wait, C: Clock>(
        &self,
        rt: &R,
        desk: &mut Desk<K, B, D>,
        put: FieldPut,
        clock: &C,
    ) -> Result<(Reply, Receipt<K, B>), IocError>
        ensures begun { IfOk result (λ x. (moment : ℕ) × C.gives clock.now moment
            × WasBegun D K.rules B.base D.gives self.now.history put.number desk.old.account
            moment put.field put.given x.0 desk.new.account (world_of desk.new.buffers.store)) }
        ensures ended { OnOk result (HaveEnded K.rules B.base (world_of desk.new.buffers.store).ended desk.new.account.seen
            desk.new.buffers.ended_everywhere.items) }
        ensures receipt { IfOk result (λ x. x.1 ≡ desk.new.account.seen) }
        ensures refused { IfErr result (λ error. ((error ≡ QueueFull) × NoneMayBegin K.rules B.base)
            ⊎ CallIsRefused D K.rules B.base self.now.count put.number (Put put.number put.field put.given) error) }
        ensures err { OnErr result (desk.new.account ≡ desk.old.account) }
    {
        for _ in rt.forever() {
            match self.try_put_notify(rt, desk, &put, clock) {
                Ok(told) => return Ok(told),
                Err(refused) => self.make_room(rt, desk.alloc, refused)?,
            }
        }
        unreachable!()
    }

    // Puts as `put_notify` does, and is refused if the journal has no place left.
    fn try_put_notify<R: Wait, C: Clock>(
        &self,
        rt: &R,
        desk: &mut Desk<K, B, D>,
        put: &FieldPut,
        clock: &C,
    ) -> Result<(Reply, Receipt<K, B>), IocError>
        ensures begun { IfOk result (λ x. (moment : ℕ) × C.gives clock.now moment
            × WasBegun D K.rules B.base D.gives self.now.history put.now.number desk.old.account
            moment put.now.field put.now.given x.0 desk.new.account (world_of desk.new.buffers.store)) }
        ensures ended { OnOk result (HaveEnded K.rules B.base (world_of desk.new.buffers.store).ended desk.new.account.seen
            desk.new.buffers.ended_everywhere.items) }
        ensures receipt { IfOk result (λ x. x.1 ≡ desk.new.account.seen) }
        ensures refused { IfErr result (λ error. ((error ≡ QueueFull) × NoneMayBegin K.rules B.base)
            ⊎ CallIsRefused D K.rules B.base self.now.count put.now.number (Put put.now.number put.now.field put.now.given) error) }
        ensures err { OnErr result (desk.new.account ≡ desk.old.account) }
    {
        if !self.may_begin(rt, desk.alloc) {
            return Err(IocError::Stopped);
        }
        let number = put.number;
        let mut held = self.sets.lock_set(rt, number)?;
        let access = self.access(rt, desk.alloc);
        let moment = clock.now();
        let put = FieldPut { moment, ..*put };
        let told = held.put_notify(
            &access,
            &self.puts,
            &mut desk.account,
            &mut desk.buffers,
            put,
        );
        held.is_sound();
        self.sets.settle_flag(number, &held);
        drop(held);
        let Served {
            reply,
            receipt,
            tickets,
            spent: _,
        } = told?;
        self.do_sent(rt, &desk.buffers, &mut desk.walked, tickets);
        Ok((reply, receipt))
    }

    /// Replies whether the put with notification with this number is live, which it is from its
    /// call until the last of its records is done or it is canceled.
    ///
    /// # Errors
    ///
    /// [`IocError::Stopped`] if the engine was closed. [`IocError::JournalFull`] if the journal has
    /// no place left. [`IocError::NoMemory`] if allocation fails. Nothing has changed then.
    pub fn live<R: Wait, C: Clock>(
        &self,
        rt: &R,
        desk: &mut Desk<K, B, D>,
        number: NotifyId,
        clock: &C,
    ) -> Result<(bool, Receipt<K, B>), IocError>
        ensures asked { IfOk result (λ x. (moment : ℕ) × C.gives clock.now moment × (puts puts_then : PutsView)
            × WasAsked K.rules B.base puts desk.old.account moment number puts_then desk.new.account x.0) }
        ensures receipt { IfOk result (λ x. x.1 ≡ desk.new.account.seen) }
        ensures refused { IfErr result (λ error. (error ≡ Stopped) ⊎ IsNoPlace error) }
        ensures err { OnErr result (desk.new.account ≡ desk.old.account) }
    {
        for _ in rt.forever() {
            match self.try_live(rt, desk, number, clock) {
                Ok(told) => return Ok(told),
                Err(refused) => self.make_room(rt, desk.alloc, refused)?,
            }
        }
        unreachable!()
    }

    // Replies as `live` does, and is refused if the journal has no place left.
    fn try_live<R: Wait, C: Clock>(
        &self,
        rt: &R,
        desk: &mut Desk<K, B, D>,
        number: NotifyId,
        clock: &C,
    ) -> Result<(bool, Receipt<K, B>), IocError>
        ensures asked { IfOk result (λ x. (moment : ℕ) × C.gives clock.now moment × (puts puts_then : PutsView)
            × WasAsked K.rules B.base puts desk.old.account moment number puts_then desk.new.account x.0) }
        ensures receipt { IfOk result (λ x. x.1 ≡ desk.new.account.seen) }
        ensures refused { IfErr result (λ error. (error ≡ Stopped) ⊎ IsNoPlace error) }
        ensures err { OnErr result (desk.new.account ≡ desk.old.account) }
    {
        if !self.may_begin(rt, desk.alloc) {
            return Err(IocError::Stopped);
        }
        let mut puts = self.puts.lock(rt);
        let moment = clock.now();
        puts.ask(
            &self.access(rt, desk.alloc),
            &mut desk.account,
            number,
            moment,
        )
    }
}
