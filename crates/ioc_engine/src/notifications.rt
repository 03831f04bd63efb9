//! Puts with notification.
ghost use Rattle.std.specs.Prelude.{◌≡◌, ◌⊎◌, ℕ, [], IfOk, IfErr, OnOk, OnErr};
ghost use Rattle.ioc_values.specs.declared.error.IocError.TheVariants.{QueueFull, Stopped};
ghost use Rattle.rec_types.specs.Record.{record_rules};
ghost use Rattle.ioc_events.specs.declared.event.Event.TheVariants.{Put};
ghost use Rattle.ioc_journal.specs.Places.{IsNoPlace};
ghost use Rattle.ioc_journaled_set.specs.Puts.{PutsView, WasAsked, NoneMayBegin, HaveEnded};
ghost use Rattle.ioc_set.specs.SetStore.{world_of};
ghost use Rattle.ioc_engine_core.specs.Served.{WasBegun, CallIsRefused};
ghost use Rattle.ioc_engine_core.specs.Cancelled.{WasCancelled};
ghost use Rattle.ioc_engine.specs.Refusals.{CanBePut, IsPutError};

use crate::Receipt;
use crate::channel::Channel;
use crate::desk::Desk;
use crate::engine::Engine;
use crate::engine_name::EngineName;
use crate::type_laws::types_stay;
use ioc_device::Device;
use ioc_engine_core::Clock;
use ioc_events::Reply;
use ioc_journaled_set::FieldPut;
use ioc_notify::NotifyId;
use ioc_values::{Input, IocError};
use rec_types::Record;
use std::sync::Wait;

impl<B: EngineName<D>, D: Device, C: Clock + Drop> Engine<B, D, C> {
    // Begins a put with notification.
    fn begin_put<R: Wait>(
        &self,
        rt: &R,
        desk: &mut Desk<B, D>,
        channel: Channel,
        given: Input,
    ) -> Result<(Reply, Receipt<B>), IocError>
        ensures begun { IfOk result (λ x. (moment : ℕ) × C.gives self.now.clock moment × WasBegun D record_rules B.base D.gives
            self.now.core.history channel.number desk.old.account moment channel.field given x.0 desk.new.account
            (world_of desk.new.buffers.store)) }
        ensures receipt { IfOk result (λ x. x.1 ≡ desk.new.account.seen) }
        ensures ended { OnOk result (HaveEnded record_rules B.base (world_of desk.new.buffers.store).ended desk.new.account.seen
            desk.new.buffers.ended_everywhere.items) }
        ensures refused { IfErr result (λ error. ((error ≡ QueueFull) × NoneMayBegin record_rules B.base)
            ⊎ CallIsRefused D record_rules B.base self.now.core.count channel.number (Put channel.number channel.field given) error) }
        ensures refused_by_type { IfErr result (IsPutError B.base channel) }
        ensures can_be_put { OnOk result (CanBePut B.base channel) }
        ensures err { OnErr result (desk.new.account ≡ desk.old.account) }
        ensures moved { desk.new.moved ≡ 0 }
    {
        types_stay::<Record>();
        desk.begin();
        let put = FieldPut {
            number: channel.record(),
            field: channel.field,
            given,
            moment: 0,
        };
        let told = self.core.put_notify(rt, desk, put, &self.clock);
        desk.moved = 0;
        told
    }

    /// Puts a value into a field with notification (dbPutNotify): the records that are processed
    /// for it become part of the put with notification, which ends when the last of them is done:
    /// the call by which that happens has it in [`Desk::ended`]. Its number, which no other one has,
    /// is in the reply. If the record awaits its device, the put waits for it.
    ///
    /// # Errors
    ///
    /// As [`Engine::put`], and [`IocError::QueueFull`] if 256 puts with notification are live or
    /// about to begin or no number is left.
    pub fn put_notify<R: Wait>(
        &self,
        rt: &R,
        desk: &mut Desk<B, D>,
        channel: Channel,
        given: Input,
    ) -> Result<(Reply, Receipt<B>), IocError>
        ensures begun { IfOk result (λ x. (moment : ℕ) × C.gives self.now.clock moment × WasBegun D record_rules B.base D.gives
            self.now.core.history channel.number desk.old.account moment channel.field given x.0 desk.new.account
            (world_of desk.new.buffers.store)) }
        ensures receipt { IfOk result (λ x. x.1 ≡ desk.new.account.seen) }
        ensures ended { OnOk result (HaveEnded record_rules B.base (world_of desk.new.buffers.store).ended desk.new.account.seen
            desk.new.buffers.ended_everywhere.items) }
        ensures refused { IfErr result (λ error. ((error ≡ QueueFull) × NoneMayBegin record_rules B.base)
            ⊎ CallIsRefused D record_rules B.base self.now.core.count channel.number (Put channel.number channel.field given) error) }
        ensures refused_by_type { IfErr result (IsPutError B.base channel) }
        ensures can_be_put { OnOk result (CanBePut B.base channel) }
        ensures err { OnErr result (desk.new.account ≡ desk.old.account) }
        ensures none { OnErr result (desk.new.buffers.ended_everywhere.items ≡ []) }
        ensures moved { desk.new.moved ≡ 0 }
    {
        let told = self.begin_put(rt, desk, channel, given);
        if told.is_err() {
            desk.buffers.ended_everywhere.clear();
        }
        told
    }

    /// Replies whether the put with notification with this number is live, which it is from its
    /// call until the last of its records is done or it is canceled.
    ///
    /// # Errors
    ///
    /// [`IocError::Stopped`] if the engine was closed. [`IocError::JournalFull`] if the journal has
    /// no place left. [`IocError::NoMemory`] if allocation fails. Nothing has changed then.
    pub fn live<R: Wait>(
        &self,
        rt: &R,
        desk: &mut Desk<B, D>,
        number: NotifyId,
    ) -> Result<(bool, Receipt<B>), IocError>
        ensures asked { IfOk result (λ x. (moment : ℕ) × C.gives self.now.clock moment × (puts puts_then : PutsView)
            × WasAsked record_rules B.base puts desk.old.account moment number puts_then desk.new.account x.0) }
        ensures receipt { IfOk result (λ x. x.1 ≡ desk.new.account.seen) }
        ensures ended { desk.new.buffers.ended_everywhere.items ≡ [] }
        ensures refused { IfErr result (λ error. (error ≡ Stopped) ⊎ IsNoPlace error) }
        ensures err { OnErr result (desk.new.account ≡ desk.old.account) }
        ensures moved { desk.new.moved ≡ 0 }
    {
        let told = self.core.live(rt, desk, number, &self.clock);
        desk.begin();
        told
    }

    /// Cancels the put with notification with this number (dbNotifyCancel): no record is part of it
    /// any more, it waits nowhere, and it doesn't end.
    ///
    /// # Errors
    ///
    /// As [`Engine::live`]. If the put with notification isn't live, [`IocError::Stale`] is the
    /// reply, which is added to the journal.
    pub fn cancel<R: Wait>(
        &self,
        rt: &R,
        desk: &mut Desk<B, D>,
        number: NotifyId,
    ) -> Result<(Reply, Receipt<B>), IocError>
        ensures canceled { IfOk result (λ x. (moment : ℕ) × C.gives self.now.clock moment
            × WasCancelled D record_rules B.base number desk.old.account moment x.0 desk.new.account self.now.core.history) }
        ensures receipt { IfOk result (λ x. x.1 ≡ desk.new.account.seen) }
        ensures ended { desk.new.buffers.ended_everywhere.items ≡ [] }
        ensures refused { IfErr result (λ error. (error ≡ Stopped) ⊎ IsNoPlace error) }
        ensures err { OnErr result (desk.new.account ≡ desk.old.account) }
        ensures moved { desk.new.moved ≡ 0 }
    {
        desk.begin();
        let told = self.core.cancel(rt, desk, number, &self.clock);
        desk.moved = 0;
        if told.is_err() {
            desk.buffers.ended_everywhere.clear();
        }
        told
    }
}
