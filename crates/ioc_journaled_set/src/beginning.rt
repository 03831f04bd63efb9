//! Puts with notification on journaled sets.
ghost use Rattle.std.specs.Prelude.{◌≡◌, ◌⊎◌, IfOk, IfErr, OnOk, OnErr, Contains};
ghost use Rattle.ioc_values.specs.declared.error.IocError.TheVariants.{QueueFull};
ghost use Rattle.ioc_events.specs.declared.event.Event.TheVariants.{Put};
ghost use Rattle.ioc_journaled_set.specs.Sent.{AreTicketsFor};
ghost use Rattle.ioc_set.specs.SetStore.{world_of};
ghost use Rattle.ioc_journaled_set.specs.Holding.{numbers_of, Begins, IsNoCall};
ghost use Rattle.ioc_journaled_set.specs.Puts.{NoneMayBegin, HaveEnded};

use crate::field_put::FieldPut;
use crate::journal_access::JournalAccess;
use crate::journaled_set::JournaledSet;
use crate::running::Served;
use crate::sets_name::SetsName;
use crate::shared_notifications::{SharedNotifications, take_number};
use ioc_device::Device;
use ioc_events::Event;
use ioc_journal::DeskAccount;
use ioc_record::RecordKind;
use ioc_set::EventBuffers;
use ioc_values::IocError;
use std::sync::{Mutex, Wait};

impl<K: RecordKind + Drop, B: SetsName<K, D>, D: Device> JournaledSet<K, B, D> {
    /// Puts a value into a field as [`JournaledSet::put`] does, with a notification, and adds the
    /// call to the journal. The put with notification ends when all that it has caused is done. Its
    /// number is in the reply, and no other has it. The table of all puts with notification isn't
    /// locked while the put is done. [`EventBuffers::ended`] returns those that end by it.
    ///
    /// # Errors
    ///
    /// [`IocError::NoField`] if the record has no such field, [`IocError::NoMod`] if the field
    /// can't be put, [`IocError::QueueFull`] if 256 puts with notification are live or about to
    /// begin or no number is left, [`IocError::JournalFull`] if the journal has no place left, and
    /// [`IocError::NoMemory`] if allocation fails. Nothing has changed then but the number, which is
    /// used up. Any other refusal is a reply, which is added to the journal too.
    #[tactic(auto, unfolding(ioc_set::specs::NoCalls::no_call))]
    pub fn put_notify<R: Wait>(
        &mut self,
        access: &JournalAccess<'_, K, B, R>,
        puts: &Mutex<SharedNotifications<K, B>>,
        desk: &mut DeskAccount<K, B>,
        buffers: &mut EventBuffers<K, D>,
        put: FieldPut,
    ) -> Result<Served<K, B>, IocError>
        requires there { Contains (numbers_of self.old) put.number }
        ensures begins { IfOk result (λ x. Begins K.rules D.gives B.base access.now.history self.old desk.old put.moment put.number
            put.field put.given x.reply self.new desk.new (world_of buffers.new.store)) }
        ensures ended { OnOk result (HaveEnded K.rules B.base (world_of buffers.new.store).ended desk.new.seen
            buffers.new.ended_everywhere.items) }
        ensures receipt { IfOk result (λ x. x.receipt ≡ desk.new.seen) }
        ensures tickets { IfOk result (λ x. AreTicketsFor K.rules B.base desk.new.seen (world_of buffers.new.store).outbox x.tickets) }
        ensures refused { IfErr result (λ error. ((error ≡ QueueFull) × NoneMayBegin K.rules B.base)
            ⊎ IsNoCall K.rules self.old.set (Put put.number put.field put.given) error) }
        ensures err { OnErr result ((self.new ≡ self.old) × (desk.new ≡ desk.old)) }
    {
        self.test_call(&Event::Put {
            record: put.number,
            field: put.field,
            value: put.given,
        })?;
        let Some(number) = take_number(access.rt, puts) else {
            return Err(IocError::QueueFull);
        };
        let event = Event::Notify {
            record: put.number,
            notification: number,
            field: put.field,
            value: put.given,
        };
        let mut ticket = None;
        let begun = self.serve_noted(access, puts, desk, buffers, &event, put.moment, &mut ticket);
        if begun.is_err() {
            puts.lock(access.rt).give_back(number);
        }
        begun
    }
}
