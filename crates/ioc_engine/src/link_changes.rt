//! Link changes.
ghost use Rattle.std.specs.Prelude.{◌≡◌, ◌⊎◌, ℕ, Some, None, slice_get, slice_index_or, option_map, [], IfOk, IfErr, OnOk, OnErr};
ghost use Rattle.ioc_values.specs.declared.error.IocError.TheVariants.{NoMemory, Stopped};
ghost use Rattle.ioc_links.specs.declared.link.Link.{Link};
ghost use Rattle.rec_types.specs.Record.{record_rules};
ghost use Rattle.ioc_dbfile.specs.OwnDevices.{owner_for};
ghost use Rattle.ioc_set.specs.SetStore.{world_of};
ghost use Rattle.ioc_engine_core.specs.Linked.{WasLinked, LinkWasRefused};
ghost use Rattle.ioc_engine.specs.Relinking.{link_kind_in, IsTextOf, IsBadText, field_of_link};
ghost use Rattle.ioc_engine.specs.Refusals.{IsLinkField, IsLinkError};

use crate::Receipt;
use crate::channel::Channel;
use crate::desk::Desk;
use crate::engine::Engine;
use crate::engine_name::EngineName;
use crate::lookup::Lookup;
use crate::type_laws::types_stay;
use ioc_dbcommon::{LinkBox, LinkField};
use ioc_device::Device;
use ioc_engine_core::Clock;
use ioc_fields::{FieldKind, kind_of};
use ioc_journaled_set::Changed;
use ioc_links::{Link, LinkKind, parse};
use ioc_set::LinkChange;
use ioc_values::IocError;
use rec_types::Record;
use std::sync::Wait;

// Returns the kind of links that a field can hold, if it is a link field.
fn link_kind_in(kind: Option<FieldKind>) -> Option<LinkKind>
    ensures { result ≡ link_kind_in kind }
{
    match kind {
        Some(FieldKind::Link(role)) => Some(role.link_kind()),
        _ => None,
    }
}

impl Lookup {
    /// Returns the link that a text spells in the field of a channel.
    ///
    /// # Errors
    ///
    /// [`IocError::NoRecord`] if there is no such record. [`IocError::NoField`] if the field is no
    /// link of the record's type. [`IocError::BadLink`] if the text spells no link that the field
    /// can hold.
    pub fn link(&self, channel: Channel, text: &[u8]) -> Result<Link, IocError>
        ensures link { IfOk result (λ link. IsTextOf self.now.types.items channel text.now link) }
        ensures refused { IfErr result (IsBadText self.now.types.items channel text.now) }
    {
        let Some(record_type) = self.record_type(channel.record()) else {
            return Err(IocError::NoRecord);
        };
        let Some(kind) = link_kind_in(kind_of(record_type, channel.field)) else {
            return Err(IocError::NoField);
        };
        parse(kind, text)
    }
}

impl<B: EngineName<D>, D: Device, C: Clock + Drop> Engine<B, D, C> {
    // Changes a link of a record. After a refusal no put with notification has ended.
    fn change_link<R: Wait>(
        &self,
        rt: &R,
        desk: &mut Desk<B, D>,
        change: LinkChange,
    ) -> Result<Changed<Record, B>, IocError>
        requires base_link { change.base_link ≡ change.link }
        ensures changed { IfOk result (λ c. (moment : ℕ) × C.gives self.now.clock moment × WasLinked D record_rules B.base change.number
            change.field change.link desk.old.account moment c.reply c.moved desk.new.account (world_of desk.new.buffers.store)) }
        ensures receipt { IfOk result (λ c. c.receipt ≡ desk.new.account.seen) }
        ensures ended { desk.new.buffers.ended_everywhere.items ≡ [] }
        ensures refused { IfErr result (LinkWasRefused D record_rules B.base self.now.core.count change.number change.field change.link) }
        ensures err { OnErr result (desk.new.account ≡ desk.old.account) }
        ensures moved { desk.new.moved ≡ 0 }
    {
        let changed = self.core.set_link(rt, desk, change, &self.clock);
        desk.moved = 0;
        if changed.is_err() {
            desk.buffers.ended_everywhere.clear();
        }
        changed
    }

    /// Changes a link of a record to the link of this text, as in a database text. It leads to the
    /// record and field that it names, or to the device that it names if the record owned that
    /// device at the load, by the rule of the seed, or else nowhere. The record's lock set may part in two, or its part
    /// joins the set of the record that the link leads to; [`Desk::moved`] returns how many records
    /// were moved.
    ///
    /// # Errors
    ///
    /// [`IocError::NoField`] if the field is no link. [`IocError::BadLink`] if the text spells no
    /// link that the field can hold. [`IocError::NoRecord`] if the channel is one of another
    /// engine, which has no such record. [`IocError::Stopped`] if the engine was closed.
    /// [`IocError::JournalFull`] if the journal has no place left. [`IocError::NoMemory`] if
    /// allocation fails. Nothing is added to the journal then, and no link has changed; the history
    /// of a lock set may be forgotten. If DISP forbids the change, the refusal,
    /// [`IocError::PutDisabled`], is the reply, which is added to the journal.
    pub fn set_link<R: Wait>(
        &self,
        rt: &R,
        desk: &mut Desk<B, D>,
        channel: Channel,
        text: &[u8],
    ) -> Result<(Result<(), IocError>, Receipt<B>), IocError>
        ensures changed { IfOk result (λ x. (link : Link) × IsTextOf self.now.lookup.types.items channel text.now link
            × (moment : ℕ) × C.gives self.now.clock moment × WasLinked D record_rules B.base channel.number channel.field
            (field_of_link self.now.lookup.names self.now.lookup.types.items (owner_for self.now.lookup.owners channel.number)
            channel.number link)
            desk.old.account moment x.0 desk.new.moved desk.new.account (world_of desk.new.buffers.store)) }
        ensures receipt { IfOk result (λ x. x.1 ≡ desk.new.account.seen) }
        ensures ended { desk.new.buffers.ended_everywhere.items ≡ [] }
        ensures unmoved { OnErr result (desk.new.moved ≡ 0) }
        ensures refused { IfErr result (λ error. (error ≡ Stopped) ⊎ (IsBadText self.now.lookup.types.items channel text.now error
            ⊎ ((error ≡ NoMemory) ⊎ ((link : Link) × IsTextOf self.now.lookup.types.items channel text.now link
            × LinkWasRefused D record_rules B.base self.now.core.count channel.number channel.field
            (field_of_link self.now.lookup.names self.now.lookup.types.items (owner_for self.now.lookup.owners channel.number)
            channel.number link)
            error)))) }
        ensures refused_by_type { IfErr result (IsLinkError B.base channel) }
        ensures is_link { OnOk result (IsLinkField B.base channel) }
        ensures err { OnErr result (desk.new.account ≡ desk.old.account) }
    {
        types_stay::<Record>();
        desk.begin();
        if self.is_closed() {
            return Err(IocError::Stopped);
        }
        let number = channel.record();
        let lookup = self.lookup.get();
        let link = lookup.link(channel, text)?;
        let lead = lookup.lead(number, &link);
        let Ok(kept) = LinkBox::new(desk.alloc, LinkField { link, lead }) else {
            return Err(IocError::NoMemory);
        };
        let Ok(base_link) = kept.copy(desk.alloc) else {
            return Err(IocError::NoMemory);
        };
        let change = LinkChange {
            number,
            field: channel.field,
            link: kept,
            base_link,
            moment: 0,
        };
        let Changed {
            reply,
            moved,
            receipt,
        } = self.change_link(rt, desk, change)?;
        desk.moved = moved;
        Ok((reply, receipt))
    }
}
