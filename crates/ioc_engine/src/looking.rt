//! Looks at records, which are no calls.
ghost use Rattle.std.specs.Prelude.{◌≡◌, [], IfOk, IfErr};
ghost use Rattle.rec_types.specs.Record.{record_rules};
ghost use Rattle.ioc_journal.specs.Account.{HasSeenMore};
ghost use Rattle.ioc_engine_core.specs.Looked.{LookIsRefused, WasLooked};

use crate::desk::Desk;
use crate::engine::Engine;
use crate::engine_name::EngineName;
use ioc_device::Device;
use ioc_engine_core::FieldSeen;
use ioc_fields::FieldNo;
use ioc_names::RecordNo;
use ioc_values::IocError;
use std::sync::Wait;

impl<B: EngineName<D>, D: Device, C: Drop> Engine<B, D, C> {
    /// Looks at fields of a record. Returns what they are at one moment, in their order, with the
    /// text that a get would tell at that moment. A look isn't added to the journal. The desk has
    /// seen all calls before that moment then, and no look of the same desk shows an earlier one. If the
    /// record is watched ([`Engine::watch`]), its mark is taken off at that moment.
    ///
    /// ```rust
    /// let level = engine.channel(b"level")?;
    /// let fields = [FieldNo::Own(OwnField::Val), FieldNo::Common(CommonField::Sevr)];
    /// for field in &engine.look(rt, &mut desk, level.record(), &fields)? {
    ///     show(field.text.as_slice());
    /// }
    /// ```
    ///
    /// # Errors
    ///
    /// [`IocError::Stopped`] if the engine was closed. [`IocError::NoRecord`] if there is no record
    /// with this number. [`IocError::NoField`] if the record has no such field.
    /// [`IocError::NoMemory`] if allocation fails.
    pub fn look<R: Wait>(
        &self,
        rt: &R,
        desk: &mut Desk<B, D>,
        number: RecordNo,
        fields: &[FieldNo],
    ) -> Result<Vec<FieldSeen>, IocError>
        ensures looked { IfOk result (λ v. WasLooked D record_rules B.base number fields.now desk.old.account.seen v.items
            desk.new.account.seen) }
        ensures desk { HasSeenMore desk.old.account desk.new.account }
        ensures ended { desk.new.buffers.ended_everywhere.items ≡ [] }
        ensures moved { desk.new.moved ≡ 0 }
        ensures refused { IfErr result (LookIsRefused D record_rules B.base self.now.core.count number fields.now) }
    {
        let told = self.core.look(rt, desk, number, fields);
        desk.begin();
        told
    }
}
