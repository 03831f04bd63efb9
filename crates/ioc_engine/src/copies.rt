//! Copies of all records, which are no calls.
ghost use Rattle.std.specs.Prelude.{◌≡◌, ◌⊎◌, [], length, IfOk, IfErr};
ghost use Rattle.ioc_values.specs.declared.error.IocError.TheVariants.{NoMemory, Stopped};
ghost use Rattle.rec_types.specs.Record.{record_rules};
ghost use Rattle.ioc_journal.specs.Account.{HasSeenMore, IsAccount};
ghost use Rattle.ioc_journal.specs.Base.{IsBaseOf};
ghost use Rattle.ioc_journal.specs.Legal.{map_of};

use crate::desk::Desk;
use crate::engine::Engine;
use crate::engine_name::EngineName;
use ioc_device::Device;
use ioc_journaled_set::RecordCopies;
use ioc_values::IocError;
use rec_types::Record;
use std::sync::Wait;

impl<B: EngineName<D>, D: Device, C: Drop> Engine<B, D, C> {
    /// Copies all records as they are at one moment, each to the place of its number, with the puts
    /// with notification that wait. The desk has seen all calls before that moment then, whose number is
    /// told. Nothing is added to the journal, and no entry of it is dropped. Other calls wait meanwhile.
    ///
    /// ```rust
    /// let level = engine.record(b"level")?;
    /// let copies = engine.copy_records(rt, &mut desk)?;
    /// if let Some(Some(record)) = copies.base.records.get(level.index()) {
    ///     show(text_of(record, FieldNo::Own(OwnField::Val)).as_slice());
    /// }
    /// ```
    ///
    /// # Errors
    ///
    /// [`IocError::Stopped`] if the engine was closed. [`IocError::NoMemory`] if allocation fails.
    pub fn copy_records<R: Wait>(
        &self,
        rt: &R,
        desk: &mut Desk<B, D>,
    ) -> Result<RecordCopies<Record>, IocError>
        ensures copies { IfOk result (λ copies. IsBaseOf (map_of record_rules B.base desk.new.account.seen) copies.base.records.items
            copies.base.waiting.items) }
        ensures place { IfOk result (λ copies. copies.place ≡ length desk.new.account.seen) }
        ensures legal { IfOk result (λ _. IsAccount record_rules B.base desk.new.account.seen) }
        ensures desk { HasSeenMore desk.old.account desk.new.account }
        ensures ended { desk.new.buffers.ended_everywhere.items ≡ [] }
        ensures moved { desk.new.moved ≡ 0 }
        ensures refused { IfErr result (λ error. (error ≡ Stopped) ⊎ (error ≡ NoMemory)) }
    {
        let told = self.core.copy_records(rt, desk);
        desk.begin();
        told
    }
}
