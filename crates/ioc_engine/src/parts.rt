//! The lock sets as they are.
ghost use Rattle.std.specs.Prelude.{◌≡◌, ◌⊎◌, ◌<◌, ℕ, [], All, Any, Contains, IfOk, IfErr};
ghost use Rattle.ioc_values.specs.declared.error.IocError.TheVariants.{NoMemory, Stopped};
ghost use Rattle.rec_types.specs.Record.{record_rules};
ghost use Rattle.ioc_journal.specs.Account.{HasSeenMore};
ghost use Rattle.ioc_engine_core.specs.Seen.{IsPartSeen};

use crate::desk::Desk;
use crate::engine::Engine;
use crate::engine_name::EngineName;
use ioc_device::Device;
use ioc_names::RecordNo;
use ioc_values::IocError;
use std::sync::Wait;

impl<B: EngineName<D>, D: Device, C: Drop> Engine<B, D, C> {
    /// Returns the records of each lock set, as they were while its lock was held: sets that are
    /// parted or joined by link changes meanwhile may be seen before or after the change. Each
    /// record is in at least one list, and in exactly one if no link is changed meanwhile. No set is
    /// seen as it was before the calls that the desk had seen, and the desk has seen the calls after
    /// which it was seen.
    ///
    /// # Errors
    ///
    /// [`IocError::Stopped`] if the engine was closed. [`IocError::NoMemory`] if allocation fails.
    pub fn parts<R: Wait>(
        &self,
        rt: &R,
        desk: &mut Desk<B, D>,
    ) -> Result<Vec<Vec<RecordNo>>, IocError>
        ensures seen { IfOk result (λ all. All (λ v. IsPartSeen D record_rules B.base desk.old.account.seen desk.new.account.seen v.items)
            all.items) }
        ensures desk { HasSeenMore desk.old.account desk.new.account }
        ensures each { IfOk result (λ all. (q : ℕ) → q < self.now.core.count → Any (λ v. Contains v.items q) all.items) }
        ensures refused { IfErr result (λ error. (error ≡ Stopped) ⊎ (error ≡ NoMemory)) }
        ensures ended { desk.new.buffers.ended_everywhere.items ≡ [] }
        ensures moved { desk.new.moved ≡ 0 }
    {
        let told = self.core.parts(rt, desk);
        desk.buffers.ended_everywhere.clear();
        desk.moved = 0;
        told
    }
}
