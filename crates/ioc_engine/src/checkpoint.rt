//! Checkpoints of an engine.
ghost use Rattle.std.specs.Prelude.{◌≡◌, ◌⊎◌, [], take, drop, IfOk, IfErr};
ghost use Rattle.ioc_values.specs.declared.error.IocError.TheVariants.{Stopped};
ghost use Rattle.ioc_journal.specs.Account.{calls, HasSeenMore, IsGiven, BeginsWhere};
ghost use Rattle.ioc_journal.specs.Places.{IsNoPlace};

use crate::desk::Desk;
use crate::engine::Engine;
use crate::engine_name::EngineName;
use ioc_device::Device;
use ioc_journal::Excerpt;
use ioc_values::IocError;
use std::alloc::AllocError;
use std::sync::Wait;

impl<B: EngineName<D>, D: Device, C: Drop> Engine<B, D, C> {
    /// Makes a checkpoint of the journal: copies all records and the puts with notification that
    /// wait, and drops the entries of all calls so far, whose places are free then. So an engine
    /// can take calls without end. Places go on from where they were. What receipts, desks and
    /// [`Report::tally`](crate::Report::tally) tell of earlier calls stays, but
    /// [`Report::entry`](crate::Report::entry) has no entry of them. Other calls wait meanwhile.
    ///
    /// # Errors
    ///
    /// [`IocError::Stopped`] if the engine was closed. [`IocError::NoMemory`] if allocation fails.
    /// [`IocError::JournalFull`] if more than 2^63 calls were made. The entries and their places
    /// are as they were then.
    pub fn checkpoint<R: Wait>(&self, rt: &R) -> Result<(), IocError>
        ensures refused { IfErr result (λ error. (error ≡ Stopped) ⊎ IsNoPlace error) }
    {
        self.core.checkpoint(rt, self.alloc)
    }

    /// Makes a checkpoint as [`Engine::checkpoint`] does, and returns copies of the entries from a
    /// place on, which leave memory: so a program that keeps the journal loses none. They begin with
    /// the first that was kept if the one at the place was dropped before. The desk has seen all calls
    /// then.
    ///
    /// # Errors
    ///
    /// As [`Engine::checkpoint`]. No entry is dropped then.
    pub fn checkpoint_from<R: Wait>(
        &self,
        rt: &R,
        desk: &mut Desk<B, D>,
        from: u64,
    ) -> Result<Excerpt, IocError>
        ensures desk { HasSeenMore desk.old.account desk.new.account }
        ensures given { IfOk result (λ excerpt. IsGiven from (calls desk.new.account.seen) excerpt.first excerpt.kept_from excerpt.entries.items) }
        ensures refused { IfErr result (λ error. (error ≡ Stopped) ⊎ IsNoPlace error) }
        ensures ended { desk.new.buffers.ended_everywhere.items ≡ [] }
        ensures moved { desk.new.moved ≡ 0 }
    {
        let told = self.core.checkpoint_from(rt, desk, from);
        desk.begin();
        told
    }

    /// Returns copies of the entries of the journal from a place on, at most `most` of them, without
    /// waiting for any set. They begin with the first that is kept if the one at the place was dropped
    /// at a checkpoint. The desk has seen all calls then.
    ///
    /// # Errors
    ///
    /// [`AllocError`] if allocation fails.
    pub fn entries<R: Wait>(
        &self,
        rt: &R,
        desk: &mut Desk<B, D>,
        from: u64,
        most: usize,
    ) -> Result<Excerpt, AllocError>
        ensures desk { HasSeenMore desk.old.account desk.new.account }
        ensures copies { IfOk result (λ excerpt. excerpt.entries.items ≡ take most (drop excerpt.first (calls desk.new.account.seen))) }
        ensures first { IfOk result (λ excerpt. BeginsWhere from excerpt.first excerpt.kept_from) }
        ensures ended { desk.new.buffers.ended_everywhere.items ≡ [] }
        ensures moved { desk.new.moved ≡ 0 }
    {
        let told = self.core.entries(rt, desk, from, most);
        desk.begin();
        told
    }
}
