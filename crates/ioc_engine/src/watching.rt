//! Watched records.
ghost use Rattle.std.specs.Prelude.{◌≡◌, IfOk, IfErr};
ghost use Rattle.ioc_engine_core.specs.Looked.{UnwatchIsRefused, WatchIsRefused};

use crate::engine::Engine;
use crate::engine_name::EngineName;
use ioc_device::Device;
use ioc_journaled_set::{NoMoreWatched, NowWatched};
use ioc_names::RecordNo;
use ioc_values::IocError;
use std::alloc::AllocError;
use std::sync::Wait;

impl<B: EngineName<D>, D: Device, C: Drop> Engine<B, D, C> {
    /// Watches a record from now on: it is marked and listed ([`Engine::take_marked`]) until a desk looks
    /// at it ([`Engine::look`]), and again whenever a call may have changed it since. While it isn't marked,
    /// it is what the last look has shown. A record that is watched stays so. What is returned shows that the
    /// record's set watches it; it need not be kept.
    ///
    /// ```rust
    /// let level = engine.channel(b"level")?;
    /// engine.watch(rt, level.record())?;
    /// for number in &engine.take_marked(rt)? {
    ///     show(engine.look(rt, &mut desk, *number, &fields)?);
    /// }
    /// ```
    ///
    /// # Errors
    ///
    /// [`IocError::Stopped`] if the engine was closed. [`IocError::NoRecord`] if there is no record
    /// with this number. [`IocError::NoMemory`] if allocation fails. Nothing is watched that wasn't then.
    pub fn watch<R: Wait>(&self, rt: &R, number: RecordNo) -> Result<NowWatched<B>, IocError>
        ensures watched { IfOk result (λ sign. sign ≡ number) }
        ensures refused { IfErr result (WatchIsRefused self.now.core.count number) }
    {
        self.core.watch(rt, self.alloc, number)
    }

    /// Watches a record no more. It may be listed once more.
    ///
    /// # Errors
    ///
    /// [`IocError::NoRecord`] if there is no record with this number.
    pub fn unwatch<R: Wait>(&self, rt: &R, number: RecordNo) -> Result<NoMoreWatched<B>, IocError>
        ensures unwatched { IfOk result (λ sign. sign ≡ number) }
        ensures refused { IfErr result (UnwatchIsRefused self.now.core.count number) }
    {
        self.core.unwatch(rt, number)
    }

    /// Returns the records that were listed since they were last taken, in the order in which they were
    /// marked, each once. They stay marked until a desk looks at them.
    ///
    /// # Errors
    ///
    /// [`AllocError`] if allocation fails; they are still listed then.
    pub fn take_marked<R: Wait>(&self, rt: &R) -> Result<Vec<RecordNo>, AllocError> {
        self.core.take_marked(rt, self.alloc)
    }
}
