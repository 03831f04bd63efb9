//! Watched records, of which an engine lists each that may have changed since a desk looked at it.
ghost use Rattle.std.specs.Prelude.{◌≡◌, IfOk, IfErr};
ghost use Rattle.ioc_engine_core.specs.Looked.{UnwatchIsRefused, WatchIsRefused};

use crate::engine::EngineCore;
use ioc_device::Device;
use ioc_journaled_set::{NoMoreWatched, NowWatched, SetsName};
use ioc_names::RecordNo;
use ioc_record::RecordKind;
use ioc_values::IocError;
use std::alloc::{AllocError, Global};
use std::sync::Wait;

impl<K: RecordKind + Drop, B: SetsName<K, D>, D: Device> EngineCore<K, B, D> {
    /// Watches a record from now on: it is marked and listed until a desk looks at it, and again whenever a
    /// call may have changed it since. A record that is watched stays so.
    ///
    /// # Errors
    ///
    /// [`IocError::Stopped`] if the engine was closed. [`IocError::NoRecord`] if there is no record
    /// with this number. [`IocError::NoMemory`] if allocation fails. It is watched no more than before
    /// then.
    pub fn watch<R: Wait>(
        &self,
        rt: &R,
        alloc: Global,
        number: RecordNo,
    ) -> Result<NowWatched<B>, IocError>
        ensures watched { IfOk result (λ sign. sign ≡ number) }
        ensures refused { IfErr result (WatchIsRefused self.now.count number) }
    {
        if self.is_closed() {
            return Err(IocError::Stopped);
        }
        self.make_room_for_marks(rt, alloc)?;
        let mut held = self.sets.lock_set(rt, number)?;
        if let Some(sign) = held.watched_sign(number) {
            return Ok(sign);
        }
        let sign = held.watch(alloc, self.journal.cell(), number)?;
        self.marks.lock(rt).add(number);
        Ok(sign)
    }

    // Takes the room for the list of marked records, unless it is there.
    fn make_room_for_marks<R: Wait>(&self, rt: &R, alloc: Global) -> Result<(), AllocError> {
        self.marks.lock(rt).make_room(alloc, self.sets.len())
    }

    /// Watches a record no more. It may be listed once more.
    ///
    /// # Errors
    ///
    /// [`IocError::NoRecord`] if there is no record with this number.
    pub fn unwatch<R: Wait>(&self, rt: &R, number: RecordNo) -> Result<NoMoreWatched<B>, IocError>
        ensures unwatched { IfOk result (λ sign. sign ≡ number) }
        ensures refused { IfErr result (UnwatchIsRefused self.now.count number) }
    {
        let mut held = self.sets.lock_set(rt, number)?;
        Ok(held.unwatch(number))
    }

    /// Returns the records that were listed since they were last taken, in the order in which they were
    /// marked, each once. They stay marked until a desk looks at them.
    ///
    /// # Errors
    ///
    /// [`AllocError`] if allocation fails; they are still listed then.
    pub fn take_marked<R: Wait>(&self, rt: &R, alloc: Global) -> Result<Vec<RecordNo>, AllocError> {
        self.marks.lock(rt).take(alloc)
    }
}
