//! Sets that are kept under locks.
ghost use Rattle.std.specs.Prelude.{◌≡◌, ◌<◌, ◌↔◌, [], IsTrue, Contains, length, slice_index};

use ioc_names::RecordNo;
use std::alloc::Global;

/// A set of records that is kept under a lock: the numbers of its records, each once, and its
/// invariant.
pub trait Locked: Drop {
    ghost use Rattle.std.specs.Prelude.{ℕ, List};

    /// What becomes of a set when the engine ends. [`Directory::gather`](crate::Directory::gather)
    /// returns room for it.
    type Ended: Drop;

    /// The numbers of its records, in any order.
    ghost numbers: { Self → List ℕ };

    /// What is true of the set whenever its lock is free.
    ghost sound: { Self → Type 0 };

    /// Returns a set without records.
    fn empty(alloc: Global) -> Self
        ensures { numbers result ≡ [] };

    /// Returns whether the set has the record with this number.
    fn has(&self, number: RecordNo) -> bool
        ensures { IsTrue result ↔ Contains (numbers self.now) number };

    /// Returns the number of records.
    fn len(&self) -> usize
        ensures { result ≡ length (numbers self.now) };

    /// Returns the number of the record at this place, from 0 on.
    fn number_at(&self, place: usize) -> RecordNo
        requires { place < length (numbers self.now) }
        ensures { result ≡ slice_index (numbers self.now) place };

    /// Returns whether [`Directory::take_where`](crate::Directory::take_where) looks at the set.
    /// It passes over all others, without waiting for their locks.
    fn may_be_taken(&self) -> bool;

    /// States the invariant of the set. Does nothing.
    fn is_sound(&self)
        ensures { sound self.now };
}
