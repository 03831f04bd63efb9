//! Journaled sets under the locks of a directory.
use crate::ending::EndedSet;
use crate::journaled_set::JournaledSet;
use crate::sets_name::SetsName;
use ioc_device::Device;
use ioc_names::RecordNo;
use ioc_record::RecordKind;
use ioc_set::LockSet;
use ioc_topology::Locked;
use std::alloc::Global;

impl<K: RecordKind + Drop, B: SetsName<K, D>, D: Device> Locked for JournaledSet<K, B, D> {
    ghost use Rattle.ioc_journaled_set.specs.Holding.{IsSoundlyHeld, numbers_of};

    type Ended = EndedSet<K, B, D>;

    ghost numbers = { λ h. numbers_of h };

    ghost sound = { λ h. IsSoundlyHeld K.rules B.base h };

    fn empty(alloc: Global) -> Self {
        JournaledSet {
            set: LockSet::empty(alloc),
            pass: None,
            share: None,
            watched: None,
        }
    }

    fn has(&self, number: RecordNo) -> bool {
        self.set.has(number)
    }

    fn len(&self) -> usize {
        self.set.len()
    }

    fn number_at(&self, place: usize) -> RecordNo {
        match self.set.number_at(place) {
            Some(number) => number,
            None => unreachable!(),
        }
    }

    // A set may be taken if a put with notification is live on it.
    fn may_be_taken(&self) -> bool {
        !self.set.none_is_live()
    }

    fn is_sound(&self) {
        self.set.is_sound();
    }
}
