//! One change of all records.
ghost use Rattle.std.specs.Prelude.{◌≡◌, map};
ghost use Rattle.ioc_set_records.specs.Changed.{slot_changed};

use crate::slots::Slot;

/// A change that can be applied to a record.
pub trait Change<K> {
    ghost changed: { Self → K → K };

    /// Applies the change to a record.
    fn apply(&self, item: &mut K)
        ensures { item.new ≡ changed self.now item.old };
}

/// Applies the change to each record, and marks it as changed.
pub fn change_slots<K, D, C: Change<K>>(slots: &mut [Slot<K, D>], by: &C)
    ensures { slots.new ≡ map (slot_changed (C.changed by.now)) slots.old }
{
    for slot in slots.iter_mut() {
        by.apply(&mut slot.fields);
        slot.is_changed = true;
    }
}
