//! The records that have changed since their bases, and how the bases follow them.
ghost use Rattle.std.specs.Prelude.{◌≡◌, ◌<◌, ◌≤◌, length, map, [], vec_capacity};
ghost use Rattle.std.specs.List.{range_with_len};
ghost use Rattle.ioc_set_records.specs.Edges.{slot_relinked};
ghost use Rattle.ioc_set_records.specs.Twins.{AreTracked, AllLikeTheirBases, slot_folded, slots_marked};

use crate::slots::Slot;
use ioc_dbcommon::LinkBox;
use ioc_fields::FieldNo;
use ioc_record::RecordKind;

/// Marks the record at a place, which may differ from its base from now on. Its place must fit into
/// `changed`.
pub fn mark<K, D>(slots: &mut Vec<Slot<K, D>>, changed: &mut Vec<usize>, place: usize)
    requires there { place < length slots.old.items }
    requires tracked { AreTracked slots.old.items changed.old.items }
    requires room { length slots.old.items ≤ vec_capacity changed.old }
    ensures slots { slots.new.items ≡ slots_marked slots.old.items place }
    ensures tracked { AreTracked slots.new.items changed.new.items }
    ensures room { vec_capacity changed.new ≡ vec_capacity changed.old }
{
    if slots[place].is_changed {
        return;
    }
    slots[place].is_changed = true;
    changed.push_reserved(place);
}

/// Lists the places of all `count` slots as changed. They must fit into `changed`.
pub fn list_all(changed: &mut Vec<usize>, count: usize)
    requires { count ≤ vec_capacity changed.old }
    ensures places { changed.new.items ≡ range_with_len 0 count }
    ensures room { vec_capacity changed.new ≡ vec_capacity changed.old }
{
    changed.clear();
    for place in 0..count {
        changed.push_reserved(place);
    }
}

/// Copies each changed record to its base. The cost is proportional to the number of changed
/// records.
pub fn fold_slots<K: RecordKind, D>(slots: &mut Vec<Slot<K, D>>, changed: &mut Vec<usize>)
    requires tracked { AreTracked slots.old.items changed.old.items }
    requires like { AllLikeTheirBases K.rules slots.old.items }
    ensures slots { slots.new.items ≡ map slot_folded slots.old.items }
    ensures changed { changed.new.items ≡ [] }
    ensures room { vec_capacity changed.new ≡ vec_capacity changed.old }
{
    for place in changed.iter() {
        let slot = &mut slots[*place];
        slot.base.copy_from(&slot.fields);
        slot.is_changed = false;
    }
    changed.clear();
}

/// Sets a link of a record and of its base.
pub fn relink<K: RecordKind, D>(
    slot: &mut Slot<K, D>,
    field: FieldNo,
    link: LinkBox,
    base_link: LinkBox,
)
    requires { base_link ≡ link }
    ensures { slot.new ≡ slot_relinked K.rules slot.old field link }
{
    slot.fields.set_link(field, link);
    slot.base.set_link(field, base_link);
}
