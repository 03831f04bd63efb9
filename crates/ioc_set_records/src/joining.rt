//! The union of two sets.
ghost use Rattle.std.specs.Prelude.{◌≡◌, ◌<◌, ◌≤◌, ◌+◌, ◌++◌, length, IfOk, [], vec_capacity};
ghost use Rattle.std.specs.List.Sorted.{IsNonDecreasingBy, IsPermutation};
ghost use Rattle.ioc_set_records.specs.Edges.{slots_relinked};

use crate::marks::relink;
use crate::slots::Slot;
use ioc_dbcommon::LinkBox;
use ioc_fields::FieldNo;
use ioc_record::RecordKind;
use std::alloc::{AllocError, Global};

/// Memory for the records of two sets that become one.
#[derive(Drop)]
pub struct JoinBuffers<K, D> {
    slots: Vec<Slot<K, D>>,
    changed: Vec<usize>,
    pub count: usize,
    pub ghost no_slot: { slots.items ≡ [] },
    pub ghost no_place: { changed.items ≡ [] },
    pub ghost slots_fit: { count ≤ vec_capacity slots },
    pub ghost places_fit: { count ≤ vec_capacity changed },
}

impl<K: Drop, D: Drop> JoinBuffers<K, D> {
    /// Reserves room for `count` records.
    ///
    /// # Errors
    ///
    /// [`AllocError`] if allocation fails.
    pub fn new(alloc: Global, count: usize) -> Result<Self, AllocError>
        ensures { IfOk result (λ r. r.count ≡ count) }
    {
        let slots = Vec::with_capacity(alloc, count)?;
        let changed = Vec::with_capacity(alloc, count)?;
        Ok(JoinBuffers {
            slots,
            changed,
            count,
        })
    }
}

// Sorts slots by their numbers.
fn sort<K, D>(slots: &mut Vec<Slot<K, D>>)
    ensures permutation { IsPermutation slots.old.items slots.new.items }
    ensures sorted { IsNonDecreasingBy (λ s. s.number) slots.new.items }
{
    let slots = slots.as_mut_slice();
    slots.sort_unstable_by_key(|slot| slot.number.index());
}

/// Moves slots and the list of changed ones to the larger memory of `room`. No slot may be marked
/// as changed.
pub fn move_in<K: Drop, D: Drop>(
    room: JoinBuffers<K, D>,
    slots: &mut Vec<Slot<K, D>>,
    changed: &mut Vec<usize>,
)
    requires room { length slots.old.items ≤ room.count }
    ensures slots { slots.new.items ≡ slots.old.items }
    ensures changed { changed.new.items ≡ [] }
    ensures slots_fit { room.count ≤ vec_capacity slots.new }
    ensures places_fit { room.count ≤ vec_capacity changed.new }
{
    let JoinBuffers {
        slots: mut roomy,
        changed: places,
        ..
    } = room;
    if roomy.append(slots).is_err() {
        unreachable!()
    }
    *slots = roomy;
    *changed = places;
}

/// Moves the slots of another set here, for which memory is reserved, and sets a link of the record
/// at a place, and of its base. `link` and `base_link` must be equal.
pub fn join_slots<K: RecordKind, D>(
    slots: &mut Vec<Slot<K, D>>,
    other: &mut Vec<Slot<K, D>>,
    place: usize,
    field: FieldNo,
    link: LinkBox,
    base_link: LinkBox,
)
    requires there { place < length slots.old.items }
    requires base_link { base_link ≡ link }
    requires room { length slots.old.items + length other.old.items ≤ vec_capacity slots.old }
    ensures permutation { IsPermutation (slots_relinked K.rules slots.old.items place field link ++ other.old.items) slots.new.items }
    ensures sorted { IsNonDecreasingBy (λ s. s.number) slots.new.items }
    ensures emptied { other.new.items ≡ [] }
{
    let Ok(()) = slots.append(other) else {
        unreachable!()
    };
    relink(&mut slots[place], field, link, base_link);
    sort(slots);
}
