//! The division of a set.
ghost use Rattle.std.specs.Prelude.{◌≡◌, ◌<◌, ◌≤◌, [], length, true, is_some, IfOk, OnErr, slice_index_or, vec_capacity};
ghost use Rattle.ioc_set_records.specs.declared.slots.Slot.{Slot};
ghost use Rattle.ioc_set_records.specs.Edges.{slots_relinked};
ghost use Rattle.ioc_set_records.specs.Joined.{links_of, IsClosed};
ghost use Rattle.ioc_set_records.specs.Parted.{IsParted};
ghost use Rattle.ioc_set_records.specs.Slots.{AreAscending, records_of};

use crate::dividing::{count_of, deal};
use crate::links::parts_with;
use crate::marks::relink;
use crate::slots::Slot;
use ioc_dbcommon::LinkBox;
use ioc_fields::FieldNo;
use ioc_record::RecordKind;
use std::alloc::{AllocError, Global};
use std::mem;

/// Sets a link of the record at a place, and of its base; `link` and `base_link` must be equal. The
/// slots of the part of that record stay, and the others are returned, with room for the places of
/// all of them. If all are of that part, none is moved.
///
/// # Errors
///
/// [`AllocError`] if allocation fails; nothing has changed then.
pub fn part_slots<K: RecordKind + Drop, D: Drop>(
    alloc: Global,
    slots: &mut Vec<Slot<K, D>>,
    place: usize,
    field: FieldNo,
    link: LinkBox,
    base_link: LinkBox,
) -> Result<(Vec<Slot<K, D>>, Vec<usize>), AllocError>
    requires ascending { AreAscending slots.old.items }
    requires there { place < length slots.old.items }
    requires base_link { base_link ≡ link }
    requires field { (s : Slot K D) → place < length slots.old.items → s ≡ slice_index_or slots.old.items place s
        → is_some (K.rules.link s.fields field) ≡ true }
    requires closed { IsClosed (links_of K.rules (records_of (slots_relinked K.rules slots.old.items place field link))) }
    ensures ok { IfOk result (λ rest. IsParted K.rules (slots_relinked K.rules slots.old.items place field link) place slots.new.items
        rest.0.items) }
    ensures room { IfOk result (λ rest. (rest.1.items ≡ []) × (length rest.0.items ≤ vec_capacity rest.1)) }
    ensures err { OnErr result (slots.new.items ≡ slots.old.items) }
{
    let numbers = parts_with(alloc, slots, place, field, &link)?;
    let number = numbers[place];
    let staying = count_of(&numbers, number);
    if staying == numbers.len() {
        relink(&mut slots[place], field, link, base_link);
        return Ok((Vec::new(alloc), Vec::new(alloc)));
    }
    let mut stay = Vec::with_capacity(alloc, staying)?;
    let leaving = numbers.len() - staying;
    let mut rest = Vec::with_capacity(alloc, leaving)?;
    let places = Vec::with_capacity(alloc, leaving)?;
    relink(&mut slots[place], field, link, base_link);
    let all = mem::replace(slots, Vec::new(alloc));
    deal(all, &numbers, number, &mut stay, &mut rest);
    *slots = stay;
    Ok((rest, places))
}
