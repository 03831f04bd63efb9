//! Copies of the records of sets and of the puts with notification that wait in them.
ghost use Rattle.std.specs.Prelude.{◌≡◌, length, IfOk, OnOk};
ghost use Rattle.std.specs.List.{flat_map};
ghost use Rattle.ioc_journaled_set.specs.Copies.{AreCopied, AreCopies, AreEmpty};

use crate::journaled_set::JournaledSet;
use crate::sets_name::SetsName;
use ioc_device::Device;
use ioc_notify::Waiting;
use ioc_record::RecordKind;
use ioc_set::LockSet;
use std::alloc::{AllocError, Global};

// Copies each record of a set to the place of its number, if that is within the list. If allocation
// fails, some records may have been copied.
fn copy_set<K: RecordKind + Drop, D>(
    alloc: Global,
    set: &LockSet<K, D>,
    copies: &mut Vec<Option<K>>,
) -> Result<(), AllocError>
    ensures count { length copies.new.items ≡ length copies.old.items }
    ensures copied { OnOk result (AreCopied set.now.records copies.old.items copies.new.items) }
{
    for place in 0..set.len() {
        let Some(number) = set.number_at(place) else {
            unreachable!();
        };
        let index = number.index();
        if index < copies.len() {
            let copy = set.record(number).copy(alloc)?;
            copies[index] = Some(copy);
        }
    }
    Ok(())
}

/// Copies each record of these sets to the place of its number, if that is within the list.
///
/// # Errors
///
/// [`AllocError`] if allocation fails. Some records may have been copied then.
pub fn copy_records<K: RecordKind + Drop, B: SetsName<K, D>, D: Device>(
    alloc: Global,
    sets: &[JournaledSet<K, B, D>],
    copies: &mut Vec<Option<K>>,
) -> Result<(), AllocError>
    requires empty { AreEmpty copies.old.items }
    ensures count { length copies.new.items ≡ length copies.old.items }
    ensures copies { OnOk result (AreCopies sets.now copies.new.items) }
{
    for held in sets {
        copy_set(alloc, &held.set, copies)?;
    }
    Ok(())
}

/// Copies the puts with notification that wait in these sets, those of one set after another.
///
/// # Errors
///
/// [`AllocError`] if allocation fails.
pub fn copy_waiting<K: RecordKind + Drop, B: SetsName<K, D>, D: Device>(
    alloc: Global,
    sets: &[JournaledSet<K, B, D>],
) -> Result<Vec<Waiting>, AllocError>
    ensures { IfOk result (λ waiting. waiting.items ≡ flat_map (λ h. h.set.waiting) sets.now) }
{
    let mut waiting = Vec::new(alloc);
    for held in sets {
        waiting.extend_from_slice(held.set.waiting_puts())?;
    }
    Ok(waiting)
}
