//! The records of each lock set.
ghost use Rattle.std.specs.Prelude.{◌≡◌, ◌⊎◌, ◌<◌, ℕ, false, slice_index_or, All, Any, Contains, IfOk, IfErr};
ghost use Rattle.ioc_journal.specs.Account.{HasSeenMore};
ghost use Rattle.ioc_journaled_set.specs.Holding.{numbers_of};
ghost use Rattle.ioc_topology.specs.Change.{IsRefused};
ghost use Rattle.ioc_topology.specs.Gathered.{IsMarked};
ghost use Rattle.ioc_values.specs.declared.error.IocError.TheVariants.{NoMemory, Stopped};
ghost use Rattle.ioc_engine_core.specs.Seen.{IsPartSeen};

use crate::desk::Desk;
use crate::engine::EngineCore;
use ioc_device::Device;
use ioc_journaled_set::{JournaledSet, SetsName};
use ioc_names::RecordNo;
use ioc_record::RecordKind;
use ioc_topology::Locked;
use ioc_values::IocError;
use std::alloc::{AllocError, Global};
use std::sync::Wait;

// Returns the numbers of a set's records.
fn numbers_in<K: RecordKind + Drop, B: SetsName<K, D>, D: Device>(
    alloc: Global,
    held: &JournaledSet<K, B, D>,
) -> Result<Vec<RecordNo>, AllocError>
    ensures { IfOk result (λ v. v.items ≡ numbers_of held.now) }
{
    let mut numbers = Vec::with_capacity(alloc, held.len())?;
    for place in 0..held.len() {
        numbers.push(held.number_at(place))?;
    }
    Ok(numbers)
}

// Returns whether this record was seen.
fn is_marked(marks: &Vec<bool>, number: usize) -> bool
    ensures { result ≡ slice_index_or marks.now.items number false }
{
    number < marks.len() && marks[number]
}

// Marks these records as seen, and no others.
fn mark_all(numbers: &[RecordNo], marks: &mut Vec<bool>)
    ensures { (q : ℕ) → IsMarked marks.new.items q → IsMarked marks.old.items q ⊎ Contains numbers.now q }
{
    for number in numbers {
        let place = number.index();
        if place < marks.len() {
            marks[place] = true;
        }
    }
}

impl<K: RecordKind + Drop, B: SetsName<K, D>, D: Device> EngineCore<K, B, D> {
    // Returns the numbers of the records of the set with this record, after the calls that the desk has
    // seen then.
    fn part_of<R: Wait>(
        &self,
        rt: &R,
        desk: &mut Desk<K, B, D>,
        number: RecordNo,
    ) -> Result<Vec<RecordNo>, IocError>
        ensures seen { IfOk result (λ v. IsPartSeen D K.rules B.base desk.old.account.seen desk.new.account.seen v.items) }
        ensures desk { HasSeenMore desk.old.account desk.new.account }
        ensures here { IfOk result (λ v. Contains v.items number) }
        ensures refused { IfErr result (λ error. IsRefused self.now.count number error ⊎ (error ≡ NoMemory)) }
    {
        let mut held = self.sets.lock_set(rt, number)?;
        held.learn(rt, &self.journal, &mut desk.account);
        held.is_sound();
        let numbers = numbers_in(desk.alloc, &held)?;
        Ok(numbers)
    }

    /// Returns the numbers of the records of each set, as they were while its lock was held: sets
    /// that are parted or joined by link changes meanwhile may be seen before or after the change.
    /// Each record is in at least one list, and in exactly one if no link is changed meanwhile. The
    /// desk has seen all calls before that moment then, and none is seen as it was before what the desk
    /// had seen.
    ///
    /// # Errors
    ///
    /// [`IocError::Stopped`] if the engine was closed. [`IocError::NoMemory`] if allocation fails.
    pub fn parts<R: Wait>(
        &self,
        rt: &R,
        desk: &mut Desk<K, B, D>,
    ) -> Result<Vec<Vec<RecordNo>>, IocError>
        ensures seen { IfOk result (λ all. All (λ v. IsPartSeen D K.rules B.base desk.old.account.seen desk.new.account.seen v.items)
            all.items) }
        ensures desk { HasSeenMore desk.old.account desk.new.account }
        ensures each { IfOk result (λ all. (q : ℕ) → q < self.now.count → Any (λ v. Contains v.items q) all.items) }
        ensures refused { IfErr result (λ error. (error ≡ Stopped) ⊎ (error ≡ NoMemory)) }
    {
        if self.is_closed() {
            return Err(IocError::Stopped);
        }
        let mut marks = vec![in desk.alloc; false; self.sets.len()]?;
        let mut parts = Vec::new(desk.alloc);
        for number in 0..self.sets.len() {
            if is_marked(&marks, number) {
                continue;
            }
            let part = self.part_of(rt, desk, RecordNo::new(number))?;
            mark_all(part.as_slice(), &mut marks);
            parts.push(part)?;
        }
        Ok(parts)
    }
}
