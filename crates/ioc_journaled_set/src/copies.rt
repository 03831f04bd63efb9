//! Copies of the records of all sets at one moment.
ghost use Rattle.std.specs.Prelude.{◌≡◌, ◌<◌, ℕ, map, length, IfOk, IfSome};
ghost use Rattle.ioc_journal.specs.Account.{HasSeenMore, IsAccount};
ghost use Rattle.ioc_journal.specs.Base.{IsBaseOf};
ghost use Rattle.ioc_journal.specs.Legal.{map_of};
ghost use Rattle.ioc_store.specs.World.{Has};

use crate::checkpoint::{base_of, move_all_to};
use crate::journal_access::JournalAccess;
use crate::journaled_set::JournaledSet;
use crate::sets_name::SetsName;
use ioc_device::Device;
use ioc_journal::{DeskAccount, JournalBase};
use ioc_record::RecordKind;
use std::alloc::AllocError;
use std::sync::Wait;

/// Copies of all records as they are behind the first calls of a journal.
#[derive(Drop)]
pub struct RecordCopies<K> {
    /// The records, and the puts with notification that wait.
    pub base: JournalBase<K>,
    /// How many calls lead to them: the place of the next one.
    pub place: u64,
}

/// Returns copies of the records of these sets, and of the puts with notification that wait in them,
/// to which the calls lead that the desk has seen then. Returns `None` if one of the first `count`
/// records is in none of these sets, or one is in two.
///
/// # Errors
///
/// [`AllocError`] if allocation fails.
pub fn copies_on<K: RecordKind + Drop, B: SetsName<K, D>, D: Device, R: Wait>(
    access: &JournalAccess<'_, K, B, R>,
    desk: &mut DeskAccount<K, B>,
    sets: &mut [JournaledSet<K, B, D>],
    count: usize,
) -> Result<Option<RecordCopies<K>>, AllocError>
    requires known { (n : ℕ) → Has B.base n → n < count }
    ensures same { map (λ h. h.set) sets.new ≡ map (λ h. h.set) sets.old }
    ensures desk { HasSeenMore desk.old desk.new }
    ensures copies { IfOk result (λ o. IfSome o (λ c. IsBaseOf (map_of K.rules B.base desk.new.seen) c.base.records.items
        c.base.waiting.items)) }
    ensures place { IfOk result (λ o. IfSome o (λ c. c.place ≡ length desk.new.seen)) }
    ensures legal { IfOk result (λ o. IfSome o (λ _. IsAccount K.rules B.base desk.new.seen)) }
{
    let Some(base) = base_of(access.alloc, sets, count)? else {
        return Ok(None);
    };
    let cell = access.journal.cell();
    let mut guard = access.journal.lock(access.rt);
    let journal = &mut *guard;
    journal.compare_desk(access.rt, cell, desk);
    move_all_to(access.rt, cell, journal, sets, &base);
    journal.is_legal();
    let place = journal.len();
    Ok(Some(RecordCopies { base, place }))
}
