//! Checkpoints of the journal, with all sets.
ghost use Rattle.std.specs.Prelude.{◌≡◌, ◌<◌, ℕ, All, map, length, IfOk, IfErr, IfSome};
ghost use Rattle.std.specs.List.{flat_map};
ghost use Rattle.ioc_journal.specs.Account.{calls, HasSeenMore, IsGiven};
ghost use Rattle.ioc_journal.specs.Base.{IsBaseOf};
ghost use Rattle.ioc_journal.specs.Legal.{map_of};
ghost use Rattle.ioc_journal.specs.Places.{IsNoPlace};
ghost use Rattle.ioc_set.specs.SetState.{folded};
ghost use Rattle.ioc_store.specs.World.{Has};
ghost use Rattle.ioc_topology.specs.Gathered.{HoldEach};
ghost use Rattle.ioc_journaled_set.specs.Copies.{AreCopies, AreEmpty, IsIn};
ghost use Rattle.ioc_journaled_set.specs.Holding.{numbers_of};

use crate::copying::{copy_records, copy_waiting};
use crate::journal_access::JournalAccess;
use crate::journaled_set::JournaledSet;
use crate::sets_name::SetsName;
use ioc_device::Device;
use ioc_journal::legal_laws::lists_leave_sound;
use ioc_journal::{Cell, DeskAccount, Excerpt, FreePlaces, Journal, JournalBase, SharedJournal};
use ioc_record::RecordKind;
use ioc_topology::{Locked, hold_each};
use ioc_values::IocError;
use std::alloc::{AllocError, Global};
use std::sync::Wait;

// Creates a list with this number of places, none of which has a record.
#[tactic(auto, using(crate::proofs::Copied::empty_more))]
fn empty_places<K: Drop>(alloc: Global, count: usize) -> Result<Vec<Option<K>>, AllocError>
    ensures count { IfOk result (λ places. length places.items ≡ count) }
    ensures empty { IfOk result (λ places. AreEmpty places.items) }
{
    let mut places = Vec::new(alloc);
    for _place in 0..count {
        places.push(None)?;
    }
    Ok(places)
}

// Copies the records of these sets to the places of their numbers, if these are below `count`, and
// the puts with notification that wait in the sets.
fn copy_all<K: RecordKind + Drop, B: SetsName<K, D>, D: Device>(
    alloc: Global,
    sets: &[JournaledSet<K, B, D>],
    count: usize,
) -> Result<JournalBase<K>, AllocError>
    ensures count { IfOk result (λ base. length base.records.items ≡ count) }
    ensures records { IfOk result (λ base. AreCopies sets.now base.records.items) }
    ensures waiting { IfOk result (λ base. base.waiting.items ≡ flat_map (λ h. h.set.waiting) sets.now) }
{
    let mut records = empty_places(alloc, count)?;
    copy_records(alloc, sets, &mut records)?;
    let waiting = copy_waiting(alloc, sets)?;
    Ok(JournalBase { records, waiting })
}

impl<K: RecordKind + Drop, B: SetsName<K, D>, D: Device> JournaledSet<K, B, D> {
    // Moves the set on to the whole list of the journal, which leads to the records of the set.
    fn move_on<R: Wait>(&mut self, rt: &R, cell: &Cell, journal: &mut Journal<K, B>)
        requires table { cell.now.table.shared.table_id ≡ B.table }
        ensures set { self.new.set ≡ self.old.set }
        ensures is_in { IsIn (map_of K.rules B.base journal.old.filled) self.old }
        ensures journal { journal.new ≡ journal.old }
    {
        self.is_sound();
        self.learn_all(rt, cell, journal);
    }
}

/// Moves these sets on to the whole list of the journal, which leads to their records.
pub fn move_all_on<K: RecordKind + Drop, B: SetsName<K, D>, D: Device, R: Wait>(
    rt: &R,
    cell: &Cell,
    journal: &mut Journal<K, B>,
    sets: &mut [JournaledSet<K, B, D>],
)
    requires table { cell.now.table.shared.table_id ≡ B.table }
    ensures sets { map (λ h. h.set) sets.new ≡ map (λ h. h.set) sets.old }
    ensures are_in { All (IsIn (map_of K.rules B.base journal.old.filled)) sets.old }
    ensures journal { journal.new ≡ journal.old }
{
    for place in 0..sets.len() {
        sets[place].move_on(rt, cell, journal);
    }
}

// Moves these sets on to the whole list of a journal, which leads to these copies of their records.
pub(crate) fn move_all_to<K: RecordKind + Drop, B: SetsName<K, D>, D: Device, R: Wait>(
    rt: &R,
    cell: &Cell,
    journal: &mut Journal<K, B>,
    sets: &mut [JournaledSet<K, B, D>],
    base: &JournalBase<K>,
)
    requires table { cell.now.table.shared.table_id ≡ B.table }
    requires known { (n : ℕ) → Has B.base n → n < length base.now.records.items }
    requires each { HoldEach numbers_of sets.old (length base.now.records.items) }
    requires records { AreCopies sets.old base.now.records.items }
    requires waiting { base.now.waiting.items ≡ flat_map (λ h. h.set.waiting) sets.old }
    ensures sets { map (λ h. h.set) sets.new ≡ map (λ h. h.set) sets.old }
    ensures journal { journal.new ≡ journal.old }
    ensures base { IsBaseOf (map_of K.rules B.base journal.old.filled) base.now.records.items base.now.waiting.items }
{
    lists_leave_sound::<K>();
    journal.is_legal();
    move_all_on(rt, cell, journal, sets);
}

// Moves these sets on to the whole list of a journal, whose entries are dropped, since it leads to
// these copies of their records. Returns `None` if there were more than 2^63 calls; none is dropped
// then.
fn drop_known<K: RecordKind + Drop, B: SetsName<K, D>, D: Device, R: Wait>(
    rt: &R,
    cell: &Cell,
    journal: &mut Journal<K, B>,
    sets: &mut [JournaledSet<K, B, D>],
    base: JournalBase<K>,
) -> Option<FreePlaces<K, B>>
    requires table { cell.now.table.shared.table_id ≡ B.table }
    requires known { (n : ℕ) → Has B.base n → n < length base.records.items }
    requires each { HoldEach numbers_of sets.old (length base.records.items) }
    requires records { AreCopies sets.old base.records.items }
    requires waiting { base.waiting.items ≡ flat_map (λ h. h.set.waiting) sets.old }
    ensures { map (λ h. h.set) sets.new ≡ map (λ h. h.set) sets.old }
{
    move_all_to(rt, cell, journal, sets, &base);
    journal.drop_entries(base)
}

// Drops the entries of a journal, which leads to these copies of the records of these sets. Returns
// `false` if there were more than 2^63 calls; none is dropped then.
fn drop_entries<K: RecordKind + Drop, B: SetsName<K, D>, D: Device, R: Wait>(
    rt: &R,
    shared: &SharedJournal<K, B>,
    sets: &mut [JournaledSet<K, B, D>],
    base: JournalBase<K>,
) -> bool
    requires known { (n : ℕ) → Has B.base n → n < length base.records.items }
    requires each { HoldEach numbers_of sets.old (length base.records.items) }
    requires records { AreCopies sets.old base.records.items }
    requires waiting { base.waiting.items ≡ flat_map (λ h. h.set.waiting) sets.old }
    ensures { map (λ h. h.set) sets.new ≡ map (λ h. h.set) sets.old }
{
    let mut places = shared.lock_places(rt);
    let mut guard = shared.lock(rt);
    let journal = &mut *guard;
    let Some(mut freed) = drop_known(rt, shared.cell(), journal, sets, base) else {
        return false;
    };
    freed.move_to(u64::MAX, &mut places);
    true
}

// Drops the entries of a journal, which leads to these copies of the records of these sets, and
// returns copies of those from a place on. The desk has seen all calls then.
fn give_entries<K: RecordKind + Drop, B: SetsName<K, D>, D: Device, R: Wait>(
    access: &JournalAccess<'_, K, B, R>,
    desk: &mut DeskAccount<K, B>,
    sets: &mut [JournaledSet<K, B, D>],
    base: JournalBase<K>,
    from: u64,
) -> Result<Excerpt, IocError>
    requires known { (n : ℕ) → Has B.base n → n < length base.records.items }
    requires each { HoldEach numbers_of sets.old (length base.records.items) }
    requires records { AreCopies sets.old base.records.items }
    requires waiting { base.waiting.items ≡ flat_map (λ h. h.set.waiting) sets.old }
    ensures sets { map (λ h. h.set) sets.new ≡ map (λ h. h.set) sets.old }
    ensures desk { HasSeenMore desk.old desk.new }
    ensures given { IfOk result (λ excerpt. IsGiven from (calls desk.new.seen) excerpt.first excerpt.kept_from excerpt.entries.items) }
    ensures refused { IfErr result IsNoPlace }
{
    let rt = access.rt;
    let cell = access.journal.cell();
    let mut places = access.journal.lock_places(rt);
    let mut guard = access.journal.lock(rt);
    let journal = &mut *guard;
    journal.compare_desk(rt, cell, desk);
    let excerpt = journal.copy_rest(access.alloc, from)?;
    let Some(mut freed) = drop_known(rt, cell, journal, sets, base) else {
        return Err(IocError::JournalFull);
    };
    freed.move_to(u64::MAX, &mut places);
    Ok(excerpt)
}

// Clears the histories of these sets, and gives their memory back.
fn fold_all<K: RecordKind + Drop, B: SetsName<K, D>, D: Device>(
    alloc: Global,
    sets: &mut [JournaledSet<K, B, D>],
)
    ensures { map (λ h. h.set) sets.new ≡ map (λ h. folded h.set) sets.old }
{
    for place in 0..sets.len() {
        sets[place].fold(alloc);
    }
}

// Copies the records of these sets and the puts with notification that wait in them. Returns `None`
// if one of the first `count` records is in none of these sets, or one is in two.
pub(crate) fn base_of<K: RecordKind + Drop, B: SetsName<K, D>, D: Device>(
    alloc: Global,
    sets: &[JournaledSet<K, B, D>],
    count: usize,
) -> Result<Option<JournalBase<K>>, AllocError>
    ensures count { IfOk result (λ o. IfSome o (λ base. length base.records.items ≡ count)) }
    ensures each { IfOk result (λ o. IfSome o (λ _. HoldEach numbers_of sets.now count)) }
    ensures records { IfOk result (λ o. IfSome o (λ base. AreCopies sets.now base.records.items)) }
    ensures waiting { IfOk result (λ o. IfSome o (λ base. base.waiting.items ≡ flat_map (λ h. h.set.waiting) sets.now)) }
{
    let mut marks = Vec::from_elem(alloc, false, count)?;
    if !hold_each(sets, marks.as_mut_slice(), count) {
        return Ok(None);
    }
    let base = copy_all(alloc, sets, count)?;
    Ok(Some(base))
}

/// Makes a checkpoint of the journal: drops the entries of all calls, and keeps copies of the
/// records of these sets, to which the calls lead. The histories of the sets are cleared. Returns
/// `false` if one of the first `count` records is in none of these sets, or one is in two; nothing
/// has changed then.
///
/// # Errors
///
/// [`IocError::NoMemory`] if allocation fails. [`IocError::JournalFull`] if more than 2^63 calls
/// were made. Nothing has changed then.
pub fn checkpoint_on<K: RecordKind + Drop, B: SetsName<K, D>, D: Device, R: Wait>(
    rt: &R,
    alloc: Global,
    shared: &SharedJournal<K, B>,
    sets: &mut [JournaledSet<K, B, D>],
    count: usize,
) -> Result<bool, IocError>
    requires known { (n : ℕ) → Has B.base n → n < count }
    ensures same { map (λ h. folded h.set) sets.new ≡ map (λ h. folded h.set) sets.old }
    ensures refused { IfErr result IsNoPlace }
{
    let Some(base) = base_of(alloc, sets, count)? else {
        return Ok(false);
    };
    if !drop_entries(rt, shared, sets, base) {
        return Err(IocError::JournalFull);
    }
    fold_all(alloc, sets);
    Ok(true)
}

/// Makes a checkpoint as [`checkpoint_on`] does, and returns copies of the entries from a place on,
/// which leave memory. They begin with the first that was kept if the one at the place was dropped
/// before. The desk has seen all calls then. Returns `None` if one of the first `count` records is in
/// none of these sets, or one is in two; no entry is dropped then.
///
/// # Errors
///
/// As [`checkpoint_on`]. No entry is dropped then.
pub fn checkpoint_giving<K: RecordKind + Drop, B: SetsName<K, D>, D: Device, R: Wait>(
    access: &JournalAccess<'_, K, B, R>,
    desk: &mut DeskAccount<K, B>,
    sets: &mut [JournaledSet<K, B, D>],
    count: usize,
    from: u64,
) -> Result<Option<Excerpt>, IocError>
    requires known { (n : ℕ) → Has B.base n → n < count }
    ensures same { map (λ h. folded h.set) sets.new ≡ map (λ h. folded h.set) sets.old }
    ensures desk { HasSeenMore desk.old desk.new }
    ensures given { IfOk result (λ o. IfSome o (λ excerpt. IsGiven from (calls desk.new.seen) excerpt.first excerpt.kept_from excerpt.entries.items)) }
    ensures refused { IfErr result IsNoPlace }
{
    let Some(base) = base_of(access.alloc, sets, count)? else {
        return Ok(None);
    };
    let excerpt = give_entries(access, desk, sets, base, from)?;
    fold_all(access.alloc, sets);
    Ok(Some(excerpt))
}
