//! Separates journaled sets from their passes for a call that concerns all of them, and puts them
//! together again.
ghost use Rattle.std.specs.Prelude.{◌≡◌, ◌≢◌, ◌≤◌, ◌<◌, ℕ, [], Some, Option, length, slice_index_or, IfOk, IfErr, IfNone, OnErr};
ghost use Rattle.std.specs.Option.{IfSome};
ghost use Rattle.ioc_notify.specs.Living.{holders_of};
ghost use Rattle.ioc_journal.specs.Line.{holder};
ghost use Rattle.ioc_journal.specs.Legal.{map_of};
ghost use Rattle.ioc_journal.specs.Places.{IsNoPlace};
ghost use Rattle.std.specs.Vec.{vec_capacity};
ghost use Rattle.crossbeam_utils.specs.Seq.{cell_view};
ghost use Rattle.ioc_set.specs.SetState.{SetState};
ghost use Rattle.ioc_journaled_set.specs.Holding.{HeldView, held_view, seen_by};
ghost use Rattle.ioc_journaled_set.specs.Sets.{AreItsSets};
ghost use Rattle.ioc_journaled_set.specs.GivingUp.{AreSame, EachIsLent, EachIsCounted, HaveNotAll, sets_of, AreSameSets};
ghost use Rattle.ioc_journaled_set.specs.GivingUp.{HeldGaveUp, GaveUpOn};
ghost use Rattle.ioc_journaled_set.specs.SameDevice.{IsDeviceOf};
ghost use Rattle.ioc_journal.specs.Account.{puts_key, Pass};

use crate::journal_access::JournalAccess;
use crate::sets_name::SetsName;
use crate::together::giving_up::give_up_all;
use crate::{JournaledSet, SharedNotifications};
use ioc_device::Device;
use ioc_journal::{Cell, DeskAccount, EngineCounts, KeyPass, Receipt};
use ioc_ledger::TallyShare;
use ioc_notify::table_laws::lines_tell_holders;
use ioc_notify::{Live, NotifyId};
use ioc_record::RecordKind;
use ioc_set::{EventBuffers, LockSet};
use ioc_topology::Locked;
use ioc_values::IocError;
use ioc_watched::WatchList;
use std::alloc::{AllocError, Global};
use std::mem;
use std::sync::Wait;

// Sets apart from their passes and from their shares of the counts.
#[derive(Drop)]
struct LentSets<K: RecordKind + Drop, B: SetsName<K, D>, D: Device> {
    sets: Vec<LockSet<K, D>>,
    passes: Vec<Option<KeyPass>>,
    shares: Vec<Option<TallyShare<EngineCounts<K, B>>>>,
}

// Separates each of these journaled sets from its pass and its share, into reserved memory.
fn separate_all<K: RecordKind + Drop, B: SetsName<K, D>, D: Device>(
    alloc: Global,
    cell: &Cell,
    keeper: &mut KeyPass,
    held: &mut [JournaledSet<K, B, D>],
    sets: &mut Vec<LockSet<K, D>>,
    passes: &mut Vec<Option<KeyPass>>,
    shares: &mut Vec<Option<TallyShare<EngineCounts<K, B>>>>,
)
    requires table { (keeper.old.table_id ≡ B.table) × (cell.now.table.shared.table_id ≡ B.table) }
    requires room { (length held.old ≤ vec_capacity sets.old) × (length held.old ≤ vec_capacity passes.old)
        × (length held.old ≤ vec_capacity shares.old) }
    requires empty { (sets.old.items ≡ []) × (passes.old.items ≡ []) × (shares.old.items ≡ []) }
    ensures keeper { (keeper.new.table_id ≡ keeper.old.table_id) × (cell_view keeper.new ≡ cell_view keeper.old) }
    ensures sets { sets.new.items ≡ sets_of held.old }
    ensures beside { (length passes.new.items ≡ length held.old) × (length shares.new.items ≡ length held.old) }
    ensures lent { EachIsLent K.rules B.base (IsDeviceOf D.gives B.devices) B.table sets.new.items passes.new.items }
    ensures counted { EachIsCounted sets.new.items shares.new.items }
{
    for i in 0..held.len() {
        let one = mem::replace(&mut held[i], JournaledSet::empty(alloc));
        let (set, own, share) = one.into_parts(cell, keeper);
        sets.push_reserved(set);
        passes.push_reserved(Some(own));
        shares.push_reserved(share);
    }
}

// Separates each of these journaled sets from its pass and its share. If allocation fails, nothing
// has changed.
fn lend_all<K: RecordKind + Drop, B: SetsName<K, D>, D: Device>(
    alloc: Global,
    cell: &Cell,
    keeper: &mut KeyPass,
    held: &mut [JournaledSet<K, B, D>],
) -> Result<LentSets<K, B, D>, AllocError>
    requires table { (keeper.old.table_id ≡ B.table) × (cell.now.table.shared.table_id ≡ B.table) }
    ensures keeper { (keeper.new.table_id ≡ keeper.old.table_id) × (cell_view keeper.new ≡ cell_view keeper.old) }
    ensures sets { IfOk result (λ lent. lent.sets.items ≡ sets_of held.old) }
    ensures beside { IfOk result (λ lent. (length lent.passes.items ≡ length held.old)
        × (length lent.shares.items ≡ length held.old)) }
    ensures lent { IfOk result (λ lent. EachIsLent K.rules B.base (IsDeviceOf D.gives B.devices) B.table lent.sets.items
        lent.passes.items) }
    ensures counted { IfOk result (λ lent. EachIsCounted lent.sets.items lent.shares.items) }
    ensures err { OnErr result ((held.new ≡ held.old) × (keeper.new ≡ keeper.old)) }
{
    let mut sets = Vec::with_capacity(alloc, held.len())?;
    let mut passes = Vec::with_capacity(alloc, held.len())?;
    let mut shares = Vec::with_capacity(alloc, held.len())?;
    separate_all(
        alloc,
        cell,
        keeper,
        held,
        &mut sets,
        &mut passes,
        &mut shares,
    );
    Ok(LentSets {
        sets,
        passes,
        shares,
    })
}

// Puts sets, passes and shares together again.
fn take_back_all<K: RecordKind + Drop, B: SetsName<K, D>, D: Device>(
    alloc: Global,
    held: &mut [JournaledSet<K, B, D>],
    sets: &mut [LockSet<K, D>],
    passes: &mut [Option<KeyPass>],
    shares: &mut [Option<TallyShare<EngineCounts<K, B>>>],
)
    requires count { (length sets.old ≡ length held.old) × (length passes.old ≡ length held.old) × (length shares.old ≡ length held.old) }
    requires lent { EachIsLent K.rules B.base (IsDeviceOf D.gives B.devices) B.table sets.old passes.old }
    requires counted { EachIsCounted sets.old shares.old }
    ensures { (i : ℕ) (d : HeldView K D) (e : SetState K D) (f : Option Pass) → i < length held.new →
        slice_index_or held.new i d ≡ held_view (slice_index_or sets.old i e) (seen_by (slice_index_or passes.old i f)) }
{
    for i in 0..held.len() {
        let set = mem::replace(&mut sets[i], LockSet::empty(alloc));
        let Some(own) = passes[i].take() else {
            unreachable!();
        };
        held[i] = JournaledSet::new(set, own, shares[i].take());
    }
}

// Cancels a put with notification on sets that were separated from their passes and shares, if they
// have all its records. Then puts them together again.
fn give_up_lent<K: RecordKind + Drop, B: SetsName<K, D>, D: Device, R: Wait>(
    access: &JournalAccess<'_, K, B, R>,
    desk: &mut DeskAccount<K, B>,
    buffers: &mut EventBuffers<K, D>,
    keeper: &mut KeyPass,
    held: &mut [JournaledSet<K, B, D>],
    lent: LentSets<K, B, D>,
    put: Live,
    moment: u64,
) -> Result<Option<Receipt<K, B>>, IocError>
    requires keeper { (keeper.old.table_id ≡ B.table) × (cell_view keeper.old ≡ holder (cell_view keeper.old).seen puts_key) }
    requires total { put.holders ≡ holders_of put.number (map_of K.rules B.base (cell_view keeper.old).seen).live }
    requires some { put.holders ≢ 0 }
    requires count { (length lent.sets.items ≡ length held.old) × (length lent.passes.items ≡ length held.old)
        × (length lent.shares.items ≡ length held.old) }
    requires lent { EachIsLent K.rules B.base (IsDeviceOf D.gives B.devices) B.table lent.sets.items lent.passes.items }
    requires counted { EachIsCounted lent.sets.items lent.shares.items }
    ensures gave_up { IfOk result (λ given. IfSome given (λ _. HeldGaveUp K.rules B.base access.now.history moment put.number desk.old
        lent.sets.items (cell_view keeper.old) desk.new held.new (cell_view keeper.new))) }
    ensures receipt { IfOk result (λ given. IfSome given (λ receipt. receipt ≡ desk.new.seen)) }
    ensures table { keeper.new.table_id ≡ B.table }
    ensures ended { buffers.new.ended_everywhere.items ≡ [] }
    ensures missing { IfOk result (λ given. IfNone given (AreSameSets lent.sets.items held.new × (keeper.new ≡ keeper.old)
        × (desk.new ≡ desk.old) × (AreItsSets put.number put.holders lent.sets.items
        → ⊥))) }
    ensures refused { IfErr result IsNoPlace }
    ensures err { OnErr result (AreSameSets lent.sets.items held.new × (keeper.new ≡ keeper.old) × (desk.new ≡ desk.old)) }
{
    let LentSets {
        mut sets,
        mut passes,
        mut shares,
    } = lent;
    let sets = sets.as_mut_slice();
    let passes = passes.as_mut_slice();
    let given = give_up_all(access, desk, buffers, keeper, sets, passes, put, moment);
    buffers.ended_everywhere.clear();
    take_back_all(access.alloc, held, sets, passes, shares.as_mut_slice());
    given
}

// Cancels a put with notification on journaled sets, whose records are watched no more, as `cancel_on` does.
fn cancel_unwatched<K: RecordKind + Drop, B: SetsName<K, D>, D: Device, R: Wait>(
    access: &JournalAccess<'_, K, B, R>,
    desk: &mut DeskAccount<K, B>,
    buffers: &mut EventBuffers<K, D>,
    all: &mut SharedNotifications<K, B>,
    held: &mut [JournaledSet<K, B, D>],
    number: NotifyId,
    moment: u64,
) -> Result<Option<Receipt<K, B>>, IocError>
    ensures gave_up { IfOk result (λ given. IfSome given (λ _. GaveUpOn K.rules B.base access.now.history moment number desk.old held.old
        all.old desk.new held.new all.new)) }
    ensures receipt { IfOk result (λ given. IfSome given (λ receipt. receipt ≡ desk.new.seen)) }
    ensures ended { IfOk result (λ given. IfSome given (λ _. buffers.new.ended_everywhere.items ≡ [])) }
    ensures missing { IfOk result (λ given. IfNone given (AreSameSets (sets_of held.old) held.new × (all.new ≡ all.old)
        × (desk.new ≡ desk.old) × HaveNotAll number all.old.live (sets_of held.old))) }
    ensures refused { IfErr result IsNoPlace }
    ensures err { OnErr result (AreSameSets (sets_of held.old) held.new × (all.new ≡ all.old) × (desk.new ≡ desk.old)) }
{
    lines_tell_holders();
    all.table.is_table();
    let total = all.table.holders(number);
    if total == 0 {
        return Ok(None);
    }
    let lent = lend_all(access.alloc, access.journal.cell(), &mut all.pass, held)?;
    let put = Live {
        number,
        holders: total,
    };
    let given = give_up_lent(
        access,
        desk,
        buffers,
        &mut all.pass,
        held,
        lent,
        put,
        moment,
    );
    match given {
        Ok(Some(receipt)) => {
            all.table.take_off(&[Live {
                number,
                holders: total,
            }]);
            all.table.is_table();
            Ok(Some(receipt))
        }
        Ok(None) => Ok(None),
        Err(refused) => Err(refused),
    }
}

// Takes the lists of the watched records out of these sets, into reserved memory.
fn take_all_watched<K: RecordKind + Drop, B: SetsName<K, D>, D: Device>(
    held: &mut [JournaledSet<K, B, D>],
    lists: &mut Vec<Option<Box<WatchList>>>,
)
    requires room { length held.old ≤ vec_capacity lists.old }
    requires empty { lists.old.items ≡ [] }
    ensures sets { AreSame held.old held.new }
    ensures count { length lists.new.items ≡ length held.old }
{
    for i in 0..held.len() {
        lists.push_reserved(held[i].take_watched());
    }
}

// Gives these sets their lists back. Each watched record is marked.
fn keep_all_marked<K: RecordKind + Drop, B: SetsName<K, D>, D: Device, R: Wait>(
    access: &JournalAccess<'_, K, B, R>,
    held: &mut [JournaledSet<K, B, D>],
    lists: &mut [Option<Box<WatchList>>],
)
    requires count { length lists.old ≡ length held.old }
    ensures { AreSame held.old held.new }
{
    for i in 0..held.len() {
        held[i].keep_marked(access, lists[i].take());
    }
}

/// Cancels a put with notification on journaled sets, and adds the cancel to the journal as one
/// call. Returns `None` if not all its records are in these sets; nothing has changed then.
///
/// # Errors
///
/// [`IocError::JournalFull`] if the journal has no place left. [`IocError::NoMemory`] if allocation
/// fails. Nothing has changed then.
pub fn cancel_on<K: RecordKind + Drop, B: SetsName<K, D>, D: Device, R: Wait>(
    access: &JournalAccess<'_, K, B, R>,
    desk: &mut DeskAccount<K, B>,
    buffers: &mut EventBuffers<K, D>,
    all: &mut SharedNotifications<K, B>,
    held: &mut [JournaledSet<K, B, D>],
    number: NotifyId,
    moment: u64,
) -> Result<Option<Receipt<K, B>>, IocError>
    ensures gave_up { IfOk result (λ given. IfSome given (λ _. GaveUpOn K.rules B.base access.now.history moment number desk.old held.old
        all.old desk.new held.new all.new)) }
    ensures receipt { IfOk result (λ given. IfSome given (λ receipt. receipt ≡ desk.new.seen)) }
    ensures ended { IfOk result (λ given. IfSome given (λ _. buffers.new.ended_everywhere.items ≡ [])) }
    ensures missing { IfOk result (λ given. IfNone given (AreSameSets (sets_of held.old) held.new × (all.new ≡ all.old)
        × (desk.new ≡ desk.old) × HaveNotAll number all.old.live (sets_of held.old))) }
    ensures refused { IfErr result IsNoPlace }
    ensures err { OnErr result (AreSameSets (sets_of held.old) held.new × (all.new ≡ all.old) × (desk.new ≡ desk.old)) }
{
    let mut lists = Vec::with_capacity(access.alloc, held.len())?;
    take_all_watched(held, &mut lists);
    let given = cancel_unwatched(access, desk, buffers, all, held, number, moment);
    keep_all_marked(access, held, lists.as_mut_slice());
    given
}
