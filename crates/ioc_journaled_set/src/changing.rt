//! A link change of a record of one of three sets, passed by reference.
ghost use Rattle.std.specs.Prelude.{◌≡◌, ◌⊎◌, ◌<◌, ◌≤◌, ◌-◌, ◌^◌, ◌∷◌, ◌++◌, ℕ, false, [], length, IsSome, IfOk, IfErr, OnOk};
ghost use Rattle.std.specs.Prelude.{OnErr, Contains};
ghost use Rattle.std.specs.FinMap.{get};
ghost use Rattle.ioc_values.specs.declared.error.IocError.TheVariants.{NoField};
ghost use Rattle.ioc_dbcommon.specs.Links.{use_of, named_by, record_named};
ghost use Rattle.ioc_record.specs.Values.{stops_put};
ghost use Rattle.ioc_set_records.specs.Joined.{HasLink};
ghost use Rattle.ioc_store.specs.World.{common_at};
ghost use Rattle.ioc_topology.specs.Change.{AreLent};
ghost use Rattle.ioc_journal.specs.Places.{IsNoPlace};
ghost use Rattle.ioc_set.specs.SetState.{now_of, folded};
ghost use Rattle.ioc_set.specs.SetStore.{world_of};
ghost use Rattle.ioc_journaled_set.specs.Holding.{HeldView, numbers_of};
ghost use Rattle.std.specs.Vec.{vec_capacity};
ghost use Rattle.ioc_journaled_set.specs.Watching.{watched_numbers, WatchesThose};
ghost use Rattle.ioc_journaled_set.specs.Changing.{size_of, KeepsLarger, KeepsLargest, FellApart, WasLed, Relinks};

use crate::JournaledSet;
use crate::journal_access::JournalAccess;
use crate::sets_name::SetsName;
use crate::watching::WatchRoom;
use ioc_device::Device;
use ioc_journal::{DeskAccount, JournalName, Receipt};
use ioc_names::RecordNo;
use ioc_record::RecordKind;
use ioc_set::{EventBuffers, LinkChange};
use ioc_topology::Locked;
use ioc_values::IocError;
use std::alloc::{AllocError, Global};
use std::mem;
use std::sync::Wait;

/// The result of a link change.
#[derive(Drop)]
pub struct Changed<K: RecordKind, B: JournalName<K>> {
    /// The reply, as in the journal: [`IocError::PutDisabled`] if DISP forbids the change.
    pub reply: Result<(), IocError>,
    /// The receipt of the call.
    pub receipt: Receipt<K, B>,
    /// The number of records that were moved: if a set was parted, those of the smaller part, and
    /// if two sets were joined, those of the smaller set.
    pub moved: usize,
}

// Returns the number of records of a set.
fn size<K: RecordKind + Drop, B: SetsName<K, D>, D: Device>(held: &JournaledSet<K, B, D>) -> usize
    ensures size { result ≡ size_of held.now }
    ensures few { result < 2 ^ 63 }
{
    held.set.are_few();
    held.set.len()
}

// Leaves the larger of two parts of a set in the first place, and returns the number of records of
// the smaller one.
fn keep_larger<K: RecordKind + Drop, B: SetsName<K, D>, D: Device>(
    first: &mut JournaledSet<K, B, D>,
    spare: &mut JournaledSet<K, B, D>,
) -> usize
    ensures { KeepsLarger first.old spare.old first.new spare.new result }
{
    let stay = size(first);
    let rest = size(spare);
    if stay < rest {
        mem::swap(first, spare);
    }
    stay.min(rest)
}

// Arranges the sets after a link change that joined a part of one set with another set. `first` is
// the joined set, `spare` is the rest of the first set, `before` and `other` are the sizes of the
// two sets before the change. Unless the part is the largest of the three, the joined set goes to
// the second place, where the other set was, and the rest to the first. Returns the number of
// records that were moved.
fn keep_largest<K: RecordKind + Drop, B: SetsName<K, D>, D: Device>(
    first: &mut JournaledSet<K, B, D>,
    second: &mut JournaledSet<K, B, D>,
    spare: &mut JournaledSet<K, B, D>,
    before: usize,
    other: usize,
) -> usize
    requires few { other < 2 ^ 63 }
    ensures { KeepsLargest (before - size_of spare.old) other first.old second.old spare.old first.new second.new spare.new result }
{
    let rest = size(spare);
    let part = before.saturating_sub(rest);
    if part < other || part < rest {
        mem::swap(first, second);
        mem::swap(first, spare);
    }
    part.min(other) + part.min(rest)
}

// Changes a link of a record of the first set to a record of that set, or to none.
fn part_first<K: RecordKind + Drop, B: SetsName<K, D>, D: Device, R: Wait>(
    access: &JournalAccess<'_, K, B, R>,
    desk: &mut DeskAccount<K, B>,
    buffers: &mut EventBuffers<K, D>,
    first: &mut JournaledSet<K, B, D>,
    spare: &mut JournaledSet<K, B, D>,
    change: LinkChange,
) -> Result<Changed<K, B>, IocError>
    requires unwatched { first.old.watched ≡ [] }
    requires base_link { change.base_link ≡ change.link }
    requires field { HasLink K.rules first.old.set.records change.number change.field }
    requires allowed { stops_put (common_at K.rules (now_of first.old.set) change.number) change.field ≡ false }
    requires within { (t : ℕ) → Contains (named_by (use_of change.link)) t → IsSome (get first.old.set.records t) }
    ensures parts { (second : HeldView K D)
        → IfOk result (λ c. FellApart K.rules B.base first.old second spare.old desk.old change.moment change.number change.field
        change.link
        c.reply c.moved first.new second spare.new desk.new (world_of buffers.new.store)) }
    ensures receipt { IfOk result (λ c. c.receipt ≡ desk.new.seen) }
    ensures ended { OnOk result (buffers.new.ended_everywhere.items ≡ []) }
    ensures refused { IfErr result IsNoPlace }
    ensures kept { OnErr result ((folded first.new.set ≡ folded first.old.set) × (spare.new ≡ spare.old)) }
    ensures desk { OnErr result (desk.new ≡ desk.old) }
{
    let (rest, receipt) = first.part(access, desk, buffers, change)?;
    *spare = rest;
    buffers.ended_everywhere.clear();
    let moved = keep_larger(first, spare);
    Ok(Changed {
        reply: Ok(()),
        receipt,
        moved,
    })
}

// Changes a link of a record of the first set to a record of the second.
fn lead_first<K: RecordKind + Drop, B: SetsName<K, D>, D: Device, R: Wait>(
    access: &JournalAccess<'_, K, B, R>,
    desk: &mut DeskAccount<K, B>,
    buffers: &mut EventBuffers<K, D>,
    first: &mut JournaledSet<K, B, D>,
    second: &mut JournaledSet<K, B, D>,
    spare: &mut JournaledSet<K, B, D>,
    change: LinkChange,
) -> Result<Changed<K, B>, IocError>
    requires unwatched { (first.old.watched ≡ []) × (second.old.watched ≡ []) }
    requires base_link { change.base_link ≡ change.link }
    requires field { HasLink K.rules first.old.set.records change.number change.field }
    requires allowed { stops_put (common_at K.rules (now_of first.old.set) change.number) change.field ≡ false }
    requires to { (t : ℕ) × (named_by (use_of change.link) ≡ t ∷ []) × IsSome (get second.old.set.records t) }
    ensures leads { IfOk result (λ c. WasLed K.rules B.base first.old second.old spare.old desk.old change.moment change.number
        change.field change.link
        c.reply c.moved first.new second.new spare.new desk.new (world_of buffers.new.store)) }
    ensures receipt { IfOk result (λ c. c.receipt ≡ desk.new.seen) }
    ensures ended { OnOk result (buffers.new.ended_everywhere.items ≡ []) }
    ensures refused { IfErr result IsNoPlace }
    ensures kept { OnErr result ((folded first.new.set ≡ folded first.old.set) × (second.new.set ≡ second.old.set)
        × (spare.new ≡ spare.old)) }
    ensures desk { OnErr result (desk.new ≡ desk.old) }
{
    let before = size(first);
    let other = size(second);
    let (rest, receipt) = first.lead_into(access, desk, buffers, second, change)?;
    *spare = rest;
    buffers.ended_everywhere.clear();
    let moved = keep_largest(first, second, spare, before, other);
    Ok(Changed {
        reply: Ok(()),
        receipt,
        moved,
    })
}

// Changes a link of sets of which no record is watched, as `change_link` does.
fn change_unwatched<K: RecordKind + Drop, B: SetsName<K, D>, D: Device, R: Wait>(
    access: &JournalAccess<'_, K, B, R>,
    desk: &mut DeskAccount<K, B>,
    buffers: &mut EventBuffers<K, D>,
    first: &mut JournaledSet<K, B, D>,
    second: &mut JournaledSet<K, B, D>,
    spare: &mut JournaledSet<K, B, D>,
    change: LinkChange,
) -> Result<Changed<K, B>, IocError>
    requires base_link { change.base_link ≡ change.link }
    requires unwatched { (first.old.watched ≡ []) × (second.old.watched ≡ []) }
    requires lent { AreLent numbers_of change.number (record_named (use_of change.link)) first.old second.old spare.old }
    ensures relinks { IfOk result (λ c. Relinks K.rules B.base first.old second.old spare.old desk.old change.moment change.number
        change.field change.link
        c.reply c.moved first.new second.new spare.new desk.new (world_of buffers.new.store)) }
    ensures receipt { IfOk result (λ c. c.receipt ≡ desk.new.seen) }
    ensures ended { OnOk result (buffers.new.ended_everywhere.items ≡ []) }
    ensures refused { IfErr result (λ error. IsNoPlace error
        ⊎ ((error ≡ NoField) × (HasLink K.rules first.old.set.records change.number change.field
        → ⊥))) }
    ensures kept { OnErr result ((folded first.new.set ≡ folded first.old.set) × (second.new.set ≡ second.old.set)
        × (spare.new ≡ spare.old)) }
    ensures desk { OnErr result (desk.new ≡ desk.old) }
{
    if !first.set.has_link(change.number, change.field) {
        return Err(IocError::NoField);
    }
    if first.set.forbids(change.number, change.field) {
        first.is_sound();
        second.is_sound();
        buffers.ended_everywhere.clear();
        let receipt = first.refuse_link(access, desk, &change)?;
        return Ok(Changed {
            reply: Err(IocError::PutDisabled),
            receipt,
            moved: 0,
        });
    }
    if first.set.leads_within(&change.link) {
        let changed = part_first(access, desk, buffers, first, spare, change)?;
        return Ok(changed);
    }
    let changed = lead_first(access, desk, buffers, first, second, spare, change)?;
    Ok(changed)
}

// The watched records of two sets, and room for them in three.
#[derive(Drop)]
struct MovedWatches {
    numbers: Vec<RecordNo>,
    first: WatchRoom,
    second: WatchRoom,
    spare: WatchRoom,
}

// Returns the numbers of the watched records of two sets.
fn watched_of<K: RecordKind + Drop, B: SetsName<K, D>, D: Device>(
    alloc: Global,
    first: &JournaledSet<K, B, D>,
    second: &JournaledSet<K, B, D>,
) -> Result<Vec<RecordNo>, AllocError>
    ensures { IfOk result (λ v. v.items ≡ watched_numbers first.now.watched ++ watched_numbers second.now.watched) }
{
    let mut numbers = Vec::new(alloc);
    numbers.reserve(first.watched_count())?;
    first.copy_watched(&mut numbers);
    numbers.reserve(second.watched_count())?;
    second.copy_watched(&mut numbers);
    Ok(numbers)
}

// Takes room for the watched records of two sets in three.
fn room_for_watches<K: RecordKind + Drop, B: SetsName<K, D>, D: Device>(
    alloc: Global,
    first: &JournaledSet<K, B, D>,
    second: &JournaledSet<K, B, D>,
) -> Result<MovedWatches, AllocError>
    ensures numbers { IfOk result (λ m. m.numbers.items ≡ watched_numbers first.now.watched ++ watched_numbers second.now.watched) }
    ensures none { IfOk result (λ m. (m.first.records.items ≡ []) × (m.second.records.items ≡ []) × (m.spare.records.items ≡ [])) }
    ensures room { IfOk result (λ m. (length m.numbers.items ≤ vec_capacity m.first.records)
        × (length m.numbers.items ≤ vec_capacity m.second.records) × (length m.numbers.items ≤ vec_capacity m.spare.records)) }
{
    let numbers = watched_of(alloc, first, second)?;
    let count = numbers.len();
    Ok(MovedWatches {
        first: WatchRoom::new(alloc, count)?,
        second: WatchRoom::new(alloc, count)?,
        spare: WatchRoom::new(alloc, count)?,
        numbers,
    })
}

/// Changes a link of a record of the first set, and adds the change to the journal. If the link
/// leads to a record of the first set then, or to none, this set may part in two; otherwise the
/// record's part joins the second set, and the rest is a set of its own. The larger part of a set
/// keeps its place. A watched record is watched on in the set in which it is then, and is marked.
///
/// # Errors
///
/// [`IocError::NoField`] if the field is no link of the record; nothing has changed then.
/// [`IocError::JournalFull`] if the journal has no place left, and [`IocError::NoMemory`] if
/// allocation fails; nothing has changed then, except that the history may be forgotten. If DISP
/// forbids the change, the refusal is a reply, which is added to the journal.
pub fn change_link<K: RecordKind + Drop, B: SetsName<K, D>, D: Device, R: Wait>(
    access: &JournalAccess<'_, K, B, R>,
    desk: &mut DeskAccount<K, B>,
    buffers: &mut EventBuffers<K, D>,
    first: &mut JournaledSet<K, B, D>,
    second: &mut JournaledSet<K, B, D>,
    spare: &mut JournaledSet<K, B, D>,
    change: LinkChange,
) -> Result<Changed<K, B>, IocError>
    requires base_link { change.base_link ≡ change.link }
    requires lent { AreLent numbers_of change.number (record_named (use_of change.link)) first.old second.old spare.old }
    ensures relinks { IfOk result (λ c. Relinks K.rules B.base first.old second.old spare.old desk.old change.moment change.number
        change.field change.link
        c.reply c.moved first.new second.new spare.new desk.new (world_of buffers.new.store)) }
    ensures watched { OnOk result (WatchesThose (watched_numbers first.old.watched ++ watched_numbers second.old.watched) first.new
        × WatchesThose (watched_numbers first.old.watched ++ watched_numbers second.old.watched) second.new
        × WatchesThose (watched_numbers first.old.watched ++ watched_numbers second.old.watched) spare.new) }
    ensures receipt { IfOk result (λ c. c.receipt ≡ desk.new.seen) }
    ensures ended { OnOk result (buffers.new.ended_everywhere.items ≡ []) }
    ensures refused { IfErr result (λ error. IsNoPlace error
        ⊎ ((error ≡ NoField) × (HasLink K.rules first.old.set.records change.number change.field
        → ⊥))) }
    ensures kept { OnErr result ((folded first.new.set ≡ folded first.old.set) × (second.new.set ≡ second.old.set)
        × (spare.new ≡ spare.old)) }
    ensures desk { OnErr result (desk.new ≡ desk.old) }
{
    let moved = room_for_watches(access.alloc, first, second)?;
    let one = first.take_watched();
    let two = second.take_watched();
    let MovedWatches {
        numbers,
        first: first_room,
        second: second_room,
        spare: spare_room,
    } = moved;
    match change_unwatched(access, desk, buffers, first, second, spare, change) {
        Ok(changed) => {
            first.watch_those(access, numbers.as_slice(), first_room);
            second.watch_those(access, numbers.as_slice(), second_room);
            spare.watch_those(access, numbers.as_slice(), spare_room);
            Ok(changed)
        }
        Err(refused) => {
            first.keep_watched(one);
            second.keep_watched(two);
            Err(refused)
        }
    }
}
