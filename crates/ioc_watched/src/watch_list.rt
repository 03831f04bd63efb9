//! The watched records of one set.
ghost use Rattle.std.specs.Prelude.{◌≡◌, ◌+◌, ◌++◌, ◌∷◌, [], length, map, All, Contains, IsTrue, true, ◌≤◌, ℕ, OnOk, OnErr};
ghost use Rattle.std.specs.FinMap.{contains_key};
ghost use Rattle.std.specs.Vec.{vec_capacity};
ghost use Rattle.std.specs.List.{list_any};
ghost use Rattle.crossbeam_utils.specs.Seq.{cell_view};
ghost use Rattle.ioc_record.specs.RecordRules.{RecordRules};
ghost use Rattle.ioc_store.specs.World.{World};
ghost use Rattle.ioc_watched.specs.Watched.{AreFresh, IsWatched, StayWatched, is_number, marked, told_now, unwatched, newly_watched};
ghost use Rattle.ioc_watched.specs.Marking.{IsMarkedOn, AreMarkedOn};

use crate::marked_records::MarkedRecords;
use crate::watched::Watched;
use ioc_journal::{Cell, KeyPass, pass};
use ioc_names::RecordNo;
use ioc_record::RecordKind;
use ioc_set::LockSet;
use std::alloc::{AllocError, Global};
use std::marker::Model;

/// The watched records of a set. Only [`WatchList::add`] allocates.
#[derive(Drop)]
pub struct WatchList {
    records: Vec<Watched>,
}

impl Model for WatchList {
    ghost use Rattle.std.specs.Prelude.{List};
    ghost use Rattle.std.specs.Coded.{coded_list};
    ghost use Rattle.ioc_watched.specs.Watched.{WatchedRecord};
    ghost use Rattle.ioc_watched.specs.WatchedCode.{watched_code};

    ghost Value = { List WatchedRecord };

    ghost coded = { coded_list watched_code };

    ghost view = { λ l. l.records.items };
}

// Takes the mark off a record, if it has this number.
fn tell_one(watched: &mut Watched, cell: &Cell, pass: &mut KeyPass, number: RecordNo)
    requires table { pass.old.table_id ≡ cell.now.table.shared.table_id }
    ensures told { watched.new ≡ told_now number (cell_view pass.old).seen watched.old }
    ensures pass { (pass.new.table_id ≡ pass.old.table_id) × (cell_view pass.new ≡ cell_view pass.old) }
{
    if watched.has_number(number) {
        watched.tell(cell, pass);
    }
}

// Takes the mark off those of these records that have this number.
fn tell_each(records: &mut Vec<Watched>, cell: &Cell, pass: &mut KeyPass, number: RecordNo)
    requires table { pass.old.table_id ≡ cell.now.table.shared.table_id }
    ensures told { records.new.items ≡ map (told_now number (cell_view pass.old).seen) records.old.items }
    ensures pass { (pass.new.table_id ≡ pass.old.table_id) × (cell_view pass.new ≡ cell_view pass.old) }
{
    for place in 0..records.len() {
        tell_one(&mut records[place], cell, pass, number);
    }
}

// Marks a watched record of a set if it may differ from its base, and lists it if it wasn't marked.
fn mark_one<K: RecordKind, D>(watched: &mut Watched, set: &LockSet<K, D>, marks: &mut MarkedRecords)
    requires here { IsTrue (contains_key set.now.records watched.old.number) }
    ensures { IsMarkedOn K.rules set.now.base.records set.now.records watched.old watched.new }
{
    let number = watched.number();
    if set.may_differ(number) && watched.mark() {
        marks.add(number);
    }
}

// Marks those of these records of a set that may differ from their bases, and lists those that weren't marked.
fn mark_each<K: RecordKind, D>(
    records: &mut Vec<Watched>,
    set: &LockSet<K, D>,
    marks: &mut MarkedRecords,
)
    requires here { All (λ w. IsTrue (contains_key set.now.records w.number)) records.old.items }
    ensures { AreMarkedOn K.rules set.now.base.records set.now.records records.old.items records.new.items }
{
    for place in 0..records.len() {
        mark_one(&mut records[place], set, marks);
    }
}

// Marks each of these records, and lists those that weren't marked.
fn mark_all(records: &mut Vec<Watched>, marks: &mut MarkedRecords)
    ensures { records.new.items ≡ map marked records.old.items }
{
    for place in 0..records.len() {
        mark_listed(&mut records[place], marks);
    }
}

// Marks a record, and lists it if it wasn't marked.
fn mark_listed(watched: &mut Watched, marks: &mut MarkedRecords)
    ensures { watched.new ≡ marked watched.old }
{
    if watched.mark() {
        marks.add(watched.number());
    }
}

// Adds those of these records that a set has to a list with room for all, each marked, and lists them.
fn add_each<K: RecordKind, D>(
    numbers: &[RecordNo],
    set: &LockSet<K, D>,
    cell: &Cell,
    pass: &mut KeyPass,
    records: &mut Vec<Watched>,
    marks: &mut MarkedRecords,
)
    requires table { pass.old.table_id ≡ cell.now.table.shared.table_id }
    requires room { length numbers.now ≤ vec_capacity records.old }
    requires none { records.old.items ≡ [] }
    ensures all { (n : ℕ) → Contains numbers.now n → IsTrue (contains_key set.now.records n) → IsWatched n records.new.items }
    ensures marked { All (λ w. IsTrue (contains_key set.now.records w.number) × (w.is_marked ≡ true)) records.new.items }
    ensures pass { (pass.new.table_id ≡ pass.old.table_id) × (cell_view pass.new ≡ cell_view pass.old) }
{
    for number in numbers {
        if set.has(*number) {
            records.push_reserved(Watched::new(*number, pass::copy(cell, pass)));
            marks.add(*number);
        }
    }
}

impl WatchList {
    /// Creates a list without records.
    pub fn new(alloc: Global) -> Self
        ensures { result ≡ [] }
    {
        WatchList {
            records: Vec::new(alloc),
        }
    }

    /// Watches those of these records that a set has, in a room for all of them, and no others. Each is marked and listed.
    pub fn fill<K: RecordKind, D>(
        &mut self,
        numbers: &[RecordNo],
        set: &LockSet<K, D>,
        cell: &Cell,
        pass: &mut KeyPass,
        room: Vec<Watched>,
        marks: &mut MarkedRecords,
    )
        requires table { pass.old.table_id ≡ cell.now.table.shared.table_id }
        requires room { length numbers.now ≤ vec_capacity room }
        requires none { room.items ≡ [] }
        ensures all { (n : ℕ) → Contains numbers.now n → IsTrue (contains_key set.now.records n) → IsWatched n self.new }
        ensures fresh { (k : RecordRules K) (base : World K) → AreFresh k base set.now.records self.new }
        ensures pass { (pass.new.table_id ≡ pass.old.table_id) × (cell_view pass.new ≡ cell_view pass.old) }
    {
        let mut records = room;
        add_each(numbers, set, cell, pass, &mut records, marks);
        self.records = records;
    }

    /// Marks each record, and lists those that weren't marked. Those that a set has are watched on, and no others.
    pub fn mark_in<K: RecordKind, D>(&mut self, set: &LockSet<K, D>, marks: &mut MarkedRecords)
        ensures all { (n : ℕ) → IsWatched n self.old → IsTrue (contains_key set.now.records n) → IsWatched n self.new }
        ensures fresh { (k : RecordRules K) (base : World K) → AreFresh k base set.now.records self.new }
    {
        mark_all(&mut self.records, marks);
        self.records.retain(|watched| set.has(watched.number()));
    }

    /// Adds the numbers of the records to a list with room for them.
    pub fn copy_numbers(&self, numbers: &mut Vec<RecordNo>)
        requires room { length numbers.old.items + length self.now ≤ vec_capacity numbers.old }
        ensures numbers { numbers.new.items ≡ numbers.old.items ++ map (λ w. w.number) self.now }
        ensures room { vec_capacity numbers.new ≡ vec_capacity numbers.old }
    {
        for watched in self.records.iter() {
            numbers.push_reserved(watched.number());
        }
    }

    /// Returns the number of records.
    pub fn len(&self) -> usize
        ensures { result ≡ length self.now }
    {
        self.records.len()
    }

    /// Returns whether no record is watched.
    pub fn is_empty(&self) -> bool
        ensures { IsTrue result → self.now ≡ [] }
    {
        self.records.is_empty()
    }

    /// Returns whether the record is watched.
    pub fn is_watched(&self, number: RecordNo) -> bool
        ensures { result ≡ list_any (is_number number) self.now }
    {
        self.records
            .iter()
            .any(|watched| watched.has_number(number))
    }

    /// Watches a record from now on. It is marked.
    ///
    /// # Errors
    ///
    /// [`AllocError`] if allocation fails; nothing has changed then.
    pub fn add(&mut self, number: RecordNo, told: KeyPass) -> Result<(), AllocError>
        ensures ok { OnOk result (self.new ≡ self.old ++ newly_watched number (cell_view told).seen ∷ []) }
        ensures err { OnErr result (self.new ≡ self.old) }
    {
        self.records.push(Watched::new(number, told))?;
        Ok(())
    }

    /// Watches a record no more.
    pub fn remove(&mut self, number: RecordNo)
        ensures { self.new ≡ unwatched number self.old }
    {
        self.records.retain(|watched| !watched.has_number(number));
    }

    /// Takes the mark off a record, if it is watched: it is told now, after the calls that a pass has seen.
    pub fn tell(&mut self, cell: &Cell, pass: &mut KeyPass, number: RecordNo)
        requires table { pass.old.table_id ≡ cell.now.table.shared.table_id }
        ensures told { self.new ≡ map (told_now number (cell_view pass.old).seen) self.old }
        ensures pass { (pass.new.table_id ≡ pass.old.table_id) × (cell_view pass.new ≡ cell_view pass.old) }
    {
        tell_each(&mut self.records, cell, pass, number);
    }

    /// Marks each watched record of a set that may differ from what it was before the first event of the set's history, and lists
    /// those that weren't marked. What was fresh before that event is fresh then.
    pub fn mark_changed<K: RecordKind, D>(&mut self, set: &LockSet<K, D>, marks: &mut MarkedRecords)
        requires here { All (λ w. IsTrue (contains_key set.now.records w.number)) self.old }
        ensures stay { StayWatched self.old self.new }
        ensures fresh { (base : World K) → AreFresh K.rules base set.now.base.records self.old
            → AreFresh K.rules base set.now.records self.new }
    {
        mark_each(&mut self.records, set, marks);
    }
}
