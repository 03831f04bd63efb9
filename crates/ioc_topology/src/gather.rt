//! Gathers all sets when the engine ends.
ghost use Rattle.std.specs.Prelude.{◌≡◌, ◌↔◌, ◌<◌, ◌≤◌, ℕ, [], false, length, IsTrue, slice_index_or};
ghost use Rattle.std.specs.Vec.{vec_capacity};
ghost use Rattle.ioc_topology.specs.Gathered.{HoldEach, IsMarked, IsClaimed};

use crate::cell_keys::Rooms;
use crate::directory::{Directory, SetCell, set_in};
use crate::locked::Locked;
use std::alloc::Global;
use std::mem;
use std::sync::Wait;

/// All sets of a directory.
#[derive(Drop)]
pub struct Gathered<S: Locked> {
    /// The sets.
    pub sets: Vec<S>,
    /// An empty list with room for what becomes of them.
    pub room: Vec<S::Ended>,
}

impl<S: Locked> Directory<S> {
    /// Takes all sets out of the directory, which is left for no record. Together they have each
    /// record that the directory was made for, and none twice. Waits forever if a record is
    /// missing. Takes time proportional to the number of records. Allocates nothing: what it needs
    /// has its room since the directory or the cells were made.
    pub fn gather<R: Wait>(&mut self, rt: &R, alloc: Global) -> Gathered<S>
        ensures all { HoldEach S.numbers result.sets.items self.old }
        ensures room { (result.room.items ≡ []) × (length result.sets.items ≤ vec_capacity result.room) }
        ensures left { self.new ≡ 0 }
    {
        let count = self.homes.len();
        let mut marks = self.marks.take(alloc);
        let Rooms {
            keys,
            mut sets,
            ended,
        } = self.keys.get_mut().take_room(alloc);
        self.homes.clear();
        for (key, ()) in keys {
            if let Some(set) = take_set(alloc, self.cells.as_mut_slice(), key) {
                sets.push_reserved(set);
            }
        }
        if hold_each(sets.as_slice(), marks.as_mut_slice(), count) {
            return Gathered { sets, room: ended };
        }
        for _ in rt.forever() {}
        unreachable!()
    }
}

// Takes the set out of a cell, if it has records, and leaves a set without records there.
fn take_set<S: Locked>(alloc: Global, cells: &mut [SetCell<S>], key: usize) -> Option<S> {
    let set = set_in(cells, key)?;
    if set.len() == 0 {
        return None;
    }
    Some(mem::replace(set, S::empty(alloc)))
}

/// Returns whether the sets have each of the first `count` records, and none twice. There is a mark
/// for each record, and none is set yet. Those of the records that were found are set afterwards.
pub fn hold_each<S: Locked>(sets: &[S], marks: &mut [bool], count: usize) -> bool
    requires { (q : ℕ) → slice_index_or marks.old q false ≡ false }
    ensures { IsTrue result → HoldEach S.numbers sets.now count }
{
    for set in sets {
        if !claim(set, marks) {
            return false;
        }
    }
    all_marked(marks, count)
}

// Returns whether the first `count` records are marked.
fn all_marked(marks: &[bool], count: usize) -> bool
    ensures { IsTrue result ↔ ((q : ℕ) → q < count → IsMarked marks.now q) }
{
    for number in 0..count {
        if number >= marks.len() || !marks[number] {
            return false;
        }
    }
    true
}

// Marks the records of a set. Returns `false` if one of them was marked before.
fn claim<S: Locked>(set: &S, marks: &mut [bool]) -> bool
    ensures { IsTrue result → IsClaimed marks.old marks.new (S.numbers set.now) }
{
    for place in 0..set.len() {
        let number = set.number_at(place).index();
        if number >= marks.len() || marks[number] {
            return false;
        }
        marks[number] = true;
    }
    true
}
