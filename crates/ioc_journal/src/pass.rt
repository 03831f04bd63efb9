//! Operations on passes.
ghost use Rattle.std.specs.Prelude.{◌≡◌, ℕ, List, [], ◌∷◌, ◌++◌, true, false, map};
ghost use Rattle.crossbeam_utils.specs.Register.{Forks, Turns};
ghost use Rattle.crossbeam_utils.specs.Seq.{cell_view};
ghost use Rattle.ioc_journal.specs.Key.{Key, Has};
ghost use Rattle.ioc_journal.specs.Line.{keeper, holder, nobody, copied, claiming, claimed, owning, shown, took, longer, learnt};
ghost use Rattle.ioc_journal.specs.Line.{added, given, noted, Continues, Begins, IsOneList};

use crate::cell::{
    Again, Appends, Cell, Claims, KeyPass, Keys, Learns, NoteName, Parts, Rest, Shows, TakesIn,
    View, Whole,
};
use crate::entry::JournalEntry;
use atomic_table::Split;
use crossbeam_utils::rule::Outcome;
use std::marker::Brand;
use std::sync::Wait;

// Splits the view of a pass in two and returns a new pass with the second half.
#[inline(always)]
fn cut<M: Split<View>>(cell: &Cell, pass: &mut KeyPass) -> KeyPass
    requires table { pass.old.table_id ≡ cell.now.table.shared.table_id }
    requires rule { Forks IsOneList pass.old.id (cell_view pass.old) (M.left (cell_view pass.old)) (M.right (cell_view pass.old)) }
    ensures kept { (pass.new.table_id ≡ pass.old.table_id) × (cell_view pass.new ≡ M.left (cell_view pass.old)) }
    ensures given { (result.table_id ≡ pass.old.table_id) × (result.me.1 ≡ []) × (cell_view result ≡ M.right (cell_view pass.old)) }
{
    cell.split_pass::<M>(pass)
}

/// Returns a new pass that has seen the same list and owns no key.
pub fn copy(cell: &Cell, pass: &mut KeyPass) -> KeyPass
    requires { pass.old.table_id ≡ cell.now.table.shared.table_id }
    ensures kept { (pass.new.table_id ≡ pass.old.table_id) × (cell_view pass.new ≡ cell_view pass.old) }
    ensures given { (result.table_id ≡ pass.old.table_id) × (result.me.1 ≡ []) × (cell_view result ≡ copied (cell_view pass.old)) }
{
    cut::<Again>(cell, pass)
}

/// Moves all that a pass knows and owns into a new pass.
pub fn whole(cell: &Cell, pass: &mut KeyPass) -> KeyPass
    requires table { pass.old.table_id ≡ cell.now.table.shared.table_id }
    requires keeps { (cell_view pass.old).keeps ≡ false }
    ensures kept { (pass.new.table_id ≡ pass.old.table_id) × (cell_view pass.new ≡ nobody) }
    ensures given { (result.table_id ≡ pass.old.table_id) × (result.me.1 ≡ []) × (cell_view result ≡ cell_view pass.old) }
{
    cut::<Whole>(cell, pass)
}

/// Creates new keys: the keeper's pass records them, and the returned pass owns them.
pub fn claim<K: Keys>(cell: &Cell, master: &mut KeyPass) -> KeyPass
    requires table { master.old.table_id ≡ cell.now.table.shared.table_id }
    requires keeps { (cell_view master.old).keeps ≡ true }
    requires fresh { (k : Key) → Has k K.keys → Has k (cell_view master.old).born → ⊥ }
    ensures kept { (master.new.table_id ≡ master.old.table_id) × (cell_view master.new ≡ claiming K.keys (cell_view master.old)) }
    ensures given { (result.table_id ≡ master.old.table_id) × (result.me.1 ≡ [])
        × (cell_view result ≡ claimed K.keys (cell_view master.old)) }
{
    cut::<Claims<K>>(cell, master)
}

/// Moves some of the keys to a new pass, which has seen the same list.
pub fn part<K: Keys>(cell: &Cell, pass: &mut KeyPass) -> KeyPass
    requires table { pass.old.table_id ≡ cell.now.table.shared.table_id }
    requires asks { (cell_view pass.old).asks ≡ [] }
    requires within { (k : Key) → Has k (K.keys ++ K.rest) → Has k (cell_view pass.old).owns }
    requires apart { (k : Key) → Has k K.keys → Has k K.rest → ⊥ }
    ensures kept { (pass.new.table_id ≡ pass.old.table_id) × (cell_view pass.new ≡ owning K.rest (cell_view pass.old)) }
    ensures given { (result.table_id ≡ pass.old.table_id) × (result.me.1 ≡ []) × (cell_view result ≡ claimed K.keys (cell_view pass.old)) }
{
    cut::<Parts<K>>(cell, pass)
}

// Makes a step of one pass that the rule allows. The word of the cell stays as it is.
#[inline(always)]
fn step<O: Outcome<[u64; 1], View>, R: Wait>(rt: &R, cell: &Cell, pass: &mut KeyPass)
    requires table { pass.old.table_id ≡ cell.now.table.shared.table_id }
    requires rule { Turns IsOneList pass.old.id (cell_view pass.old) (λ x. x) O.then }
    ensures table { pass.new.table_id ≡ pass.old.table_id }
    ensures rule { (word : List ℕ) × O.then (cell_view pass.old) word word (cell_view pass.new) }
{
    cell.load_as::<O, R>(rt, pass);
}

// Joins another pass to a pass, and makes a step that the rule allows the two together.
#[inline(always)]
fn step_with<O: Outcome<[u64; 1], View>, R: Wait>(
    rt: &R,
    cell: &Cell,
    pass: &mut KeyPass,
    other: KeyPass,
)
    requires table { (pass.old.table_id ≡ cell.now.table.shared.table_id) × (other.table_id ≡ pass.old.table_id) × (other.me.1 ≡ []) }
    requires asks { ((cell_view pass.old).asks ≡ []) × ((cell_view other).asks ≡ []) }
    requires rule { (by : ℕ) → Turns IsOneList by (shown (cell_view pass.old) (cell_view other)) (λ x. x) O.then }
    ensures table { pass.new.table_id ≡ pass.old.table_id }
    ensures rule { (word : List ℕ) × O.then (shown (cell_view pass.old) (cell_view other)) word word (cell_view pass.new) }
{
    cell.join_pass::<Shows>(pass, other);
    step::<O, R>(rt, cell, pass);
}

/// Moves the keys of a pass into the keeper's. No note since what that pass had seen has any of its
/// keys.
#[inline(always)]
pub fn take_in<R: Wait>(rt: &R, cell: &Cell, master: &mut KeyPass, other: KeyPass)
    requires table { (master.old.table_id ≡ cell.now.table.shared.table_id) × (other.table_id ≡ master.old.table_id) × (other.me.1 ≡ []) }
    requires keeps { ((cell_view master.old).keeps ≡ true) × ((cell_view master.old).mark ≡ []) × ((cell_view master.old).asks ≡ []) }
    requires other { ((cell_view other).keeps ≡ false) × ((cell_view other).asks ≡ []) }
    ensures kept { (master.new.table_id ≡ master.old.table_id)
        × (cell_view master.new ≡ took (shown (cell_view master.old) (cell_view other))) }
    ensures goes_on { Continues (cell_view other).seen (cell_view other).owns (cell_view master.old).seen }
    ensures born { (k : Key) → Has k (cell_view other).owns → Has k (cell_view master.old).born }
    ensures apart { (k : Key) → Has k (cell_view master.old).owns → Has k (cell_view other).owns → ⊥ }
{
    step_with::<TakesIn, R>(rt, cell, master, other);
}

/// Moves a pass on to the longer of the lists that it and another pass have seen.
pub fn learn<R: Wait>(rt: &R, cell: &Cell, pass: &mut KeyPass, other: KeyPass)
    requires table { (pass.old.table_id ≡ cell.now.table.shared.table_id) × (other.table_id ≡ pass.old.table_id) × (other.me.1 ≡ []) }
    requires pass { ((cell_view pass.old).keeps ≡ false) × ((cell_view pass.old).asks ≡ []) }
    requires other { ((cell_view other).keeps ≡ false) × ((cell_view other).owns ≡ []) × ((cell_view other).asks ≡ []) }
    ensures kept { (pass.new.table_id ≡ pass.old.table_id) × (cell_view pass.new ≡ learnt (shown (cell_view pass.old) (cell_view other))) }
    ensures goes_on { Continues (cell_view pass.old).seen (cell_view pass.old).owns
        (longer (cell_view pass.old).seen (cell_view other).seen) }
    ensures begins { Begins (cell_view other).seen (longer (cell_view pass.old).seen (cell_view other).seen) }
{
    step_with::<Learns, R>(rt, cell, pass, other);
}

/// Moves all keys to a new pass, which has seen the same list.
pub fn give_all(cell: &Cell, pass: &mut KeyPass) -> KeyPass
    requires table { pass.old.table_id ≡ cell.now.table.shared.table_id }
    requires asks { (cell_view pass.old).asks ≡ [] }
    ensures kept { (pass.new.table_id ≡ pass.old.table_id) × (cell_view pass.new ≡ owning [] (cell_view pass.old)) }
    ensures given { (result.table_id ≡ pass.old.table_id) × (result.me.1 ≡ []) × (cell_view result ≡ given (cell_view pass.old)) }
{
    cut::<Rest>(cell, pass)
}

/// Adds a note to the list. The keeper's pass has to own all keys of the note.
pub fn note_down<S: NoteName, R: Wait>(rt: &R, cell: &Cell, master: &mut KeyPass)
    requires table { master.old.table_id ≡ cell.now.table.shared.table_id }
    requires keeps { ((cell_view master.old).keeps ≡ true) × ((cell_view master.old).asks ≡ []) }
    requires owns { (k : Key) → Has k S.note.keys → Has k (cell_view master.old).owns }
    ensures { (master.new.table_id ≡ master.old.table_id) × (cell_view master.new ≡ added S.note (cell_view master.old)) }
{
    step::<Appends<S>, R>(rt, cell, master);
}

/// Adds the note of an entry, which has the keys of both passes, to the list, and returns the pass
/// of its receipt. The caller holds the journal's lock, the pass of a set, which owns the keys of
/// `K`, and that of a desk, which owns the rest. Afterwards all passes know the whole list.
pub fn append<K: Keys, S: NoteName, R: Wait>(
    rt: &R,
    cell: &Cell,
    master: &mut KeyPass,
    set: &mut KeyPass,
    desk: &mut KeyPass,
    entry: &JournalEntry,
) -> KeyPass
    requires table { (master.old.table_id ≡ cell.now.table.shared.table_id) × (set.old.table_id ≡ master.old.table_id)
        × (desk.old.table_id ≡ master.old.table_id) }
    requires keeper { cell_view master.old ≡ keeper (cell_view master.old).seen (cell_view master.old).born }
    requires set { cell_view set.old ≡ holder (cell_view set.old).seen K.keys }
    requires desk { cell_view desk.old ≡ holder (cell_view desk.old).seen K.rest }
    requires apart { (k : Key) → Has k K.keys → Has k K.rest → ⊥ }
    requires said { S.note ≡ noted entry.now (K.keys ++ K.rest) }
    ensures keeper { (master.new.table_id ≡ master.old.table_id)
        × (cell_view master.new ≡ keeper ((cell_view master.old).seen ++ S.note ∷ []) (cell_view master.old).born) }
    ensures set { (set.new.table_id ≡ set.old.table_id)
        × (cell_view set.new ≡ holder ((cell_view master.old).seen ++ S.note ∷ []) K.keys) }
    ensures desk { (desk.new.table_id ≡ desk.old.table_id)
        × (cell_view desk.new ≡ holder ((cell_view master.old).seen ++ S.note ∷ []) K.rest) }
    ensures receipt { (result.table_id ≡ master.old.table_id) × (result.me.1 ≡ [])
        × (cell_view result ≡ holder ((cell_view master.old).seen ++ S.note ∷ []) []) }
    ensures goes_on { Continues (cell_view set.old).seen K.keys (cell_view master.old).seen
        × Continues (cell_view desk.old).seen K.rest (cell_view master.old).seen }
    ensures born { (k : Key) → Has k (K.keys ++ K.rest) → Has k (cell_view master.old).born }
{
    let theirs = whole(cell, set);
    take_in(rt, cell, master, theirs);
    let own = whole(cell, desk);
    take_in(rt, cell, master, own);
    note_down::<S, R>(rt, cell, master);
    *set = part::<K>(cell, master);
    *desk = give_all(cell, master);
    copy(cell, master)
}

fn claim_as<K: Keys>(cell: &Cell, master: &mut KeyPass, kind: u64, number: u64) -> KeyPass
    requires table { master.old.table_id ≡ cell.now.table.shared.table_id }
    requires keeps { (cell_view master.old).keeps ≡ true }
    requires keys { K.keys ≡ (kind, number) ∷ [] }
    requires fresh { Has (kind, number) (cell_view master.old).born → ⊥ }
    ensures kept { (master.new.table_id ≡ master.old.table_id)
        × (cell_view master.new ≡ claiming ((kind, number) ∷ []) (cell_view master.old)) }
    ensures given { (result.table_id ≡ master.old.table_id) × (result.me.1 ≡ [])
        × (cell_view result ≡ claimed ((kind, number) ∷ []) (cell_view master.old)) }
{
    let _ = (kind, number);
    claim::<K>(cell, master)
}

/// Creates a new key and returns the pass that owns it, which knows the whole list.
pub fn claim_key(cell: &Cell, master: &mut KeyPass, kind: u64, number: u64) -> KeyPass
    requires table { master.old.table_id ≡ cell.now.table.shared.table_id }
    requires keeps { (cell_view master.old).keeps ≡ true }
    requires fresh { Has (kind, number) (cell_view master.old).born → ⊥ }
    ensures kept { (master.new.table_id ≡ master.old.table_id)
        × (cell_view master.new ≡ claiming ((kind, number) ∷ []) (cell_view master.old)) }
    ensures given { (result.table_id ≡ master.old.table_id) × (result.me.1 ≡ [])
        × (cell_view result ≡ claimed ((kind, number) ∷ []) (cell_view master.old)) }
{
    claim_as::<Brand>(cell, master, kind, number)
}

/// Compares two passes, which own the keys of `K` and the rest: they have no key in common.
/// Afterwards both know the whole list.
pub fn compare<K: Keys, R: Wait>(
    rt: &R,
    cell: &Cell,
    master: &mut KeyPass,
    a: &mut KeyPass,
    b: &mut KeyPass,
)
    requires table { (master.old.table_id ≡ cell.now.table.shared.table_id) × (a.old.table_id ≡ master.old.table_id)
        × (b.old.table_id ≡ master.old.table_id) }
    requires keeper { cell_view master.old ≡ keeper (cell_view master.old).seen (cell_view master.old).born }
    requires a { cell_view a.old ≡ holder (cell_view a.old).seen K.keys }
    requires b { cell_view b.old ≡ holder (cell_view b.old).seen K.rest }
    ensures keeper { (master.new.table_id ≡ master.old.table_id)
        × (cell_view master.new ≡ keeper (cell_view master.old).seen (cell_view master.old).born) }
    ensures a { (a.new.table_id ≡ a.old.table_id) × (cell_view a.new ≡ holder (cell_view master.old).seen K.keys) }
    ensures b { (b.new.table_id ≡ b.old.table_id) × (cell_view b.new ≡ holder (cell_view master.old).seen K.rest) }
    ensures goes_on { Continues (cell_view a.old).seen K.keys (cell_view master.old).seen
        × Continues (cell_view b.old).seen K.rest (cell_view master.old).seen }
    ensures apart { (k : Key) → Has k K.keys → Has k K.rest → ⊥ }
{
    let theirs = whole(cell, a);
    take_in(rt, cell, master, theirs);
    let own = whole(cell, b);
    take_in(rt, cell, master, own);
    *a = part::<K>(cell, master);
    *b = give_all(cell, master);
}
