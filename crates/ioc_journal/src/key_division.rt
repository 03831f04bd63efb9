//! Divides the keys of passes again, by a call that concerns two of them, or without one.
ghost use Rattle.std.specs.Prelude.{◌≡◌, [], ◌∷◌, ◌++◌};
ghost use Rattle.crossbeam_utils.specs.Seq.{cell_view};
ghost use Rattle.ioc_journal.specs.Key.{Key, Has};
ghost use Rattle.ioc_journal.specs.Line.{keeper, holder, noted, Continues};
ghost use Rattle.ioc_journal.specs.Account.{IsHolder};

use crate::entry::JournalEntry;
use crate::{Cell, KeyPass, Keys, NoteName, pass};
use std::sync::Wait;

/// Adds the note of an entry, which has the keys of two passes and a desk, to the list, and returns
/// the pass of its receipt. Afterwards the first pass owns the keys of `K`, the second those of
/// `L`, the desk the rest of `L`, and all know the whole list.
pub(crate) fn deal<K: Keys, L: Keys, S: NoteName, R: Wait>(
    rt: &R,
    cell: &Cell,
    master: &mut KeyPass,
    a: &mut KeyPass,
    b: &mut KeyPass,
    desk: &mut KeyPass,
    entry: &JournalEntry,
) -> KeyPass
    requires table { (master.old.table_id ≡ cell.now.table.shared.table_id) × (a.old.table_id ≡ master.old.table_id)
        × (b.old.table_id ≡ master.old.table_id) × (desk.old.table_id ≡ master.old.table_id) }
    requires keeper { cell_view master.old ≡ keeper (cell_view master.old).seen (cell_view master.old).born }
    requires a { cell_view a.old ≡ holder (cell_view a.old).seen (cell_view a.old).owns }
    requires b { cell_view b.old ≡ holder (cell_view b.old).seen (cell_view b.old).owns }
    requires desk { cell_view desk.old ≡ holder (cell_view desk.old).seen L.rest }
    requires rest { K.rest ≡ L.keys ++ L.rest }
    requires within { (k : Key) → Has k (K.keys ++ K.rest) → Has k (((cell_view a.old).owns ++ (cell_view b.old).owns) ++ L.rest) }
    requires apart { (k : Key) → Has k K.keys → Has k K.rest → ⊥ }
    requires apart_desk { (k : Key) → Has k L.keys → Has k L.rest → ⊥ }
    requires said { S.note ≡ noted entry.now (((cell_view a.old).owns ++ (cell_view b.old).owns) ++ L.rest) }
    ensures keeper { (master.new.table_id ≡ master.old.table_id)
        × (cell_view master.new ≡ keeper ((cell_view master.old).seen ++ S.note ∷ []) (cell_view master.old).born) }
    ensures a { (a.new.table_id ≡ a.old.table_id) × (cell_view a.new ≡ holder ((cell_view master.old).seen ++ S.note ∷ []) K.keys) }
    ensures b { (b.new.table_id ≡ b.old.table_id) × (cell_view b.new ≡ holder ((cell_view master.old).seen ++ S.note ∷ []) L.keys) }
    ensures desk { (desk.new.table_id ≡ desk.old.table_id)
        × (cell_view desk.new ≡ holder ((cell_view master.old).seen ++ S.note ∷ []) L.rest) }
    ensures receipt { (result.table_id ≡ master.old.table_id) × (result.me.1 ≡ [])
        × (cell_view result ≡ holder ((cell_view master.old).seen ++ S.note ∷ []) []) }
    ensures goes_on { Continues (cell_view a.old).seen (cell_view a.old).owns (cell_view master.old).seen
        × Continues (cell_view b.old).seen (cell_view b.old).owns (cell_view master.old).seen
        × Continues (cell_view desk.old).seen L.rest (cell_view master.old).seen }
    ensures born { (k : Key) → Has k L.rest → Has k (cell_view master.old).born }
{
    let _ = entry;
    let one = pass::whole(cell, a);
    pass::take_in(rt, cell, master, one);
    let other = pass::whole(cell, b);
    pass::take_in(rt, cell, master, other);
    let own = pass::whole(cell, desk);
    pass::take_in(rt, cell, master, own);
    pass::note_down::<S, R>(rt, cell, master);
    *a = pass::part::<K>(cell, master);
    *b = pass::part::<L>(cell, master);
    *desk = pass::give_all(cell, master);
    pass::copy(cell, master)
}

/// Moves the keys of the second pass to the first. Afterwards the second owns nothing, and both
/// know the whole list.
pub(crate) fn take_over<R: Wait>(
    rt: &R,
    cell: &Cell,
    master: &mut KeyPass,
    one: &mut KeyPass,
    other: &mut KeyPass,
)
    requires table { (master.old.table_id ≡ cell.now.table.shared.table_id) × (one.old.table_id ≡ master.old.table_id)
        × (other.old.table_id ≡ master.old.table_id) }
    requires keeper { cell_view master.old ≡ keeper (cell_view master.old).seen (cell_view master.old).born }
    requires one { IsHolder (cell_view one.old) }
    requires other { IsHolder (cell_view other.old) }
    ensures keeper { (master.new.table_id ≡ master.old.table_id) × (cell_view master.new ≡ cell_view master.old) }
    ensures one { (one.new.table_id ≡ one.old.table_id)
        × (cell_view one.new
        ≡ holder (cell_view master.old).seen ((cell_view one.old).owns ++ (cell_view other.old).owns)) }
    ensures other { (other.new.table_id ≡ other.old.table_id) × (cell_view other.new ≡ holder (cell_view master.old).seen []) }
    ensures goes_on { Continues (cell_view one.old).seen (cell_view one.old).owns (cell_view master.old).seen
        × Continues (cell_view other.old).seen (cell_view other.old).owns (cell_view master.old).seen }
    ensures apart { (k : Key) → Has k (cell_view one.old).owns → Has k (cell_view other.old).owns → ⊥ }
{
    let own = pass::whole(cell, one);
    pass::take_in(rt, cell, master, own);
    let theirs = pass::whole(cell, other);
    pass::take_in(rt, cell, master, theirs);
    *one = pass::give_all(cell, master);
    *other = pass::copy(cell, master);
}
