//! What is known of the journal at the end of an engine and at checkpoints.
ghost use Rattle.std.specs.Prelude.{◌≡◌, ◌≤◌, ℕ, []};
ghost use Rattle.crossbeam_utils.specs.Seq.{cell_view};
ghost use Rattle.ioc_journal.specs.Line.{keeper, holder, Begins, Continues};
ghost use Rattle.ioc_journal.specs.Legal.{IsLegal, IsSound};
ghost use Rattle.ioc_journal.specs.Account.{IsAccount, IsHolder, HasSeenMore, calls, calls_by, desk_view};

use crate::desk::DeskAccount;
use crate::journal::Journal;
use crate::journal_name::JournalName;
use crate::shared_journal::SharedJournal;
use crate::short_lock::lock_soon;
use crate::{Cell, KeyPass, pass};
use ioc_record::RecordKind;
use std::sync::Wait;

// Moves a pass on to the whole list.
fn learn_whole<R: Wait>(rt: &R, cell: &Cell, master: &mut KeyPass, set: &mut KeyPass)
    requires table { (master.old.table_id ≡ cell.now.table.shared.table_id) × (set.old.table_id ≡ master.old.table_id) }
    requires keeper { cell_view master.old ≡ keeper (cell_view master.old).seen (cell_view master.old).born }
    requires set { IsHolder (cell_view set.old) }
    ensures keeper { (master.new.table_id ≡ master.old.table_id) × (cell_view master.new ≡ cell_view master.old) }
    ensures set { (set.new.table_id ≡ set.old.table_id)
        × (cell_view set.new ≡ holder (cell_view master.old).seen (cell_view set.old).owns) }
    ensures goes_on { Continues (cell_view set.old).seen (cell_view set.old).owns (cell_view master.old).seen }
{
    let theirs = pass::whole(cell, set);
    pass::take_in(rt, cell, master, theirs);
    *set = pass::give_all(cell, master);
}

impl<K: RecordKind, B: JournalName<K>> Journal<K, B> {
    /// Moves the pass of a set on to the whole list, which continues from what the pass had seen
    /// without its keys.
    pub fn tell_all<R: Wait>(&mut self, rt: &R, cell: &Cell, set: &mut KeyPass)
        requires table { (cell.now.table.shared.table_id ≡ B.table) × (set.old.table_id ≡ B.table) }
        requires set { IsHolder (cell_view set.old) }
        ensures set { (set.new.table_id ≡ set.old.table_id) × (cell_view set.new ≡ holder self.old.filled (cell_view set.old).owns) }
        ensures goes_on { Continues (cell_view set.old).seen (cell_view set.old).owns self.old.filled }
        ensures legal { IsSound K.rules B.base × IsLegal K.rules B.base self.old.filled }
        ensures same { self.new ≡ self.old }
    {
        learn_whole(rt, cell, &mut self.pass, set);
    }

    /// Returns the number of desks that were opened, which have the numbers below it. No other has
    /// made a call.
    pub fn desks(&self) -> u64
        ensures count { result ≡ self.now.desks }
        ensures none { (number : ℕ) → self.now.desks ≤ number → calls_by number (calls self.now.filled) ≡ [] }
    {
        self.desks
    }

    /// Moves a desk on to the whole list. It has made no call but those that it had seen.
    pub fn compare_desk<R: Wait>(&mut self, rt: &R, cell: &Cell, desk: &mut DeskAccount<K, B>)
        requires table { cell.now.table.shared.table_id ≡ B.table }
        ensures desk { desk.new ≡ desk_view desk.old.number desk.old.next self.old.filled }
        ensures begins { Begins desk.old.seen self.old.filled }
        ensures calls { calls_by desk.old.number (calls self.old.filled) ≡ calls_by desk.old.number (calls desk.old.seen) }
        ensures same { self.new ≡ self.old }
    {
        learn_whole(rt, cell, &mut self.pass, &mut desk.pass);
    }

    /// The world at the load is sound, and the list is legal from there on.
    pub fn is_legal(&self)
        ensures sound { IsSound K.rules B.base }
        ensures account { IsAccount K.rules B.base self.now.filled }
    {
        let _ = &self.entries;
    }
}

impl<K: RecordKind, B: JournalName<K>> SharedJournal<K, B> {
    /// Moves the pass of a set and a desk on to the list of all calls, which continues from what the
    /// pass had seen without its keys. It is legal.
    pub fn tell_both<R: Wait>(&self, rt: &R, set: &mut KeyPass, desk: &mut DeskAccount<K, B>)
        requires table { set.old.table_id ≡ B.table }
        requires set { IsHolder (cell_view set.old) }
        ensures set { (set.new.table_id ≡ set.old.table_id) × (cell_view set.new ≡ holder desk.new.seen (cell_view set.old).owns) }
        ensures goes_on { Continues (cell_view set.old).seen (cell_view set.old).owns desk.new.seen }
        ensures desk { HasSeenMore desk.old desk.new }
        ensures sound { IsSound K.rules B.base }
        ensures account { IsAccount K.rules B.base desk.new.seen }
    {
        let mut guard = lock_soon(rt, &self.journal);
        let journal = &mut *guard;
        journal.tell_all(rt, &self.cell, set);
        journal.compare_desk(rt, &self.cell, desk);
        journal.is_legal();
    }

    /// Returns the cell and the journal, without their lock.
    pub fn into_parts(self) -> (Cell, Journal<K, B>)
        ensures { result.0.table.shared.table_id ≡ B.table }
    {
        let SharedJournal {
            cell,
            places: _places,
            gate: _,
            checkpoint_at: _,
            journal,
        } = self;
        (cell, journal.into_inner().into_inner())
    }
}
