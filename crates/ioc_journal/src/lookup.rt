//! The entry of a receipt.
ghost use Rattle.std.specs.Prelude.{◌≡◌, ◌<◌, ◌≤◌, ◌+◌, length, IfSome, IfNone};
ghost use Rattle.crossbeam_utils.specs.Seq.{cell_view};
ghost use Rattle.ioc_journal.specs.Line.{keeper, Begins};
ghost use Rattle.ioc_journal.specs.Account.{IsEntryOf};

use crate::entry::JournalEntry;
use crate::free_places::FreePlaces;
use crate::journal::Journal;
use crate::journal_name::JournalName;
use crate::receipt::Receipt;
use crate::{Cell, KeyPass, pass};
use ioc_record::RecordKind;
use std::sync::Wait;

// Compares a pass with the keeper's list, which begins with what the pass has seen.
fn compare_one<R: Wait>(rt: &R, cell: &Cell, master: &mut KeyPass, one: &mut KeyPass)
    requires table { (master.old.table_id ≡ cell.now.table.shared.table_id) × (one.old.table_id ≡ master.old.table_id) }
    requires keeper { cell_view master.old ≡ keeper (cell_view master.old).seen (cell_view master.old).born }
    ensures keeper { (master.new.table_id ≡ master.old.table_id) × (cell_view master.new ≡ cell_view master.old) }
    ensures one { (one.new.table_id ≡ one.old.table_id) × (cell_view one.new ≡ cell_view one.old) }
    ensures begins { Begins (cell_view one.old).seen (cell_view master.old).seen }
{
    let copy = pass::copy(cell, one);
    pass::take_in(rt, cell, master, copy);
}

impl<K: RecordKind, B: JournalName<K>> Journal<K, B> {
    /// Compares the entries with free places: together they are no more than have memory.
    pub fn compare_free(&mut self, free: &mut FreePlaces<K, B>)
        ensures within { length self.old.filled + free.old ≤ self.old.dropped + self.old.given }
        ensures limit { self.old.given ≤ self.old.limit }
        ensures same { (self.new ≡ self.old) × (free.new ≡ free.old) }
    {
        self.entries.compare_free(free);
    }

    /// Compares a receipt with the list of calls, which begins with what the receipt knows.
    pub fn compare_receipt<R: Wait>(&mut self, rt: &R, cell: &Cell, receipt: &mut Receipt<K, B>)
        requires table { cell.now.table.shared.table_id ≡ B.table }
        ensures begins { Begins receipt.old self.old.filled }
        ensures receipt { receipt.new ≡ receipt.old }
        ensures same { self.new ≡ self.old }
    {
        compare_one(rt, cell, &mut self.pass, &mut receipt.pass);
    }

    /// Returns the call of a receipt: it is at the receipt's place, and the receipt's list ends
    /// with it. Returns `None` exactly if its entry was dropped. The list of calls has to begin with
    /// the receipt's list.
    pub fn entry_of(&self, receipt: &Receipt<K, B>) -> Option<&JournalEntry>
        requires begins { Begins receipt.now self.now.filled }
        ensures entry { IfSome result (λ e. IsEntryOf receipt.now self.now.filled e.now) }
        ensures kept { IfSome result (λ _. self.now.dropped < length receipt.now) }
        ensures dropped { IfNone result (length receipt.now ≤ self.now.dropped) }
    {
        if receipt.place < self.dropped {
            return None;
        }
        let Some(entry) = self.entries.at(receipt.place - self.dropped) else {
            unreachable!()
        };
        Some(entry)
    }
}
