//! The journal of an engine that has ended.
ghost use Rattle.std.specs.Prelude.{◌≡◌, ◌<◌, ◌≤◌, ◌⊎◌, ℕ, Some, slice_get, [], length, take, drop, IfSome, IfNone};
ghost use Rattle.ioc_journal.specs.Account.{IsEntryOf, calls, calls_by, desk_view};
ghost use Rattle.ioc_journal.specs.Base.{IsBaseOf};
ghost use Rattle.ioc_journal.specs.Line.{Begins};
ghost use Rattle.ioc_journal.specs.Legal.{IsLegal, map_of};

use ioc_journal::{Cell, DeskAccount, Journal, JournalBase, JournalEntry, JournalName, Receipt};
use ioc_record::RecordKind;
use std::marker::Model;
use std::sync::Wait;

/// The journal of an engine that has ended, with the cell that ties receipts to it. Contracts see the
/// journal.
#[derive(Drop)]
pub struct EndedJournal<K: RecordKind, B: JournalName<K>> {
    journal: Journal<K, B>,
    cell: Cell,
}

impl<K: RecordKind, B: JournalName<K>> Model for EndedJournal<K, B> {
    ghost use Rattle.std.specs.Prelude.{◌≡◌};
    ghost use Rattle.ioc_journal.specs.declared.entry.Note.{Note};
    ghost use Rattle.ioc_journal.specs.Places.{JournalOf};
    ghost use Rattle.ioc_journal.specs.PlacesCode.{journal_code};

    ghost Value = { JournalOf Note };

    ghost coded = { journal_code };

    ghost view = { λ e. e.journal };

    ghost invariant = { λ e. e.cell.table.shared.table_id ≡ B.table };
}

impl<K: RecordKind, B: JournalName<K>> EndedJournal<K, B> {
    /// Creates it from the journal and the cell of an engine.
    pub fn new(journal: Journal<K, B>, cell: Cell) -> Self
        requires table { cell.table.shared.table_id ≡ B.table }
        ensures { result ≡ journal }
    {
        EndedJournal { journal, cell }
    }

    /// Returns the call of a receipt: it is at the receipt's place, and the receipt's list ends with
    /// it. Returns `None` exactly if its entry was dropped at a checkpoint.
    pub fn entry<R: Wait>(&mut self, rt: &R, receipt: &mut Receipt<K, B>) -> Option<&JournalEntry>
        ensures entry { IfSome result (λ e. IsEntryOf receipt.old self.old.filled e.now) }
        ensures begins { Begins receipt.old self.old.filled }
        ensures kept { IfSome result (λ _. self.old.dropped < length receipt.old) }
        ensures dropped { IfNone result (length receipt.old ≤ self.old.dropped) }
    {
        self.journal.compare_receipt(rt, &self.cell, receipt);
        self.journal.entry_of(receipt)
    }

    /// Returns the entry at a place. Returns `None` exactly if it was dropped at a checkpoint, or if
    /// there is no call at the place.
    pub fn entry_at(&self, place: u64) -> Option<&JournalEntry>
        ensures entry { IfSome result (λ e. slice_get (calls self.now.filled) place ≡ Some e.now) }
        ensures kept { IfSome result (λ _. self.now.dropped ≤ place) }
        ensures none { IfNone result ((place < self.now.dropped) ⊎ (length self.now.filled ≤ place)) }
    {
        self.journal.entry_at(place)
    }

    /// Returns the number of desks that were opened. No call is of a desk with this number or a
    /// higher one.
    pub fn desks(&self) -> u64
        ensures count { result ≡ self.now.desks }
        ensures none { (number : ℕ) → self.now.desks ≤ number → calls_by number (calls self.now.filled) ≡ [] }
    {
        self.journal.desks()
    }

    /// Compares a desk with the list of all calls: it has made no calls but those that it has seen of
    /// its own. Afterwards it has seen all calls.
    pub fn compare<R: Wait>(&mut self, rt: &R, desk: &mut DeskAccount<K, B>)
        ensures desk { desk.new ≡ desk_view desk.old.number desk.old.next self.old.filled }
        ensures begins { Begins desk.old.seen self.old.filled }
        ensures calls { calls_by desk.old.number (calls self.old.filled) ≡ calls_by desk.old.number (calls desk.old.seen) }
        ensures same { self.new ≡ self.old }
    {
        self.journal.compare_desk(rt, &self.cell, desk);
    }

    /// Returns the number of calls whose entries were dropped at checkpoints.
    pub fn dropped(&self) -> u64
        ensures { result ≡ self.now.dropped }
    {
        self.journal.dropped()
    }

    /// Returns the records to which the calls before the last checkpoint lead, or `None` if there
    /// was none. The other calls are legal from there on.
    pub fn base(&self) -> Option<&JournalBase<K>>
        ensures base { IfSome result (λ base. IsBaseOf (map_of K.rules B.base (take self.now.dropped self.now.filled))
            base.now.records.items base.now.waiting.items) }
        ensures none { IfNone result (self.now.dropped ≡ 0) }
        ensures legal { IsLegal K.rules (map_of K.rules B.base (take self.now.dropped self.now.filled))
            (drop self.now.dropped self.now.filled) }
    {
        self.journal.base()
    }
}
