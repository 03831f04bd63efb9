//! Callers of an engine and the calls that they have seen.
ghost use Rattle.std.specs.Prelude.{◌≡◌};
ghost use Rattle.ioc_journal.specs.Line.{longer, Begins};
ghost use Rattle.ioc_journal.specs.Account.{IsAccount, calls, calls_by};

use crate::journal_name::JournalName;
use crate::receipt::Receipt;
use crate::{Cell, KeyPass, pass};
use ioc_record::RecordKind;
use std::marker::{Model, PhantomData};
use std::sync::Wait;

/// The account of a desk, a caller of an engine. Contracts see its number, the number of its next
/// call, and the beginning of the journal's list that it has seen.
#[derive(Drop)]
pub struct DeskAccount<K: RecordKind, B: JournalName<K>> {
    pub(crate) number: u64,
    pub(crate) next: u64,
    pub(crate) pass: KeyPass,
    pub(crate) of: PhantomData<B>,
    pub(crate) kind: PhantomData<K>,
}

impl<K: RecordKind, B: JournalName<K>> Model for DeskAccount<K, B> {
    ghost use Rattle.ioc_journal.specs.Account.{DeskView};
    ghost use Rattle.ioc_journal.specs.DeskAccountCode.{desk_code};

    ghost Value = { DeskView };

    ghost coded = { desk_code };

    ghost use Rattle.crossbeam_utils.specs.Seq.{cell_view};
    ghost use Rattle.ioc_journal.specs.Account.{desk_view};
    ghost use Rattle.ioc_journal.specs.Desks.{IsDesk};

    ghost view = { λ d. desk_view d.number d.next (cell_view d.pass).seen };

    ghost invariant = { λ d. IsDesk K.rules B.base B.table d.pass.table_id (cell_view d.pass) d.number d.next };
}

impl<K: RecordKind, B: JournalName<K>> DeskAccount<K, B> {
    /// Returns the number of the desk.
    pub fn number(&self) -> u64
        ensures { result ≡ self.now.number }
    {
        self.number
    }

    /// Moves on to the list of a receipt, if that is longer than the list that the desk has seen.
    /// Afterwards both lists are beginnings of the one that the desk knows.
    pub fn learn<R: Wait>(&mut self, rt: &R, cell: &Cell, receipt: &mut Receipt<K, B>)
        requires table { cell.now.table.shared.table_id ≡ B.table }
        ensures desk { (self.new.number ≡ self.old.number) × (self.new.next ≡ self.old.next) }
        ensures learnt { self.new.seen ≡ longer self.old.seen receipt.old }
        ensures own { Begins self.old.seen self.new.seen }
        ensures told { Begins receipt.old self.new.seen }
        ensures calls { calls_by self.new.number (calls self.new.seen) ≡ calls_by self.old.number (calls self.old.seen) }
        ensures legal { IsAccount K.rules B.base self.new.seen }
        ensures receipt { receipt.new ≡ receipt.old }
    {
        let copy = pass::copy(cell, &mut receipt.pass);
        pass::learn(rt, cell, &mut self.pass, copy);
    }
}
