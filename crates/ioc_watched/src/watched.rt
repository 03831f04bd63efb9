//! Watched records.
ghost use Rattle.std.specs.Prelude.{◌≡◌, false, not};
ghost use Rattle.crossbeam_utils.specs.Seq.{cell_view};
ghost use Rattle.ioc_watched.specs.Watched.{is_number, marked, newly_watched};

use ioc_journal::{Cell, KeyPass, pass};
use ioc_names::RecordNo;
use std::marker::Model;

/// A watched record of a set. Contracts see the calls up to which it was told last; the pass that has seen them has no bytes.
#[derive(Drop)]
pub struct Watched {
    number: RecordNo,
    told: KeyPass,
    is_marked: bool,
}

impl Model for Watched {
    ghost use Rattle.ioc_watched.specs.Watched.{WatchedRecord};
    ghost use Rattle.ioc_watched.specs.WatchedCode.{watched_code};

    ghost Value = { WatchedRecord };

    ghost coded = { watched_code };

    ghost use Rattle.crossbeam_utils.specs.Seq.{cell_view};

    ghost view = { λ w. record { number = w.number; told = (cell_view w.told).seen; is_marked = w.is_marked } };
}

impl Watched {
    /// A record that is watched from now on, and is marked, since it wasn't told yet.
    pub fn new(number: RecordNo, told: KeyPass) -> Self
        ensures { result ≡ newly_watched number (cell_view told).seen }
    {
        Watched {
            number,
            told,
            is_marked: true,
        }
    }

    /// Returns the number of the record.
    pub fn number(&self) -> RecordNo
        ensures { result ≡ self.now.number }
    {
        self.number
    }

    /// Returns whether the record has this number.
    pub fn has_number(&self, number: RecordNo) -> bool
        ensures { result ≡ is_number number self.now }
    {
        self.number.index() == number.index()
    }

    /// Returns whether the record may have changed since it was told last.
    pub fn is_marked(&self) -> bool
        ensures { result ≡ self.now.is_marked }
    {
        self.is_marked
    }

    /// Marks the record, and returns whether it wasn't marked before.
    pub fn mark(&mut self) -> bool
        ensures marked { self.new ≡ marked self.old }
        ensures newly { result ≡ not self.old.is_marked }
    {
        let was_marked = self.is_marked;
        self.is_marked = true;
        !was_marked
    }

    /// Takes the mark off: the record is told now, after the calls that a pass has seen.
    pub fn tell(&mut self, cell: &Cell, pass: &mut KeyPass)
        requires table { pass.old.table_id ≡ cell.now.table.shared.table_id }
        ensures told { self.new ≡ record { number = self.old.number; told = (cell_view pass.old).seen; is_marked = false } }
        ensures pass { (pass.new.table_id ≡ pass.old.table_id) × (cell_view pass.new ≡ cell_view pass.old) }
    {
        self.told = pass::copy(cell, pass);
        self.is_marked = false;
    }
}
