//! The cell that ties the passes together, and the steps of passes that its rule allows.
use crate::entry::Note;
use atomic_table::{Join, Split};
use crossbeam_utils::atomic::seq_cell::{Pass, RuledSeqCell};
use crossbeam_utils::rule::{Outcome, Protocol};
use std::collections::LinkedList;
use std::marker::{Brand, PhantomData};

/// Names a cell.
pub trait CellName {
    ghost use Rattle.atomic_table.specs.Seated.{TableId};

    ghost table: { TableId };
}

impl CellName for Brand {
    ghost use Rattle.ioc_journal.specs.Line.{no_table};

    ghost table = { no_table };
}

/// Names keys: those that a call concerns, and the others.
pub trait Keys {
    ghost use Rattle.std.specs.Prelude.{List};
    ghost use Rattle.ioc_journal.specs.Key.{Key};

    ghost keys: { List Key };

    ghost rest: { List Key };
}

impl Keys for Brand {
    ghost use Rattle.std.specs.Prelude.{[]};

    ghost keys = { [] };

    ghost rest = { [] };
}

/// Names the note that a call adds.
pub trait NoteName {
    ghost use Rattle.ioc_journal.specs.declared.entry.Note.{Note};

    ghost note: { Note };
}

impl NoteName for Brand {
    ghost use Rattle.ioc_journal.specs.Line.{no_note};

    ghost note = { no_note };
}

/// Names the event of a call that is stored already.
pub trait EntryName {
    ghost use Rattle.ioc_events.specs.declared.event.Entry.{Entry};

    ghost entry: { Entry };
}

impl EntryName for Brand {
    ghost use Rattle.ioc_journal.specs.Line.{no_note};

    ghost entry = { no_note.entry.entry };
}

/// What a pass knows. It exists in contracts only: no value of it is made.
pub struct View {
    /// Whether the pass is the keeper's, which knows the whole list.
    pub keeps: bool,
    /// The beginning of the list that it has seen.
    pub seen: LinkedList<Note>,
    /// All keys that were created. Only the keeper's pass has them.
    pub born: LinkedList<(u64, u64)>,
    /// The keys that the pass owns.
    pub owns: LinkedList<(u64, u64)>,
    /// The list that a pass joined to this one has seen, and the keys of that pass, until the two
    /// are compared.
    pub mark: LinkedList<Note>,
    pub asks: LinkedList<(u64, u64)>,
}

/// The rule of the cell: there is one list, each pass has seen a beginning of it, and no two passes
/// own the same key.
pub struct Line;

impl Protocol<[u64; 1], View> for Line {
    ghost use Rattle.std.specs.Prelude.{[]};
    ghost use Rattle.ioc_journal.specs.Line.{keeper, IsOneList};

    ghost holds = { IsOneList };

    ghost first = { keeper [] [] };
}

/// Splits off a pass that has seen the same list and owns nothing.
pub struct Again;

impl Split<View> for Again {
    ghost use Rattle.ioc_journal.specs.Line.{copied};

    ghost left = { λ v. v };

    ghost right = { copied };
}

/// Moves a whole view to another pass.
pub struct Whole;

impl Split<View> for Whole {
    ghost use Rattle.ioc_journal.specs.Line.{nobody};

    ghost left = { λ v. nobody };

    ghost right = { λ v. v };
}

/// Splits off a pass that owns new keys.
pub struct Claims<K: Keys> {
    keys: PhantomData<K>,
}

impl<K: Keys> Split<View> for Claims<K> {
    ghost use Rattle.ioc_journal.specs.Line.{claiming, claimed};

    ghost left = { claiming K.keys };

    ghost right = { claimed K.keys };
}

/// Splits off a pass with some of the keys and the whole list.
pub struct Parts<K: Keys> {
    keys: PhantomData<K>,
}

impl<K: Keys> Split<View> for Parts<K> {
    ghost use Rattle.ioc_journal.specs.Line.{owning, claimed};

    ghost left = { owning K.rest };

    ghost right = { claimed K.keys };
}

/// Splits off a pass with all keys and the whole list.
pub struct Rest;

impl Split<View> for Rest {
    ghost use Rattle.std.specs.Prelude.{[]};
    ghost use Rattle.ioc_journal.specs.Line.{owning, given};

    ghost left = { owning [] };

    ghost right = { given };
}

/// Joins a pass to another, so that the two can be compared.
pub struct Shows;

impl Join<View> for Shows {
    ghost use Rattle.ioc_journal.specs.Line.{shown, nobody};

    ghost both = { shown };

    ghost spent = { nobody };
}

/// The keeper's pass takes over the keys of the pass that was joined to it.
pub struct TakesIn;

impl Outcome<[u64; 1], View> for TakesIn {
    ghost use Rattle.ioc_journal.specs.Line.{TakenIn};

    ghost then = { TakenIn };
}

/// A pass moves on to the longer list.
pub struct Learns;

impl Outcome<[u64; 1], View> for Learns {
    ghost use Rattle.ioc_journal.specs.Line.{Learnt};

    ghost then = { Learnt };
}

/// The keeper's pass adds a note.
pub struct Appends<S: NoteName> {
    said: PhantomData<S>,
}

impl<S: NoteName> Outcome<[u64; 1], View> for Appends<S> {
    ghost use Rattle.ioc_journal.specs.Line.{Appended};

    ghost then = { Appended S.note };
}

/// The cell of a list.
pub type Cell = RuledSeqCell<[u64; 1], View, Line, 1>;

/// The cell, and the handle by which a call may wait for it.
#[derive(Drop)]
pub struct SharedCell<'a, R> {
    pub rt: &'a R,
    pub cell: &'a Cell,
}

/// A pass: it has no bytes.
pub type KeyPass = Pass<[u64; 1], View>;
