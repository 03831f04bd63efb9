//! The entries of a journal.
ghost use Rattle.std.specs.Prelude.{◌≡◌, ◌≤◌, ◌<◌, ◌↔◌, ◌⊎◌, ◌+◌, ◌-◌, ◌^◌, [], ◌∷◌, ◌++◌, length, take, drop, IfOk, slice_get};
ghost use Rattle.std.specs.Option.{option_map};
ghost use Rattle.ioc_journal.specs.Places.{AreAllowed, places_of};
ghost use Rattle.std.specs.Vec.{vec_len, vec_capacity};
ghost use Rattle.ioc_journal.specs.Pieces.{IsSpare, ArePieces, items_in};

use crate::entry::JournalEntry;
use crate::free_places::{FreePlaces, Place, Places};
use crate::journal_name::JournalName;
use crate::limits::Limits;
use ioc_events::{Call, Entry, KeptAnswers};
use ioc_notify::NotifyId;
use std::alloc::{AllocError, Global};
use std::marker::Model;
use std::mem;
use std::sync::ledger::{Blank, Book, Share};

/// The number of entries in a piece of the journal's memory.
pub const PIECE: usize = 256;

/// Memory for [`PIECE`] entries.
#[derive(Drop)]
pub struct Piece {
    items: Vec<JournalEntry>,
    ghost spare: { IsSpare items },
}

impl Piece {
    /// Allocates memory for entries, and writes to that of the first `count`, so that the system
    /// provides it before the journal's lock is taken.
    ///
    /// # Errors
    ///
    /// [`AllocError`] if allocation fails.
    pub fn new(alloc: Global, count: u64) -> Result<Self, AllocError> {
        let mut items = Vec::with_capacity(alloc, PIECE)?;
        write_to(alloc, &mut items, count);
        items.clear();
        Ok(Piece { items })
    }
}

// Adds as many entries, at most as many as there is room for.
fn write_to(alloc: Global, items: &mut Vec<JournalEntry>, count: u64)
    ensures { vec_capacity items.new ≡ vec_capacity items.old }
{
    for _ in 0..count {
        if items.len() == items.capacity() {
            return;
        }
        let entry = Entry {
            moment: 0,
            call: Call::IsLive(NotifyId::new(0), false),
            answers: KeptAnswers::new(Vec::new(alloc)),
        };
        items.push_reserved(JournalEntry {
            desk: 0,
            call: 0,
            entry,
        });
    }
}

/// The entries of a journal, in pieces, so that it grows without copying what is there. Contracts
/// see the list of the entries, the number of places that have memory, and the limit of that
/// number.
#[derive(Drop)]
pub struct Entries<K, B: JournalName<K>> {
    // First, so that it lies beside the lock of the journal: each call changes both.
    current: Vec<JournalEntry>,
    full: Vec<Vec<JournalEntry>>,
    spare: Vec<Vec<JournalEntry>>,
    given: u64,
    limit: u64,
    book: Book<Places<K, B>>,
    filled: Share<Places<K, B>>,
}

impl<K, B: JournalName<K>> Model for Entries<K, B> {
    ghost use Rattle.ioc_journal.specs.declared.entry.JournalEntry.{JournalEntry};
    ghost use Rattle.ioc_journal.specs.Places.{PlacesOf};
    ghost use Rattle.ioc_journal.specs.PlacesCode.{entries_code};

    ghost Value = { PlacesOf JournalEntry };

    ghost coded = { entries_code };

    ghost use Rattle.std.specs.Prelude.{◌≡◌, ◌≤◌, ◌+◌, length};
    ghost use Rattle.ioc_journal.specs.Places.{places_of};
    ghost use Rattle.ioc_journal.specs.Pieces.{ArePieces, items_in};

    ghost view = { λ e. places_of (items_in e.full.items e.current.items) e.given e.limit };

    ghost invariant = { λ e. ArePieces e.full e.spare e.current e.given e.limit × (e.book.total ≡ e.given)
        × (e.filled.amount ≡ length (items_in e.full.items e.current.items)) × (e.filled.amount ≤ e.given)
        × (e.filled.parts + e.given ≡ 18446744073709551615 + e.filled.amount) };
}

impl<K, B: JournalName<K>> Entries<K, B> {
    /// Allocates the first piece and the lists of pieces. There are no entries yet, and the places
    /// of the first piece are free. `blank` has [`PLACES`](crate::PLACES) parts.
    ///
    /// # Errors
    ///
    /// [`AllocError`] if allocation fails.
    pub fn new(
        alloc: Global,
        blank: Blank,
        limits: Limits,
    ) -> Result<(Self, FreePlaces<K, B>), AllocError>
        requires name { blank.name ≡ B.places }
        requires parts { blank.parts ≡ 2 ^ 64 - 1 }
        requires limits { AreAllowed limits }
        ensures { IfOk result (λ x. x.0 ≡ places_of [] x.1 limits.journal) }
    {
        let limit = limits.journal;
        let given = at_most_a_piece(limit);
        let pieces = limit as usize / PIECE + 1;
        let full = Vec::with_capacity(alloc, pieces)?;
        let spare = Vec::with_capacity(alloc, pieces)?;
        let Piece { items: current } = Piece::new(alloc, given)?;
        let (mut book, mut filled) = blank.open::<Places<K, B>>();
        book.add(&mut filled, given);
        let free = FreePlaces::new(given, filled.split_off(given, given));
        let entries = Entries {
            full,
            current,
            spare,
            given,
            limit,
            book,
            filled,
        };
        Ok((entries, free))
    }

    /// Returns the number of entries.
    pub fn len(&self) -> usize
        ensures count { result ≡ length self.now.filled }
        ensures within { length self.now.filled ≤ self.now.limit }
        ensures few { self.now.limit ≤ 4194304 }
    {
        self.full.len() * PIECE + self.current.len()
    }

    /// Returns the entry at a place, from 0 on, or `None` past the last.
    pub fn at(&self, place: u64) -> Option<&JournalEntry>
        ensures { option_map (λ e. e.now) result ≡ slice_get self.now.filled place }
    {
        let piece = place as usize / PIECE;
        let index = place as usize % PIECE;
        if piece < self.full.len() {
            return item_at(&self.full[piece], index);
        }
        if piece == self.full.len() {
            return item_at(&self.current, index);
        }
        None
    }

    /// Copies the entries from a place on, at most `most` of them.
    ///
    /// # Errors
    ///
    /// [`AllocError`] if allocation fails.
    pub fn copy_from(
        &self,
        alloc: Global,
        from: u64,
        most: usize,
    ) -> Result<Vec<JournalEntry>, AllocError>
        ensures { IfOk result (λ copies. copies.items ≡ take most (drop from self.now.filled)) }
    {
        let count = most.min(self.len().saturating_sub(from as usize));
        let mut copies = Vec::with_capacity(alloc, count)?;
        let mut place = from;
        for _ in 0..count {
            let Some(entry) = self.at(place) else {
                return Ok(copies);
            };
            copies.push(entry.copy(alloc)?)?;
            place += 1;
        }
        Ok(copies)
    }

    /// Copies all entries from a place on.
    ///
    /// # Errors
    ///
    /// [`AllocError`] if allocation fails.
    pub fn copy_rest(&self, alloc: Global, from: u64) -> Result<Vec<JournalEntry>, AllocError>
        ensures { IfOk result (λ copies. copies.items ≡ drop from self.now.filled) }
    {
        self.copy_from(alloc, from, self.len())
    }

    /// Returns the number of places that have no memory yet.
    pub fn places_left(&self) -> u64
        ensures { self.now.given + result ≡ self.now.limit }
    {
        self.limit - self.given
    }

    /// Returns the number of places that one more piece would have, which is 0 if the limit is
    /// reached.
    pub fn places_of_next(&self) -> u64
        ensures { (result ≡ 0) ↔ (self.now.given ≡ self.now.limit) }
    {
        at_most_a_piece(self.places_left())
    }

    /// Adds a piece, whose places are free.
    pub fn add_piece(&mut self, piece: Piece) -> FreePlaces<K, B>
        ensures given { self.new ≡ places_of self.old.filled (self.old.given + result) self.old.limit }
        ensures none { (result ≡ 0) ↔ (self.old.given ≡ self.old.limit) }
    {
        let more = at_most_a_piece(self.limit - self.given);
        if more != 0 {
            let Piece { items } = piece;
            self.spare.push_reserved(items);
            self.given += more;
            self.book.add(&mut self.filled, more);
        }
        FreePlaces::new(more, self.filled.split_off(more, more))
    }

    /// Fills a place with a call of a desk. It doesn't allocate.
    #[inline(always)]
    pub fn fill(&mut self, place: Place<K, B>, made: JournalEntry)
        ensures { self.new ≡ places_of (self.old.filled ++ made ∷ []) self.old.given self.old.limit }
    {
        let Place { share } = place;
        self.filled.merge(share);
        self.book.audit(&mut self.filled);
        make_room(
            &mut self.full,
            &mut self.spare,
            &mut self.current,
            self.given,
            self.limit,
        );
        self.current.push_reserved(made);
    }

    /// Drops all entries. Their places are free then, and keep their memory. It allocates nothing.
    pub fn clear(&mut self) -> FreePlaces<K, B>
        ensures cleared { self.new ≡ places_of [] self.old.given self.old.limit }
        ensures freed { result ≡ length self.old.filled }
    {
        let count = self.len() as u64;
        empty_all(
            &mut self.full,
            &mut self.spare,
            &mut self.current,
            self.given,
            self.limit,
        );
        FreePlaces::new(count, self.filled.split_off(count, count))
    }

    /// Compares the entries with free places: together they are no more than have memory.
    pub fn compare_free(&mut self, free: &mut FreePlaces<K, B>)
        ensures within { length self.old.filled + free.old ≤ self.old.given }
        ensures limit { self.old.given ≤ self.old.limit }
        ensures same { (self.new ≡ self.old) × (free.new ≡ free.old) }
    {
        free.lend_to(&mut self.book, &mut self.filled);
    }
}

// Returns the entry of a piece at an index.
fn item_at(piece: &[JournalEntry], index: usize) -> Option<&JournalEntry>
    ensures { option_map (λ e. e.now) result ≡ slice_get piece.now index }
{
    piece.get(index)
}

// Returns this number of places, or that of a piece if it is smaller.
fn at_most_a_piece(count: u64) -> u64
    ensures most { result ≤ 256 }
    ensures count { result ≤ count }
    ensures either { (result ≡ 256) ⊎ (result ≡ count) }
{
    if count < PIECE as u64 {
        count
    } else {
        PIECE as u64
    }
}

// Puts the current piece behind the full ones if it is full, and takes a spare one in its place.
#[inline(always)]
fn make_room(
    full: &mut Vec<Vec<JournalEntry>>,
    spare: &mut Vec<Vec<JournalEntry>>,
    current: &mut Vec<JournalEntry>,
    given: u64,
    limit: u64,
)
    requires pieces { ArePieces full.old spare.old current.old given limit }
    requires more { length (items_in full.old.items current.old.items) < given }
    ensures pieces { ArePieces full.new spare.new current.new given limit }
    ensures same { items_in full.new.items current.new.items ≡ items_in full.old.items current.old.items }
    ensures room { length current.new.items < 256 }
{
    if current.len() == PIECE {
        turn(full, spare, current);
    }
}

// Drops the entries of all pieces, and leaves the full ones among the spare ones.
fn empty_all(
    full: &mut Vec<Vec<JournalEntry>>,
    spare: &mut Vec<Vec<JournalEntry>>,
    current: &mut Vec<JournalEntry>,
    given: u64,
    limit: u64,
)
    requires pieces { ArePieces full.old spare.old current.old given limit }
    ensures pieces { ArePieces full.new spare.new current.new given limit }
    ensures none { items_in full.new.items current.new.items ≡ [] }
{
    current.clear();
    let count = full.len();
    for done in 0..count {
        spare_last(full, spare, current, given, limit);
    }
}

// Drops the entries of the last full piece, and puts it behind the spare ones.
fn spare_last(
    full: &mut Vec<Vec<JournalEntry>>,
    spare: &mut Vec<Vec<JournalEntry>>,
    current: &Vec<JournalEntry>,
    given: u64,
    limit: u64,
)
    requires pieces { ArePieces full.old spare.old current.now given limit }
    requires some { 0 < vec_len full.old }
    ensures pieces { ArePieces full.new spare.new current.now given limit }
    ensures fewer { vec_len full.old ≡ vec_len full.new + 1 }
{
    let Some(mut piece) = full.pop() else {
        unreachable!();
    };
    piece.clear();
    spare.push_reserved(piece);
}

// Puts the current piece behind the full ones, and takes a spare one in its place.
fn turn(
    full: &mut Vec<Vec<JournalEntry>>,
    spare: &mut Vec<Vec<JournalEntry>>,
    current: &mut Vec<JournalEntry>,
)
    requires full { vec_len full.old < vec_capacity full.old }
    requires spare { 0 < vec_len spare.old }
    ensures full { full.new.items ≡ full.old.items ++ current.old ∷ [] }
    ensures spare { spare.old.items ≡ spare.new.items ++ current.new ∷ [] }
    ensures room { (vec_capacity full.new ≡ vec_capacity full.old) × (vec_capacity spare.new ≡ vec_capacity spare.old) }
{
    let Some(next) = spare.pop() else {
        unreachable!();
    };
    full.push_reserved(mem::replace(current, next));
}
