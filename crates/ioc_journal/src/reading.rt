//! Entries of the list, by their places.
ghost use Rattle.std.specs.Prelude.{◌≡◌, ◌<◌, ◌≤◌, ◌⊎◌, Some, length, take, drop, slice_get, IfOk, IfSome, IfNone, MatchOption};
ghost use Rattle.ioc_journal.specs.Account.{calls, HasSeenMore, BeginsWhere};

use crate::desk::DeskAccount;
use crate::entry::JournalEntry;
use crate::journal::Journal;
use crate::journal_name::JournalName;
use crate::shared_journal::SharedJournal;
use crate::short_lock::lock_soon;
use ioc_record::RecordKind;
use std::alloc::{AllocError, Global};
use std::marker::Model;
use std::sync::Wait;

/// Where the entries begin that the last checkpoint of a journal has kept: those before it were dropped.
/// Only a journal that has dropped them gives this out.
#[derive(Drop)]
pub struct KeptFrom {
    place: u64,
}

impl Model for KeptFrom {
    ghost use Rattle.std.specs.Prelude.{ℕ};

    ghost Value = { ℕ };

    ghost view = { λ k. k.place };
}

impl KeptFrom {
    /// Returns the place of the first entry that was kept.
    pub fn place(&self) -> u64
        ensures { result ≡ self.now }
    {
        self.place
    }
}

/// Copies of entries of a journal that follow each other.
///
/// ```rust
/// let excerpt = engine.entries(rt, &mut desk, written, 1_000)?;
/// for entry in &excerpt.entries {
///     write_line(entry)?;
/// }
/// written = excerpt.first + excerpt.entries.len() as u64;
/// ```
#[derive(Drop)]
pub struct Excerpt {
    /// The place of the first entry: the one that was asked for, or that of `kept_from`.
    pub first: u64,
    /// The entries, in the order of their places.
    pub entries: Vec<JournalEntry>,
    /// Where the entries begin that a checkpoint has kept, if it has dropped the one that was asked for.
    pub kept_from: Option<KeptFrom>,
}

impl<K: RecordKind, B: JournalName<K>> Journal<K, B> {
    /// Returns the entry at a place. Returns `None` exactly if it was dropped, or if there is no call
    /// at the place.
    pub fn entry_at(&self, place: u64) -> Option<&JournalEntry>
        ensures entry { IfSome result (λ e. slice_get (calls self.now.filled) place ≡ Some e.now) }
        ensures kept { IfSome result (λ _. self.now.dropped ≤ place) }
        ensures none { IfNone result ((place < self.now.dropped) ⊎ (length self.now.filled ≤ place)) }
    {
        if place < self.dropped {
            return None;
        }
        self.entries.at(place - self.dropped)
    }

    // Returns where the kept entries begin, if the one at this place was dropped.
    fn kept_behind(&self, from: u64) -> Option<KeptFrom>
        ensures { MatchOption result (self.now.dropped ≤ from) (λ kept. (kept ≡ self.now.dropped) × (from < kept)) }
    {
        if from < self.dropped {
            let place = self.dropped;
            return Some(KeptFrom { place });
        }
        None
    }

    /// Copies the entries from a place on, at most `most` of them. They begin with the first that is
    /// kept if the one at the place was dropped.
    ///
    /// # Errors
    ///
    /// [`AllocError`] if allocation fails.
    pub fn copy_from(&self, alloc: Global, from: u64, most: usize) -> Result<Excerpt, AllocError>
        ensures copies { IfOk result (λ excerpt. excerpt.entries.items ≡ take most (drop excerpt.first (calls self.now.filled))) }
        ensures first { IfOk result (λ excerpt. BeginsWhere from excerpt.first excerpt.kept_from) }
        ensures kept { IfOk result (λ excerpt. IfSome excerpt.kept_from (λ kept. kept ≡ self.now.dropped)) }
    {
        let first = from.max(self.dropped);
        let entries = self.entries.copy_from(alloc, first - self.dropped, most)?;
        let kept_from = self.kept_behind(from);
        Ok(Excerpt {
            first,
            entries,
            kept_from,
        })
    }

    /// Copies all entries from a place on. They begin with the first that is kept if the one at the
    /// place was dropped.
    ///
    /// # Errors
    ///
    /// [`AllocError`] if allocation fails.
    pub fn copy_rest(&self, alloc: Global, from: u64) -> Result<Excerpt, AllocError>
        ensures copies { IfOk result (λ excerpt. excerpt.entries.items ≡ drop excerpt.first (calls self.now.filled)) }
        ensures first { IfOk result (λ excerpt. BeginsWhere from excerpt.first excerpt.kept_from) }
        ensures kept { IfOk result (λ excerpt. IfSome excerpt.kept_from (λ kept. kept ≡ self.now.dropped)) }
    {
        let first = from.max(self.dropped);
        let entries = self.entries.copy_rest(alloc, first - self.dropped)?;
        let kept_from = self.kept_behind(from);
        Ok(Excerpt {
            first,
            entries,
            kept_from,
        })
    }
}

impl<K: RecordKind, B: JournalName<K>> SharedJournal<K, B> {
    /// Copies the entries from a place on, at most `most` of them, from the list of all calls, which
    /// the desk has seen afterwards. They begin with the first that is kept if the one at the place
    /// was dropped.
    ///
    /// # Errors
    ///
    /// [`AllocError`] if allocation fails.
    pub fn copy_from<R: Wait>(
        &self,
        rt: &R,
        alloc: Global,
        desk: &mut DeskAccount<K, B>,
        from: u64,
        most: usize,
    ) -> Result<Excerpt, AllocError>
        ensures desk { HasSeenMore desk.old desk.new }
        ensures copies { IfOk result (λ excerpt. excerpt.entries.items ≡ take most (drop excerpt.first (calls desk.new.seen))) }
        ensures first { IfOk result (λ excerpt. BeginsWhere from excerpt.first excerpt.kept_from) }
    {
        let mut guard = lock_soon(rt, &self.journal);
        let journal = &mut *guard;
        journal.compare_desk(rt, &self.cell, desk);
        journal.copy_from(alloc, from, most)
    }
}
