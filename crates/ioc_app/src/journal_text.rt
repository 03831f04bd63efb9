//! The lines of a journal that aren't written yet.
ghost use Rattle.std.specs.Prelude.{◌≡◌, ◌<◌, ◌+◌, ◌^◌, ◌++◌, length, IfOk, OnOk, OnErr};
ghost use Rattle.std.specs.List.{flat_map};
ghost use Rattle.ioc_journal_file.specs.Entries.{entry_lines};
ghost use Rattle.ioc_journal_file.specs.Bases.{item_line, next_line};
ghost use Rattle.ioc_journal_base.specs.Whole.{base_items};
ghost use Rattle.ioc_journal_lines.specs.Lines.{header_line};

use crate::fault::RunFault;
use crate::going_on::count_calls;
use ioc_command_line::Reason;
use ioc_engine::JournalEntry;
use ioc_journal_base::{Base, DeskCalls, add_base};
use ioc_journal_file::{NextFile, add_entries, add_next};
use ioc_journal_lines::{Header, Seals, add_end, add_header, add_seal};
use ioc_saved::SavedValue;
use std::alloc::{AllocError, Global};

// How many entries have a seal behind them at the latest, and those that are written with them.
const ENTRIES_OF_A_SEAL: u64 = 4_096;

/// The lines of a journal that aren't written yet, and what follows them.
#[derive(Drop)]
pub struct JournalText {
    lines: Vec<u8>,
    // The place of the next entry.
    place: u64,
    // The hash of the lines before, if the journal has seals.
    seals: Option<Seals>,
    // The number of entries behind the last seal.
    unsealed: u64,
    // How many calls each desk has made.
    calls: Vec<DeskCalls>,
}

// Appends the lines of values that were restored.
fn add_bases(lines: &mut Vec<u8>, values: &[SavedValue]) -> Result<(), AllocError> {
    for value in values {
        ioc_journal_lines::add_base(lines, value)?;
    }
    Ok(())
}

impl JournalText {
    /// Returns the lines of a journal that begins.
    ///
    /// # Errors
    ///
    /// [`AllocError`] if allocation fails.
    pub fn begin(alloc: Global, header: &Header) -> Result<Self, AllocError>
        ensures lines { IfOk result (λ text. text.lines.items ≡ header_line header.now) }
        ensures place { IfOk result (λ text. text.place ≡ header.now.first) }
    {
        let mut lines = Vec::new(alloc);
        add_header(&mut lines, header)?;
        let seals = if header.is_sealed {
            Some(Seals::new())
        } else {
            None
        };
        Ok(JournalText {
            lines,
            place: header.first,
            seals,
            unsealed: 0,
            calls: Vec::new(alloc),
        })
    }

    /// Adds the lines of values that were restored before the first entry.
    ///
    /// # Errors
    ///
    /// [`AllocError`] if allocation fails; some lines may have been added then.
    pub fn add_bases(&mut self, values: &[SavedValue]) -> Result<(), AllocError>
        ensures { self.new.place ≡ self.old.place }
    {
        add_bases(&mut self.lines, values)
    }

    /// Adds the lines of a base, with which a file begins behind its header, and takes its counts of
    /// calls.
    ///
    /// # Errors
    ///
    /// [`AllocError`] if allocation fails.
    pub fn add_base(&mut self, alloc: Global, base: Base) -> Result<(), AllocError>
        ensures lines { OnOk result (self.new.lines.items ≡ self.old.lines.items ++ flat_map item_line (base_items base)) }
        ensures place { self.new.place ≡ self.old.place }
    {
        add_base(alloc, &mut self.lines, &base)?;
        let Base { desks, .. } = base;
        self.calls = desks;
        Ok(())
    }

    /// Returns how many calls each desk has made.
    pub fn calls(&self) -> &[DeskCalls] {
        &self.calls
    }

    /// Adds the line that names the file in which the journal goes on.
    ///
    /// # Errors
    ///
    /// [`AllocError`] if allocation fails.
    pub fn next(&mut self, next: &NextFile) -> Result<(), AllocError>
        ensures lines { OnOk result (self.new.lines.items ≡ self.old.lines.items ++ next_line next.now) }
    {
        add_next(&mut self.lines, next)
    }

    /// Returns the place of the next entry.
    pub fn place(&self) -> u64
        ensures { result ≡ self.now.place }
    {
        self.place
    }

    /// Returns the lines.
    pub fn lines(&self) -> &[u8]
        ensures { result.now ≡ self.now.lines.items }
    {
        &self.lines
    }

    /// Adds the lines of these entries, the first of which has this place, or none of them.
    ///
    /// # Errors
    ///
    /// [`RunFault::Journal`] if entries are missing before them. [`RunFault::Memory`] if allocation
    /// fails.
    pub fn add(&mut self, first: u64, entries: &[JournalEntry]) -> Result<(), RunFault>
        ensures first { OnOk result (first ≡ self.old.place) }
        ensures lines { first + length entries.now < 2 ^ 64
            → OnOk result (self.new.lines.items ≡ self.old.lines.items ++ entry_lines self.old.place entries.now) }
        ensures place { first + length entries.now < 2 ^ 64 → OnOk result (self.new.place ≡ self.old.place + length entries.now) }
        ensures same { OnErr result (self.new.place ≡ self.old.place) }
    {
        if first != self.place {
            return Err(RunFault::Journal(Reason::Gap));
        }
        count_calls(&mut self.calls, entries)?;
        let before = self.lines.len();
        let place = match add_entries(&mut self.lines, first, entries) {
            Ok(place) => place,
            Err(error) => {
                self.lines.truncate(before);
                return Err(RunFault::from(error));
            }
        };
        self.place = place;
        self.unsealed = self.unsealed.saturating_add(entries.len() as u64);
        Ok(())
    }

    /// Adds the line of the end.
    ///
    /// # Errors
    ///
    /// [`AllocError`] if allocation fails.
    pub fn end(&mut self) -> Result<(), AllocError> {
        add_end(&mut self.lines, self.place)
    }

    /// Adds a seal behind the lines, if the journal has seals, and it is the last one or there are many
    /// entries behind the one before.
    ///
    /// # Errors
    ///
    /// [`AllocError`] if allocation fails.
    pub fn seal(&mut self, is_last: bool) -> Result<(), AllocError> {
        let Some(seals) = &mut self.seals else {
            return Ok(());
        };
        seals.cover(&self.lines);
        if self.unsealed < ENTRIES_OF_A_SEAL && !is_last {
            return Ok(());
        }
        let before = self.lines.len();
        add_seal(&mut self.lines, &seals.hash()?)?;
        if let Some(line) = self.lines.get(before..) {
            seals.cover(line);
        }
        self.unsealed = 0;
        Ok(())
    }

    /// Forgets the lines, which are written, or can't be.
    pub fn clear(&mut self)
        ensures { self.new.place ≡ self.old.place }
    {
        self.lines.clear();
    }
}
