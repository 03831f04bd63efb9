//! The journal's file.
use crate::fault::RunFault;
use crate::going_on::{Progress, Sizes, base_of};
use crate::journal_text::JournalText;
use crate::running::PLACES;
use ioc_command_line::Reason;
use ioc_engine::{Desk, Device, Engine, EngineName, IocError, JournalEntry, Report};
use ioc_journal_file::NextFile;
use ioc_journal_lines::Header;
use ioc_saved::SavedValue;
use std::alloc::Global;
use std::io::Write;
use std::slice;
use std::sync::Wait;

// How many bytes of lines are written at once.
const BYTES_AT_ONCE: usize = 65_536;

// How many entries are copied at once, while calls wait.
const ENTRIES_AT_ONCE: usize = 64;

// How often entries are copied at most: as many as a journal has in memory.
const COPIES: u64 = PLACES / 64;

/// Writes the entries of a journal as lines, in the order of their places.
#[derive(Drop)]
pub struct JournalWriter<J: Write + Drop> {
    out: J,
    // The lines that aren't written yet.
    text: JournalText,
    // The place of the first entry since the last checkpoint.
    kept: u64,
    // The largest number of entries that stay in memory after a tick.
    most: u64,
    // The header of the current file.
    header: Header,
    progress: Progress,
    alloc: Global,
}

impl<J: Write + Drop> JournalWriter<J> {
    /// Creates a writer that has written this header, and behind it the values that were restored. If
    /// more than `most` entries are in memory after a tick, it drops them. If there are sizes, the journal
    /// goes on in another file where one is full.
    ///
    /// # Errors
    ///
    /// [`RunFault::Journal`] if a write fails. [`RunFault::Memory`] if allocation fails.
    pub fn begin(
        alloc: Global,
        out: J,
        header: &Header,
        restored: &[SavedValue],
        most: u64,
        sizes: Option<Sizes>,
    ) -> Result<Self, RunFault> {
        let mut writer = JournalWriter {
            out,
            text: JournalText::begin(alloc, header)?,
            kept: header.first,
            most,
            header: *header,
            progress: Progress::new(sizes),
            alloc,
        };
        writer.text.add_bases(restored)?;
        writer.flush(false)?;
        Ok(writer)
    }

    /// Returns the place of the next entry.
    pub fn place(&self) -> u64 {
        self.text.place()
    }

    /// Returns how many of the entries before that place are still in memory.
    pub fn in_memory(&self) -> u64 {
        self.text.place().saturating_sub(self.kept)
    }

    // Writes the lines that aren't written yet, with a seal behind them if one is due. If that fails,
    // they are left out.
    fn flush(&mut self, is_last: bool) -> Result<(), RunFault> {
        let written = match self.text.seal(is_last) {
            Ok(()) => self.out.write_all(self.text.lines()),
            Err(error) => return Err(RunFault::from(error)),
        };
        self.text.clear();
        if let Err(error) = written {
            return Err(RunFault::Journal(Reason::of(&error)));
        }
        match self.out.flush() {
            Ok(()) => Ok(()),
            Err(error) => Err(RunFault::Journal(Reason::of(&error))),
        }
    }

    // Writes the lines that aren't written yet if there are many.
    fn flush_many(&mut self) -> Result<(), RunFault> {
        if self.text.lines().len() < BYTES_AT_ONCE {
            return Ok(());
        }
        self.flush(false)
    }

    // Adds the lines of these entries, which follow those before, or none of them.
    fn add(&mut self, first: u64, entries: &[JournalEntry]) -> Result<(), RunFault> {
        let before = self.text.lines().len();
        self.text.add(first, entries)?;
        let after = self.text.lines().len();
        self.progress.count(after.saturating_sub(before));
        self.flush_many()
    }

    // Adds the lines of the entries of a report beyond those before.
    fn add_rest<B: EngineName<D>, D: Device>(
        &mut self,
        report: &Report<B, D>,
    ) -> Result<(), RunFault> {
        for place in self.text.place()..u64::MAX {
            let Some(kept) = report.entry_at(place) else {
                break;
            };
            self.add(place, slice::from_ref(kept))?;
        }
        Ok(())
    }

    // Adds the lines of the entries that an engine has beyond those before, and returns whether
    // there may be more.
    fn add_new<B: EngineName<D>, D: Device, C: Drop, R: Wait>(
        &mut self,
        rt: &R,
        engine: &Engine<B, D, C>,
        desk: &mut Desk<B, D>,
    ) -> Result<bool, RunFault> {
        let excerpt = engine.entries(rt, desk, self.text.place(), ENTRIES_AT_ONCE)?;
        self.add(excerpt.first, &excerpt.entries)?;
        Ok(excerpt.entries.len() == ENTRIES_AT_ONCE)
    }

    /// Makes a checkpoint, and writes the entries that leave memory.
    ///
    /// # Errors
    ///
    /// [`RunFault::Journal`] if a write fails. [`RunFault::Memory`] if allocation fails.
    pub fn checkpoint<B: EngineName<D>, D: Device, C: Drop, R: Wait>(
        &mut self,
        rt: &R,
        engine: &Engine<B, D, C>,
        desk: &mut Desk<B, D>,
    ) -> Result<(), RunFault> {
        let Ok(excerpt) = engine.checkpoint_from(rt, desk, self.text.place()) else {
            return Err(RunFault::Memory);
        };
        self.add(excerpt.first, &excerpt.entries)?;
        self.kept = self.text.place();
        self.flush(false)
    }

    /// Writes the entries that an engine has beyond those before, all that were in its journal when
    /// this was called among them, and has it drop them if there are many. What a line tells of a call
    /// may be written once its entry is.
    ///
    /// # Errors
    ///
    /// [`RunFault::Journal`] if a write fails. [`RunFault::Memory`] if allocation fails.
    pub fn write_new<B: EngineName<D>, D: Device, C: Drop, R: Wait>(
        &mut self,
        rt: &R,
        engine: &Engine<B, D, C>,
        desk: &mut Desk<B, D>,
    ) -> Result<(), RunFault> {
        for _ in 0..COPIES {
            if !self.add_new(rt, engine, desk)? {
                break;
            }
        }
        self.flush(false)?;
        if self.text.place().saturating_sub(self.kept) > self.most {
            self.checkpoint(rt, engine, desk)?;
        }
        if self.progress.is_full() {
            self.go_on(rt, engine, desk)?;
        }
        Ok(())
    }

    // Adds the lines of the entries before this place. Returns whether the journal had them all.
    fn add_before<B: EngineName<D>, D: Device, C: Drop, R: Wait>(
        &mut self,
        rt: &R,
        engine: &Engine<B, D, C>,
        desk: &mut Desk<B, D>,
        place: u64,
    ) -> Result<bool, RunFault> {
        for _ in 0..COPIES {
            let left = place.saturating_sub(self.text.place());
            if left == 0 {
                break;
            }
            let count = left.min(ENTRIES_AT_ONCE as u64) as usize;
            let excerpt = engine.entries(rt, desk, self.text.place(), count)?;
            self.add(excerpt.first, &excerpt.entries)?;
            if excerpt.entries.is_empty() {
                break;
            }
        }
        Ok(self.text.place() == place)
    }

    // Goes on in the next file, which begins with all records as they are at one place. The current file
    // has the entries before that place then, and names the next one.
    fn go_on<B: EngineName<D>, D: Device, C: Drop, R: Wait>(
        &mut self,
        rt: &R,
        engine: &Engine<B, D, C>,
        desk: &mut Desk<B, D>,
    ) -> Result<(), RunFault> {
        let copies = match engine.copy_records(rt, desk) {
            Ok(copies) => copies,
            Err(IocError::NoMemory) => return Err(RunFault::Memory),
            Err(_) => return Ok(()),
        };
        let place = copies.place;
        if !self.add_before(rt, engine, desk, place)? {
            return Ok(());
        }
        let Ok(base) = base_of(self.alloc, copies, self.text.calls()) else {
            return Err(RunFault::Memory);
        };
        let name = self.progress.next_name(self.alloc)?;
        self.text.next(&NextFile { name, place })?;
        self.flush(true)?;
        self.header.first = place;
        self.text = JournalText::begin(self.alloc, &self.header)?;
        self.text.add_base(self.alloc, base)?;
        self.progress.go_on();
        self.flush(false)
    }

    /// Writes the entries of a report beyond those before, as many as there is memory for.
    ///
    /// # Errors
    ///
    /// [`RunFault::Journal`] if a write fails. [`RunFault::Memory`] if allocation fails.
    pub fn write_rest<B: EngineName<D>, D: Device>(
        &mut self,
        report: &Report<B, D>,
    ) -> Result<(), RunFault> {
        let added = self.add_rest(report);
        let flushed = self.flush(false);
        added?;
        flushed
    }

    /// Writes the end of a run, behind all of its entries.
    ///
    /// # Errors
    ///
    /// [`RunFault::Journal`] if a write fails. [`RunFault::Memory`] if allocation fails.
    pub fn write_end(&mut self) -> Result<(), RunFault> {
        self.text.end()?;
        self.flush(true)
    }
}
