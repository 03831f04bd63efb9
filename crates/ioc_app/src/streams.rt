//! What the threads of a run write.
ghost use Rattle.std.specs.Prelude.{List, OnOk};
ghost use Rattle.ioc_devices.specs.Asking.{TakesAll, TellsAll};
ghost use Rattle.ioc_devices.specs.declared.asks.Asked.{Asked};

use crate::caller::LineFault;
use crate::fault::RunFault;
use crate::journal::JournalWriter;
use crate::pace::{Next, Pace};
use crate::saving::Saving;
use crate::watching::{add_changes, add_marked};
use ioc_command_line::Reason;
use ioc_devices::{AskTeller, Asked, Asks};
use ioc_engine::{Desk, Device, Engine, EngineName, IocError};
use ioc_names::RecordNo;
use ioc_watches::{Removal, Watch, Watches};
use std::alloc::Global;
use std::io::{self, ErrorKind, Write};
use std::sync::{Mutex, Wait};

/// How a run is doing.
#[derive(Clone, Copy)]
pub struct Counts {
    pub pace: Pace,
    /// How many entries the journal has, and how many of them are in memory, if it is kept.
    pub entries: Option<(u64, u64)>,
    /// How many asks devices outside were told.
    pub told: u64,
    /// How many words watch fields.
    pub watches: u64,
    /// How many files of values were saved, and how many couldn't be, if values are saved.
    pub saves: Option<(u64, u64)>,
}

/// What the threads of a run write, under one lock: lines, and the journal if it is kept. No line is
/// written before the journal's file has each entry that the line tells of. After a write that failed
/// nothing more is written.
#[derive(Drop)]
pub struct Streams<'a, W: Write + Drop, J: Write + Drop> {
    written: Mutex<Written<'a, W, J>>,
    pub asks: &'a Asks,
    /// What is saved, if anything is.
    pub saving: Option<&'a Saving>,
}

// What is written under the lock.
#[derive(Drop)]
struct Written<'a, W: Write + Drop, J: Write + Drop> {
    lines: W,
    journal: Option<JournalWriter<J>>,
    pace: Pace,
    teller: AskTeller<'a>,
    told: u64,
    watches: Watches,
    fault: Option<RunFault>,
}

// Waits until the call is done in which a device was asked.
fn settle<B: EngineName<D>, D: Device, C: Drop, R: Wait>(
    rt: &R,
    engine: &Engine<B, D, C>,
    desk: &mut Desk<B, D>,
    asks: &Asks,
    asked: &Asked,
) -> Result<(), RunFault> {
    let Some(number) = asks.record(asked) else {
        return Ok(());
    };
    match engine.look(rt, desk, number, &[]) {
        Err(IocError::NoMemory) => Err(RunFault::Memory),
        _ => Ok(()),
    }
}

impl<W: Write + Drop, J: Write + Drop> Written<'_, W, J> {
    // Returns the fault of the write that failed, if one did.
    fn check(&self) -> Result<(), RunFault> {
        match self.fault {
            Some(fault) => Err(fault),
            None => Ok(()),
        }
    }

    // Keeps the fault of a write, if it failed.
    fn keep(&mut self, done: Result<(), RunFault>) -> Result<(), RunFault> {
        if let Err(fault) = done {
            self.fault = Some(fault);
        }
        done
    }

    // Writes all of a text at once.
    fn write_text(&mut self, text: &[u8]) -> Result<(), RunFault> {
        if let Err(error) = self.lines.write_all(text) {
            return Err(RunFault::Write(Reason::of(&error)));
        }
        match self.lines.flush() {
            Ok(()) => Ok(()),
            Err(error) => Err(RunFault::Write(Reason::of(&error))),
        }
    }

    // Writes what is new in the journal, if it is kept.
    fn write_entries<B: EngineName<D>, D: Device, C: Drop, R: Wait>(
        &mut self,
        rt: &R,
        engine: &Engine<B, D, C>,
        desk: &mut Desk<B, D>,
    ) -> Result<(), RunFault> {
        match &mut self.journal {
            Some(writer) => writer.write_new(rt, engine, desk),
            None => Ok(()),
        }
    }

    // Appends a line for each device outside that was asked something, once the call is done in which it
    // was.
    fn add_asks<B: EngineName<D>, D: Device, C: Drop, R: Wait>(
        &mut self,
        rt: &R,
        alloc: Global,
        engine: &Engine<B, D, C>,
        desk: &mut Desk<B, D>,
        asks: &Asks,
        lines: &mut Vec<u8>,
    ) -> Result<(), RunFault>
        ensures { OnOk result ((all : List Asked) × TakesAll self.old.teller.lane.seen all self.new.teller.lane.seen
            × TellsAll asks.now.records.items all lines.old.items lines.new.items) }
    {
        let all = self.teller.take(rt, alloc)?;
        for asked in &all {
            settle(rt, engine, desk, asks, asked)?;
        }
        asks.add_lines(lines, &all)?;
        self.told = self.told.saturating_add(all.len() as u64);
        Ok(())
    }

    // Writes what is new: the entries, what devices are asked in them, and what has changed by them of
    // the watched fields.
    fn write_new<B: EngineName<D>, D: Device, C: Drop, R: Wait>(
        &mut self,
        rt: &R,
        alloc: Global,
        engine: &Engine<B, D, C>,
        desk: &mut Desk<B, D>,
        asks: &Asks,
    ) -> Result<(), RunFault> {
        let mut text = Vec::new(alloc);
        self.add_asks(rt, alloc, engine, desk, asks, &mut text)?;
        add_marked(rt, alloc, engine, desk, &mut self.watches, &mut text)?;
        self.write_entries(rt, engine, desk)?;
        if text.is_empty() {
            return Ok(());
        }
        self.write_text(&text)
    }

    // Takes a watched field, and writes its first line, behind the entries that it tells of.
    fn watch<B: EngineName<D>, D: Device, C: Drop, R: Wait>(
        &mut self,
        rt: &R,
        alloc: Global,
        engine: &Engine<B, D, C>,
        desk: &mut Desk<B, D>,
        number: RecordNo,
        watch: Watch,
    ) -> Result<(), RunFault> {
        self.watches.add(alloc, number, watch)?;
        let mut text = Vec::new(alloc);
        add_changes(
            rt,
            alloc,
            engine,
            desk,
            number,
            &mut self.watches,
            &mut text,
        )?;
        self.write_entries(rt, engine, desk)?;
        self.write_text(&text)
    }
}

impl<'a, W: Write + Drop, J: Write + Drop> Streams<'a, W, J> {
    /// Takes what is written to. No field is watched yet.
    pub fn new(
        alloc: Global,
        lines: W,
        journal: Option<JournalWriter<J>>,
        asks: &'a Asks,
        saving: Option<&'a Saving>,
    ) -> Self {
        Streams {
            written: Mutex::new(Written {
                lines,
                journal,
                pace: Pace::new(),
                teller: asks.teller(),
                told: 0,
                watches: Watches::new(alloc),
                fault: None,
            }),
            asks,
            saving,
        }
    }

    /// Writes whole lines, or a prompt, at once.
    ///
    /// # Errors
    ///
    /// [`RunFault::Write`] if a write fails, or the fault of an earlier one.
    pub fn write<R: Wait>(&self, rt: &R, text: &[u8]) -> Result<(), RunFault> {
        let mut guard = self.written.lock(rt);
        let written = &mut *guard;
        written.check()?;
        let done = written.write_text(text);
        written.keep(done)
    }

    /// Writes what is new in the journal, if it is kept, then a line for each device outside that was
    /// asked something, and for each watched field whose change is due.
    ///
    /// # Errors
    ///
    /// [`RunFault::Journal`] or [`RunFault::Write`] if a write fails. [`RunFault::Memory`] if
    /// allocation fails. The same if an earlier write has failed.
    pub fn write_new<B: EngineName<D>, D: Device, C: Drop, R: Wait>(
        &self,
        rt: &R,
        alloc: Global,
        engine: &Engine<B, D, C>,
        desk: &mut Desk<B, D>,
    ) -> Result<(), RunFault> {
        let mut guard = self.written.lock(rt);
        let written = &mut *guard;
        written.check()?;
        let done = written.write_new(rt, alloc, engine, desk, self.asks);
        written.keep(done)
    }

    /// Watches a field of a record from now on, and writes the line of what it is now.
    ///
    /// # Errors
    ///
    /// As [`Engine::watch`] and [`Streams::write_new`].
    pub fn watch<B: EngineName<D>, D: Device, C: Drop, R: Wait>(
        &self,
        rt: &R,
        alloc: Global,
        engine: &Engine<B, D, C>,
        desk: &mut Desk<B, D>,
        number: RecordNo,
        watch: Watch,
    ) -> Result<(), LineFault> {
        let mut guard = self.written.lock(rt);
        let written = &mut *guard;
        written.check()?;
        engine.watch(rt, number)?;
        let done = written.watch(rt, alloc, engine, desk, number, watch);
        Ok(written.keep(done)?)
    }

    /// Watches a field of a record no more, which this word watches.
    ///
    /// # Errors
    ///
    /// A refusal with [`IocError::NoField`] if the word watches nothing.
    pub fn unwatch<B: EngineName<D>, D: Device, C: Drop, R: Wait>(
        &self,
        rt: &R,
        engine: &Engine<B, D, C>,
        number: RecordNo,
        word: &[u8],
    ) -> Result<(), LineFault> {
        let mut guard = self.written.lock(rt);
        let written = &mut *guard;
        match written.watches.remove(number, word) {
            Removal::NotWatched => Err(LineFault::Refused(IocError::NoField)),
            Removal::OneOfMany => Ok(()),
            Removal::LastOfRecord => {
                engine.unwatch(rt, number)?;
                Ok(())
            }
        }
    }

    /// Makes a checkpoint. If the journal is kept, the entries that leave memory are written.
    ///
    /// # Errors
    ///
    /// As [`Engine::checkpoint`], or [`RunFault::Journal`] if a write fails.
    pub fn checkpoint<B: EngineName<D>, D: Device, C: Drop, R: Wait>(
        &self,
        rt: &R,
        engine: &Engine<B, D, C>,
        desk: &mut Desk<B, D>,
    ) -> Result<(), LineFault> {
        let mut guard = self.written.lock(rt);
        let written = &mut *guard;
        written.check()?;
        let Some(writer) = &mut written.journal else {
            return Ok(engine.checkpoint(rt)?);
        };
        let done = writer.checkpoint(rt, engine, desk);
        Ok(written.keep(done)?)
    }

    /// Counts a tick that begins so many nanoseconds after the start of the clock.
    pub fn count_tick<R: Wait>(&self, rt: &R, next: Next, elapsed: u64) {
        let mut guard = self.written.lock(rt);
        let written = &mut *guard;
        written.pace.count(next, elapsed);
    }

    /// Returns how the run is doing.
    pub fn counts<R: Wait>(&self, rt: &R) -> Counts {
        let guard = self.written.lock(rt);
        let written = &*guard;
        Counts {
            pace: written.pace,
            entries: match &written.journal {
                Some(writer) => Some((writer.place(), writer.in_memory())),
                None => None,
            },
            told: written.told,
            watches: written.watches.len(),
            saves: match self.saving {
                Some(saving) => Some(saving.counts()),
                None => None,
            },
        }
    }

    /// Returns the journal, if it is kept. No other thread writes any more.
    pub fn journal(&mut self) -> &mut Option<JournalWriter<J>> {
        &mut self.written.get_mut().journal
    }

    /// Writes lines. No other thread writes any more.
    ///
    /// # Errors
    ///
    /// [`RunFault::Write`] if a write fails.
    pub fn write_last(&mut self, text: &[u8]) -> Result<(), RunFault> {
        self.written.get_mut().write_text(text)
    }
}

/// The lines of a run as a writer: each write is one of [`Streams::write`].
#[derive(Drop)]
pub struct LineWriter<'s, 'a, W: Write + Drop, J: Write + Drop, R: Wait> {
    rt: &'s R,
    streams: &'s Streams<'a, W, J>,
    /// Why the last write that failed did.
    pub fault: Option<RunFault>,
}

impl<'s, 'a, W: Write + Drop, J: Write + Drop, R: Wait> LineWriter<'s, 'a, W, J, R> {
    /// No write has failed yet.
    pub fn new(rt: &'s R, streams: &'s Streams<'a, W, J>) -> Self {
        LineWriter {
            rt,
            streams,
            fault: None,
        }
    }
}

impl<W: Write + Drop, J: Write + Drop, R: Wait> Write for LineWriter<'_, '_, W, J, R> {
    ghost use Rattle.std.specs.Prelude.{None};

    ghost contents = { λ _. None };

    fn write(&mut self, bytes: &[u8]) -> io::Result<usize> {
        match self.streams.write(self.rt, bytes) {
            Ok(()) => Ok(bytes.len()),
            Err(fault) => {
                self.fault = Some(fault);
                Err(io::Error::from(ErrorKind::Other))
            }
        }
    }

    fn flush(&mut self) -> io::Result<()> {
        Ok(())
    }
}
