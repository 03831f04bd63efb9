//! Runs of the program.
ghost use Rattle.std.specs.Thread.{IsSend};
ghost use Rattle.ioc_engine.specs.Named.{IsNamedBy};

use crate::fault::RunFault;
use crate::going_on::Sizes;
use crate::journal::JournalWriter;
use crate::live::{ClockDesks, beside_clock};
use crate::report::end;
use crate::saving::Saving;
use crate::streams::Streams;
use crate::task::{Task, fault_of};
use ioc_devices::Asks;
use ioc_engine::{
    Clock, Database, Desk, Device, DeviceName, Engine, EngineName, Limits, RecordNo, Seed, Started,
};
use ioc_files::ReplaceFiles;
use ioc_journal_lines::Header;
use ioc_saved::SavedValue;
use std::alloc::{AllocError, Global};
use std::io::Write;
use std::marker::Brand;
use std::sync::Wait;
use std::thread::{self, Threads};
use std::time;

/// The number of calls that a journal can take.
pub(crate) const PLACES: u64 = 4_194_304;

// The number of entries that stay in memory in a run that may go on for months.
const KEPT: u64 = 65_536;

// The number of requests that can wait at the same time.
const MAX_WAITING: usize = 7_000;

/// The devices of a run.
#[derive(Drop)]
pub enum PlantDevices<D: Drop> {
    /// Each belongs to the first record that has a link with its name.
    Named(Vec<(DeviceName, D)>),
    /// Each belongs to the record with its number: each record with a device link has one of its own.
    Own(Vec<(RecordNo, D)>),
}

/// What a run works with: the records of a loaded database, their devices, the clock, and the number
/// of threads that serve requests.
#[derive(Drop)]
pub struct Plant<D: Drop, C: Drop> {
    pub database: Database,
    pub devices: PlantDevices<D>,
    pub clock: C,
    pub workers: u64,
}

/// The file of a journal, with its first lines.
#[derive(Drop)]
pub struct JournalFile<J: Write + Drop> {
    pub file: J,
    pub header: Header,
    /// The values that were restored before the run.
    pub restored: Vec<SavedValue>,
    /// If the journal goes on in other files, when it does. Each of them begins with a header, which is
    /// written to `file` at once with the lines behind it.
    pub sizes: Option<Sizes>,
}

/// Where a run writes to: lines, and the journal if it is kept.
#[derive(Drop)]
pub struct Outputs<'a, W: Write + Drop, J: Write + Drop> {
    pub lines: W,
    pub journal: Option<JournalFile<J>>,
    /// What devices outside are asked, which is told in lines.
    pub asks: &'a Asks,
    /// What is saved while a live run goes on, if anything is.
    pub saving: Option<&'a Saving>,
}

// Serves the requests that wait, until none does or many were served.
fn serve_waiting<B: EngineName<D>, D: Device, C: Clock + Drop, R: Wait>(
    rt: &R,
    engine: &Engine<B, D, C>,
    desk: &mut Desk<B, D>,
) {
    for _ in 0..MAX_WAITING {
        if !engine.serve_one(rt, desk) {
            break;
        }
    }
}

// Does a task, by the clock if there are desks for it, serves the requests that wait then, and closes
// the engine.
fn work_and_close<
    B: EngineName<D> + Send + Sync,
    D: Device + Send + Sync,
    C: Clock + Drop + Send + Sync,
    T: Task,
    W: Write + Drop + Send,
    J: Write + Drop + Send,
    R: ReplaceFiles + time::Clock + Threads + Wait + Sync,
>(
    rt: &R,
    alloc: Global,
    engine: &Engine<B, D, C>,
    desk: Desk<B, D>,
    clock: Option<ClockDesks<B, D>>,
    task: &mut T,
    streams: &Streams<'_, W, J>,
) -> Result<(), RunFault> {
    let mut desk = desk;
    let worked = match clock {
        Some(clock) => beside_clock(rt, alloc, engine, &mut desk, clock, task, streams),
        None => task.work(rt, alloc, engine, &mut desk, streams),
    };
    if worked.is_ok() {
        serve_waiting(rt, engine, &mut desk);
    }
    engine.close(rt);
    worked
}

// Opens a desk.
fn open_desk<B: EngineName<D>, D: Device, C: Clock + Drop, R: Wait>(
    rt: &R,
    engine: &Engine<B, D, C>,
) -> Result<Desk<B, D>, RunFault> {
    match engine.desk(rt) {
        Ok(desk) => Ok(desk),
        Err(refused) => Err(fault_of(refused)),
    }
}

// Opens the desks of the threads beside a task that has a clock, one of which saves values.
fn clock_desks<B: EngineName<D>, D: Device, C: Clock + Drop, R: Wait>(
    rt: &R,
    engine: &Engine<B, D, C>,
    has_clock: bool,
    saves: bool,
) -> Result<Option<ClockDesks<B, D>>, RunFault> {
    if !has_clock {
        return Ok(None);
    }
    let ticking = open_desk(rt, engine)?;
    let saving = if saves {
        Some(open_desk(rt, engine)?)
    } else {
        None
    };
    Ok(Some(ClockDesks { ticking, saving }))
}

// Opens this many desks.
fn desks<B: EngineName<D>, D: Device, C: Clock + Drop, R: Wait>(
    rt: &R,
    alloc: Global,
    engine: &Engine<B, D, C>,
    count: u64,
) -> Result<Vec<Desk<B, D>>, RunFault> {
    let mut desks = Vec::new(alloc);
    for _ in 0..count {
        let desk = open_desk(rt, engine)?;
        if desks.push(desk).is_err() {
            return Err(RunFault::Memory);
        }
    }
    Ok(desks)
}

// Serves the requests that wait, until the engine is closed.
fn serve<B: EngineName<D>, D: Device, C: Clock + Drop, R: Wait>(
    rt: &R,
    engine: &Engine<B, D, C>,
    desk: Desk<B, D>,
) -> Result<(), RunFault> {
    match engine.work(rt, desk) {
        Ok(_desk) => Ok(()),
        Err(refused) => Err(fault_of(refused)),
    }
}

// Serves the requests that wait in as many threads as there are desks.
fn serve_all<
    B: EngineName<D> + Send + Sync,
    D: Device + Send + Sync,
    C: Clock + Drop + Send + Sync,
    R: Threads + Wait + Sync,
>(rt: &R, engine: &Engine<B, D, C>, desks: Vec<Desk<B, D>>) -> Result<(), RunFault> {
    let each = |desk: Desk<B, D>| serve(rt, engine, desk);
    for served in thread::map_vec(rt, desks, &each)? {
        served?;
    }
    Ok(())
}

// Does a task in one thread, while others serve the requests that wait.
fn in_threads<
    B: EngineName<D> + Send + Sync,
    D: Device + Send + Sync,
    C: Clock + Drop + Send + Sync,
    T: Task,
    W: Write + Drop + Send,
    J: Write + Drop + Send,
    R: ReplaceFiles + time::Clock + Threads + Wait + Sync,
>(
    rt: &R,
    alloc: Global,
    engine: &Engine<B, D, C>,
    workers: u64,
    task: &mut T,
    streams: &Streams<'_, W, J>,
) -> Result<(), RunFault> {
    let desk = open_desk(rt, engine)?;
    let clock = clock_desks(rt, engine, task.has_clock(), streams.saving.is_some())?;
    let workers = desks(rt, alloc, engine, workers)?;
    let (served, worked) = thread::join(
        rt,
        || serve_all(rt, engine, workers),
        || -> Result<(), RunFault>
            requires { IsSend B.row × IsSend D.row × IsSend C.row × IsSend W.row × IsSend J.row }
        { work_and_close(rt, alloc, engine, desk, clock, task, streams) },
    );
    worked?;
    served
}

// Begins a journal, if it is kept.
fn writer_of<J: Write + Drop>(
    alloc: Global,
    journal: Option<JournalFile<J>>,
    is_endless: bool,
) -> Result<Option<JournalWriter<J>>, RunFault> {
    let Some(
        JournalFile {
            file,
            header,
            restored,
            sizes,
        },
    ) = journal
    else {
        return Ok(None);
    };
    let most = if is_endless { KEPT } else { PLACES / 4 };
    let writer = JournalWriter::begin(alloc, file, &header, &restored, most, sizes)?;
    Ok(Some(writer))
}

// Returns the limits of an engine, which makes its checkpoints itself if its journal isn't kept. Sets
// keep one event each, and a run that may go on for months keeps few entries too.
fn limits(is_kept: bool, is_endless: bool) -> Limits {
    match (is_kept, is_endless) {
        (true, _) => Limits {
            journal: PLACES,
            checkpoint_at: 0,
            history: 1,
        },
        (false, true) => Limits {
            journal: 4 * KEPT,
            checkpoint_at: KEPT,
            history: 1,
        },
        (false, false) => Limits {
            history: 1,
            ..Limits::of(PLACES)
        },
    }
}

// Runs an engine of any name, and returns what it leaves.
fn work<
    B: EngineName<D> + Send + Sync,
    D: Device + Send + Sync,
    C: Clock + Drop + Send + Sync,
    T: Task,
    W: Write + Drop + Send,
    J: Write + Drop + Send,
    R: ReplaceFiles + time::Clock + Threads + Wait + Sync,
>(
    rt: &R,
    alloc: Global,
    seed: Seed<D>,
    clock: C,
    workers: u64,
    task: &mut T,
    streams: &mut Streams<'_, W, J>,
) -> Result<(), RunFault>
    requires named { IsNamedBy B.table B.base B.devices B.places B.tickets B.counts seed }
{
    let limits = limits(streams.journal().is_some(), task.is_endless());
    let Ok(Started { engine, .. }) = Engine::<B, D, C>::start(rt, alloc, seed, clock, limits) else {
        return Err(RunFault::Start);
    };
    let ran = in_threads(rt, alloc, &engine, workers, task, streams);
    end(rt, alloc, engine.stop(rt), ran, streams)
}

// Runs an engine, and returns what it leaves.
fn run<
    D: Device + Send + Sync,
    C: Clock + Drop + Send + Sync,
    T: Task,
    W: Write + Drop + Send,
    J: Write + Drop + Send,
    R: ReplaceFiles + time::Clock + Threads + Wait + Sync,
>(
    rt: &R,
    alloc: Global,
    seed: Seed<D>,
    clock: C,
    workers: u64,
    task: &mut T,
    streams: &mut Streams<'_, W, J>,
) -> Result<(), RunFault> {
    work::<Brand, D, C, T, W, J, R>(rt, alloc, seed, clock, workers, task, streams)
}

// Returns the seed of a database with these devices.
fn seed_of<D: Drop>(
    alloc: Global,
    database: Database,
    devices: PlantDevices<D>,
) -> Result<Seed<D>, AllocError> {
    match devices {
        PlantDevices::Named(devices) => Seed::new(alloc, database, devices),
        PlantDevices::Own(devices) => Seed::with_own_devices(alloc, database, devices),
    }
}

/// Does a task with the records of a database, while as many threads serve the requests that wait.
/// Then it writes a line for each record, in the order of the database text, and the line of the
/// counts of requests. If the journal is kept, each of its entries is a line of its file, behind its
/// header, and its end is the last line if the run ends well. If values are saved, they are saved once
/// more at the end.
///
/// # Errors
///
/// [`RunFault::Start`] if allocation fails before the task begins, and [`RunFault::Memory`] if it
/// fails later. [`RunFault::Journal`] or [`RunFault::Write`] if a write fails, and
/// [`RunFault::Read`] if a read of the task fails. [`RunFault::Save`] if values can't be saved at the
/// end.
pub fn ioc_run<
    D: Device + Send + Sync,
    C: Clock + Drop + Send + Sync,
    T: Task,
    W: Write + Drop + Send,
    J: Write + Drop + Send,
    R: ReplaceFiles + time::Clock + Threads + Wait + Sync,
>(
    rt: &R,
    alloc: Global,
    plant: Plant<D, C>,
    task: &mut T,
    outputs: Outputs<'_, W, J>,
) -> Result<(), RunFault> {
    let Plant {
        database,
        devices,
        clock,
        workers,
    } = plant;
    let Outputs {
        lines,
        journal,
        asks,
        saving,
    } = outputs;
    let writer = writer_of(alloc, journal, task.is_endless())?;
    let mut streams = Streams::new(alloc, lines, writer, asks, saving);
    let Ok(seed) = seed_of(alloc, database, devices) else {
        return Err(RunFault::Start);
    };
    run(rt, alloc, seed, clock, workers, task, &mut streams)
}
