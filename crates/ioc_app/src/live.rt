//! The clock of a run.
ghost use Rattle.std.specs.Thread.{IsSend};

use crate::fault::RunFault;
use crate::pace::{next_tick, wait_for};
use crate::streams::Streams;
use crate::task::{Task, tick};
use ioc_command_line::Reason;
use ioc_engine::{Clock, Desk, Device, Engine, EngineName};
use ioc_files::ReplaceFiles;
use std::alloc::Global;
use std::io::Write;
use std::sync::Wait;
use std::thread::{self, Threads};
use std::time::{self, Duration, Instant};

/// The desks of the threads beside a task.
#[derive(Drop)]
pub struct ClockDesks<B: EngineName<D>, D: Device> {
    /// The desk by which a thread walks the periods.
    pub ticking: Desk<B, D>,
    /// The desk by which another thread saves values, or `None` if no values are saved.
    pub saving: Option<Desk<B, D>>,
}

// Returns how many nanoseconds have passed since the start; 0 if the time can't be read.
fn since<R: time::Clock>(rt: &R, start: &Instant) -> u64 {
    match start.elapsed(rt) {
        Ok(passed) => u64::try_from(passed.as_nanos()).unwrap_or(u64::MAX),
        Err(_) => 0,
    }
}

// Walks the periods of each tick when it is due, and writes what is new, until the asks are over.
fn keep_time<
    B: EngineName<D>,
    D: Device,
    C: Clock + Drop,
    W: Write + Drop,
    J: Write + Drop,
    R: time::Clock + Wait,
>(
    rt: &R,
    alloc: Global,
    engine: &Engine<B, D, C>,
    desk: Desk<B, D>,
    streams: &Streams<'_, W, J>,
) -> Result<(), RunFault> {
    let mut desk = desk;
    let start = match Instant::now(rt) {
        Ok(start) => start,
        Err(error) => return Err(RunFault::Read(Reason::of(&error))),
    };
    let mut last = 0u64;
    for _ in rt.forever() {
        if streams.asks.is_over() {
            break;
        }
        let elapsed = since(rt, &start);
        let next = next_tick(last, elapsed);
        let left = wait_for(next.tick, elapsed);
        if left == 0 {
            streams.count_tick(rt, next, elapsed);
            tick(rt, alloc, engine, &mut desk, next.tick)?;
            last = next.tick;
        } else {
            let alarm = streams.asks.alarm();
            alarm.park_timeout(rt, Duration::from_nanos(left));
        }
        streams.write_new(rt, alloc, engine, &mut desk)?;
    }
    Ok(())
}

// Does a task, and has the thread end then that tells of asks.
fn do_task<
    B: EngineName<D>,
    D: Device,
    C: Clock + Drop,
    T: Task,
    W: Write + Drop,
    J: Write + Drop,
    R: Wait,
>(
    rt: &R,
    alloc: Global,
    engine: &Engine<B, D, C>,
    desk: &mut Desk<B, D>,
    task: &mut T,
    streams: &Streams<'_, W, J>,
) -> Result<(), RunFault> {
    let worked = task.work(rt, alloc, engine, desk, streams);
    streams.asks.end();
    worked
}

// Does a task, while another thread saves values, if any are saved.
fn do_beside_saving<
    B: EngineName<D> + Send + Sync,
    D: Device + Send + Sync,
    C: Clock + Drop + Send + Sync,
    T: Task,
    W: Write + Drop + Send,
    J: Write + Drop + Send,
    R: ReplaceFiles + Threads + Wait + Sync,
>(
    rt: &R,
    alloc: Global,
    engine: &Engine<B, D, C>,
    desk: &mut Desk<B, D>,
    saving: Option<Desk<B, D>>,
    task: &mut T,
    streams: &Streams<'_, W, J>,
) -> Result<(), RunFault> {
    let (Some(values), Some(saver)) = (streams.saving, saving) else {
        return do_task(rt, alloc, engine, desk, task, streams);
    };
    let ((), worked) = thread::join(
        rt,
        || values.keep(rt, alloc, engine, saver),
        || {
            let worked = do_task(rt, alloc, engine, desk, task, streams);
            values.end();
            worked
        },
    );
    worked
}

/// Does a task by a desk of an engine, while another thread walks the periods once in each tenth of a
/// second by a desk of its own, tells what devices outside are asked, and writes the journal, and a third
/// one saves values, if any are saved.
///
/// # Errors
///
/// Why the task ends early, or why the other thread does.
pub fn beside_clock<
    B: EngineName<D> + Send + Sync,
    D: Device + Send + Sync,
    C: Clock + Drop + Send + Sync,
    T: Task,
    W: Write + Drop + Send,
    J: Write + Drop + Send,
    R: ReplaceFiles + time::Clock + Threads + Wait + Sync,
>(
    rt: &R,
    alloc: Global,
    engine: &Engine<B, D, C>,
    desk: &mut Desk<B, D>,
    clock: ClockDesks<B, D>,
    task: &mut T,
    streams: &Streams<'_, W, J>,
) -> Result<(), RunFault> {
    let ClockDesks { ticking, saving } = clock;
    let (kept, worked) = thread::join(
        rt,
        || keep_time(rt, alloc, engine, ticking, streams),
        || -> Result<(), RunFault>
            requires { IsSend B.row × IsSend D.row × IsSend C.row × IsSend W.row × IsSend J.row }
        { do_beside_saving(rt, alloc, engine, desk, saving, task, streams) },
    );
    worked?;
    kept
}
