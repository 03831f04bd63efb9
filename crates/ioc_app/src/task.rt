//! What the first thread of a run does.
use crate::fault::RunFault;
use crate::streams::Streams;
use ioc_engine::{Clock, Desk, Device, Engine, EngineName, IocError};
use ioc_scan_rules::periods_of;
use std::alloc::Global;
use std::io::Write;
use std::sync::Wait;

/// What the first thread of a run does, while others serve the requests that wait.
pub trait Task {
    /// Does all of the task by a desk of an engine. If the journal is kept, its new entries are
    /// written as the task goes on.
    ///
    /// # Errors
    ///
    /// Why the task ends early.
    fn work<
        B: EngineName<D>,
        D: Device,
        C: Clock + Drop,
        W: Write + Drop,
        J: Write + Drop,
        R: Wait,
    >(
        &mut self,
        rt: &R,
        alloc: Global,
        engine: &Engine<B, D, C>,
        desk: &mut Desk<B, D>,
        streams: &Streams<'_, W, J>,
    ) -> Result<(), RunFault>;

    /// Returns whether the task may go on for months, so that the engine keeps few entries in memory.
    fn is_endless(&self) -> bool;

    /// Returns whether another thread walks the periods by a clock meanwhile.
    fn has_clock(&self) -> bool;
}

/// Walks the periods of so many ticks, without waiting between them.
#[derive(Clone, Copy, Debug)]
pub struct Ticks(pub u64);

// Returns the fault of a call that the engine refused. No call is refused for another reason than
// memory before the engine is closed.
pub(crate) fn fault_of(_refused: IocError) -> RunFault {
    RunFault::Memory
}

/// Walks the periods of the tick with this number, and returns how many records were requested.
///
/// # Errors
///
/// [`RunFault::Memory`] if allocation fails.
pub fn tick<B: EngineName<D>, D: Device, C: Clock + Drop, R: Wait>(
    rt: &R,
    alloc: Global,
    engine: &Engine<B, D, C>,
    desk: &mut Desk<B, D>,
    number: u64,
) -> Result<u64, RunFault> {
    let mut requested = 0u64;
    for choice in periods_of(alloc, number)? {
        match engine.scan(rt, desk, choice) {
            Ok(count) => requested = requested.saturating_add(count as u64),
            Err(refused) => return Err(fault_of(refused)),
        }
    }
    Ok(requested)
}

impl Task for Ticks {
    fn work<
        B: EngineName<D>,
        D: Device,
        C: Clock + Drop,
        W: Write + Drop,
        J: Write + Drop,
        R: Wait,
    >(
        &mut self,
        rt: &R,
        alloc: Global,
        engine: &Engine<B, D, C>,
        desk: &mut Desk<B, D>,
        streams: &Streams<'_, W, J>,
    ) -> Result<(), RunFault> {
        for number in 1..=self.0 {
            tick(rt, alloc, engine, desk, number)?;
            streams.write_new(rt, alloc, engine, desk)?;
        }
        Ok(())
    }

    fn is_endless(&self) -> bool {
        false
    }

    fn has_clock(&self) -> bool {
        false
    }
}
