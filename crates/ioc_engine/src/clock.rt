//! The clock of the system, and one that counts.
use ioc_engine_core::Clock;
use std::sync::atomic::{AtomicU64, Ordering};
use std::time::{self, SystemTime};

/// The clock of the system. It gives 0 if the system has no time, or a time before 1970 or after
/// 2554. It may go back when the system's time is set.
///
/// ```rust
/// let clock = SystemClock::new(&rt);
/// let Started { engine, .. } = Engine::<B, _, _>::start(rt, alloc, seed, clock, Limits::default())?;
/// ```
#[derive(Drop)]
pub struct SystemClock<R: time::Clock> {
    handle: R,
}

impl<R: time::Clock> SystemClock<R> {
    /// Creates a clock that reads the time by a handle of the runtime.
    pub fn new(handle: R) -> Self {
        SystemClock { handle }
    }
}

impl<R: time::Clock> Clock for SystemClock<R> {
    fn now(&self) -> u64 {
        let Ok(time) = SystemTime::now(&self.handle) else {
            return 0;
        };
        match time.duration_since(SystemTime::UNIX_EPOCH) {
            Ok(since) => u64::try_from(since.as_nanos()).unwrap_or(0),
            Err(_before) => 0,
        }
    }
}

/// A clock that counts its readings: 1, 2, 3 and so on, with 0 after 2^64 - 1. Threads that share
/// it don't read the same number, so that calls have different time stamps.
///
/// ```rust
/// let Started { engine, .. } = Engine::<B, _, _>::start(rt, alloc, seed, CountingClock::new(), Limits::default())?;
/// ```
#[derive(Drop)]
pub struct CountingClock {
    read: AtomicU64,
}

impl CountingClock {
    /// Creates a clock that wasn't read yet.
    pub fn new() -> Self {
        CountingClock {
            read: AtomicU64::new(0),
        }
    }
}

impl Clock for CountingClock {
    fn now(&self) -> u64 {
        self.read.fetch_add(1, Ordering::SeqCst).wrapping_add(1)
    }
}
