//! Attempts at the locks of sets, which give up if a call keeps one for long.
use crate::locked::Locked;
use crossbeam_utils::Backoff;
use std::sync::{Mutex, MutexGuard, Wait};

// The number of attempts before a lock counts as busy. After the first ones, other threads run
// between two attempts.
const ATTEMPTS: u32 = 64;

/// The lock of a set that a call keeps for long, as one does while the device of a record is asked.
#[derive(Drop)]
pub struct Busy<'a, S: Locked> {
    lock: &'a Mutex<S>,
}

impl<'a, S: Locked> Busy<'a, S> {
    /// Waits until the lock is free. The caller holds no lock of the directory, so no other caller
    /// waits for the set meanwhile.
    pub fn wait<R: Wait>(&self, rt: &R) {
        drop(self.lock.lock(rt));
    }

    /// Waits until the lock is free, but only for a moment.
    pub fn pause(&self) {
        drop(lock_briefly(self.lock));
    }
}

/// Locks a set. Calls that ask no device keep the lock only briefly, so it is tried repeatedly.
///
/// # Errors
///
/// [`Busy`] if a call keeps the lock for longer.
pub(crate) fn lock_briefly<'a, S: Locked>(
    lock: &'a Mutex<S>,
) -> Result<MutexGuard<'a, S>, Busy<'a, S>> {
    let backoff = Backoff::new();
    for _ in 0..ATTEMPTS {
        if let Some(guard) = lock.try_lock() {
            return Ok(guard);
        }
        backoff.snooze();
    }
    Err(Busy { lock })
}
