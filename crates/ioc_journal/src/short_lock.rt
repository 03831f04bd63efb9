//! Locks that are held only briefly.
use std::hint;
use std::sync::{Mutex, MutexGuard, Wait};

// The number of further attempts at a locked value before the thread sleeps.
const TRIES: u32 = 40;

// The longest wait before an attempt is 2 to this power of pauses.
const LONGEST: u32 = 8;

/// Locks a value. Its lock is held for far less time than a thread takes to fall asleep and wake
/// up, so a locked value is tried repeatedly first.
#[inline(always)]
pub fn lock_soon<'a, T, R: Wait>(rt: &R, value: &'a Mutex<T>) -> MutexGuard<'a, T> {
    if let Some(guard) = value.try_lock() {
        return guard;
    }
    if let Some(guard) = try_again(value) {
        return guard;
    }
    value.lock(rt)
}

// Tries a locked value several times. Each attempt takes the lock's memory from the thread that
// holds the lock, so each wait is twice as long as the one before, up to the longest.
#[inline(never)]
fn try_again<T>(value: &Mutex<T>) -> Option<MutexGuard<'_, T>> {
    for attempt in 0..TRIES {
        for _ in 0..1u32 << attempt.min(LONGEST) {
            hint::spin_loop();
        }
        if let Some(guard) = value.try_lock() {
            return Some(guard);
        }
    }
    None
}
