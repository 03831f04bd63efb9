//! What a call of an engine looks at before it begins.
use std::sync::atomic::{AtomicU64, Ordering};

// Calls begin.
const OPEN: u64 = 0;

// The next call counts the free places of the journal before it begins.
const TO_COUNT: u64 = 1;

// No call begins any more.
const CLOSED: u64 = 2;

/// Whether a call of an engine begins at once, counts the free places of the journal first, or
/// doesn't begin any more. It is one number, so that a call reads one.
#[derive(Drop)]
pub struct Gate {
    state: AtomicU64,
}

impl Gate {
    /// Creates an open gate.
    pub fn new() -> Self {
        Gate {
            state: AtomicU64::new(OPEN),
        }
    }

    /// Returns whether a call begins at once.
    #[inline(always)]
    pub fn is_open(&self) -> bool {
        self.state.load(Ordering::SeqCst) == OPEN
    }

    /// Closes it for good.
    pub fn close(&self) {
        self.state.store(CLOSED, Ordering::SeqCst);
    }

    /// Returns whether it was closed.
    pub fn is_closed(&self) -> bool {
        self.state.load(Ordering::SeqCst) == CLOSED
    }

    /// Lets the next call count the free places, unless the gate was closed.
    pub fn ask_to_count(&self) {
        let _was = self
            .state
            .compare_exchange(OPEN, TO_COUNT, Ordering::SeqCst, Ordering::SeqCst);
    }

    /// Returns whether the free places are to be counted. The caller counts them, and no other.
    pub fn takes_count(&self) -> bool {
        let was = self
            .state
            .compare_exchange(TO_COUNT, OPEN, Ordering::SeqCst, Ordering::SeqCst);
        was.is_ok()
    }
}
