//! The entries of the list.
ghost use Rattle.std.specs.Prelude.{◌≡◌, if◌then◌else◌, IfOk};
ghost use Rattle.ioc_journal.specs.Counting.{is_request, one_if_request};

use ioc_events::{Call, Entry, Event};
use std::alloc::{AllocError, Global};
use std::collections::LinkedList;

/// A call of a desk and its effect.
#[derive(Drop)]
pub struct JournalEntry {
    /// The number of the desk.
    pub desk: u64,
    /// The number of the call among the calls of this desk, from 0 on.
    pub call: u64,
    /// The call with its reply, its time stamp and the answers of devices in it.
    pub entry: Entry,
}

impl JournalEntry {
    /// Copies the entry.
    ///
    /// # Errors
    ///
    /// [`AllocError`] if allocation fails.
    pub fn copy(&self, alloc: Global) -> Result<Self, AllocError>
        ensures { IfOk result (λ copy. copy ≡ self.now) }
    {
        let entry = self.entry.copy(alloc)?;
        Ok(JournalEntry {
            desk: self.desk,
            call: self.call,
            entry,
        })
    }

    /// Returns whether the call is a request.
    pub fn is_request(&self) -> bool
        ensures is { result ≡ is_request self.now.entry.call }
        ensures one { one_if_request self.now.entry.call ≡ (if result then 1 else 0) }
    {
        matches!(self.entry.call, Call::Event(Event::Process { .. }, _))
    }
}

/// An entry with the keys, each a kind and a number, of all that it may have changed. It exists in
/// contracts only: no value of it is made.
pub struct Note {
    pub entry: JournalEntry,
    pub keys: LinkedList<(u64, u64)>,
}
