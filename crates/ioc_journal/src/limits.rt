//! The limits of an engine.
ghost use Rattle.std.specs.Prelude.{◌≡◌, ◌/◌, ◌↔◌, IsTrue};
ghost use Rattle.ioc_journal.specs.Places.{AreAllowed};

/// The limits of an engine. The number of places in its journal is the number of calls that it can
/// take from one checkpoint to the next.
#[derive(Clone, Copy, PartialEq, Eq, Debug)]
pub struct Limits {
    /// The number of places in the journal, for entries and for calls on their way: from 1 to
    /// 4,194,304.
    pub journal: u64,
    /// If fewer places than this are free, a call makes a checkpoint first: at most `journal`, and by
    /// default a quarter of it. If it is 0, checkpoints are made only by `checkpoint`.
    pub checkpoint_at: u64,
    /// How many events a lock set keeps before it folds them into the copies of its records: from 1
    /// to 64, by default 64. Each takes 144 bytes.
    pub history: usize,
}

impl Default for Limits {
    ghost is_default = { λ limits. (limits.journal ≡ 100000) × (limits.checkpoint_at ≡ 25000) × (limits.history ≡ 64) };

    fn default() -> Limits {
        Limits {
            journal: 100_000,
            checkpoint_at: 25_000,
            history: 64,
        }
    }
}

impl Limits {
    /// Returns limits with a journal of this many places, a checkpoint if fewer than a quarter of them
    /// are free, and histories of 64 events.
    pub fn of(journal: u64) -> Self
        ensures journal { result.journal ≡ journal }
        ensures quarter { result.checkpoint_at ≡ journal / 4 }
        ensures history { result.history ≡ 64 }
    {
        Limits {
            journal,
            checkpoint_at: journal / 4,
            history: 64,
        }
    }

    /// Returns whether the limits are within their ranges.
    pub fn are_allowed(&self) -> bool
        ensures { IsTrue result ↔ AreAllowed self.now }
    {
        self.journal >= 1
            && self.journal <= 4_194_304
            && self.checkpoint_at <= self.journal
            && self.history >= 1
            && self.history <= 64
    }
}
