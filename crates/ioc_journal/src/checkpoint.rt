//! Checkpoints of a journal, at which the entries of its calls are dropped.
ghost use Rattle.std.specs.Prelude.{◌≡◌, ◌<◌, ◌+◌, ◌^◌, length, take, drop, IfSome, IfNone};
ghost use Rattle.ioc_journal.specs.Base.{IsBaseOf};
ghost use Rattle.ioc_journal.specs.Legal.{IsLegal, map_of};
ghost use Rattle.ioc_journal.specs.Places.{journal_of};

use crate::base::JournalBase;
use crate::free_places::FreePlaces;
use crate::journal::Journal;
use crate::journal_name::JournalName;
use ioc_record::RecordKind;

// The number of calls after which no more entries are dropped, so that places stay below 2^64.
const MOST_DROPPED: u64 = 1 << 63;

impl<K: RecordKind + Drop, B: JournalName<K>> Journal<K, B> {
    /// Drops the entries of all calls, and keeps the records that the calls lead to, from which
    /// later entries lead on. The places of the dropped entries are free then, with their memory.
    /// Returns `None` if there were more than 2^63 calls; nothing has changed then. It allocates
    /// nothing.
    pub fn drop_entries(&mut self, base: JournalBase<K>) -> Option<FreePlaces<K, B>>
        requires base { IsBaseOf (map_of K.rules B.base self.old.filled) base.records.items base.waiting.items }
        ensures dropped { IfSome result (λ _. self.new
            ≡ journal_of self.old.filled (length self.old.filled) self.old.given self.old.limit self.old.desks self.old.tickets) }
        ensures freed { IfSome result (λ free. self.old.dropped + free ≡ length self.old.filled) }
        ensures none { IfNone result ((self.new ≡ self.old) × (2 ^ 63 < length self.old.filled)) }
    {
        let calls = self.len();
        if calls > MOST_DROPPED {
            return None;
        }
        let free = self.entries.clear();
        self.dropped = calls;
        self.from = Some(base);
        Some(free)
    }
}

impl<K: RecordKind, B: JournalName<K>> Journal<K, B> {
    /// Returns the number of calls whose entries were dropped.
    pub fn dropped(&self) -> u64
        ensures { result ≡ self.now.dropped }
    {
        self.dropped
    }

    /// Returns the records to which the dropped calls lead, or `None` if none were dropped. The
    /// other calls are legal from there on.
    pub fn base(&self) -> Option<&JournalBase<K>>
        ensures base { IfSome result (λ base. IsBaseOf (map_of K.rules B.base (take self.now.dropped self.now.filled))
            base.now.records.items base.now.waiting.items) }
        ensures none { IfNone result (self.now.dropped ≡ 0) }
        ensures legal { IsLegal K.rules (map_of K.rules B.base (take self.now.dropped self.now.filled))
            (drop self.now.dropped self.now.filled) }
    {
        self.from.as_ref()
    }
}
