//! What an event counts: requests by their outcomes, answers of devices, once requests, and items that
//! were dropped.
ghost use Rattle.std.specs.Prelude.{◌≡◌, ◌+◌, None, IfSome};
ghost use Rattle.ioc_ledger.specs.Requests.{capped};
ghost use Rattle.ioc_journal.specs.Counting.{sent_counts, nothing_sent, IsBacked, IsCountedOn, IsGivenBack, IsRecorded};

use crate::journal_name::JournalName;
use crate::request_tickets::RequestTickets;
use ioc_ledger::{CountNames, Tally, TallyBook, TallyShare, Ticket};
use std::marker::PhantomData;

/// Names the ledgers of an engine's counts.
pub struct EngineCounts<K, B: JournalName<K>> {
    of: PhantomData<B>,
    kind: PhantomData<K>,
}

impl<K, B: JournalName<K>> CountNames for EngineCounts<K, B> {
    ghost counts = { B.counts };
}

/// What an event has sent, in numbers.
#[derive(Clone, Copy, PartialEq, Eq, Debug, Default)]
pub struct SentCounts {
    /// The number of once requests that it has sent.
    pub once: u64,
    /// The number of items that it has dropped: it had sent 256 already, or the record has no number
    /// left for a change of its scan list.
    pub dropped: u64,
}

/// What an event counts.
#[derive(Drop)]
pub struct EventCounts<K, B: JournalName<K>> {
    /// What it sends.
    pub sent: SentCounts,
    /// The ticket that the request came with from a queue, if it did.
    pub ticket: Option<Ticket<RequestTickets<K, B>>>,
    /// The share of the set on which the event was done, or `None` if the event counts nothing.
    pub share: Option<TallyShare<EngineCounts<K, B>>>,
    /// The counts of the set before the event.
    pub before: Tally,
    /// The counts of the set after the event.
    pub after: Tally,
}

impl<K, B: JournalName<K>> EventCounts<K, B> {
    /// The counts of an event that counts nothing, sends no once request, and drops nothing.
    pub fn none() -> Self
        ensures share { result.share ≡ None }
        ensures sent { result.sent ≡ nothing_sent }
        ensures ticket { result.ticket ≡ None }
    {
        EventCounts::dropping(0)
    }

    /// The counts of an event that counts nothing and sends no once request, but has dropped this many
    /// items.
    pub fn dropping(dropped: u64) -> Self
        ensures share { result.share ≡ None }
        ensures sent { result.sent ≡ sent_counts 0 dropped }
        ensures ticket { result.ticket ≡ None }
    {
        EventCounts {
            sent: SentCounts { once: 0, dropped },
            ticket: None,
            share: None,
            before: Tally::default(),
            after: Tally::default(),
        }
    }
}

// Counts the items that an event has dropped, up to 2^64 - 1.
#[inline(always)]
pub(crate) fn count_dropped(total: &mut u64, sent: SentCounts)
    ensures { total.new ≡ capped (total.old + sent.dropped) }
{
    *total = total.saturating_add(sent.dropped);
}

// Records in the book what an event has counted from one tally to another, and returns the share of
// its set.
#[inline(always)]
pub(crate) fn record_event<K, B: JournalName<K>>(
    book: &mut TallyBook<EngineCounts<K, B>>,
    share: Option<TallyShare<EngineCounts<K, B>>>,
    before: &Tally,
    after: &Tally,
) -> Option<TallyShare<EngineCounts<K, B>>>
    requires backed { IsBacked share before.now }
    requires adds { IfSome share (λ _. IsCountedOn before.now after.now) }
    ensures share { IsGivenBack share after.now result }
    ensures book { IsRecorded share before.now after.now book.old book.new }
{
    let mut share = share?;
    book.record(&mut share, before, after);
    Some(share)
}
