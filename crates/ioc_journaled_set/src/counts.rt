//! The share that a set has of the engine's counts.
ghost use Rattle.std.specs.Prelude.{◌≡◌, ◌<◌, ◌≤◌, ◌-◌, length, IsSome, None, Some};
ghost use Rattle.std.specs.FinMap.{len};
ghost use Rattle.ioc_journal.specs.Counting.{once_in, sent_in};
ghost use Rattle.ioc_ledger.specs.Shared.{share_view, less_awaited};
ghost use Rattle.ioc_set.specs.Linking.{awaited_alone};
ghost use Rattle.ioc_set.specs.SetStore.{world_of};

use ioc_journal::{
    EngineCounts, EventCounts, JournalName, RequestTickets, SentCounts, SharedJournal,
};
use ioc_ledger::{Tally, TallyShare, Ticket};
use ioc_record::RecordKind;
use ioc_set::{EventBuffers, LockSet};
use ioc_store::OutboxItem;
use std::sync::Wait;

// Returns the number of once requests among these items.
fn count_once(items: &[OutboxItem]) -> u64
    ensures { result ≡ length (once_in items.now) }
{
    let mut count = 0;
    for item in items {
        if let OutboxItem::Once(_) = item {
            count += 1;
        }
    }
    count
}

/// Takes the share of a set with records.
#[inline(always)]
pub(crate) fn take_share<K: RecordKind, B: JournalName<K>>(
    share: &mut Option<TallyShare<EngineCounts<K, B>>>,
) -> TallyShare<EngineCounts<K, B>>
    requires there { IsSome share.old }
    ensures share { share.old ≡ Some result }
    ensures taken { share.new ≡ None }
{
    let Some(own) = share.take() else {
        unreachable!();
    };
    own
}

/// Returns what an event on a set has counted: the set's share, with its counts before and after the
/// event, the number of once requests that the event has sent, and that of the items that it has
/// dropped. Takes the ticket that the event came with, if it came from a queue.
#[inline(always)]
pub(crate) fn counts_since<K: RecordKind, B: JournalName<K>, D>(
    share: TallyShare<EngineCounts<K, B>>,
    before: Tally,
    set: &LockSet<K, D>,
    buffers: &EventBuffers<K, D>,
    ticket: &mut Option<Ticket<RequestTickets<K, B>>>,
) -> EventCounts<K, B>
    ensures share { result.share ≡ Some share }
    ensures counts { (result.before ≡ before) × (result.after ≡ set.now.tally) }
    ensures sent { result.sent ≡ sent_in (world_of buffers.now.store) }
    ensures once { result.sent.once ≡ length (once_in (world_of buffers.now.store).outbox) }
    ensures ticket { result.ticket ≡ ticket.old }
    ensures spent { ticket.new ≡ None }
{
    EventCounts {
        sent: SentCounts {
            once: count_once(buffers.items()),
            dropped: buffers.dropped(),
        },
        share: Some(share),
        before,
        after: set.tally(),
        ticket: ticket.take(),
    }
}

/// Divides the share of a set that was divided, and had `started` calls that are answered later: the
/// rest gets a part for each of its records, and the answers that these await.
pub(crate) fn divide_share<K: RecordKind, B: JournalName<K>, D, R: Wait>(
    rt: &R,
    journal: &SharedJournal<K, B>,
    share: &mut TallyShare<EngineCounts<K, B>>,
    started: u64,
    rest: &LockSet<K, D>,
) -> TallyShare<EngineCounts<K, B>>
    requires parts { len rest.now.records < share.old.parts }
    requires started { started ≡ share.old.counts.started }
    requires enough { rest.now.tally.started ≤ started }
    requires awaited { 0 < rest.now.tally.started → 0 < len rest.now.records }
    ensures share { share.new ≡ share_view (share.old.parts - len rest.now.records) (less_awaited share.old.counts rest.now.tally.started) }
    ensures rest { result ≡ share_view (len rest.now.records) (awaited_alone rest.now.tally.started) }
{
    let mut other = share.split_off(rest.len() as u64);
    journal.divide_started(rt, share, &mut other, started, rest.tally().started);
    other
}
