//! Auditors that go on behind entries of an earlier file.
ghost use Rattle.std.specs.Prelude.{◌≡◌, ◌++◌, ℕ, [], IsTrue, IfOk, IfSome};
ghost use Rattle.std.specs.Option.{option_copied};
ghost use Rattle.ioc_dbcommon.specs.Links.{named_by_field};
ghost use Rattle.ioc_record.specs.RecordRules.{targets};
ghost use Rattle.rec_types.specs.Record.{record_rules};
ghost use Rattle.ioc_process.specs.Rules.{IsSettled};
ghost use Rattle.ioc_dbfile.specs.FirstWorld.{first_world};
ghost use Rattle.ioc_journal_audit.specs.Numbers.{count_to, count_in};
ghost use Rattle.ioc_journal_audit.specs.Resuming.{AllBelow, IsSettledRecord, held, held_if, held_by_records, held_by_waiting, calls_of};

use crate::auditor::Auditor;
use crate::counts::DeskCounts;
use crate::played_map::PlayedMap;
use ioc_dbcommon::LinkBox;
use ioc_journal_base::{Base, DeskCalls};
use ioc_notify::{NotifyId, Waiting};
use ioc_record::RecordKind;
use ioc_store::EventStore;
use ioc_store::notifications::Notifications;
use rec_types::Record;
use std::alloc::{AllocError, Global};

// The number of puts with notification that can be live, and that can wait.
const MOST_PUTS: usize = 256;

// Returns whether a link leads to one of the first `count` records, if it leads to one.
fn leads_below(link: Option<&LinkBox>, count: usize) -> bool
    ensures { IsTrue result → AllBelow count (named_by_field (option_copied link.entry)) }
{
    let Some(link) = link else {
        return true;
    };
    match link.record_named() {
        Some(target) => target.index() < count,
        None => true,
    }
}

// Returns whether the links of a record lead to the first `count` records.
fn all_lead_below(checked: &Record, count: usize) -> bool
    ensures { IsTrue result → AllBelow count (targets record_rules checked.now) }
{
    let mut rest = checked.link_fields();
    while let [field, others @ ..] = rest {
        if !leads_below(checked.link(*field), count) {
            return false;
        }
        rest = others;
    }
    true
}

// Returns whether a record is active exactly if it waits for a completion, and leads to the first `count`
// records alone.
fn is_settled(checked: &Record, count: usize) -> bool
    ensures { IsTrue result → IsSettledRecord count checked.now }
{
    if checked.common.active != checked.common.pending.is_some() {
        return false;
    }
    all_lead_below(checked, count)
}

// Returns whether no link leaves these records, and each is active exactly if it waits for a completion.
fn are_settled(records: &[Record]) -> bool
    ensures { IsTrue result → IsSettled record_rules (first_world records.now) }
{
    let mut rest = records;
    while let [record, others @ ..] = rest {
        if !is_settled(record, records.len()) {
            return false;
        }
        rest = others;
    }
    true
}

// Counts a record or a waiting list that is part of a put with notification. Returns whether there is
// room for one that isn't live yet.
fn hold(puts: &mut Notifications, number: NotifyId) -> bool
    requires { puts.old.ended.items ≡ [] }
    ensures live { IsTrue result → puts.new.live.live ≡ held number puts.old.live.live }
    ensures ended { puts.new.ended.items ≡ [] }
    ensures waiting { puts.new.waiting ≡ puts.old.waiting }
{
    if puts.is_live(number) {
        puts.take_on(number);
        return true;
    }
    if puts.live().len() >= MOST_PUTS {
        return false;
    }
    puts.admit(number);
    true
}

// Counts a record that may be part of a put with notification.
fn hold_if(puts: &mut Notifications, number: Option<NotifyId>) -> bool
    requires { puts.old.ended.items ≡ [] }
    ensures live { IsTrue result → puts.new.live.live ≡ held_if number puts.old.live.live }
    ensures ended { puts.new.ended.items ≡ [] }
    ensures waiting { puts.new.waiting ≡ puts.old.waiting }
{
    match number {
        Some(number) => hold(puts, number),
        None => true,
    }
}

// Counts the records that are part of puts with notification.
fn hold_records(puts: &mut Notifications, records: &[Record]) -> bool
    requires { puts.old.ended.items ≡ [] }
    ensures live { IsTrue result → puts.new.live.live ≡ held_by_records records.now puts.old.live.live }
    ensures ended { puts.new.ended.items ≡ [] }
    ensures waiting { puts.new.waiting ≡ puts.old.waiting }
{
    let mut rest = records;
    while let [record, others @ ..] = rest {
        if !hold_if(puts, record.common.notification) {
            return false;
        }
        rest = others;
    }
    true
}

// Counts and queues the puts with notification that wait.
fn hold_waiting(puts: &mut Notifications, waiting: &[Waiting]) -> bool
    requires { puts.old.ended.items ≡ [] }
    ensures live { IsTrue result → puts.new.live.live ≡ held_by_waiting waiting.now puts.old.live.live }
    ensures waiting { IsTrue result → puts.new.waiting.waiting ≡ puts.old.waiting.waiting ++ waiting.now }
    ensures ended { puts.new.ended.items ≡ [] }
{
    let mut rest = waiting;
    while let [put, others @ ..] = rest {
        if puts.waiting().len() >= MOST_PUTS || !hold(puts, put.number) {
            return false;
        }
        puts.queue(put);
        rest = others;
    }
    true
}

// Returns the counts of calls of desks, each of which stands once and has made one.
fn counts_of(alloc: Global, desks: &[DeskCalls]) -> Result<Option<DeskCounts>, AllocError>
    ensures { IfOk result (λ o. IfSome o (λ counts. (desk : ℕ) → count_in counts desk ≡ calls_of desks.now desk)) }
{
    let mut counts = DeskCounts::new(alloc);
    let mut rest = desks;
    while let [counted, others @ ..] = rest {
        if counted.calls == 0 || counts.last(counted.desk).is_some() {
            return Ok(None);
        }
        counts.begin(counted.desk, counted.calls)?;
        rest = others;
    }
    Ok(Some(counts))
}

// Returns the place of the entry before this one, if there is one.
fn place_before(place: u64) -> Option<u64>
    ensures { count_to result ≡ place }
{
    if place == 0 { None } else { Some(place - 1) }
}

impl Auditor {
    ghost use Rattle.ioc_journal_audit.specs.Audit.{HasAudited};
    ghost use Rattle.ioc_journal_audit.specs.Resuming.{base_world, start_of};

    /// Creates an auditor of a base, before the entry at this place, or `None` if no entries lead to such a
    /// base: a link leaves the records, a record is active and waits for nothing or the other way round,
    /// more than 256 puts with notification are live, or a desk stands twice.
    ///
    /// # Errors
    ///
    /// [`AllocError`] if allocation fails.
    pub fn resume(alloc: Global, base: Base, place: u64) -> Result<Option<Self>, AllocError>
        ensures { IfOk result (λ o. IfSome o (HasAudited (start_of place base.desks.items)
            (base_world base.records.items base.waiting.items) [])) }
    {
        let Base {
            records,
            waiting,
            desks,
        } = base;
        if !are_settled(records.as_slice()) {
            return Ok(None);
        }
        let Some(counts) = counts_of(alloc, desks.as_slice())? else {
            return Ok(None);
        };
        let mut event = EventStore::new(alloc)?;
        if !hold_records(&mut event.follow_ups.notifications, records.as_slice()) {
            return Ok(None);
        }
        if !hold_waiting(&mut event.follow_ups.notifications, waiting.as_slice()) {
            return Ok(None);
        }
        let auditor = Auditor::of(alloc, records, event, place_before(place), counts)?;
        Ok(Some(auditor))
    }
}
