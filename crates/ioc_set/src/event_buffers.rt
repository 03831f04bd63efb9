//! The buffers of an event on a lock set.
ghost use Rattle.std.specs.Prelude.{◌≡◌, ◌≤◌, not, [], length, IfOk, OnOk, OnErr};
ghost use Rattle.std.specs.Vec.{vec_capacity};
ghost use Rattle.std.specs.List.{filter};
ghost use Rattle.std.specs.FinMap.{len};
ghost use Rattle.ioc_notify.specs.Living.{is_live};
ghost use Rattle.ioc_store.specs.Given.{answers_of, calls_of};

use crate::set_store::SetStore;
use ioc_device::Answer;
use ioc_events::KeptAnswers;
use ioc_notify::{NotificationCounts, NotifyId};
use ioc_set_records::Members;
use ioc_store::calls::Calls;
use ioc_store::{EventStore, Frame, OutboxItem};
use std::alloc::{AllocError, Global};
use std::mem;

/// What an event needs and a set doesn't have itself: buffers for its calls, for what it sends, and
/// for its open frames. One value serves any number of sets, one event after another. Between
/// events it has no records and no open frame, and no put with notification is live in it.
#[derive(Drop)]
pub struct EventBuffers<K, D> {
    pub store: SetStore<K, D>,
    pub frames: Vec<Frame>,
    /// A spare buffer for the answers of an event, used if no buffer of the right size can be
    /// allocated.
    pub spare: Vec<Answer>,
    /// A spare buffer for the copy of the answers that a journal keeps.
    pub journal_spare: Vec<Answer>,
    /// The puts with notification that have ended in the last event among all sets, in order. There
    /// is room for as many as can be live.
    pub ended_everywhere: Vec<NotifyId>,
    pub ghost no_record: { len store.members.records ≡ 0 },
    pub ghost none_live: { store.event.follow_ups.notifications.live.live ≡ [] },
    pub ghost none_waits: { store.event.follow_ups.notifications.waiting.waiting ≡ [] },
    pub ghost no_frame: { frames.items ≡ [] },
    pub ghost no_answer: { spare.items ≡ [] },
    pub ghost none_journaled: { journal_spare.items ≡ [] },
    pub ghost ended_fit: { 256 ≤ vec_capacity ended_everywhere },
}

/// Returns the answers of these calls in a buffer of their own: one of the right size, or the spare
/// one if allocation fails. So this can't fail.
#[inline(always)]
pub fn kept_answers(calls: &Calls, spare: &mut Vec<Answer>, alloc: Global) -> KeptAnswers
    requires empty { spare.old.items ≡ [] }
    requires room { 256 ≤ vec_capacity spare.old }
    ensures answers { result ≡ answers_of (calls_of calls.now) }
    ensures empty { spare.new.items ≡ [] }
{
    if calls.len() == 0 {
        return KeptAnswers::new(Vec::new(alloc));
    }
    let mut kept = match Vec::with_capacity(alloc, calls.len()) {
        Ok(fitting) => fitting,
        Err(_refused) => mem::replace(spare, Vec::new(alloc)),
    };
    calls.copy_answers(&mut kept);
    KeptAnswers::new(kept)
}

// Sets a list to those of these puts with notification that aren't live in the table, in order.
fn keep_over(ended: &[NotifyId], all: &NotificationCounts, over: &mut Vec<NotifyId>)
    requires room { length ended.now ≤ vec_capacity over.old }
    ensures over { over.new.items ≡ filter (λ n. not (is_live n all.now.live)) ended.now }
    ensures room { vec_capacity over.new ≡ vec_capacity over.old }
{
    over.clear();
    for number in ended {
        if !all.is_live(*number) {
            over.push_reserved(*number);
        }
    }
}

impl<K, D> EventBuffers<K, D> {
    ghost use Rattle.ioc_store.specs.Outbox.{items_of};
    ghost use Rattle.ioc_set.specs.SetStore.{world_of};
    ghost use Rattle.ioc_set.specs.Resting.{resting};
    ghost use Rattle.std.specs.FinMap.{empty};

    /// Creates the buffers before the first event.
    ///
    /// # Errors
    ///
    /// [`AllocError`] if allocation fails.
    pub fn new(alloc: Global) -> Result<Self, AllocError>
        ensures world { IfOk result (λ p. world_of p.store ≡ resting empty [] []) }
    {
        let event = EventStore::new(alloc)?;
        let ended_everywhere = Vec::with_capacity(alloc, 256)?;
        Ok(EventBuffers {
            store: SetStore {
                members: Members::new(alloc),
                event,
            },
            frames: Vec::new(alloc),
            spare: Vec::new(alloc),
            journal_spare: Vec::new(alloc),
            ended_everywhere,
        })
    }

    /// Returns the items that the last event has sent, in order.
    pub fn items(&self) -> &[OutboxItem]
        ensures { result.now ≡ (world_of self.now.store).outbox }
    {
        self.store.event.follow_ups.outbox.items()
    }

    /// Returns the number of items that the last event has dropped.
    pub fn dropped(&self) -> u64
        ensures { result ≡ (world_of self.now.store).dropped }
    {
        self.store.event.follow_ups.outbox.dropped
    }

    /// Returns the puts with notification that have ended in the last event among all sets, in the
    /// order in which they ended on its set. A get and a call that failed leave them as they were.
    pub fn ended(&self) -> &[NotifyId]
        ensures { result.now ≡ self.now.ended_everywhere.items }
    {
        self.ended_everywhere.as_slice()
    }

    /// Sets the puts with notification that have ended among all sets: those that have ended on the
    /// set of the last event and aren't live in the table of all, in order. This can't fail.
    pub fn tell_ended(&mut self, all: &NotificationCounts)
        ensures ended { self.new.ended_everywhere.items
            ≡ filter (λ n. not (is_live n all.now.live)) (world_of self.old.store).ended }
        ensures store { self.new.store ≡ self.old.store }
    {
        keep_over(
            self.store.event.follow_ups.notifications.ended(),
            all,
            &mut self.ended_everywhere,
        );
    }

    /// Reserves room for the frames of an event on `count` records, and for its answers.
    ///
    /// # Errors
    ///
    /// [`AllocError`] if allocation fails.
    pub fn make_room(&mut self, count: usize) -> Result<(), AllocError>
        ensures frames { OnOk result (count ≤ vec_capacity self.new.frames) }
        ensures answers { OnOk result (256 ≤ vec_capacity self.new.spare) }
        ensures store { self.new.store ≡ self.old.store }
    {
        self.frames.reserve(count)?;
        self.spare.reserve(256)?;
        Ok(())
    }
}
