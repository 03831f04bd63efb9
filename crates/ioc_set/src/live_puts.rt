//! The puts with notification of a lock set.
ghost use Rattle.std.specs.Prelude.{◌≡◌, ◌↔◌, ◌+◌, ◌≤◌, ◌<◌, ◌^◌, ◌++◌, ℕ, true, false, [], length, None, IsTrue, IfOk, OnOk, OnErr};
ghost use Rattle.std.specs.FinMap.{len};
ghost use Rattle.std.specs.Vec.{vec_capacity};
ghost use Rattle.ioc_notify.specs.Living.{is_live};
ghost use Rattle.ioc_events.specs.Holding.{how_many, HoldersCounted};
ghost use Rattle.ioc_set.specs.Resting.{resting};
ghost use Rattle.ioc_set.specs.Puts.{no_puts, now_with, begun_with, AreNone, HasBegun, is_put_with_notification};
ghost use Rattle.ioc_set.specs.Recounting.{begun_each, own_waiting, together, AreBegun, AreLive};

use crate::recount::{
    begin_each, copy_live, copy_waiting, count_records, count_waiting, let_go_each, queue_all,
    queue_own,
};
use ioc_events::Event;
use ioc_notify::{Live, NotifyId, Waiting};
use ioc_record::RecordKind;
use ioc_set_records::Members;
use ioc_store::notifications::Notifications;
use std::alloc::{AllocError, Global};
use std::marker::Model;
use std::mem;

/// The live puts with notification of a set and those of them that wait, now and before the history
/// of the set. Memory for both is allocated with the first one, so that a history can begin at any
/// time; a set without any has none.
#[derive(Drop)]
pub struct LivePuts {
    // Between events, none has ended in it.
    kept: Option<Notifications>,
    base_live: Vec<Live>,
    base_waiting: Vec<Waiting>,
}

impl Model for LivePuts {
    ghost use Rattle.ioc_set.specs.Puts.{Puts, puts_of};

    ghost Value = { Puts };

    ghost view = { λ p. puts_of p.kept p.base_live.items p.base_waiting.items };

    ghost use Rattle.std.specs.Prelude.{◌≡◌, ◌≤◌, is_some, true};
    ghost use Rattle.std.specs.Vec.{vec_capacity};

    ghost invariant = { λ p. is_some p.kept ≡ true → (256 ≤ vec_capacity p.base_live) × (256 ≤ vec_capacity p.base_waiting) };
}

/// Memory for the puts with notification of a set, of which none is live yet.
#[derive(Drop)]
pub struct PutsRoom {
    kept: Notifications,
    base_live: Vec<Live>,
    base_waiting: Vec<Waiting>,
    ghost no_live: { kept.live.live ≡ [] },
    ghost none_ended: { kept.ended.items ≡ [] },
    ghost none_waits: { kept.waiting.waiting ≡ [] },
    ghost live_fit: { 256 ≤ vec_capacity base_live },
    ghost waiting_fit: { 256 ≤ vec_capacity base_waiting },
}

impl PutsRoom {
    /// Reserves room for as many as can be live.
    ///
    /// # Errors
    ///
    /// [`AllocError`] if allocation fails.
    pub fn new(alloc: Global) -> Result<Self, AllocError> {
        let kept = Notifications::new(alloc)?;
        let base_live = Vec::with_capacity(alloc, 256)?;
        let base_waiting = Vec::with_capacity(alloc, 256)?;
        Ok(PutsRoom {
            kept,
            base_live,
            base_waiting,
        })
    }
}

// Returns whether an event is a put with notification.
fn is_put(event: &Event) -> bool
    ensures { result ≡ is_put_with_notification event.now }
{
    matches!(event, Event::Notify { .. })
}

// Returns whether both lists are empty.
fn are_empty(live: &[Live], waiting: &[Waiting]) -> bool
    ensures { IsTrue result ↔ ((live.now ≡ []) × (waiting.now ≡ [])) }
{
    live.is_empty() && waiting.is_empty()
}

impl LivePuts {
    /// Creates a value with none live and no memory.
    pub fn none(alloc: Global) -> Self
        ensures { result ≡ no_puts }
    {
        LivePuts {
            kept: None,
            base_live: Vec::new(alloc),
            base_waiting: Vec::new(alloc),
        }
    }

    /// Returns whether none is live and none waits.
    pub fn are_none(&self) -> bool
        ensures { IsTrue result ↔ AreNone self.now }
    {
        match &self.kept {
            Some(kept) => are_empty(kept.live(), kept.waiting()),
            None => true,
        }
    }

    /// Returns whether the one with this number is live.
    pub fn is_live(&self, number: NotifyId) -> bool
        ensures { result ≡ is_live number self.now.live }
    {
        match &self.kept {
            Some(kept) => kept.is_live(number),
            None => false,
        }
    }

    /// Returns the live ones, with the number of parts of each.
    pub fn live(&self) -> &[Live]
        ensures { result.now ≡ self.now.live }
    {
        match &self.kept {
            Some(kept) => kept.live(),
            None => &[],
        }
    }

    /// Returns those that wait, in the order in which they came.
    pub fn waiting(&self) -> &[Waiting]
        ensures { result.now ≡ self.now.waiting }
    {
        match &self.kept {
            Some(kept) => kept.waiting(),
            None => &[],
        }
    }

    /// If no memory was reserved, none is live.
    pub fn none_without_room(&self)
        ensures { self.now.has_room ≡ false → AreNone self.now }
    {
        let _ = &self.kept;
    }

    /// Reserves room for puts with notification, if the event is one.
    ///
    /// # Errors
    ///
    /// [`AllocError`] if allocation fails.
    #[inline(always)]
    pub fn make_room_for(&mut self, event: &Event, alloc: Global) -> Result<(), AllocError>
        ensures room { OnOk result (is_put_with_notification event.now ≡ true → self.new.has_room ≡ true) }
        ensures live { self.new.live ≡ self.old.live }
        ensures waiting { self.new.waiting ≡ self.old.waiting }
        ensures base_live { self.new.base_live ≡ self.old.base_live }
        ensures base_waiting { self.new.base_waiting ≡ self.old.base_waiting }
    {
        if self.kept.is_none() && is_put(event) {
            self.take_room(alloc)?;
        }
        Ok(())
    }

    // Reserves room, if there is none. It is not inlined, since a set needs it once.
    #[inline(never)]
    fn take_room(&mut self, alloc: Global) -> Result<(), AllocError>
        requires none { self.old.has_room ≡ false }
        ensures room { OnOk result (self.new.has_room ≡ true) }
        ensures live { self.new.live ≡ self.old.live }
        ensures waiting { self.new.waiting ≡ self.old.waiting }
        ensures base_live { self.new.base_live ≡ self.old.base_live }
        ensures base_waiting { self.new.base_waiting ≡ self.old.base_waiting }
    {
        self.base_live.reserve(256)?;
        self.base_waiting.reserve(256)?;
        let kept = Notifications::new(alloc)?;
        self.kept = Some(kept);
        Ok(())
    }

    /// Begins a history: the current puts with notification are stored as those before it.
    pub fn begin_history(&mut self)
        requires fits { length self.old.waiting ≤ 256 }
        ensures { self.new ≡ begun_with self.old }
    {
        match &self.kept {
            Some(kept) => {
                copy_live(kept.live(), &mut self.base_live);
                copy_waiting(kept.waiting(), &mut self.base_waiting);
            }
            None => {
                self.base_live.clear();
                self.base_waiting.clear();
            }
        }
    }

    /// At most 256 are live.
    pub fn are_few(&self)
        ensures { length self.now.live ≤ 256 }
    {
        let _ = &self.kept;
    }

    /// Reserves room for these, if any is live; otherwise returns `None`.
    ///
    /// # Errors
    ///
    /// [`AllocError`] if allocation fails.
    pub fn room(&self, alloc: Global) -> Result<Option<PutsRoom>, AllocError>
        ensures { IfOk result (λ room. room ≡ None → AreNone self.now) }
    {
        if self.are_none() {
            return Ok(None);
        }
        let room = PutsRoom::new(alloc)?;
        Ok(Some(room))
    }

    /// Reserves room for these and others in one set, if any is live; otherwise returns `None`.
    ///
    /// # Errors
    ///
    /// [`AllocError`] if allocation fails.
    pub fn room_with(&self, other: &LivePuts, alloc: Global) -> Result<Option<PutsRoom>, AllocError>
        ensures { IfOk result (λ room. room ≡ None → AreNone self.now × AreNone other.now) }
    {
        if self.are_none() && other.are_none() {
            return Ok(None);
        }
        let room = PutsRoom::new(alloc)?;
        Ok(Some(room))
    }

    /// Moves them to the state of an event, which has none.
    pub fn lend(&mut self, event: &mut Notifications)
        requires live { event.old.live.live ≡ [] }
        requires waiting { event.old.waiting.waiting ≡ [] }
        ensures live { event.new.live.live ≡ self.old.live }
        ensures waiting { event.new.waiting.waiting ≡ self.old.waiting }
        ensures lent { self.new ≡ now_with self.old [] [] }
    {
        if let Some(kept) = &mut self.kept {
            mem::swap(kept, event);
        }
    }

    /// Moves them back after the event. The state of the event has none then, but still reports
    /// those that have ended. If no memory was reserved, none was moved.
    pub fn take_back(&mut self, event: &mut Notifications)
        requires lent { AreNone self.old }
        requires room { self.old.has_room ≡ false → (event.old.live.live ≡ []) × (event.old.waiting.waiting ≡ []) }
        ensures kept { self.new ≡ now_with self.old event.old.live.live event.old.waiting.waiting }
        ensures live { event.new.live.live ≡ [] }
        ensures waiting { event.new.waiting.waiting ≡ [] }
        ensures ended { event.new.ended.items ≡ event.old.ended.items }
    {
        if let Some(kept) = &mut self.kept {
            mem::swap(kept, event);
            kept.tell_ended(event);
        }
    }
}

impl LivePuts {
    // Begins each live one in `into`, if it isn't live there yet.
    fn begin_in(&self, into: &mut Notifications)
        requires ended { into.old.ended.items ≡ [] }
        requires fits { length (begun_each self.now.live into.old.live.live) ≤ 256 }
        ensures live { into.new.live.live ≡ begun_each self.now.live into.old.live.live }
        ensures ended { into.new.ended.items ≡ [] }
        ensures waiting { into.new.waiting ≡ into.old.waiting }
    {
        if let Some(kept) = &self.kept {
            begin_each(kept.live(), into);
        }
    }

    // Appends all waiting ones to those that wait in `into`.
    fn queue_in(&self, into: &mut Notifications)
        requires fits { length into.old.waiting.waiting + length self.now.waiting ≤ 256 }
        ensures live { into.new.live ≡ into.old.live }
        ensures ended { into.new.ended.items ≡ into.old.ended.items }
        ensures waiting { into.new.waiting.waiting ≡ into.old.waiting.waiting ++ self.now.waiting }
    {
        if let Some(kept) = &self.kept {
            queue_all(kept.waiting(), into);
        }
    }
}

// Recounts the parts of each put with notification: these records, and the waiting ones. All that
// are to be counted have begun, and no others.
fn recount<K: RecordKind, D>(
    members: &Members<K, D>,
    kept: &mut Notifications,
    candidates: &mut Vec<Live>,
)
    requires begun { AreBegun kept.old.live.live }
    requires ended { kept.old.ended.items ≡ [] }
    requires live { AreLive K.rules members.now.records kept.old.waiting.waiting kept.old.live.live }
    requires waits_once { (n : ℕ) → how_many (λ x. x.number) n kept.old.waiting.waiting ≤ 1 }
    requires few { len members.now.records < 2 ^ 63 }
    requires room { 256 ≤ vec_capacity candidates.old }
    ensures counted { HoldersCounted K.rules (resting members.now.records kept.new.live.live kept.new.waiting.waiting) }
    ensures waiting { kept.new.waiting ≡ kept.old.waiting }
    ensures none { kept.old.live.live ≡ [] → kept.old.waiting.waiting ≡ [] → kept.new.live.live ≡ [] }
    ensures room { vec_capacity candidates.new ≡ vec_capacity candidates.old }
{
    copy_live(kept.live(), candidates);
    count_records(members, kept);
    count_waiting(kept);
    let_go_each(candidates.as_slice(), kept);
    kept.clear_ended();
}

/// Returns the puts with notification of a set that some of its records are part of or that wait
/// for one of these records, in the same order, with the parts of each recounted. A history begins
/// with them. The memory for them was reserved before; none is needed if none is live.
pub fn own_puts<K: RecordKind, D>(
    members: &Members<K, D>,
    from: &LivePuts,
    room: Option<PutsRoom>,
    alloc: Global,
) -> LivePuts
    requires room { room ≡ None → AreNone from.now }
    requires live { AreLive K.rules members.now.records from.now.waiting from.now.live }
    requires waits_once { (n : ℕ) → how_many (λ x. x.number) n from.now.waiting ≤ 1 }
    requires fits { length from.now.waiting ≤ 256 }
    requires few { len members.now.records < 2 ^ 63 }
    ensures waiting { result.waiting ≡ own_waiting members.now.records from.now.waiting }
    ensures counted { HoldersCounted K.rules (resting members.now.records result.live result.waiting) }
    ensures begun { HasBegun result }
    ensures none { AreNone from.now → AreNone result }
{
    let Some(place) = room else {
        return LivePuts::none(alloc);
    };
    let Some(of) = &from.kept else {
        return LivePuts::none(alloc);
    };
    let PutsRoom {
        mut kept,
        mut base_live,
        base_waiting,
        ..
    } = place;
    queue_own(members, of.waiting(), &mut kept);
    begin_each(of.live(), &mut kept);
    recount(members, &mut kept, &mut base_live);
    let mut puts = LivePuts {
        kept: Some(kept),
        base_live,
        base_waiting,
    };
    puts.begin_history();
    puts
}

/// Returns the puts with notification of two sets that have become one with these records: those
/// that wait in `one`, followed by those that wait in `other`, with the parts of each recounted. A
/// history begins with them. The memory for them was reserved before; none is needed if none is
/// live on either.
pub fn joined_puts<K: RecordKind, D>(
    members: &Members<K, D>,
    one: &LivePuts,
    other: &LivePuts,
    room: Option<PutsRoom>,
    alloc: Global,
) -> LivePuts
    requires room { room ≡ None → AreNone one.now × AreNone other.now }
    requires live { AreLive K.rules members.now.records (one.now.waiting ++ other.now.waiting) (together one.now.live other.now.live) }
    requires once { (n : ℕ) → how_many (λ x. x.number) n (one.now.waiting ++ other.now.waiting) ≤ 1 }
    requires live_fits { length (together one.now.live other.now.live) ≤ 256 }
    requires fits { length one.now.waiting + length other.now.waiting ≤ 256 }
    requires few { len members.now.records < 2 ^ 63 }
    ensures waiting { result.waiting ≡ one.now.waiting ++ other.now.waiting }
    ensures counted { HoldersCounted K.rules (resting members.now.records result.live result.waiting) }
    ensures begun { HasBegun result }
    ensures none { AreNone one.now → AreNone other.now → AreNone result }
{
    let Some(place) = room else {
        return LivePuts::none(alloc);
    };
    let PutsRoom {
        mut kept,
        mut base_live,
        base_waiting,
        ..
    } = place;
    one.queue_in(&mut kept);
    other.queue_in(&mut kept);
    one.begin_in(&mut kept);
    other.begin_in(&mut kept);
    recount(members, &mut kept, &mut base_live);
    let mut puts = LivePuts {
        kept: Some(kept),
        base_live,
        base_waiting,
    };
    puts.begin_history();
    puts
}
