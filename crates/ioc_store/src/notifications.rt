//! Puts with notification: the live ones, the waiting ones, and those that have ended in an event.
ghost use Rattle.std.specs.Prelude.{◌≡◌, ◌≤◌, ◌<◌, ◌+◌, ◌&&◌, not, nat_lt, [], ◌∷◌, ◌++◌, length, if◌then◌else◌, IfOk};
ghost use Rattle.std.specs.Vec.{vec_capacity};
ghost use Rattle.ioc_notify.specs.Living.{begun, gained, lost, forgotten, is_at_its_last, is_live};
ghost use Rattle.ioc_notify.specs.Waits.{without};

use ioc_notify::{Live, LiveNumbers, NotifyId, Waiting, WaitingLists};
use std::alloc::{AllocError, Global};
use std::mem;

/// The live puts with notification, at most 256, with the number of records and waiting lists that
/// are part of each; those of them that wait for their record; and those that have ended in the
/// event, in order.
#[derive(Drop)]
pub struct Notifications {
    live: LiveNumbers,
    ended: Vec<NotifyId>,
    waiting: WaitingLists,
    ghost room: { vec_capacity ended ≡ 256 },
    ghost few: { length live.live + length ended.items ≤ 256 },
    ghost wide: { 256 ≤ waiting.room },
}

impl Notifications {
    /// Creates an empty value: no put with notification is live, waits or has ended.
    ///
    /// # Errors
    ///
    /// [`AllocError`] if allocation fails.
    pub fn new(alloc: Global) -> Result<Self, AllocError>
        ensures live { IfOk result (λ n. n.live.live ≡ []) }
        ensures ended { IfOk result (λ n. n.ended.items ≡ []) }
        ensures waiting { IfOk result (λ n. n.waiting.waiting ≡ []) }
    {
        let live = LiveNumbers::new(alloc)?;
        let ended = Vec::with_capacity(alloc, 256)?;
        let waiting = WaitingLists::with_room(alloc, 256)?;
        Ok(Notifications {
            live,
            ended,
            waiting,
        })
    }

    /// Returns those that have ended in the event, in order.
    pub fn ended(&self) -> &[NotifyId]
        ensures { result.now ≡ self.now.ended.items }
    {
        self.ended.as_slice()
    }

    /// Returns the live ones, in the order in which they began.
    pub fn live(&self) -> &[Live]
        ensures { result.now ≡ self.now.live.live }
    {
        self.live.as_slice()
    }

    /// Moves those that have ended to `other`, in which none is live; what had ended in `other` is
    /// dropped.
    pub fn tell_ended(&mut self, other: &mut Notifications)
        requires none { other.old.live.live ≡ [] }
        ensures live { self.new.live ≡ self.old.live }
        ensures ended { self.new.ended.items ≡ [] }
        ensures waiting { self.new.waiting ≡ self.old.waiting }
        ensures other_live { other.new.live ≡ other.old.live }
        ensures other_ended { other.new.ended.items ≡ self.old.ended.items }
        ensures other_waiting { other.new.waiting ≡ other.old.waiting }
    {
        other.ended.clear();
        mem::swap(&mut self.ended, &mut other.ended);
    }

    /// Removes those that have ended.
    pub fn clear_ended(&mut self)
        ensures live { self.new.live.live ≡ self.old.live.live }
        ensures ended { self.new.ended.items ≡ [] }
        ensures waiting { self.new.waiting ≡ self.old.waiting }
    {
        self.ended.clear();
    }

    /// Returns whether one more may begin with this number.
    pub fn has_place(&self, number: NotifyId) -> bool
        ensures { result ≡ (nat_lt (length self.now.live.live + length self.now.ended.items) 256
            && (nat_lt (length self.now.waiting.waiting) 256 && not (is_live number self.now.live.live))) }
    {
        self.live.len() + self.ended.len() < 256
            && (self.waiting.as_slice().len() < 256 && !self.live.is_live(number))
    }

    /// Returns whether the one with this number is live.
    pub fn is_live(&self, number: NotifyId) -> bool
        ensures { result ≡ is_live number self.now.live.live }
    {
        self.live.is_live(number)
    }

    /// Begins the one with this number, with one record or waiting list that is part of it.
    pub fn admit(&mut self, number: NotifyId)
        requires { length self.old.live.live + length self.old.ended.items < 256 }
        ensures live { self.new.live.live ≡ begun number self.old.live.live }
        ensures ended { self.new.ended.items ≡ self.old.ended.items }
        ensures waiting { self.new.waiting ≡ self.old.waiting }
    {
        self.live.begin(number);
    }

    /// Returns those that wait for their record, in the order in which they came.
    pub fn waiting(&self) -> &[Waiting]
        ensures { result.now ≡ self.now.waiting.waiting }
    {
        self.waiting.as_slice()
    }

    /// Appends one to those that wait for their record.
    pub fn queue(&mut self, item: &Waiting)
        requires { length self.old.waiting.waiting < 256 }
        ensures live { self.new.live ≡ self.old.live }
        ensures ended { self.new.ended.items ≡ self.old.ended.items }
        ensures waiting { self.new.waiting.waiting ≡ self.old.waiting.waiting ++ item.now ∷ [] }
    {
        self.waiting
            .add(item.number, item.target, item.field, item.value);
    }

    /// Removes the one with this number from those that wait.
    pub fn unqueue(&mut self, number: NotifyId)
        ensures live { self.new.live ≡ self.old.live }
        ensures ended { self.new.ended.items ≡ self.old.ended.items }
        ensures waiting { self.new.waiting.waiting ≡ without number self.old.waiting.waiting }
    {
        let _waited = self.waiting.remove(number);
    }

    /// Cancels the one with this number: it is no longer live and no longer waits, and does not
    /// count as ended.
    pub fn forget(&mut self, number: NotifyId)
        ensures live { self.new.live.live ≡ forgotten number self.old.live.live }
        ensures ended { self.new.ended.items ≡ self.old.ended.items }
        ensures waiting { self.new.waiting.waiting ≡ without number self.old.waiting.waiting }
    {
        let _live = self.live.forget(number);
        let _waited = self.waiting.remove(number);
    }

    /// Counts one more record that is part of this put with notification.
    pub fn take_on(&mut self, number: NotifyId)
        ensures live { self.new.live.live ≡ gained number self.old.live.live }
        ensures ended { self.new.ended.items ≡ self.old.ended.items }
        ensures waiting { self.new.waiting ≡ self.old.waiting }
    {
        self.live.add_holder(number);
    }

    /// Counts one record less that is part of this put with notification, which ends with the last
    /// one.
    pub fn let_go(&mut self, number: NotifyId)
        ensures live { self.new.live.live ≡ lost number self.old.live.live }
        ensures ended { self.new.ended.items ≡ if is_at_its_last number self.old.live.live then self.old.ended.items ++ number ∷ []
            else self.old.ended.items }
        ensures waiting { self.new.waiting ≡ self.old.waiting }
    {
        if self.live.remove_holder(number) {
            self.ended.push_reserved(number);
        }
    }
}
