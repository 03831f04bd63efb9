//! The state of an event beside the records.
ghost use Rattle.std.specs.Prelude.{◌≡◌, [], IfOk};
ghost use Rattle.ioc_store.specs.Given.{calls_of};
ghost use Rattle.ioc_store.specs.Outbox.{items_of};

use crate::calls::Calls;
use crate::notifications::Notifications;
use crate::outbox::Outbox;
use std::alloc::{AllocError, Global};

/// What follows an event: the items that it sends, and the puts with notification, which go on, wait
/// or have ended in it.
#[derive(Drop)]
pub struct FollowUps {
    pub outbox: Outbox,
    pub notifications: Notifications,
}

/// The state of an event: its time stamp, its device calls, and what follows it. One value serves
/// any number of events, one after another.
#[derive(Drop)]
pub struct EventStore {
    /// The time stamp of the event, in nanoseconds since 1970-01-01 00:00 UTC.
    pub moment: u64,
    pub calls: Calls,
    pub follow_ups: FollowUps,
}

impl EventStore {
    /// Creates an empty state with the time stamp 0.
    ///
    /// # Errors
    ///
    /// [`AllocError`] if allocation fails.
    pub fn new(alloc: Global) -> Result<Self, AllocError>
        ensures moment { IfOk result (λ e. e.moment ≡ 0) }
        ensures calls { IfOk result (λ e. calls_of e.calls ≡ []) }
        ensures items { IfOk result (λ e. items_of e.follow_ups.outbox ≡ []) }
        ensures dropped { IfOk result (λ e. e.follow_ups.outbox.dropped ≡ 0) }
        ensures live { IfOk result (λ e. e.follow_ups.notifications.live.live ≡ []) }
        ensures ended { IfOk result (λ e. e.follow_ups.notifications.ended.items ≡ []) }
        ensures waiting { IfOk result (λ e. e.follow_ups.notifications.waiting.waiting ≡ []) }
    {
        let calls = Calls::new(alloc)?;
        let outbox = Outbox::new(alloc)?;
        let notifications = Notifications::new(alloc)?;
        Ok(EventStore {
            moment: 0,
            calls,
            follow_ups: FollowUps {
                outbox,
                notifications,
            },
        })
    }

    /// Begins an event with this time stamp.
    pub fn begin(&mut self, moment: u64)
        ensures moment { self.new.moment ≡ moment }
        ensures calls { calls_of self.new.calls ≡ [] }
        ensures items { items_of self.new.follow_ups.outbox ≡ [] }
        ensures dropped { self.new.follow_ups.outbox.dropped ≡ 0 }
        ensures live { self.new.follow_ups.notifications.live.live ≡ self.old.follow_ups.notifications.live.live }
        ensures ended { self.new.follow_ups.notifications.ended.items ≡ [] }
        ensures waiting { self.new.follow_ups.notifications.waiting ≡ self.old.follow_ups.notifications.waiting }
    {
        self.moment = moment;
        self.calls.clear();
        self.follow_ups.outbox.clear();
        self.follow_ups.notifications.clear_ended();
    }
}
