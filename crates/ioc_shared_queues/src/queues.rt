//! What a worker and a caller know of the four queues.
ghost use Rattle.std.specs.Prelude.{◌≡◌, true, false, IfSome, IfErr, IfNone, OnOk, OnErr};
ghost use Rattle.ioc_shared_queues.specs.Turns.{TakesFirst, TakesNone};

use crate::idle_workers::IdleWorkers;
use crate::rank::Rank;
use std::sync::Wait;

/// The four queues, of items `T`, which a thread calls by a lane `P` of its own. What a call found
/// is said by relations that have no meaning here: a function for any such queues can tell what was
/// put, taken, found full or found empty only by a call that did so, and in the order of its calls.
pub trait SharedQueues<P, T> {
    ghost use Rattle.ioc_shared_queues.specs.declared.rank.Rank.{Rank};

    /// The lane is one of these queues.
    ghost is_lane: { Self → P → Type 0 };

    /// The lane put the item on the queue.
    ghost puts: { P → Rank → T → P → Type 0 };

    /// The lane found the queue full.
    ghost finds_full: { P → Rank → P → Type 0 };

    /// The lane took the item from the queue.
    ghost takes: { P → Rank → T → P → Type 0 };

    /// The lane found the queue empty.
    ghost finds_empty: { P → Rank → P → Type 0 };

    /// The lane saw that the queues were closed.
    ghost sees_closed: { P → P → Type 0 };

    /// Puts an item at the end of a queue, and wakes nobody.
    ///
    /// # Errors
    ///
    /// The item, if the queue was found full.
    fn put<R: Wait>(&self, rt: &R, lane: &mut P, rank: Rank, item: T) -> Result<(), T>
        requires { is_lane self.now lane.old }
        ensures lane { is_lane self.now lane.new }
        ensures put { OnOk result (puts lane.old rank item lane.new) }
        ensures given_back { IfErr result (λ given. given ≡ item) }
        ensures full { OnErr result (finds_full lane.old rank lane.new) };

    /// Takes the first item of a queue. Returns `None` if the queue was found empty.
    fn take<R: Wait>(&self, rt: &R, lane: &mut P, rank: Rank) -> Option<T>
        requires { is_lane self.now lane.old }
        ensures lane { is_lane self.now lane.new }
        ensures taken { IfSome result (λ item. takes lane.old rank item lane.new) }
        ensures empty { IfNone result (finds_empty lane.old rank lane.new) };

    /// Looks whether the queues were closed.
    fn looks_closed(&self, lane: &mut P) -> bool
        requires { is_lane self.now lane.old }
        ensures lane { is_lane self.now lane.new }
        ensures closed { result ≡ true → sees_closed lane.old lane.new }
        ensures open { result ≡ false → lane.new ≡ lane.old };

    /// The list of the workers that sleep.
    fn idle_workers(&self) -> &IdleWorkers;

    /// Puts an item at the end of a queue, and wakes one worker if any sleeps.
    ///
    /// # Errors
    ///
    /// The item, if the queue was found full.
    final fn push<R: Wait>(&self, rt: &R, lane: &mut P, rank: Rank, item: T) -> Result<(), T>
        requires { is_lane self.now lane.old }
        ensures lane { is_lane self.now lane.new }
        ensures put { OnOk result (puts lane.old rank item lane.new) }
        ensures given_back { IfErr result (λ given. given ≡ item) }
        ensures full { OnErr result (finds_full lane.old rank lane.new) }
    {
        let pushed = self.put(rt, lane, rank, item);
        if pushed.is_ok() {
            self.idle_workers().wake_one(rt);
        }
        pushed
    }

    /// Takes the first item of the first queue that isn't found empty, of HIGH, MEDIUM, LOW and the
    /// once queue in this order.
    final fn take_first<R: Wait>(&self, rt: &R, lane: &mut P) -> Option<T>
        requires { is_lane self.now lane.old }
        ensures lane { is_lane self.now lane.new }
        ensures taken { IfSome result (λ item. TakesFirst takes finds_empty lane.old item lane.new) }
        ensures none { IfNone result (TakesNone finds_empty lane.old lane.new) }
    {
        if let Some(item) = self.take(rt, lane, Rank::High) {
            return Some(item);
        }
        if let Some(item) = self.take(rt, lane, Rank::Medium) {
            return Some(item);
        }
        if let Some(item) = self.take(rt, lane, Rank::Low) {
            return Some(item);
        }
        if let Some(item) = self.take(rt, lane, Rank::Once) {
            return Some(item);
        }
        None
    }
}
