//! Workers, which take items from the queues and serve them.
ghost use Rattle.std.specs.Prelude.{◌≡◌, true, false, Some, None, IfOk, IfErr, OnOk, OnErr};
ghost use Rattle.ioc_shared_queues.specs.Turns.{TakesFirst, TakesNone, IsServed, Runs};
ghost use Rattle.ioc_shared_queues.specs.Turns as turns;
ghost use Rattle.ioc_shared_queues.specs.declared.worker.Round.TheVariants.{Served, Idle, Ended};

use crate::idle_workers::{IdleWorkers, Sleeper};
use crate::queues::SharedQueues;
use std::alloc::{AllocError, Global};
use std::sync::Wait;

/// Serves items. What a call did is said by relations that have no meaning here: a worker can tell
/// that an item was served, refused or handed back only by a call that did so.
pub trait Serve<T> {
    ghost serves: { Self → T → Self → Type 0 };

    ghost refuses: { Self → T → Self → Type 0 };

    ghost hands_back: { Self → T → Self → Type 0 };

    /// Serves an item.
    ///
    /// # Errors
    ///
    /// The item, if it is refused.
    fn serve<R: Wait>(&mut self, rt: &R, item: T) -> Result<(), T>
        ensures served { OnOk result (serves self.old item self.new) }
        ensures given_back { IfErr result (λ given. given ≡ item) }
        ensures refused { OnErr result (refuses self.old item self.new) };

    /// Hands back an item that was refused.
    fn hand_back<R: Wait>(&mut self, rt: &R, item: T)
        ensures { hands_back self.old item self.new };
}

/// What a worker did in one round.
#[derive(Clone, Copy, PartialEq, Eq, Debug)]
pub enum Round {
    Served,
    Idle,
    Ended,
}

/// Takes items from the queues, one a turn, by a lane of its own. One thread at a time has it.
#[derive(Drop)]
pub struct Worker<P> {
    lane: P,
    sleeper: Sleeper,
}

impl<P> Worker<P> {
    /// Creates a worker with this lane, which sleeps on this list.
    ///
    /// # Errors
    ///
    /// [`AllocError`] if allocation fails.
    pub fn new<R: Wait>(
        rt: &R,
        alloc: Global,
        lane: P,
        idle: &IdleWorkers,
    ) -> Result<Self, AllocError>
    where
        P: Drop,
        ensures { IfOk result (λ w. w.lane ≡ lane) }
    {
        let sleeper = idle.sleeper(rt, alloc)?;
        Ok(Worker { lane, sleeper })
    }

    /// Takes one item and serves it, or hands it back if it is refused. Returns false if all queues
    /// were found empty.
    pub fn turn<R: Wait, T, Q: SharedQueues<P, T>, S: Serve<T>>(
        &mut self,
        rt: &R,
        queues: &Q,
        serve: &mut S,
    ) -> bool
        requires { Q.is_lane queues.now self.old.lane }
        ensures lane { Q.is_lane queues.now self.new.lane }
        ensures served { result ≡ true → (item : T) × TakesFirst Q.takes Q.finds_empty self.old.lane item self.new.lane
            × IsServed S.serves S.refuses S.hands_back serve.old item serve.new }
        ensures idle { result ≡ false → TakesNone Q.finds_empty self.old.lane self.new.lane × (serve.new ≡ serve.old) }
    {
        let Some(item) = queues.take_first(rt, &mut self.lane) else {
            return false;
        };
        serve_once(rt, serve, item);
        true
    }

    // Looks whether the queues were closed, and then makes a turn.
    fn round<R: Wait, T, Q: SharedQueues<P, T>, S: Serve<T>>(
        &mut self,
        rt: &R,
        queues: &Q,
        serve: &mut S,
    ) -> Round
        requires { Q.is_lane queues.now self.old.lane }
        ensures lane { Q.is_lane queues.now self.new.lane }
        ensures served { result ≡ Served → (item : T) × turns.Round Q.takes Q.finds_empty Q.sees_closed S.serves S.refuses S.hands_back
            (Some item) self.old.lane serve.old self.new.lane serve.new }
        ensures idle { result ≡ Idle → turns.Round Q.takes Q.finds_empty Q.sees_closed S.serves S.refuses S.hands_back
            None self.old.lane serve.old self.new.lane serve.new }
        ensures ended { result ≡ Ended → turns.Ends Q.takes Q.finds_empty Q.sees_closed S.serves S.refuses S.hands_back
            self.old.lane serve.old self.new.lane serve.new }
    {
        let closed = queues.looks_closed(&mut self.lane);
        if self.turn(rt, queues, serve) {
            return Round::Served;
        }
        if closed { Round::Ended } else { Round::Idle }
    }

    // Makes a round on the list of those that sleep, and sleeps if it finds nothing. An item that
    // is put before the look at its queue is found by it, and whoever puts one later wakes a worker
    // of the list. If it is this one, and it has found another item, it wakes the next one instead.
    #[inline(never)]
    fn doze<R: Wait, T, Q: SharedQueues<P, T>, S: Serve<T>>(
        &mut self,
        rt: &R,
        queues: &Q,
        serve: &mut S,
    ) -> Round
        requires { Q.is_lane queues.now self.old.lane }
        ensures lane { Q.is_lane queues.now self.new.lane }
        ensures served { result ≡ Served → (item : T) × turns.Round Q.takes Q.finds_empty Q.sees_closed S.serves S.refuses S.hands_back
            (Some item) self.old.lane serve.old self.new.lane serve.new }
        ensures idle { result ≡ Idle → turns.Round Q.takes Q.finds_empty Q.sees_closed S.serves S.refuses S.hands_back
            None self.old.lane serve.old self.new.lane serve.new }
        ensures ended { result ≡ Ended → turns.Ends Q.takes Q.finds_empty Q.sees_closed S.serves S.refuses S.hands_back
            self.old.lane serve.old self.new.lane serve.new }
    {
        let idle = queues.idle_workers();
        idle.lie_down(rt, &self.sleeper);
        let closed = queues.looks_closed(&mut self.lane);
        let found = queues.take_first(rt, &mut self.lane);
        if found.is_none() && !closed {
            self.sleeper.sleep(rt);
        }
        let woken = idle.get_up(rt, &self.sleeper);
        let Some(item) = found else {
            return if closed { Round::Ended } else { Round::Idle };
        };
        if woken {
            idle.wake_one(rt);
        }
        serve_once(rt, serve, item);
        Round::Served
    }

    /// Serves items while there are some, and sleeps while there are none, until the queues were
    /// closed and are then found empty.
    pub fn run<R: Wait, T, Q: SharedQueues<P, T>, S: Serve<T>>(
        &mut self,
        rt: &R,
        queues: &Q,
        serve: &mut S,
    )
        requires { Q.is_lane queues.now self.old.lane }
        ensures lane { Q.is_lane queues.now self.new.lane }
        ensures runs { Runs Q.takes Q.finds_empty Q.sees_closed S.serves S.refuses S.hands_back
            self.old.lane serve.old self.new.lane serve.new }
    {
        for _ in rt.forever() {
            match self.round(rt, queues, serve) {
                Round::Served => continue,
                Round::Ended => return,
                Round::Idle => {}
            }
            match self.doze(rt, queues, serve) {
                Round::Served => {}
                Round::Ended => return,
                Round::Idle => {}
            }
        }
        unreachable!()
    }
}

// Serves an item, or hands it back if it is refused.
fn serve_once<R: Wait, T, S: Serve<T>>(rt: &R, serve: &mut S, item: T)
    ensures { IsServed S.serves S.refuses S.hands_back serve.old item serve.new }
{
    if let Err(item) = serve.serve(rt, item) {
        serve.hand_back(rt, item);
    }
}
