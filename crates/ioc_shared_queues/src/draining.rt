//! What is left on the queues when nobody serves them any more.
ghost use Rattle.ioc_shared_queues.specs.Turns.{Drains};

use crate::queues::SharedQueues;
use crate::worker::Serve;
use std::sync::Wait;

/// Takes the items that are left, one after another in the order of service, and hands each back,
/// until all four queues are found empty.
pub fn hand_back_all<P, T, R: Wait, Q: SharedQueues<P, T>, S: Serve<T>>(
    rt: &R,
    queues: &Q,
    lane: &mut P,
    serve: &mut S,
)
    requires { Q.is_lane queues.now lane.old }
    ensures lane { Q.is_lane queues.now lane.new }
    ensures drained { Drains Q.takes Q.finds_empty S.hands_back lane.old serve.old lane.new serve.new }
{
    for _ in rt.forever() {
        let Some(item) = queues.take_first(rt, lane) else {
            return;
        };
        serve.hand_back(rt, item);
    }
    unreachable!()
}
