//! Requests on their way to the queues.
ghost use Rattle.std.specs.Prelude.{◌≡◌};
ghost use Rattle.ioc_scan_rules.specs.Asked.{callbacks_of};
ghost use Rattle.ioc_engine_core.specs.Queueing.{IsPut, ArePushed};

use ioc_ledger::Tickets;
use ioc_names::RecordNo;
use ioc_scan::Listed;
use ioc_shared_queues::record_requests::send;
use ioc_shared_queues::{Rank, RecordRequest, SharedQueues};
use std::sync::Wait;
use std::sync::ledger::Ledger;

/// Puts a request of a record at the end of a queue, with one of these tickets. If the queue is
/// full, the ticket stays with the others.
pub fn push_one<L: Ledger, P, Q: SharedQueues<P, RecordRequest<L>>, R: Wait>(
    rt: &R,
    queues: &Q,
    lane: &mut P,
    rank: Rank,
    number: RecordNo,
    tickets: &mut Tickets<L>,
)
    requires { Q.is_lane queues.now lane.old }
    ensures lane { Q.is_lane queues.now lane.new }
    ensures put { IsPut Q.puts Q.finds_full rank number tickets.old tickets.new lane.old lane.new }
{
    let ticket = tickets.take();
    if let Err(ticket) = send(rt, queues, lane, rank, number, ticket) {
        tickets.put_back(ticket);
    }
}

/// Puts a request of each of these records, in order, at the end of the callback queue of its
/// priority, each with one of these tickets. The tickets of those that find their queue full are
/// left.
pub fn push_each<L: Ledger, P, Q: SharedQueues<P, RecordRequest<L>>, R: Wait>(
    rt: &R,
    queues: &Q,
    lane: &mut P,
    listed: &[Listed],
    tickets: &mut Tickets<L>,
)
    requires { Q.is_lane queues.now lane.old }
    ensures lane { Q.is_lane queues.now lane.new }
    ensures pushed { ArePushed Q.puts Q.finds_full (callbacks_of listed.now) tickets.old tickets.new lane.old lane.new }
{
    let mut rest = listed;
    while let [item, others @ ..] = rest {
        push_one(
            rt,
            queues,
            lane,
            Rank::of(item.priority),
            item.number,
            tickets,
        );
        rest = others;
    }
}
