//! Requests of records, each with its ticket, and how one is sent.
ghost use Rattle.std.specs.Prelude.{◌≡◌, OnOk, OnErr, IfErr};
ghost use Rattle.ioc_shared_queues.specs.Requests.{request};

use crate::queues::SharedQueues;
use crate::rank::Rank;
use ioc_ledger::Ticket;
use ioc_names::RecordNo;
use std::sync::{Wait, ledger};

/// A record that waits on a queue to be requested, with the ticket of its request.
#[derive(Drop)]
pub struct RecordRequest<L: ledger::Ledger> {
    pub record: RecordNo,
    pub ticket: Ticket<L>,
}

/// Puts a request of a record on a queue, with this ticket, and wakes one worker if any sleeps.
///
/// # Errors
///
/// The ticket, if the queue was found full.
pub fn send<L: ledger::Ledger, P, Q: SharedQueues<P, RecordRequest<L>>, R: Wait>(
    rt: &R,
    queues: &Q,
    lane: &mut P,
    rank: Rank,
    number: RecordNo,
    ticket: Ticket<L>,
) -> Result<(), Ticket<L>>
    requires { Q.is_lane queues.now lane.old }
    ensures lane { Q.is_lane queues.now lane.new }
    ensures put { OnOk result (Q.puts lane.old rank (request number ticket) lane.new) }
    ensures given_back { IfErr result (λ given. given ≡ ticket) }
    ensures full { OnErr result (Q.finds_full lane.old rank lane.new) }
{
    let request = RecordRequest {
        record: number,
        ticket,
    };
    match queues.push(rt, lane, rank, request) {
        Ok(()) => Ok(()),
        Err(request) => Err(request.ticket),
    }
}
