//! What the events of the engine send.
use crate::engine::EngineCore;
use crate::queueing::{push_each, push_one};
use ioc_device::Device;
use ioc_journal::RequestTickets;
use ioc_journaled_set::SetsName;
use ioc_ledger::Tickets;
use ioc_record::RecordKind;
use ioc_scan::Listed;
use ioc_scan_rules::Asked;
use ioc_set::EventBuffers;
use ioc_shared_queues::Rank;
use ioc_store::OutboxItem;
use std::alloc::AllocError;
use std::sync::Wait;
use std::sync::atomic::Ordering;

impl<K: RecordKind + Drop, B: SetsName<K, D>, D: Device> EngineCore<K, B, D> {
    // Does what the last event has sent, while no lock is held. Most events send nothing, and then
    // there is no ticket.
    #[inline(always)]
    pub(crate) fn do_sent<R: Wait>(
        &self,
        rt: &R,
        buffers: &EventBuffers<K, D>,
        walked: &mut Vec<Listed>,
        tickets: Tickets<RequestTickets<K, B>>,
    ) {
        if !buffers.items().is_empty() {
            self.do_items(rt, buffers, walked, tickets);
        }
    }

    // Does what a link change has sent: changes of scan lists.
    pub(crate) fn do_changes<R: Wait>(
        &self,
        rt: &R,
        buffers: &EventBuffers<K, D>,
        walked: &mut Vec<Listed>,
    ) {
        let none = self.journal.begin_called(rt, 0);
        self.do_sent(rt, buffers, walked, none);
    }

    // Does what an event has sent, in order: once requests go to their queue, each with a ticket of
    // the event, posted events to the queues of the records on their lists, and changes to the scan
    // lists. Lists and queues lie under locks or are shared, so this has no contract; see those of
    // `take_item`, `push_one` and `push_each`.
    #[inline(never)]
    fn do_items<R: Wait>(
        &self,
        rt: &R,
        buffers: &EventBuffers<K, D>,
        walked: &mut Vec<Listed>,
        tickets: Tickets<RequestTickets<K, B>>,
    ) {
        let mut left = tickets;
        for item in buffers.items() {
            self.do_item(rt, item, walked, &mut left);
        }
        self.hand_back(rt, left);
    }

    // Does what an item asks for. A posted event for which allocation fails is left out and counted.
    fn do_item<R: Wait>(
        &self,
        rt: &R,
        item: &OutboxItem,
        walked: &mut Vec<Listed>,
        tickets: &mut Tickets<RequestTickets<K, B>>,
    ) {
        match self.asked(rt, item, walked) {
            Ok(asked) => self.do_asked(rt, &asked, walked, tickets),
            Err(_) => self.count_undone(),
        }
    }

    // Puts the requests that an item asks for on their queues: that of a record, or those of the
    // records that were walked.
    fn do_asked<R: Wait>(
        &self,
        rt: &R,
        asked: &Asked,
        walked: &[Listed],
        tickets: &mut Tickets<RequestTickets<K, B>>,
    ) {
        match asked {
            Asked::Once(number) => {
                let mut lane = self.queues.lane();
                push_one(rt, &self.queues, &mut lane, Rank::Once, *number, tickets);
            }
            Asked::Calls => {
                let begun = self.journal.begin_called(rt, walked.len() as u64);
                self.push_called(rt, walked, begun);
            }
            Asked::Change => {}
            Asked::Dropped => self.count_undone(),
        }
    }

    // Changes the scan lists as an item says, and returns what it asks of the queues.
    fn asked<R: Wait>(
        &self,
        rt: &R,
        item: &OutboxItem,
        walked: &mut Vec<Listed>,
    ) -> Result<Asked, AllocError> {
        if let OutboxItem::Once(number) = item {
            return Ok(Asked::Once(*number));
        }
        self.lists.lock(rt).take(item, walked)
    }

    // Puts a request of each of these records on the callback queue of its priority.
    pub(crate) fn push_called<R: Wait>(
        &self,
        rt: &R,
        listed: &[Listed],
        tickets: Tickets<RequestTickets<K, B>>,
    ) {
        let mut left = tickets;
        let mut lane = self.queues.lane();
        push_each(rt, &self.queues, &mut lane, listed, &mut left);
        self.hand_back(rt, left);
    }

    // Hands back the tickets that are left, if there are any.
    fn hand_back<R: Wait>(&self, rt: &R, left: Tickets<RequestTickets<K, B>>) {
        if !left.is_empty() {
            self.journal.hand_back(rt, left);
        }
    }

    /// Counts a request of a scan that was refused.
    pub fn count_refused(&self) {
        self.refused.fetch_add(1, Ordering::SeqCst);
    }

    // Counts an item that couldn't be done.
    fn count_undone(&self) {
        self.undone.fetch_add(1, Ordering::SeqCst);
    }
}
