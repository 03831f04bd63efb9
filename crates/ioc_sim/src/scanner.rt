//! The scan lists and the queues of a database.
ghost use Rattle.std.specs.Prelude.{◌≡◌, ◌≤◌, ◌+◌, ◌∷◌, [], length, IfOk, OnOk};
ghost use Rattle.ioc_callback.specs.Serving.{no_items};
ghost use Rattle.ioc_store.specs.Outbox.{items_of};
ghost use Rattle.ioc_scan_rules.specs.Asked.{callbacks_of, drops, requests_of};
ghost use Rattle.ioc_sim.specs.Scanner.{with_requests, count_called, called_on, with_dropped_if, with_item, with_items, with_more_dropped};

use ioc_callback::Queues;
use ioc_names::RecordNo;
use ioc_scan::{ListName, Listed, ScanLists};
use ioc_scan_rules::{Asked, calls, take_item};
use ioc_store::OutboxItem;
use ioc_store::outbox::Outbox;
use std::alloc::{AllocError, Global};
use std::marker::Model;

/// The scan lists and the queues of a database. Contracts see the lists and the queues.
#[derive(Drop)]
pub struct Scanner {
    lists: ScanLists,
    queues: Queues<RecordNo>,
    // The records of the list that is walked.
    walked: Vec<Listed>,
}

impl Model for Scanner {
    ghost use Rattle.ioc_sim.specs.Scanner.{Scanner};

    ghost Value = { Scanner };

    ghost view = { λ s. record { lists = s.lists; queues = s.queues } };
}

// Puts a request of each record on the callback queue of its priority, and returns how many found
// room.
fn push_each(queues: &mut Queues<RecordNo>, listed: &[Listed]) -> u64
    ensures queues { queues.new ≡ with_requests queues.old (callbacks_of listed.now) }
    ensures count { result ≡ count_called queues.old listed.now }
{
    let mut count = 0;
    let mut rest = listed;
    while let [item, others @ ..] = rest {
        if queues.push(item.priority, item.number).is_ok() {
            count += 1;
        }
        rest = others;
    }
    count
}

// Puts the requests that an item asks for on their queues; `walked` are the records of the list of
// the event that it posts.
fn push_asked(queues: &mut Queues<RecordNo>, asked: Asked, walked: &[Listed])
    ensures { queues.new ≡ with_requests (with_dropped_if (drops asked) queues.old) (requests_of asked walked.now) }
{
    match asked {
        Asked::Once(number) => {
            // The queues count a request that finds no room.
            let _dropped = queues.push_once(number);
        }
        Asked::Calls => {
            let _queued = push_each(queues, walked);
        }
        Asked::Change => {}
        Asked::Dropped => queues.dropped = queues.dropped.saturating_add(1),
    }
}

impl Scanner {
    ghost use Rattle.std.specs.Prelude.{◌++◌, option_to_list, IsSome, ◌↔◌, ◌<◌};
    ghost use Rattle.ioc_callback.specs.Serving.{in_turn, served};
    ghost use Rattle.ioc_scan.specs.Walked.{walked};

    /// Creates a scanner with these lists and no waiting requests.
    ///
    /// # Errors
    ///
    /// [`AllocError`] if allocation fails.
    pub fn new(alloc: Global, lists: ScanLists) -> Result<Self, AllocError>
        ensures { IfOk result (λ s. s ≡ record { lists = lists; queues = no_items }) }
    {
        let queues = Queues::new(alloc)?;
        Ok(Scanner {
            lists,
            queues,
            walked: Vec::new(alloc),
        })
    }

    /// Returns the number of dropped items.
    pub fn dropped(&self) -> u64
        ensures { result ≡ self.now.queues.dropped }
    {
        self.queues.dropped
    }

    /// Takes the next waiting request.
    pub fn next(&mut self) -> Option<RecordNo>
        ensures taken { in_turn self.old.queues ≡ option_to_list result ++ in_turn self.new.queues }
        ensures after { self.new ≡ record self.old { queues = served self.old.queues } }
        ensures some { IsSome result ↔ (0 < length (in_turn self.old.queues)) }
    {
        self.queues.next()
    }

    /// Replaces the contents of `into` with the records of a list, in order.
    ///
    /// # Errors
    ///
    /// [`AllocError`] if allocation fails.
    pub fn walk(&mut self, list: &ListName, into: &mut Vec<Listed>) -> Result<(), AllocError>
        ensures walked { OnOk result (into.new.items ≡ walked self.old.lists list.now) }
        ensures same { self.new ≡ self.old }
    {
        self.lists.walk(list, into)
    }

    /// Puts the records of a list, if there is one, on the callback queues of their priorities, and
    /// returns how many found room. The others are counted as dropped.
    ///
    /// # Errors
    ///
    /// [`AllocError`] if allocation fails.
    pub fn call(&mut self, list: Option<ListName>) -> Result<u64, AllocError>
        ensures scanner { OnOk result (self.new ≡ (called_on self.old list).scanner) }
        ensures count { IfOk result (λ count. count ≡ (called_on self.old list).count) }
    {
        calls(&mut self.lists, list, &mut self.walked)?;
        Ok(push_each(&mut self.queues, self.walked.as_slice()))
    }

    // Takes an item that an event has sent: queues what it asks for.
    fn do_item(&mut self, item: &OutboxItem) -> Result<(), AllocError>
        ensures { OnOk result (self.new ≡ with_item self.old item.now) }
    {
        let asked = take_item(&mut self.lists, item, &mut self.walked)?;
        push_asked(&mut self.queues, asked, self.walked.as_slice());
        Ok(())
    }

    // Takes the items that an event has sent, in order. Not inlined, because most events send none.
    #[inline(never)]
    fn do_items(&mut self, items: &[OutboxItem]) -> Result<(), AllocError>
        ensures { OnOk result (self.new ≡ with_items self.old items.now) }
    {
        let mut rest = items;
        while let [item, others @ ..] = rest {
            self.do_item(item)?;
            rest = others;
        }
        Ok(())
    }

    /// Takes what an event has sent, in order, and counts the items for which the event found no
    /// room.
    ///
    /// # Errors
    ///
    /// [`AllocError`] if allocation fails.
    pub fn do_outbox(&mut self, outbox: &Outbox) -> Result<(), AllocError>
        ensures { OnOk result (self.new ≡ with_more_dropped (with_items self.old (items_of outbox.now)) outbox.now.dropped) }
    {
        let items = outbox.items();
        if let [_, ..] = items {
            self.do_items(items)?;
        }
        self.queues.dropped = self.queues.dropped.saturating_add(outbox.dropped);
        Ok(())
    }
}
