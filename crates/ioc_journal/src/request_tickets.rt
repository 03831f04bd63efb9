//! The tickets of the requests of an engine.
ghost use Rattle.std.specs.Prelude.{◌≡◌, ◌<◌, ◌≤◌, ◌+◌, ◌-◌, ◌^◌, ℕ, true, if◌then◌else◌};
ghost use Rattle.ioc_ledger.specs.Counts.{counts};
ghost use Rattle.ioc_journal.specs.Tickets.{tickets_view, AreTickets, TakesTicket, AreCalled, AreBack, spent_by};

use crate::journal_name::JournalName;
use ioc_ledger::{Ledger, Ticket, Tickets};
use std::marker::{Model, PhantomData};
use std::sync::ledger;
use std::sync::ledger::Blank;

/// The ledger of the tickets of an engine's requests.
pub struct RequestTickets<K, B: JournalName<K>> {
    of: PhantomData<B>,
    kind: PhantomData<K>,
}

impl<K, B: JournalName<K>> ledger::Ledger for RequestTickets<K, B> {
    ghost name = { B.tickets };

    ghost parts = { 18446744073709551615 };
}

/// That a request has spent the ticket with which it came: only the counts of an engine's tickets give this
/// out, for a ticket that they take. Contracts see whether the ticket was counted.
#[derive(Drop)]
pub struct SpentTicket<K, B: JournalName<K>> {
    is_counted: bool,
    of: PhantomData<B>,
    kind: PhantomData<K>,
}

impl<K, B: JournalName<K>> Model for SpentTicket<K, B> {
    ghost use Rattle.std.specs.Prelude.{Bool};

    ghost Value = { Bool };

    ghost view = { λ s. s.is_counted };
}

impl<K, B: JournalName<K>> SpentTicket<K, B> {
    // A ticket that was spent.
    fn new(is_counted: bool) -> Self
        ensures { result ≡ is_counted }
    {
        SpentTicket {
            is_counted,
            of: PhantomData,
            kind: PhantomData,
        }
    }
}

/// The tickets of a call.
#[derive(Drop)]
pub struct CallTickets<K, B: JournalName<K>> {
    /// Those of the once requests that its event has sent.
    pub begun: Tickets<RequestTickets<K, B>>,
    /// The one with which it came, if it is a request that came with one.
    pub spent: Option<SpentTicket<K, B>>,
}

// No more tickets are begun for callback queues, so that all numbers of tickets stay below 2^64 while
// the requests and the once requests are fewer than 2^63.
const MOST_CALLED: u64 = 1 << 63;

/// The tickets of all requests of an engine: each request among the calls of the journal has spent
/// one, which was begun when it was put on a queue, or else by the call. Contracts see the counts of
/// the ledger, how many tickets were begun for once requests and for callback queues, and how many
/// requests have spent the ticket that they came with.
#[derive(Drop)]
pub struct TicketCounts<K, B: JournalName<K>> {
    ledger: Ledger<RequestTickets<K, B>>,
    sent: u64,
    called: u64,
    served: u64,
}

impl<K, B: JournalName<K>> Model for TicketCounts<K, B> {
    ghost use Rattle.std.specs.Prelude.{◌≤◌, ◌^◌};
    ghost use Rattle.ioc_journal.specs.Tickets.{TicketsView, tickets_view};

    ghost Value = { TicketsView };

    ghost view = { λ c. tickets_view c.ledger c.sent c.called c.served };

    ghost invariant = { λ c. (c.called ≤ 2 ^ 63) × (c.served ≤ c.ledger.spent) };
}

/// The numbers of the tickets of an engine's requests. Each stops at 2^64 - 1.
#[derive(Clone, Copy, PartialEq, Eq, Debug, Default)]
pub struct TicketTally {
    /// The number of tickets that were begun: one with each request of a desk, one for each once
    /// request that was sent, and one for each request that was put on a callback queue.
    pub begun: u64,
    /// The number of tickets that were begun for once requests.
    pub sent: u64,
    /// The number of tickets that were begun for requests on callback queues. It stops at 2^63.
    pub called: u64,
    /// The number of tickets that were spent by requests which came with them from a queue.
    pub served: u64,
    /// The number of tickets that were spent, each by its request.
    pub spent: u64,
    /// The number of tickets that were handed back, because their request was waiting at the end or
    /// found no room.
    pub handed_back: u64,
    /// The number of tickets that are still out.
    pub out: u64,
}

impl<K, B: JournalName<K>> TicketCounts<K, B> {
    /// Opens the ledger. No ticket was begun.
    pub fn new(tickets: Blank) -> Self
        requires name { tickets.name ≡ B.tickets }
        requires parts { tickets.parts ≡ 2 ^ 64 - 1 }
        ensures { result ≡ tickets_view (counts 0 0 0 0) 0 0 0 }
    {
        TicketCounts {
            ledger: Ledger::new(tickets),
            sent: 0,
            called: 0,
            served: 0,
        }
    }

    /// Adds the tickets of a call. A request with a counted ticket spends that one, and any other
    /// begins one and spends it. A ticket that comes with something else is handed back. For each
    /// once request that the event has sent a ticket begins, which is returned.
    pub fn add(
        &mut self,
        is_request: bool,
        ticket: Option<Ticket<RequestTickets<K, B>>>,
        sent: u64,
    ) -> CallTickets<K, B>
        ensures tickets { (requests once : ℕ) → AreTickets self.old requests once
            → AreTickets self.new ((if is_request then 1 else 0) + requests) (sent + once) }
        ensures begun { (requests once : ℕ) → AreTickets self.old requests once
            → ((if is_request then 1 else 0) + requests) + (sent + once) < 2 ^ 63 → result.begun ≡ sent }
        ensures taken { TakesTicket is_request ticket self.old self.new }
        ensures spent { result.spent ≡ spent_by is_request ticket }
    {
        let spent = self.take(is_request, ticket);
        if sent == 0 {
            let begun = self.ledger.begin_many(0);
            return CallTickets { begun, spent };
        }
        self.sent = self.sent.saturating_add(sent);
        let begun = self.ledger.begin_many(sent);
        CallTickets { begun, spent }
    }

    // Spends the ticket of a request, or hands back the one that came with something else.
    fn take(
        &mut self,
        is_request: bool,
        ticket: Option<Ticket<RequestTickets<K, B>>>,
    ) -> Option<SpentTicket<K, B>>
        ensures tickets { (requests once : ℕ) → AreTickets self.old requests once
            → AreTickets self.new ((if is_request then 1 else 0) + requests) once }
        ensures taken { TakesTicket is_request ticket self.old self.new }
        ensures spent { result ≡ spent_by is_request ticket }
    {
        match ticket {
            Some(ticket) if is_request => Some(self.spend(ticket)),
            Some(ticket) => {
                self.ledger.hand_back(ticket);
                None
            }
            None if is_request => {
                self.spend_new();
                None
            }
            None => None,
        }
    }

    // Spends the ticket that a request came with, or a new one if that isn't counted.
    fn spend(&mut self, ticket: Ticket<RequestTickets<K, B>>) -> SpentTicket<K, B>
        ensures tickets { (requests once : ℕ) → AreTickets self.old requests once → AreTickets self.new (1 + requests) once }
        ensures served { self.new.served ≡ self.old.served + (if ticket then 1 else 0) }
        ensures back { self.new.counts.back ≡ self.old.counts.back }
        ensures called { self.new.called ≡ self.old.called }
        ensures spent { result ≡ ticket }
    {
        if !ticket.is_counted() {
            self.spend_new();
            return SpentTicket::new(false);
        }
        self.ledger.spend(ticket);
        let spent = self.ledger.spent();
        prove!(self.served < spent);
        self.served += 1;
        SpentTicket::new(true)
    }

    // Begins a ticket for a request that came without one, and spends it.
    fn spend_new(&mut self)
        ensures tickets { (requests once : ℕ) → AreTickets self.old requests once → AreTickets self.new (1 + requests) once }
        ensures served { self.new.served ≡ self.old.served }
        ensures back { self.new.counts.back ≡ self.old.counts.back }
        ensures called { self.new.called ≡ self.old.called }
    {
        // As a `u64`, the number of tickets leaves room for one more, or is the last.
        let _begun = self.ledger.begun();
        let ticket = self.ledger.begin();
        self.ledger.spend(ticket);
    }

    /// Begins tickets for requests that are put on callback queues. Fewer than `count` are begun if
    /// more than 2^63 would have been begun for callback queues, and none if more than 2^64 - 1 would
    /// have been begun then.
    pub fn call(&mut self, count: u64) -> Tickets<RequestTickets<K, B>>
        ensures tickets { (requests once : ℕ) → AreTickets self.old requests once → AreTickets self.new requests once }
        ensures called { AreCalled result self.old self.new }
        ensures most { result ≤ count }
        ensures all { self.old.called + count ≤ 2 ^ 63 → self.old.counts.begun + count < 2 ^ 64 → result ≡ count }
    {
        let wanted = count.min(MOST_CALLED - self.called);
        let tickets = self.ledger.begin_many(wanted);
        if !tickets.is_empty() {
            self.called += wanted;
        }
        tickets
    }

    /// Takes back a ticket whose request wasn't made.
    pub fn hand_back(&mut self, ticket: Ticket<RequestTickets<K, B>>)
        ensures { AreBack (if ticket then 1 else 0) self.old self.new }
    {
        self.ledger.hand_back(ticket);
    }

    /// Takes back tickets whose requests weren't made.
    pub fn hand_back_many(&mut self, tickets: Tickets<RequestTickets<K, B>>)
        ensures { AreBack tickets self.old self.new }
    {
        self.ledger.hand_back_many(tickets);
    }

    /// Returns the numbers of tickets.
    pub fn tally(&self) -> TicketTally
        ensures begun { result.begun ≡ self.now.counts.begun }
        ensures sent { result.sent ≡ self.now.sent }
        ensures called { result.called ≡ self.now.called }
        ensures served { result.served ≡ self.now.served }
        ensures spent { result.spent ≡ self.now.counts.spent }
        ensures handed_back { result.handed_back ≡ self.now.counts.back }
        ensures out { result.out ≡ self.now.counts.out }
        ensures all { result.begun ≡ result.spent + result.handed_back + result.out }
    {
        let out = self.ledger.out();
        TicketTally {
            begun: self.ledger.begun(),
            sent: self.sent,
            called: self.called,
            served: self.served,
            spent: self.ledger.spent(),
            handed_back: self.ledger.handed_back(),
            out,
        }
    }
}
