//! Posted events and interrupts, which stand in the journal and change no record.
ghost use Rattle.std.specs.Prelude.{◌≡◌, ◌≤◌, [], true, None};
ghost use Rattle.crossbeam_utils.specs.Seq.{cell_view};
ghost use Rattle.ioc_journal.specs.Account.{HasCalled};
ghost use Rattle.ioc_journal.specs.Posting.{is_posting, requests_of};

use crate::cell::SharedCell;
use crate::desk::DeskAccount;
use crate::entry::JournalEntry;
use crate::event_counts::EventCounts;
use crate::free_places::Place;
use crate::journal::Journal;
use crate::journal_name::JournalName;
use crate::receipt::Receipt;
use crate::request_tickets::RequestTickets;
use crate::shared_journal::SharedJournal;
use crate::short_lock::lock_soon;
use crate::{EntryName, pass};
use ioc_events::{Call, Entry};
use ioc_ledger::{Ticket, Tickets};
use ioc_record::RecordKind;
use std::marker::Brand;
use std::sync::Wait;

/// A posted event or an interrupt that was added to the journal.
#[derive(Drop)]
pub struct Posted<K: RecordKind, B: JournalName<K>> {
    pub receipt: Receipt<K, B>,
    /// The tickets of the requests that it asks for.
    pub tickets: Tickets<RequestTickets<K, B>>,
}

// Returns the number of requests that a posted event or an interrupt asks for.
fn requests_of(made: &Call) -> u64
    ensures { result ≡ requests_of made.now }
{
    match made {
        Call::Post(_, count) => *count,
        Call::Interrupt(_, count) => *count,
        _ => 0,
    }
}

impl<K: RecordKind, B: JournalName<K>> SharedJournal<K, B> {
    // Adds the call of a desk that `S` names.
    fn append_posted_as<S: EntryName, R: Wait>(
        &self,
        rt: &R,
        place: Place<K, B>,
        desk: &mut DeskAccount<K, B>,
        entry: Entry,
    ) -> Posted<K, B>
        requires entry { S.entry ≡ entry }
        requires posting { is_posting entry.call ≡ true }
        requires answers { entry.answers ≡ [] }
        ensures call { HasCalled K.rules B.base desk.old S.entry desk.new }
        ensures receipt { result.receipt ≡ desk.new.seen }
        ensures tickets { result.tickets ≤ requests_of entry.call }
    {
        let count = requests_of(&entry.call);
        let made = JournalEntry {
            desk: desk.number,
            call: desk.next,
            entry,
        };
        let mut nobody = pass::copy(&self.cell, &mut desk.pass);
        let mut guard = lock_soon(rt, &self.journal);
        let journal = &mut *guard;
        let shared = SharedCell {
            rt,
            cell: &self.cell,
        };
        let counts = EventCounts::none();
        let added = journal.append::<S, R>(&shared, place, &mut nobody, desk, made, counts);
        let tickets = journal.begin_called(count);
        Posted {
            receipt: added.receipt,
            tickets,
        }
    }

    /// Adds a posted event or an interrupt as a call of a desk, and begins tickets for the requests
    /// that it asks for, whose number the call tells. It concerns no set. Afterwards the desk knows the
    /// whole list. Fewer tickets come back if more than 2^63 would have been begun for callback queues.
    pub fn append_posted<R: Wait>(
        &self,
        rt: &R,
        place: Place<K, B>,
        desk: &mut DeskAccount<K, B>,
        entry: Entry,
    ) -> Posted<K, B>
        requires posting { is_posting entry.call ≡ true }
        requires answers { entry.answers ≡ [] }
        ensures call { HasCalled K.rules B.base desk.old entry desk.new }
        ensures receipt { result.receipt ≡ desk.new.seen }
        ensures tickets { result.tickets ≤ requests_of entry.call }
    {
        self.append_posted_as::<Brand, R>(rt, place, desk, entry)
    }

    /// Begins tickets for the requests that an event of a record asks for. Fewer than `count` come
    /// back if more than 2^63 would have been begun for callback queues.
    pub fn begin_called<R: Wait>(&self, rt: &R, count: u64) -> Tickets<RequestTickets<K, B>>
        ensures { result ≤ count }
    {
        lock_soon(rt, &self.journal).begin_called(count)
    }

    /// Takes back the ticket of a request that wasn't made.
    pub fn hand_back_one<R: Wait>(&self, rt: &R, ticket: Ticket<RequestTickets<K, B>>) {
        lock_soon(rt, &self.journal).hand_back(ticket);
    }
}
