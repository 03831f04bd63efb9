//! Performs the event of a call on a set.
ghost use Rattle.std.specs.Prelude.{◌≡◌, ◌≤◌, length, IfOk, IfErr, OnOk, OnErr};
ghost use Rattle.ioc_store.specs.Given.{answers_of};
ghost use Rattle.ioc_events.specs.declared.event.Call.TheVariants as call;
ghost use Rattle.ioc_journal.specs.Places.{IsNoPlace};
ghost use Rattle.ioc_set.specs.SetStore.{world_of};
ghost use Rattle.ioc_set.specs.Doing.{Does, IsShort};
ghost use Rattle.ioc_set.specs.Sound.{IsSound};

use crate::journal_access::JournalAccess;
use ioc_device::Device;
use ioc_events::{Call, Entry, Event, KeptAnswers, Reply};
use ioc_journal::{DeskAccount, JournalName, Place, Receipt, RequestTickets, SpentTicket};
use ioc_ledger::Tickets;
use ioc_notify::Live;
use ioc_record::RecordKind;
use ioc_set::event_buffers::kept_answers;
use ioc_set::{EventBuffers, LockSet};
use ioc_values::IocError;
use std::alloc::{AllocError, Global};
use std::mem;
use std::sync::Wait;

/// The result of an event that was done on a set with live puts with notification, and isn't in the
/// journal yet. Its place has to be filled.
pub(crate) struct Ran<K: RecordKind, B: JournalName<K>> {
    /// The held place of the event.
    pub place: Place<K, B>,
    /// The puts with notification that were live on the set before the event.
    pub before: Vec<Live>,
    pub reply: Reply,
    pub entry: Entry,
}

/// An event that was done on a journaled set and added to the journal.
#[derive(Drop)]
pub struct Served<K: RecordKind, B: JournalName<K>> {
    /// The reply, as in the journal.
    pub reply: Reply,
    /// The receipt of the call.
    pub receipt: Receipt<K, B>,
    /// A ticket for each once request that the event has sent.
    pub tickets: Tickets<RequestTickets<K, B>>,
    /// The ticket that was spent, if it is a request that came with one.
    pub spent: Option<SpentTicket<K, B>>,
}

/// Performs an event on a set, and returns the reply and the answers of devices, in memory of their
/// own size. The set keeps at most `most` events.
///
/// # Errors
///
/// [`AllocError`] if allocation fails; nothing has changed then.
#[inline(always)]
pub(crate) fn run_with_answers<K: RecordKind + Drop, D: Device>(
    set: &mut LockSet<K, D>,
    buffers: &mut EventBuffers<K, D>,
    alloc: Global,
    event: &Event,
    moment: u64,
    most: usize,
) -> Result<(Reply, KeptAnswers), AllocError>
    ensures ok { IfOk result (λ done. Does K.rules D.gives most set.old moment event.now done.0 set.new (world_of buffers.new.store)) }
    ensures answers { IfOk result (λ done. done.1 ≡ answers_of (world_of buffers.new.store).calls) }
    ensures short { OnOk result (IsShort most set.new) }
    ensures err { OnErr result (set.new ≡ set.old) }
{
    // Reserved before the event, because nothing may be refused after it, and kept for the next
    // one.
    let mut spare = mem::replace(&mut buffers.journal_spare, Vec::new(alloc));
    spare.reserve(256)?;
    let reply = set.do_event(buffers, alloc, event, moment, most)?;
    let answers = kept_answers(&buffers.store.event.calls, &mut spare, alloc);
    buffers.journal_spare = spare;
    Ok((reply, answers))
}

/// Reserves a place in the journal for an event of a desk, and performs the event on a set. The
/// result has the set's live puts with notification before the event.
///
/// # Errors
///
/// [`IocError::JournalFull`] if the journal has no place left. [`IocError::NoMemory`] if allocation
/// fails. Nothing has changed then.
pub(crate) fn run_counted<K: RecordKind + Drop, B: JournalName<K>, D: Device, R: Wait>(
    access: &JournalAccess<'_, K, B, R>,
    desk: &DeskAccount<K, B>,
    set: &mut LockSet<K, D>,
    buffers: &mut EventBuffers<K, D>,
    event: &Event,
    moment: u64,
) -> Result<Ran<K, B>, IocError>
    ensures does { IfOk result (λ ran. Does K.rules D.gives access.now.history set.old moment event.now ran.reply set.new
        (world_of buffers.new.store)) }
    ensures entry { IfOk result (λ ran. ran.entry
        ≡ record { moment = moment; call = call.Event event.now ran.reply; answers = answers_of (world_of buffers.new.store).calls }) }
    ensures before { IfOk result (λ ran. ran.before.items ≡ set.old.live) }
    ensures few { OnOk result (length set.new.live ≤ 256) }
    ensures sound { OnOk result (IsSound K.rules set.new) }
    ensures short { OnOk result (IsShort access.now.history set.new) }
    ensures refused { IfErr result IsNoPlace }
    ensures err { OnErr result (set.new ≡ set.old) }
{
    let Ok(before) = set.live_puts().to_vec(access.alloc) else {
        return Err(IocError::NoMemory);
    };
    let place = access.journal.reserve(access.rt, access.alloc, desk)?;
    let (reply, answers) = match run_with_answers(
        set,
        buffers,
        access.alloc,
        event,
        moment,
        access.history,
    ) {
        Ok(done) => done,
        Err(_refused) => {
            access.journal.give_back(access.rt, desk, place);
            return Err(IocError::NoMemory);
        }
    };
    set.puts_are_few();
    set.is_sound();
    let answer = &reply;
    let entry = Entry {
        moment,
        call: Call::Event(*event, *answer),
        answers,
    };
    Ok(Ran {
        place,
        before,
        reply,
        entry,
    })
}
