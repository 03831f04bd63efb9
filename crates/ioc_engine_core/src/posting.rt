//! Posted events, interrupts of devices, and walks of scan lists.
ghost use Rattle.std.specs.Prelude.{◌≡◌, ◌⊎◌, ℕ, true, [], length, take, IfOk, IfErr, OnOk, OnErr};
ghost use Rattle.ioc_values.specs.declared.error.IocError.TheVariants.{NoMemory, Stopped};
ghost use Rattle.ioc_events.specs.declared.event.Call.TheVariants as call;
ghost use Rattle.ioc_journal.specs.Account.{HasCalled};
ghost use Rattle.ioc_journal.specs.Posting.{is_posting, requests_of};
ghost use Rattle.ioc_journal.specs.Places.{IsNoPlace};
ghost use Rattle.ioc_engine_core.specs.Lists.{AreMembers};

use crate::clock::Clock;
use crate::desk::Desk;
use crate::engine::EngineCore;
use ioc_device::Device;
use ioc_events::{Call, Entry, KeptAnswers};
use ioc_journal::{DeskAccount, Place, Posted, Receipt};
use ioc_journaled_set::SetsName;
use ioc_record::RecordKind;
use ioc_scan::{ListName, Listed};
use ioc_scan_rules::{event_list, interrupt_list};
use ioc_values::{IocError, Short, Text};
use std::alloc::Global;
use std::sync::Wait;

impl<K: RecordKind + Drop, B: SetsName<K, D>, D: Device> EngineCore<K, B, D> {
    /// Replaces the contents of `walked` with the records of a scan list, if there is one, in the
    /// order of PHAS; those with equal PHAS are in the order of adding.
    ///
    /// # Errors
    ///
    /// [`IocError::NoMemory`] if allocation fails; the contents of `walked` are meaningless then.
    pub fn walk<R: Wait>(
        &self,
        rt: &R,
        list: Option<ListName>,
        walked: &mut Vec<Listed>,
    ) -> Result<(), IocError>
        ensures walked { OnOk result (AreMembers K.rules B.base list walked.new.items) }
        ensures refused { IfErr result (λ error. error ≡ NoMemory) }
    {
        match self.lists.lock(rt).walk(list, walked) {
            Ok(()) => Ok(()),
            Err(_) => Err(IocError::NoMemory),
        }
    }

    // Takes a place for a call. If the journal has none left and calls make checkpoints, it waits for
    // one.
    fn reserve<R: Wait>(
        &self,
        rt: &R,
        alloc: Global,
        desk: &DeskAccount<K, B>,
    ) -> Result<Place<K, B>, IocError>
        ensures refused { IfErr result IsNoPlace }
    {
        for _ in rt.forever() {
            match self.journal.reserve(rt, alloc, desk) {
                Ok(place) => return Ok(place),
                Err(refused) => self.make_room(rt, alloc, refused)?,
            }
        }
        unreachable!()
    }

    // Adds a call that begins a request of each of these records to the journal, and puts these
    // requests on the callback queues of their priorities.
    fn add_posted<R: Wait>(
        &self,
        rt: &R,
        desk: &mut Desk<K, B, D>,
        moment: u64,
        posting: Call,
    ) -> Result<Receipt<K, B>, IocError>
        requires posting { is_posting posting ≡ true }
        requires count { requests_of posting ≡ length desk.old.walked.items }
        ensures called { OnOk result (HasCalled K.rules B.base desk.old.account
            (record { moment = moment; call = posting; answers = [] }) desk.new.account) }
        ensures receipt { IfOk result (λ receipt. receipt ≡ desk.new.account.seen) }
        ensures refused { IfErr result IsNoPlace }
        ensures err { OnErr result (desk.new.account ≡ desk.old.account) }
    {
        let place = self.reserve(rt, desk.alloc, &desk.account)?;
        let entry = Entry {
            moment,
            call: posting,
            answers: KeptAnswers::new(Vec::new(desk.alloc)),
        };
        let Posted { receipt, tickets } = self
            .journal
            .append_posted(rt, place, &mut desk.account, entry);
        self.push_called(rt, desk.walked.as_slice(), tickets);
        Ok(receipt)
    }

    /// Posts an event (post_event): a request of each record with SCAN Event whose EVNT is this name
    /// is put on the callback queue of its priority, in the order of the list, and the call is added
    /// to the journal with the number of these requests, which is the reply. A request that finds
    /// its queue full is dropped and counted.
    ///
    /// # Errors
    ///
    /// [`IocError::Stopped`] if the engine was closed. [`IocError::JournalFull`] if the journal has
    /// no place left. [`IocError::NoMemory`] if allocation fails. Nothing has changed then.
    pub fn post_event<R: Wait, C: Clock>(
        &self,
        rt: &R,
        desk: &mut Desk<K, B, D>,
        name: Text,
        clock: &C,
    ) -> Result<(u64, Receipt<K, B>), IocError>
        ensures posted { IfOk result (λ x. (moment : ℕ) × C.gives clock.now moment
            × HasCalled K.rules B.base desk.old.account
            (record { moment = moment; call = call.Post name x.0; answers = [] }) desk.new.account) }
        ensures receipt { IfOk result (λ x. x.1 ≡ desk.new.account.seen) }
        ensures refused { IfErr result (λ error. (error ≡ Stopped) ⊎ IsNoPlace error) }
        ensures err { OnErr result (desk.new.account ≡ desk.old.account) }
    {
        if !self.may_begin(rt, desk.alloc) {
            return Err(IocError::Stopped);
        }
        self.walk(rt, event_list(name), &mut desk.walked)?;
        let count = desk.walked.len() as u64;
        let posting = Call::Post(name, count);
        let receipt = self.add_posted(rt, desk, clock.now(), posting)?;
        Ok((count, receipt))
    }

    /// Tells of an interrupt of the devices whose links begin with this word (scanIoRequest): a
    /// request of each record with SCAN I/O Intr and such a link is put on the callback queue of its
    /// priority, and the call is added to the journal, as with [`EngineCore::post_event`]. No link
    /// has a word of more than 119 bytes; of such a word the journal keeps the first 119.
    ///
    /// # Errors
    ///
    /// As [`EngineCore::post_event`].
    pub fn io_interrupt<R: Wait, C: Clock>(
        &self,
        rt: &R,
        desk: &mut Desk<K, B, D>,
        word: &[u8],
        clock: &C,
    ) -> Result<(u64, Receipt<K, B>), IocError>
        ensures posted { IfOk result (λ x. (moment : ℕ) × C.gives clock.now moment
            × HasCalled K.rules B.base desk.old.account
            (record { moment = moment; call = call.Interrupt (take 119 word.now) x.0; answers = [] }) desk.new.account) }
        ensures receipt { IfOk result (λ x. x.1 ≡ desk.new.account.seen) }
        ensures refused { IfErr result (λ error. (error ≡ Stopped) ⊎ IsNoPlace error) }
        ensures err { OnErr result (desk.new.account ≡ desk.old.account) }
    {
        if !self.may_begin(rt, desk.alloc) {
            return Err(IocError::Stopped);
        }
        self.walk(rt, interrupt_list(word), &mut desk.walked)?;
        let count = desk.walked.len() as u64;
        let posting = Call::Interrupt(Short::cut(word), count);
        let receipt = self.add_posted(rt, desk, clock.now(), posting)?;
        Ok((count, receipt))
    }
}
