//! Calls that concern puts with notification but no set.
ghost use Rattle.std.specs.Prelude.{◌≡◌, false, [], None, IfOk, IfErr, OnOk, OnErr};
ghost use Rattle.ioc_notify.specs.Living.{is_live};
ghost use Rattle.ioc_journal.specs.Account.{HasCalled, number_given};
ghost use Rattle.ioc_journal.specs.Counting.{is_completion};
ghost use Rattle.ioc_journal.specs.Places.{IsNoPlace};
ghost use Rattle.ioc_journaled_set.specs.Puts.{puts_view, ChangesNothing, WasAsked, WasStale};

use crate::journal_access::JournalAccess;
use crate::shared_notifications::SharedNotifications;
use ioc_events::{Call, Entry, Event, KeptAnswers, Reply};
use ioc_journal::legal_laws::{lists_leave_sound, live_lasts};
use ioc_journal::{DeskAccount, EventCounts, JournalName, Place, Receipt};
use ioc_notify::NotifyId;
use ioc_notify::table_laws::lines_tell_holders;
use ioc_record::RecordKind;
use ioc_values::IocError;
use std::sync::Wait;

impl<K: RecordKind, B: JournalName<K>> SharedNotifications<K, B> {
    /// Returns whether the put with notification with this number is live.
    pub fn is_live(&self, number: NotifyId) -> bool
        ensures { result ≡ is_live number self.now.live }
    {
        self.table.is_live(number)
    }

    // Adds a call to the journal that changes nothing but the moment, and that no device answers.
    fn keep_told<R: Wait>(
        &mut self,
        access: &JournalAccess<'_, K, B, R>,
        place: Place<K, B>,
        desk: &mut DeskAccount<K, B>,
        entry: Entry,
    ) -> Receipt<K, B>
        requires nothing { ChangesNothing K.rules B.base self.old.seen entry }
        requires unanswered { entry.answers ≡ [] }
        requires begins_none { number_given entry.call ≡ None }
        requires completes_none { is_completion entry.call ≡ false }
        ensures call { HasCalled K.rules B.base desk.old entry desk.new }
        ensures receipt { result ≡ desk.new.seen }
        ensures kept { self.new ≡ puts_view self.old.live self.old.taken self.old.last desk.new.seen }
    {
        live_lasts::<K>();
        access
            .journal
            .append(
                access.rt,
                place,
                &mut self.pass,
                desk,
                entry,
                EventCounts::none(),
            )
            .receipt
    }

    /// Replies whether a put with notification is live, and adds the question to the journal.
    ///
    /// # Errors
    ///
    /// [`IocError::JournalFull`] if the journal has no place left. [`IocError::NoMemory`] if
    /// allocation fails. Nothing has changed then.
    pub fn ask<R: Wait>(
        &mut self,
        access: &JournalAccess<'_, K, B, R>,
        desk: &mut DeskAccount<K, B>,
        number: NotifyId,
        moment: u64,
    ) -> Result<(bool, Receipt<K, B>), IocError>
        ensures asked { IfOk result (λ x. WasAsked K.rules B.base self.old desk.old moment number self.new desk.new x.0) }
        ensures receipt { IfOk result (λ x. x.1 ≡ desk.new.seen) }
        ensures refused { IfErr result IsNoPlace }
        ensures err { OnErr result ((self.new ≡ self.old) × (desk.new ≡ desk.old)) }
    {
        live_lasts::<K>();
        lists_leave_sound::<K>();
        lines_tell_holders();
        self.table.is_table();
        let place = access.journal.reserve(access.rt, access.alloc, desk)?;
        let is_live = self.table.is_live(number);
        let entry = Entry {
            moment,
            call: Call::IsLive(number, is_live),
            answers: KeptAnswers::new(Vec::new(access.alloc)),
        };
        let receipt = self.keep_told(access, place, desk, entry);
        Ok((is_live, receipt))
    }

    /// Refuses to cancel a put with notification that isn't live, and adds the refusal to the
    /// journal.
    ///
    /// # Errors
    ///
    /// [`IocError::JournalFull`] if the journal has no place left. [`IocError::NoMemory`] if
    /// allocation fails. Nothing has changed then.
    pub fn refuse_cancel<R: Wait>(
        &mut self,
        access: &JournalAccess<'_, K, B, R>,
        desk: &mut DeskAccount<K, B>,
        number: NotifyId,
        moment: u64,
    ) -> Result<Receipt<K, B>, IocError>
        requires none { is_live number self.old.live ≡ false }
        ensures stale { OnOk result (WasStale K.rules B.base self.old desk.old moment number self.new desk.new) }
        ensures receipt { IfOk result (λ receipt. receipt ≡ desk.new.seen) }
        ensures refused { IfErr result IsNoPlace }
        ensures err { OnErr result ((self.new ≡ self.old) × (desk.new ≡ desk.old)) }
    {
        live_lasts::<K>();
        lists_leave_sound::<K>();
        lines_tell_holders();
        self.table.is_table();
        let place = access.journal.reserve(access.rt, access.alloc, desk)?;
        let event = Event::Cancel {
            notification: number,
        };
        let entry = Entry {
            moment,
            call: Call::Event(event, Reply::Refused(IocError::Stale)),
            answers: KeptAnswers::new(Vec::new(access.alloc)),
        };
        Ok(self.keep_told(access, place, desk, entry))
    }
}
