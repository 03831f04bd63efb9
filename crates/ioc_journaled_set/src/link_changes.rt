//! Link changes of journaled sets.
ghost use Rattle.std.specs.Prelude.{◌≡◌, ◌++◌, ◌∷◌, ℕ, List, [], None, true, false, IsSome, IfOk, IfErr, OnOk, OnErr, Contains};
ghost use Rattle.std.specs.FinMap.{get};
ghost use Rattle.crossbeam_utils.specs.Seq.{cell_view};
ghost use Rattle.ioc_values.specs.declared.error.IocError.TheVariants.{PutDisabled};
ghost use Rattle.ioc_dbcommon.specs.Links.{use_of, named_by};
ghost use Rattle.ioc_record.specs.Values.{stops_put};
ghost use Rattle.ioc_set_records.specs.Joined.{HasLink};
ghost use Rattle.ioc_store.specs.World.{common_at};
ghost use Rattle.ioc_journal.specs.declared.entry.Note.{Note};
ghost use Rattle.ioc_journal.specs.Key.{Key, Has};
ghost use Rattle.ioc_journal.specs.Line.{holder};
ghost use Rattle.ioc_journal.specs.Account.{IsHolder, AreRecords, BothMayFollow, HasCalled, AddedByBoth, number_given};
ghost use Rattle.ioc_journal.specs.CountLaws.{is_link_change};
ghost use Rattle.ioc_journal.specs.Counting.{BothMaySend, sent_counts};
ghost use Rattle.ioc_journal.specs.Places.{IsNoPlace};
ghost use Rattle.ioc_set.specs.SetState.{now_of, folded};
ghost use Rattle.ioc_set.specs.Linking.{MayBeOne};
ghost use Rattle.ioc_set.specs.SetStore.{world_of};
ghost use Rattle.ioc_journaled_set.specs.Puts.{told_at};
ghost use Rattle.ioc_journaled_set.specs.LinkChanges.{keys_of, IsKnown, Refuses, Parts, Leads};

use crate::counts::{divide_share, take_share};
use crate::journal_access::JournalAccess;
use crate::journaled_set::JournaledSet;
use crate::link_laws::{held_sets_may_be_one, led_sets_are_held, parted_sets_are_held};
use crate::sets_name::SetsName;
use ioc_device::Device;
use ioc_events::{Call, Entry, KeptAnswers};
use ioc_journal::count_laws::questions_count_nothing;
use ioc_journal::legal_laws::{holding_lasts, lists_leave_sound};
use ioc_journal::{
    DeskAccount, EventCounts, JournalName, KeyPass, Keys, Place, Receipt, SharedJournal, pass,
};
use ioc_record::RecordKind;
use ioc_set::{EventBuffers, LinkChange, LockSet};
use ioc_values::IocError;
use std::marker::Brand;
use std::sync::Wait;

// The two sets after a link change: the one with the record whose link was changed, and the other;
// and the number of items that the change has dropped.
#[derive(Drop)]
struct LinkedSets<'a, K: RecordKind, D> {
    stay: &'a LockSet<K, D>,
    rest: &'a LockSet<K, D>,
    dropped: u64,
}

// Adds a link change to the journal, and assigns the keys of the records to the passes of the two
// sets after it.
fn keep_change<P: Keys, K: RecordKind, B: JournalName<K>, D, R: Wait>(
    access: &JournalAccess<'_, K, B, R>,
    place: Place<K, B>,
    desk: &mut DeskAccount<K, B>,
    one: &mut KeyPass,
    other: &mut KeyPass,
    after: LinkedSets<'_, K, D>,
    made: Call,
    moment: u64,
) -> Receipt<K, B>
    requires table { (one.old.table_id ≡ B.table) × (other.old.table_id ≡ B.table) }
    requires one { IsHolder (cell_view one.old) × AreRecords (cell_view one.old).owns }
    requires other { IsHolder (cell_view other.old) × AreRecords (cell_view other.old).owns }
    requires nothing { (is_link_change made ≡ true) × (number_given made ≡ None) }
    requires sent { BothMaySend K.rules B.base (cell_view one.old).seen (cell_view one.old).owns (cell_view other.old).seen
        (cell_view other.old).owns (told_at moment made) (sent_counts 0 after.dropped) }
    requires keys { (P.keys ≡ keys_of after.stay.now) × (P.rest ≡ keys_of after.rest.now) }
    requires within { (key : Key) → Has key (P.keys ++ P.rest) → Has key ((cell_view one.old).owns ++ (cell_view other.old).owns) }
    requires apart { (key : Key) → Has key P.keys → Has key P.rest → ⊥ }
    requires follows { BothMayFollow K.rules B.base (cell_view one.old).seen (cell_view one.old).owns (cell_view other.old).seen
        (cell_view other.old).owns (told_at moment made) }
    ensures call { HasCalled K.rules B.base desk.old (told_at moment made) desk.new }
    ensures receipt { result ≡ desk.new.seen }
    ensures one { (one.new.table_id ≡ B.table) × (cell_view one.new ≡ holder desk.new.seen P.keys) }
    ensures other { (other.new.table_id ≡ B.table) × (cell_view other.new ≡ holder desk.new.seen P.rest) }
    ensures added { (log : List Note)
        × AddedByBoth K.rules B.base (cell_view one.old).seen (cell_view one.old).owns (cell_view other.old).seen
        (cell_view other.old).owns (told_at moment made) log desk.new.seen }
{
    questions_count_nothing::<K>();
    let entry = Entry {
        moment,
        call: made,
        answers: KeptAnswers::new(Vec::new(access.alloc)),
    };
    access
        .journal
        .append_two::<P, R>(
            access.rt,
            place,
            one,
            other,
            desk,
            entry,
            EventCounts::dropping(after.dropped),
        )
        .receipt
}

impl<K: RecordKind + Drop, B: SetsName<K, D>, D: Device> JournaledSet<K, B, D> {
    /// Changes a link of a record to a record of this set, or to none, and adds the change to the
    /// journal. The set keeps the record's part, and the records that no link connects with it any
    /// more are returned as a journaled set of their own, which may be without records. Live puts
    /// with notification go with their records; see [`LockSet::part`].
    ///
    /// # Errors
    ///
    /// [`IocError::JournalFull`] if the journal has no place left. [`IocError::NoMemory`] if
    /// allocation fails. Nothing has changed then, except that the history may be forgotten.
    pub fn part<R: Wait>(
        &mut self,
        access: &JournalAccess<'_, K, B, R>,
        desk: &mut DeskAccount<K, B>,
        buffers: &mut EventBuffers<K, D>,
        change: LinkChange,
    ) -> Result<(JournaledSet<K, B, D>, Receipt<K, B>), IocError>
        requires base_link { change.base_link ≡ change.link }
        requires field { HasLink K.rules self.old.set.records change.number change.field }
        requires allowed { stops_put (common_at K.rules (now_of self.old.set) change.number) change.field ≡ false }
        requires within { (t : ℕ) → Contains (named_by (use_of change.link)) t → IsSome (get self.old.set.records t) }
        requires unwatched { self.old.watched ≡ [] }
        ensures parts { IfOk result (λ x. Parts K.rules B.base self.old desk.old change.moment change.number change.field change.link
            self.new x.0 desk.new
            (world_of buffers.new.store)) }
        ensures receipt { IfOk result (λ x. x.1 ≡ desk.new.seen) }
        ensures refused { IfErr result IsNoPlace }
        ensures set { OnErr result (folded self.new.set ≡ folded self.old.set) }
        ensures seen { OnErr result (self.new.seen ≡ self.old.seen) }
        ensures desk { OnErr result (desk.new ≡ desk.old) }
    {
        holding_lasts::<K>();
        parted_sets_are_held::<K, D>();
        let number = change.number;
        let field = change.field;
        let chosen = change.link.get();
        let moment = change.moment;
        let started = self.set.tally().started;
        let place = access.journal.reserve(access.rt, access.alloc, desk)?;
        let rest = match self.set.part(buffers, access.alloc, change) {
            Ok(rest) => rest,
            Err(_refused) => {
                access.journal.give_back(access.rt, desk, place);
                return Err(IocError::NoMemory);
            }
        };
        self.set.is_sound();
        rest.is_sound();
        self.set.devices_are_owned();
        rest.devices_are_owned();
        let Some(mut pass) = self.pass.take() else {
            unreachable!();
        };
        let mut other = pass::copy(access.journal.cell(), &mut pass);
        let mut share = take_share(&mut self.share);
        let rest_share = divide_share(access.rt, access.journal, &mut share, started, &rest);
        let after = LinkedSets {
            stay: &self.set,
            rest: &rest,
            dropped: buffers.dropped(),
        };
        let made = Call::Link(number, field, chosen, Ok(()));
        let receipt = keep_change::<Brand, K, B, D, R>(
            access, place, desk, &mut pass, &mut other, after, made, moment,
        );
        self.pass = Some(pass);
        self.share = Some(share);
        let rest = JournaledSet {
            set: rest,
            pass: Some(other),
            share: Some(rest_share),
            watched: None,
        };
        Ok((rest, receipt))
    }

    // Compares two journaled sets with records: they have no record in common and may be joined.
    // Afterwards both have seen the same list.
    fn compare<R: Wait>(
        &mut self,
        rt: &R,
        journal: &SharedJournal<K, B>,
        other: &mut JournaledSet<K, B, D>,
    )
        requires one { (n : ℕ) × IsSome (get self.old.set.records n) }
        requires other { (n : ℕ) × IsSome (get other.old.set.records n) }
        ensures apart { (q : ℕ) → IsSome (get self.old.set.records q) → get other.old.set.records q ≡ None }
        ensures one { MayBeOne self.old.set other.old.set }
        ensures same { (self.new.set ≡ self.old.set) × (other.new.set ≡ other.old.set) }
        ensures watched { (self.new.watched ≡ self.old.watched) × (other.new.watched ≡ other.old.watched) }
    {
        holding_lasts::<K>();
        lists_leave_sound::<K>();
        held_sets_may_be_one::<K, D>();
        self.set.is_sound();
        other.set.is_sound();
        let Some(mut pass) = self.pass.take() else {
            unreachable!();
        };
        let Some(mut beside) = other.pass.take() else {
            unreachable!();
        };
        journal.compare(rt, &mut pass, &mut beside);
        self.pass = Some(pass);
        other.pass = Some(beside);
    }

    /// Changes a link of a record of this set to a record of another set, takes over the records of
    /// that set, and adds the change to the journal. The records of this set that only the old link
    /// connected with the record are returned as a journaled set of their own, which may be without
    /// records; the other set is left without records. Live puts with notification go with their
    /// records; see [`LockSet::lead_into`].
    ///
    /// # Errors
    ///
    /// [`IocError::JournalFull`] if the journal has no place left. [`IocError::NoMemory`] if
    /// allocation fails. Nothing has changed then, except that the history may be forgotten.
    pub fn lead_into<R: Wait>(
        &mut self,
        access: &JournalAccess<'_, K, B, R>,
        desk: &mut DeskAccount<K, B>,
        buffers: &mut EventBuffers<K, D>,
        other: &mut JournaledSet<K, B, D>,
        change: LinkChange,
    ) -> Result<(JournaledSet<K, B, D>, Receipt<K, B>), IocError>
        requires base_link { change.base_link ≡ change.link }
        requires field { HasLink K.rules self.old.set.records change.number change.field }
        requires allowed { stops_put (common_at K.rules (now_of self.old.set) change.number) change.field ≡ false }
        requires to { (t : ℕ) × (named_by (use_of change.link) ≡ t ∷ []) × IsSome (get other.old.set.records t) }
        requires unwatched { (self.old.watched ≡ []) × (other.old.watched ≡ []) }
        ensures leads { IfOk result (λ x. Leads K.rules B.base self.old other.old desk.old change.moment change.number change.field
            change.link self.new other.new
            x.0 desk.new (world_of buffers.new.store)) }
        ensures receipt { IfOk result (λ x. x.1 ≡ desk.new.seen) }
        ensures refused { IfErr result IsNoPlace }
        ensures set { OnErr result ((folded self.new.set ≡ folded self.old.set) × (other.new.set ≡ other.old.set)) }
        ensures desk { OnErr result (desk.new ≡ desk.old) }
    {
        holding_lasts::<K>();
        led_sets_are_held::<K, D>();
        self.compare(access.rt, access.journal, other);
        let number = change.number;
        let field = change.field;
        let chosen = change.link.get();
        let moment = change.moment;
        self.set.devices_are_owned();
        other.set.devices_are_owned();
        let started = self.set.tally().started;
        let place = access.journal.reserve(access.rt, access.alloc, desk)?;
        let rest = match self
            .set
            .lead_into(&mut other.set, buffers, access.alloc, change)
        {
            Ok(rest) => rest,
            Err(_refused) => {
                access.journal.give_back(access.rt, desk, place);
                return Err(IocError::NoMemory);
            }
        };
        rest.is_sound();
        self.set.devices_are_owned();
        rest.devices_are_owned();
        let Some(mut pass) = self.pass.take() else {
            unreachable!();
        };
        let Some(mut beside) = other.pass.take() else {
            unreachable!();
        };
        let mut share = take_share(&mut self.share);
        let rest_share = divide_share(access.rt, access.journal, &mut share, started, &rest);
        let others = take_share(&mut other.share);
        share.merge(others);
        let after = LinkedSets {
            stay: &self.set,
            rest: &rest,
            dropped: buffers.dropped(),
        };
        let made = Call::Link(number, field, chosen, Ok(()));
        let receipt = keep_change::<Brand, K, B, D, R>(
            access,
            place,
            desk,
            &mut pass,
            &mut beside,
            after,
            made,
            moment,
        );
        self.pass = Some(pass);
        self.share = Some(share);
        let rest = JournaledSet {
            set: rest,
            pass: Some(beside),
            share: Some(rest_share),
            watched: None,
        };
        Ok((rest, receipt))
    }

    /// Refuses a link change that DISP forbids, and adds the refusal to the journal. The set stays
    /// as it is.
    ///
    /// # Errors
    ///
    /// [`IocError::JournalFull`] if the journal has no place left. [`IocError::NoMemory`] if
    /// allocation fails. Nothing has changed then.
    pub fn refuse_link<R: Wait>(
        &mut self,
        access: &JournalAccess<'_, K, B, R>,
        desk: &mut DeskAccount<K, B>,
        change: &LinkChange,
    ) -> Result<Receipt<K, B>, IocError>
        requires field { HasLink K.rules self.old.set.records change.now.number change.now.field }
        requires forbidden { stops_put (common_at K.rules (now_of self.old.set) change.now.number) change.now.field ≡ true }
        requires known { (t : ℕ) → Contains (named_by (use_of change.now.link)) t → IsKnown K.rules B.base t }
        ensures refuses { OnOk result (Refuses K.rules B.base self.old desk.old change.now.moment change.now.number change.now.field
            change.now.link self.new desk.new) }
        ensures receipt { IfOk result (λ receipt. receipt ≡ desk.new.seen) }
        ensures watched { self.new.watched ≡ self.old.watched }
        ensures refused { IfErr result IsNoPlace }
        ensures err { OnErr result ((self.new ≡ self.old) × (desk.new ≡ desk.old)) }
    {
        holding_lasts::<K>();
        lists_leave_sound::<K>();
        questions_count_nothing::<K>();
        let place = access.journal.reserve(access.rt, access.alloc, desk)?;
        let refused = Err(IocError::PutDisabled);
        let entry = Entry {
            moment: change.moment,
            call: Call::Link(change.number, change.field, change.link.get(), refused),
            answers: KeptAnswers::new(Vec::new(access.alloc)),
        };
        let Some(mut pass) = self.pass.take() else {
            unreachable!();
        };
        let appended = access.journal.append(
            access.rt,
            place,
            &mut pass,
            desk,
            entry,
            EventCounts::none(),
        );
        self.pass = Some(pass);
        Ok(appended.receipt)
    }
}
