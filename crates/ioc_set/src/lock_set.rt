//! Lock sets.
ghost use Rattle.std.specs.Prelude.{false, ◌⊎◌, ◌≡◌, ◌<◌, ◌≤◌, ◌^◌, ◌↔◌, ℕ, List, [], ◌∷◌, length, None, Some, IsSome, is_some};
ghost use Rattle.std.specs.Prelude.{IsTrue, Contains, IfOk, slice_get};
ghost use Rattle.std.specs.FinMap as map;
ghost use Rattle.ioc_notify.specs.declared.live_numbers.Live.{Live};
ghost use Rattle.ioc_notify.specs.declared.waiting_lists.Waiting.{Waiting};
ghost use Rattle.ioc_events.specs.declared.event.Event.TheVariants.{Put};
ghost use Rattle.ioc_events.specs.Step.{shown, stepped, names, refused};
ghost use Rattle.ioc_set.specs.NoCalls.{no_call};
ghost use Rattle.std.specs.Option.{IfSome};
ghost use Rattle.ioc_ledger.specs.Requests.{no_counts};
ghost use Rattle.ioc_store.specs.Given.{Answers};
ghost use Rattle.ioc_dbcommon.specs.Links.{use_of, named_by};
ghost use Rattle.ioc_store.specs.Scanning.{device_of};
ghost use Rattle.ioc_record.specs.Values.{stops_put};
ghost use Rattle.ioc_store.specs.World.{Has, at, common_at};
ghost use Rattle.ioc_set_records.specs.Changed.{IsListed};
ghost use Rattle.ioc_set_records.specs.Contents.{RecordsAreLikeTheirBase, record_at};
ghost use Rattle.ioc_set_records.specs.Joined.{links_of, IsPart, HasLink};
ghost use Rattle.ioc_set.specs.SetState.{NoneIsLive, now_of, nothing_held, folded};
ghost use Rattle.ioc_set.specs.Resting.{resting};
ghost use Rattle.ioc_set.specs.Linking.{with_empty_history, AreCalm, NoneAwaits};
ghost use Rattle.ioc_set.specs.Sound.{IsSound};
ghost use Rattle.ioc_set.specs.Doing.{held_by};

use crate::laws::{calm_records_are_sound, held_records_are_sound};
use crate::linking::clear_history;
use crate::live_puts::{LivePuts, PutsRoom};
use ioc_dbcommon::LinkBox;
use ioc_events::{Event, EventEntry};
use ioc_fields::{FieldNo, row_of};
use ioc_ledger::Tally;
use ioc_links::MAX_DEVICE_BYTES;
use ioc_names::RecordNo;
use ioc_notify::{Live, NotifyId, Waiting};
use ioc_process::scanning::device_of;
use ioc_record::{FieldText, RecordKind, kind_to_put, stops_put, text_of};
use ioc_set_records::Members;
use ioc_values::{IocError, Short};
use std::alloc::{AllocError, Global};
use std::marker::Model;

// The most events for which a history keeps its memory at a checkpoint, so that a set with few events
// between checkpoints doesn't allocate again each time.
const FEW_EVENTS: usize = 4;

/// Records that links join, with their devices, the live puts with notification, the counts of
/// their requests, and a history: the last events, at most 64, and the state before them.
#[derive(Drop)]
pub struct LockSet<K: RecordKind, D> {
    pub(crate) members: Members<K, D>,
    pub(crate) puts: LivePuts,
    pub(crate) tally: Tally,
    // The counts before the first event of the history.
    pub(crate) base_tally: Tally,
    pub(crate) history: Vec<EventEntry>,
}

impl<K: RecordKind, D> Model for LockSet<K, D> {
    ghost use Rattle.ioc_set.specs.SetState.{SetState};
    ghost use Rattle.ioc_set.specs.SetStateCode.{held_code};

    ghost Value = { SetState K D };

    ghost coded = { held_code K.code D.code };

    ghost use Rattle.ioc_set.specs.Doing.{held_by};
    ghost use Rattle.ioc_set.specs.Sound.{IsSound};
    ghost use Rattle.ioc_set_records.specs.Contents.{RecordsAreLikeTheirBase};

    ghost view = { λ s. held_by s.members s.puts s.base_tally s.tally s.history.items };

    ghost invariant = { λ s. IsSound K.rules (held_by s.members s.puts s.base_tally s.tally s.history.items)
        × RecordsAreLikeTheirBase K.rules s.members };
}

// Gives back the memory of an empty history, unless that has room for a few events only.
fn give_back(history: &mut Vec<EventEntry>, alloc: Global)
    requires { history.old.items ≡ [] }
    ensures { history.new.items ≡ [] }
{
    if history.capacity() > FEW_EVENTS {
        *history = Vec::new(alloc);
    }
}

// Returns the text of a field of one of these records.
#[tactic(auto, unfolding(ioc_events::specs::Step::shown, ioc_store::specs::World::at))]
fn text_in<K: RecordKind, D>(
    members: &Members<K, D>,
    number: RecordNo,
    field: FieldNo,
) -> Result<FieldText, IocError>
    ensures { (live : List Live) (waiting : List Waiting)
        → result ≡ shown K.rules (resting members.now.records live waiting) number field }
{
    if !members.has(number) {
        return Err(IocError::NoRecord);
    }
    let record = members.record(number);
    match row_of(record.record_type(), field) {
        Some(_) => Ok(text_of(record, field)),
        None => Err(IocError::NoField),
    }
}

impl<K: RecordKind, D> LockSet<K, D> {
    /// Creates a set with no records.
    pub fn empty(alloc: Global) -> Self
        ensures { result ≡ nothing_held }
    {
        let tally = Tally::default();
        LockSet {
            members: Members::new(alloc),
            puts: LivePuts::none(alloc),
            tally,
            base_tally: tally,
            history: Vec::new(alloc),
        }
    }

    /// A set is sound whenever it is not in use.
    pub fn is_sound(&self)
        ensures { IsSound K.rules self.now }
    {
        let _ = &self.members;
    }

    /// Each device belongs to a record of the set.
    pub fn devices_are_owned(&self)
        ensures { (q : ℕ) → IsSome (map.get self.now.devices q) → IsSome (map.get self.now.records q) }
    {
        self.members.devices_are_owned();
    }

    /// The set had the same records before the first event of the history.
    pub fn has_its_base(&self)
        ensures { (q : ℕ) → is_some (map.get self.now.base.records q) ≡ is_some (map.get self.now.records q) }
    {
        self.members.devices_are_owned();
    }

    /// Returns the records, each with its device. The counts and the history are dropped.
    pub fn into_members(self) -> Members<K, D>
        ensures { (result.records ≡ self.records) × (result.devices ≡ self.devices) }
    {
        let LockSet {
            members,
            puts: _,
            tally: _,
            base_tally: _,
            history: _,
        } = self;
        members
    }

    /// Returns the number of records.
    pub fn len(&self) -> usize
        ensures { result ≡ map.len self.now.records }
    {
        self.members.len()
    }

    /// Returns whether there is a record with this number.
    pub fn has(&self, number: RecordNo) -> bool
        ensures { result ≡ map.contains_key self.now.records number }
    {
        self.members.has(number)
    }

    /// Returns the number of the record at a place, from 0 on, in the order of the numbers, or
    /// `None` past the last.
    pub fn number_at(&self, place: usize) -> Option<RecordNo>
        ensures { result ≡ slice_get (map.keys self.now.records) place }
    {
        self.members.number_at(place)
    }

    /// Returns the record of this set with this number.
    pub fn record(&self, number: RecordNo) -> &K
        requires { Has (now_of self.now) number }
        ensures { map.get self.now.records number ≡ Some result.now }
    {
        self.members.record(number)
    }

    /// Returns the places of the records that may differ from what they were before the first event
    /// of the history. A place is that of [`LockSet::number_at`].
    pub fn changed(&self) -> &[usize]
        ensures { (n : ℕ) → Has (now_of self.now) n → IsListed self.now.records result.now n
            ⊎ (record_at K.rules self.now.base.records n ≡ record_at K.rules self.now.records n) }
    {
        self.members.changed()
    }

    /// Returns whether a record of this set may differ from what it was before the first event of the
    /// history.
    pub fn may_differ(&self, number: RecordNo) -> bool
        requires { Has (now_of self.now) number }
        ensures { result ≡ false → record_at K.rules self.now.base.records number ≡ record_at K.rules self.now.records number }
    {
        self.members.may_differ(number)
    }

    /// Returns the counts of requests, and of calls that are answered later. If a set is divided,
    /// they stay with one part, except for the answers that the other still awaits; if two become
    /// one, they are added.
    pub fn tally(&self) -> Tally
        ensures { result ≡ self.now.tally }
    {
        self.tally
    }

    /// Returns the text of a field.
    ///
    /// # Errors
    ///
    /// [`IocError::NoRecord`] or [`IocError::NoField`] in this order, if there is no such record or
    /// field.
    pub fn get(&self, number: RecordNo, field: FieldNo) -> Result<FieldText, IocError>
        ensures { result ≡ shown K.rules (now_of self.now) number field }
    {
        text_in(&self.members, number, field)
    }

    /// Returns the error of a put on a record of this set that is no call: the record's type has no
    /// such field, or the field can't be put. It would be refused with this error and change
    /// nothing.
    #[tactic(auto, unfolding(crate::specs::NoCalls::no_call, ioc_store::specs::World::at), using(crate::proofs::NoCalls::no_call_is_refused))]
    pub fn no_call(&self, event: &Event) -> Option<IocError>
        requires there { (n : ℕ) → Contains (names event.now) n → Has (now_of self.now) n }
        ensures none { result ≡ no_call K.rules (now_of self.now) event.now }
        ensures refused { IfSome result (λ e. (answers : Answers)
            → stepped K.rules answers (now_of self.now) event.now ≡ refused (now_of self.now) e) }
    {
        match event {
            Event::Put { record, field, .. } | Event::Notify { record, field, .. } => {
                let record_type = self.members.record(*record).record_type();
                kind_to_put(record_type, *field).err()
            }
            _ => None,
        }
    }

    /// Returns the live puts with notification of the set, with the number of its records and
    /// waiting lists that are part of each.
    pub fn live_puts(&self) -> &[Live]
        ensures { result.now ≡ self.now.live }
    {
        self.puts.live()
    }

    /// Returns the puts with notification that wait for records of the set, in the order in which
    /// they came.
    pub fn waiting_puts(&self) -> &[Waiting]
        ensures { result.now ≡ self.now.waiting }
    {
        self.puts.waiting()
    }

    /// At most 256 are live on the set, since there is no room for more.
    pub fn puts_are_few(&self)
        ensures { length self.now.live ≤ 256 }
    {
        self.puts.are_few();
    }

    /// Returns whether no put with notification is live on the set. If so, none waits either.
    pub fn none_is_live(&self) -> bool
        ensures { IsTrue result ↔ NoneIsLive self.now }
    {
        self.puts.are_none()
    }
}

impl<K: RecordKind, D> LockSet<K, D> {
    /// Creates a set of these members, with no counts and no history. None of them may await a
    /// completion.
    pub fn of(alloc: Global, members: Members<K, D>) -> Self
        requires base { members.base ≡ members.records }
        requires part { IsPart (links_of K.rules members.records) }
        requires calm { AreCalm K.rules members.records }
        requires idle { NoneAwaits K.rules members.records }
        ensures { result ≡ with_empty_history members.records members.devices [] [] no_counts }
    {
        calm_records_are_sound::<K, D>();
        members.are_few();
        let tally = Tally::default();
        LockSet {
            members,
            puts: LivePuts::none(alloc),
            tally,
            base_tally: tally,
            history: Vec::new(alloc),
        }
    }

    /// Returns whether there is a record with this number, and the field is one of its link fields.
    pub fn has_link(&self, number: RecordNo, field: FieldNo) -> bool
        ensures { IsTrue result ↔ HasLink K.rules self.now.records number field }
    {
        self.members.has_link(number, field)
    }

    /// Returns whether DISP of a record of this set forbids a change of this field.
    pub fn forbids(&self, number: RecordNo, field: FieldNo) -> bool
        requires { Has (now_of self.now) number }
        ensures { result ≡ stops_put (common_at K.rules (now_of self.now) number) field }
    {
        stops_put(self.members.record(number).common(), field)
    }

    /// Returns whether the link names no record outside this set.
    pub fn leads_within(&self, link: &LinkBox) -> bool
        ensures { IsTrue result ↔ ((t : ℕ) → Contains (named_by (use_of link.now)) t → IsSome (map.get self.now.records t)) }
    {
        self.members.leads_within(link)
    }

    /// Returns whether the link names a record of this set.
    pub fn leads_into(&self, link: &LinkBox) -> bool
        ensures { IsTrue result ↔ ((t : ℕ) × (named_by (use_of link.now) ≡ t ∷ []) × IsSome (map.get self.now.records t)) }
    {
        self.members.leads_into(link)
    }

    /// Returns whether no record is in both.
    pub fn is_apart(&self, other: &LockSet<K, D>) -> bool
        ensures { IsTrue result ↔ ((q : ℕ) → IsSome (map.get self.now.records q) → map.get other.now.records q ≡ None) }
    {
        self.members.is_apart(&other.members)
    }

    /// There are fewer than 2^63 records, since no more fit into memory.
    pub fn are_few(&self)
        ensures { map.len self.now.records < 2 ^ 63 }
    {
        self.members.are_few();
    }

    // Reserves room for the puts with notification of both sets in one, if any is live; otherwise
    // returns `None`.
    pub(crate) fn puts_room_with(
        &self,
        other: &LockSet<K, D>,
        alloc: Global,
    ) -> Result<Option<PutsRoom>, AllocError>
        ensures { IfOk result (λ room. room ≡ None → NoneIsLive self.now × NoneIsLive other.now) }
    {
        self.puts.room_with(&other.puts, alloc)
    }

    /// Clears the history, and gives back its memory, unless that has room for a few events only.
    pub fn fold(&mut self, alloc: Global)
        ensures { self.new ≡ folded self.old }
    {
        held_records_are_sound::<K, D>();
        self.puts.are_few();
        clear_history(
            &mut self.members,
            &mut self.puts,
            &self.tally,
            &mut self.base_tally,
            &mut self.history,
        );
        give_back(&mut self.history, alloc);
    }

    /// Returns the text of the device link of a record of this set, in INP or OUT; empty if it has
    /// none.
    pub fn device_text(&self, number: RecordNo) -> Short<MAX_DEVICE_BYTES>
        requires { Has (now_of self.now) number }
        ensures { result ≡ device_of K.rules (at K.rules (now_of self.now) number) }
    {
        device_of(self.members.record(number))
    }
}
