//! The records of a lock set, and their devices.
ghost use Rattle.std.specs.Prelude.{◌≡◌, ◌<◌, ◌+◌, ◌^◌, ℕ, ◌↔◌, ◌⊎◌, IsTrue, IsSome, false, IfOk, OnOk, OnErr, Contains, [], ◌∷◌};
ghost use Rattle.std.specs.Prelude.{None, slice_get, Some};
ghost use Rattle.std.specs.Borrow.{Lends, sem};
ghost use Rattle.std.specs.FinMap as map;
ghost use Rattle.ioc_set_records.specs.contracts.members.Members.{the_row};
ghost use Rattle.ioc_dbcommon.specs.Links.{use_of, named_by};
ghost use Rattle.ioc_set_records.specs.Answers.{Gives, GivesAt};
ghost use Rattle.ioc_set_records.specs.Changed.{all_changed, IsListed};
ghost use Rattle.ioc_set_records.specs.Contents.{nothing, record_at, with_device, DevicesAreOwned, BaseHasTheSame, RecordsAreLikeTheirBase};
ghost use Rattle.ioc_set_records.specs.Joined.{HasLink};
ghost use Rattle.ioc_set_records.specs.Slots.{AreAscending, contents_of};

use crate::changing::{Change, change_slots};
use crate::marks::{fold_slots, list_all, mark};
use crate::slots::{Slot, are_apart, place_of};
use ioc_dbcommon::LinkBox;
use ioc_device::{Answer, Ask, Device, answer_of};
use ioc_fields::FieldNo;
use ioc_names::RecordNo;
use ioc_record::RecordKind;
use std::alloc::{AllocError, Global};
use std::marker::Model;

/// The records of a lock set in ascending order of their numbers, each with its device, if it has
/// one, and its base: the record before the first event of the history. Contracts see three maps
/// from numbers: to records, to devices, and to bases.
#[derive(Drop)]
pub struct Members<K, D> {
    pub(crate) slots: Vec<Slot<K, D>>,
    // The places of the records that may differ from their bases. There is room for all, so that no
    // event allocates.
    pub(crate) changed: Vec<usize>,
    // The place of the record that was borrowed mutably last; most accesses are to that one.
    pub(crate) latest: usize,
}

impl<K, D> Model for Members<K, D> {
    ghost use Rattle.ioc_set_records.specs.Contents.{Contents, contents_code};

    ghost Value = { Contents K D };

    ghost coded = { contents_code K.code D.code };

    ghost use Rattle.std.specs.Vec.{vec_capacity};
    ghost use Rattle.ioc_set_records.specs.Slots.{contents_of};
    ghost use Rattle.ioc_set_records.specs.Twins.{AreKept};

    ghost view = { λ m. contents_of m.slots.items };

    ghost invariant = { λ m. AreKept m.slots.items m.changed.items (vec_capacity m.changed) };
}

impl<K, D> Members<K, D> {
    /// Creates a set with no records.
    pub fn new(alloc: Global) -> Self
        ensures { result ≡ nothing }
    {
        Members {
            slots: Vec::new(alloc),
            changed: Vec::new(alloc),
            latest: 0,
        }
    }

    /// Creates a set with no records and room for `count`.
    ///
    /// # Errors
    ///
    /// [`AllocError`] if allocation fails.
    pub fn with_room(alloc: Global, count: usize) -> Result<Self, AllocError>
        ensures { IfOk result (λ m. m ≡ nothing) }
    {
        let changed = Vec::with_capacity(alloc, count)?;
        let slots = Vec::with_capacity(alloc, count)?;
        Ok(Members {
            slots,
            changed,
            latest: 0,
        })
    }

    /// Returns the records in ascending order of their numbers, each with its device and its base.
    pub fn into_slots(self) -> Vec<Slot<K, D>>
        ensures contents { contents_of result.items ≡ self }
        ensures ascending { AreAscending result.items }
    {
        let Members {
            slots,
            changed: _,
            latest: _,
        } = self;
        slots
    }

    /// Returns the number of records.
    pub fn len(&self) -> usize
        ensures { result ≡ map.len self.now.records }
    {
        self.slots.len()
    }

    /// Returns whether there is no record.
    pub fn is_empty(&self) -> bool
        ensures { IsTrue result ↔ self.now ≡ nothing }
    {
        self.slots.is_empty()
    }

    /// Returns whether there is a record with this number.
    #[inline(always)]
    pub fn has(&self, number: RecordNo) -> bool
        ensures { result ≡ map.contains_key self.now.records number }
    {
        place_of(&self.slots, self.latest, number).is_some()
    }

    /// Returns the number of the record at a place, from 0 on, in the order of the numbers, or
    /// `None` past the last.
    pub fn number_at(&self, place: usize) -> Option<RecordNo>
        ensures { result ≡ slice_get (map.keys self.now.records) place }
    {
        let slot = self.slots.get(place)?;
        Some(slot.number)
    }

    /// Returns whether no record is in both.
    pub fn is_apart(&self, other: &Self) -> bool
        ensures { IsTrue result ↔ ((q : ℕ) → IsSome (map.get self.now.records q) → map.get other.now.records q ≡ None) }
    {
        are_apart(&self.slots, &other.slots)
    }

    /// Returns whether the link names no record outside this set.
    pub fn leads_within(&self, link: &LinkBox) -> bool
        ensures { IsTrue result ↔ ((t : ℕ) → Contains (named_by (use_of link.now)) t → IsSome (map.get self.now.records t)) }
    {
        match link.record_named() {
            Some(target) => self.has(target),
            None => true,
        }
    }

    /// Returns whether the link names a record of this set.
    pub fn leads_into(&self, link: &LinkBox) -> bool
        ensures { IsTrue result ↔ ((t : ℕ) × (named_by (use_of link.now) ≡ t ∷ []) × IsSome (map.get self.now.records t)) }
    {
        match link.record_named() {
            Some(target) => self.has(target),
            None => false,
        }
    }

    /// There are fewer than 2^63 records, since no more fit into memory.
    pub fn are_few(&self)
        ensures { map.len self.now.records < 2 ^ 63 }
    {
        let _ = &self.slots;
    }

    /// Each device belongs to a record of this set, and each record has a base.
    pub fn devices_are_owned(&self)
        ensures devices { DevicesAreOwned self.now }
        ensures base { BaseHasTheSame self.now }
    {
        let _ = &self.slots;
    }
}

impl<K: Drop, D: Drop> Members<K, D> {
    /// Adds a record whose number is above those of all others, with its device, if it has one. Its
    /// base must equal the record.
    ///
    /// # Errors
    ///
    /// [`AllocError`] if allocation fails; nothing has changed then.
    pub fn add(
        &mut self,
        number: RecordNo,
        fields: K,
        base: K,
        device: Option<D>,
    ) -> Result<(), AllocError>
        requires above { (q : ℕ) → IsSome (map.get self.old.records q) → q < number }
        requires same { base ≡ fields }
        ensures records { OnOk result (self.new.records ≡ map.insert self.old.records number fields) }
        ensures devices { OnOk result (self.new.devices ≡ with_device self.old.devices number device) }
        ensures base { OnOk result (self.new.base ≡ map.insert self.old.base number fields) }
        ensures err { OnErr result (self.new ≡ self.old) }
    {
        let wanted = self.slots.len() + 1 - self.changed.len();
        self.changed.reserve(wanted)?;
        self.slots.push(Slot {
            number,
            fields,
            base,
            is_changed: false,
            device,
        })?;
        Ok(())
    }
}

impl<K: RecordKind, D> Members<K, D> {
    /// Returns whether there is a record with this number, and the field is one of its link fields.
    pub fn has_link(&self, number: RecordNo, field: FieldNo) -> bool
        ensures { IsTrue result ↔ HasLink K.rules self.now.records number field }
    {
        if !self.has(number) {
            return false;
        }
        self.record(number).link(field).is_some()
    }

    /// Returns a record of this set.
    #[inline(always)]
    pub fn record(&self, number: RecordNo) -> &K
        requires { IsTrue (map.contains_key self.now.records number) }
        ensures { result.now ≡ record_at K.rules self.now.records number }
    {
        let Some(place) = place_of(&self.slots, self.latest, number) else {
            unreachable!()
        };
        &self.slots[place].fields
    }

    /// Returns the base of a record of this set.
    pub fn base(&self, number: RecordNo) -> &K
        requires { IsTrue (map.contains_key self.now.records number) }
        ensures { result.now ≡ record_at K.rules self.now.base number }
    {
        let Some(place) = place_of(&self.slots, self.latest, number) else {
            unreachable!()
        };
        &self.slots[place].base
    }

    /// Returns the places of the records that may differ from their bases, as they were borrowed
    /// mutably since the last [`Members::fold`]. A place is that of [`Members::number_at`].
    pub fn changed(&self) -> &[usize]
        ensures { (n : ℕ) → IsTrue (map.contains_key self.now.records n)
            → IsListed self.now.records result.now n ⊎ (record_at K.rules self.now.base n ≡ record_at K.rules self.now.records n) }
    {
        self.changed.as_slice()
    }

    /// Returns whether a record of this set may differ from its base: it was borrowed mutably since
    /// the last [`Members::fold`].
    pub fn may_differ(&self, number: RecordNo) -> bool
        requires { IsTrue (map.contains_key self.now.records number) }
        ensures { result ≡ false → record_at K.rules self.now.base number ≡ record_at K.rules self.now.records number }
    {
        let Some(place) = place_of(&self.slots, self.latest, number) else {
            unreachable!()
        };
        self.slots[place].is_changed
    }

    /// Returns a record of this set for changes. Its base is unchanged.
    #[inline(always)]
    pub fn record_mut(&mut self, number: RecordNo) -> &mut K
        requires { IsTrue (map.contains_key self.old.records number) }
        ensures* lends { sem 𝓛 (Lends (the_row K.row D.row) K.row self.entry result
            (λ r. record self.old { records = map.insert self.old.records number r })) }
        ensures value { result.now ≡ record_at K.rules self.old.records number }
    {
        let Some(place) = place_of(&self.slots, self.latest, number) else {
            unreachable!()
        };
        self.latest = place;
        mark(&mut self.slots, &mut self.changed, place);
        &mut self.slots[place].fields
    }

    /// Makes each record its own base. The cost is proportional to the number of records that were
    /// borrowed mutably since the last call.
    pub fn fold(&mut self)
        requires like { RecordsAreLikeTheirBase K.rules self.old }
        ensures { self.new ≡ record self.old { base = self.old.records } }
    {
        fold_slots(&mut self.slots, &mut self.changed);
    }
}

impl<K, D> Members<K, D> {
    /// Applies a change to each record. The devices and the bases are unchanged.
    pub fn change_all<C: Change<K>>(&mut self, by: &C)
        ensures records { self.new.records ≡ all_changed (C.changed by.now) self.old.records }
        ensures devices { self.new.devices ≡ self.old.devices }
        ensures base { self.new.base ≡ self.old.base }
    {
        list_all(&mut self.changed, self.slots.len());
        change_slots(&mut self.slots, by);
    }
}

// Returns the answer of a device, or a fault if there is none.
fn gives<D: Device>(device: &mut Option<D>, ask: &Ask, moment: u64) -> Answer
    ensures { Gives D.gives device.old ask.now moment result device.new }
{
    match device {
        Some(device) => answer_of(device, ask, moment),
        None => Answer::Fault,
    }
}

impl<K, D: Device> Members<K, D> {
    /// Returns the answer of a record's device, or a fault if the record has none. Every other
    /// device keeps its state.
    pub fn device_gives(&mut self, number: RecordNo, ask: &Ask, moment: u64) -> Answer
        ensures gives { GivesAt D.gives self.old.devices number ask.now moment result self.new.devices }
        ensures records { self.new.records ≡ self.old.records }
        ensures base { self.new.base ≡ self.old.base }
    {
        let Some(place) = place_of(&self.slots, self.latest, number) else {
            return Answer::Fault;
        };
        gives(&mut self.slots[place].device, ask, moment)
    }
}
