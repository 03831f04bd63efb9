//! Link changes on the records of lock sets: one set that is divided, and two that become one.
ghost use Rattle.std.specs.Prelude.{◌≡◌, ◌<◌, ◌≤◌, ◌+◌, ℕ, IsSome, IfOk, OnOk, OnErr, Contains, [], ◌∷◌, None, Some};
ghost use Rattle.std.specs.FinMap as map;
ghost use Rattle.ioc_dbcommon.specs.Links.{use_of, named_by};
ghost use Rattle.ioc_set_records.specs.Contents.{nothing};
ghost use Rattle.ioc_set_records.specs.Joined.{links_of, IsPart, HasLink, HasFreeLink, AreShared, relinked};

use crate::joining::{JoinBuffers, join_slots, move_in};
use crate::marks::fold_slots;
use crate::members::Members;
use crate::parting::part_slots;
use crate::slots::place_of;
use ioc_dbcommon::LinkBox;
use ioc_fields::FieldNo;
use ioc_names::RecordNo;
use ioc_record::RecordKind;
use std::alloc::{AllocError, Global};

impl<K: RecordKind + Drop, D: Drop> Members<K, D> {
    /// Sets a link of a record to nowhere, or to a record of this set. The set keeps the part of
    /// the record. The records that no link joins to it any more are returned with their devices:
    /// they are one part too, or none. Each record equals its base before and after, so the base
    /// gets an equal link, `base_link`. The cost is nearly proportional to the number of records
    /// and links.
    ///
    /// # Errors
    ///
    /// [`AllocError`] if allocation fails; nothing has changed then.
    pub fn part(
        &mut self,
        alloc: Global,
        number: RecordNo,
        field: FieldNo,
        link: LinkBox,
        base_link: LinkBox,
    ) -> Result<Members<K, D>, AllocError>
        requires folded { self.old.base ≡ self.old.records }
        requires base_link { base_link ≡ link }
        requires one_part { IsPart (links_of K.rules self.old.records) }
        requires field { HasLink K.rules self.old.records number field }
        requires within { (t : ℕ) → Contains (named_by (use_of link)) t → IsSome (map.get self.old.records t) }

        // Each record is in one of the two, unchanged except for the one link, and so is each
        // device.
        ensures shared { IfOk result (λ rest. AreShared (map.get (relinked K.rules self.old.records number field link))
            (map.get self.new.records) (map.get rest.records)) }
        ensures devices { IfOk result (λ rest. AreShared (map.get self.old.devices) (map.get self.new.devices) (map.get rest.devices)) }
        ensures own { OnOk result (IsSome (map.get self.new.records number)) }
        ensures fewer { OnOk result (map.len self.new.records ≤ map.len self.old.records) }
        ensures stay { OnOk result (IsPart (links_of K.rules self.new.records)) }
        ensures rest { IfOk result (λ rest. IsPart (links_of K.rules rest.records)) }
        ensures base { OnOk result (self.new.base ≡ self.new.records) }
        ensures rest_base { IfOk result (λ rest. rest.base ≡ rest.records) }
        ensures err { OnErr result (self.new ≡ self.old) }
    {
        fold_slots(&mut self.slots, &mut self.changed);
        let Some(place) = place_of(&self.slots, self.latest, number) else {
            unreachable!()
        };
        let (rest, places) = part_slots(alloc, &mut self.slots, place, field, link, base_link)?;
        Ok(Members {
            slots: rest,
            changed: places,
            latest: 0,
        })
    }

    /// Sets a link of a record, which led nowhere, to a record of another set, and takes over that
    /// set with its devices, in memory that was reserved before; the other set has no records then.
    /// Each record equals its base before and after, so the base gets an equal link, `base_link`.
    /// The cost is n log n for n records in both.
    pub fn join(
        &mut self,
        room: JoinBuffers<K, D>,
        other: &mut Members<K, D>,
        number: RecordNo,
        field: FieldNo,
        link: LinkBox,
        base_link: LinkBox,
    )
        requires room { map.len self.old.records + map.len other.old.records ≤ room.count }
        requires folded { self.old.base ≡ self.old.records }
        requires other_folded { other.old.base ≡ other.old.records }
        requires base_link { base_link ≡ link }
        requires apart { (q : ℕ) → IsSome (map.get self.old.records q) → map.get other.old.records q ≡ None }
        requires one_part { IsPart (links_of K.rules self.old.records) }
        requires other_part { IsPart (links_of K.rules other.old.records) }
        requires free { HasFreeLink K.rules self.old.records number field }
        requires to { (t : ℕ) × (named_by (use_of link) ≡ t ∷ []) × IsSome (map.get other.old.records t) }

        // The records are those of both sets, each once, unchanged except for the one link, and so
        // are the devices.
        ensures shared { AreShared (map.get self.new.records) (map.get (relinked K.rules self.old.records number field link))
            (map.get other.old.records) }
        ensures devices { AreShared (map.get self.new.devices) (map.get self.old.devices) (map.get other.old.devices) }
        ensures part { IsPart (links_of K.rules self.new.records) }
        ensures emptied { other.new ≡ nothing }
        ensures base { self.new.base ≡ self.new.records }
    {
        fold_slots(&mut self.slots, &mut self.changed);
        fold_slots(&mut other.slots, &mut other.changed);
        let Some(place) = place_of(&self.slots, self.latest, number) else {
            unreachable!()
        };
        move_in(room, &mut self.slots, &mut self.changed);
        join_slots(
            &mut self.slots,
            &mut other.slots,
            place,
            field,
            link,
            base_link,
        );
    }
}
