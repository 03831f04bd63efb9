//! Link changes of lock sets: one set that is divided, and two that become one.
ghost use Rattle.std.specs.Prelude.{◌≡◌, ◌<◌, ◌≤◌, ◌+◌, ℕ, [], ◌∷◌, None, IsSome, IfOk, OnOk, OnErr};
ghost use Rattle.std.specs.FinMap as map;
ghost use Rattle.ioc_dbcommon.specs.Links.{use_of, named_by};
ghost use Rattle.ioc_store.specs.Scanning.{rewired};
ghost use Rattle.ioc_store.specs.World.{Has, begun_at};
ghost use Rattle.ioc_set_records.specs.Joined.{HasLink, HasFreeLink, MayLink, relinked};
ghost use Rattle.ioc_set.specs.SetState.{NoneIsLive, now_of, folded};
ghost use Rattle.ioc_set.specs.Linking.{with_empty_history, FallsApart, MayBeOne, BecomeOne, LeadsInto, link_change_of};
ghost use Rattle.ioc_set.specs.SetStore.{world_of};
ghost use Rattle.ioc_set.specs.Doing.{with_kept};

use crate::awaited::take_awaited;
use crate::event_buffers::EventBuffers;
use crate::laws::held_records_are_sound;
use crate::link_change::LinkChange;
use crate::linking::{add_counts, clear_history, rescan_on};
use crate::live_puts::{LivePuts, PutsRoom, joined_puts, own_puts};
use crate::lock_set::LockSet;
use ioc_dbcommon::LinkBox;
use ioc_device::Device;
use ioc_ledger::Tally;
use ioc_links::MAX_DEVICE_BYTES;
use ioc_names::RecordNo;
use ioc_record::RecordKind;
use ioc_set_records::JoinBuffers;
use ioc_values::Short;
use std::alloc::{AllocError, Global};

impl<K: RecordKind + Drop, D: Drop> LockSet<K, D> {
    /// Sets a link of a record to nowhere, or to a record of this set. The set keeps the part of
    /// the record and the counts. The records that no link joins to it any more are returned as a
    /// set of their own, which may be empty and which counts the answers that they still await.
    /// Each record stays part of its put with notification, each waiting put stays with its record,
    /// and the parts of each are recounted in both sets. Nothing is sent yet: see
    /// [`LockSet::rescan`].
    ///
    /// # Errors
    ///
    /// [`AllocError`] if allocation fails; nothing has changed then, except that the history is
    /// cleared.
    pub fn split(&mut self, alloc: Global, change: LinkChange) -> Result<LockSet<K, D>, AllocError>
        requires link { MayLink K.rules self.old.records change.number change.field change.link change.base_link }
        ensures apart { IfOk result (λ rest. FallsApart self.old
            (relinked K.rules self.old.records change.number change.field change.link) change.number self.new rest) }
        ensures fewer { OnOk result (map.len self.new.records ≤ map.len self.old.records) }
        ensures err { OnErr result (self.new ≡ folded self.old) }
    {
        held_records_are_sound::<K, D>();
        self.fold(alloc);
        self.puts.are_few();
        let stay_room = self.puts.room(alloc)?;
        let rest_room = self.puts.room(alloc)?;
        let LinkChange {
            number,
            field,
            link,
            base_link,
            moment: _,
        } = change;
        let rest = self.members.part(alloc, number, field, link, base_link)?;
        self.members.are_few();
        rest.are_few();
        let rest_puts = own_puts(&rest, &self.puts, rest_room, alloc);
        let stay_puts = own_puts(&self.members, &self.puts, stay_room, alloc);
        self.puts = stay_puts;
        let rest_tally = take_awaited(&mut self.tally, &rest);
        self.base_tally = self.tally;
        Ok(LockSet {
            members: rest,
            puts: rest_puts,
            tally: rest_tally,
            base_tally: rest_tally,
            history: Vec::new(alloc),
        })
    }
}

impl<K: RecordKind + Drop, D: Drop> LockSet<K, D> {
    /// Sets a link of a record, which led nowhere, to a record of another set, and takes over that
    /// set with its devices and its counts, in memory that was reserved before; the other set is
    /// empty then. Each record stays part of its put with notification, the puts that wait in the
    /// other set come behind those that wait here, and the parts of each are recounted, for which
    /// memory was reserved before too, if any is live. No put may wait in both, and the live ones
    /// must fit into one set. Nothing is sent yet: see [`LockSet::rescan`].
    pub fn unite(
        &mut self,
        alloc: Global,
        room: JoinBuffers<K, D>,
        puts_room: Option<PutsRoom>,
        other: &mut LockSet<K, D>,
        change: LinkChange,
    )
        requires one { MayBeOne self.old other.old }
        requires puts_room { puts_room ≡ None → NoneIsLive self.old × NoneIsLive other.old }
        requires room { map.len self.old.records + map.len other.old.records ≤ room.count }
        requires base_link { change.base_link ≡ change.link }
        requires apart { (q : ℕ) → IsSome (map.get self.old.records q) → map.get other.old.records q ≡ None }
        requires free { HasFreeLink K.rules self.old.records change.number change.field }
        requires to { (t : ℕ) × (named_by (use_of change.link) ≡ t ∷ []) × IsSome (map.get other.old.records t) }
        ensures { BecomeOne self.old other.old (relinked K.rules self.old.records change.number change.field change.link) self.new
            other.new }
    {
        held_records_are_sound::<K, D>();
        self.fold(alloc);
        other.fold(alloc);
        let LinkChange {
            number,
            field,
            link,
            base_link,
            moment: _,
        } = change;
        self.members
            .join(room, &mut other.members, number, field, link, base_link);
        self.members.are_few();
        let puts = joined_puts(&self.members, &self.puts, &other.puts, puts_room, alloc);
        self.puts = puts;
        other.puts = LivePuts::none(alloc);
        add_counts(&mut self.tally, &other.tally);
        self.base_tally = self.tally;
        other.tally = Tally::default();
        other.base_tally = other.tally;
    }
}

impl<K: RecordKind + Drop, D: Device> LockSet<K, D> {
    /// Sends a change of the scan list of a record whose link was set, if the text of its device
    /// link is no longer `before`. The history is cleared.
    pub fn rescan(
        &mut self,
        buffers: &mut EventBuffers<K, D>,
        number: RecordNo,
        before: Short<MAX_DEVICE_BYTES>,
        moment: u64,
    )
        requires there { Has (now_of self.old) number }
        ensures left { with_kept self.new.records self.old.live self.old.waiting (world_of buffers.new.store)
            ≡ rewired K.rules before (begun_at moment (now_of self.old)) number }
        ensures held { self.new ≡ with_empty_history self.new.records self.old.devices self.old.live self.old.waiting self.old.tally }
    {
        held_records_are_sound::<K, D>();
        self.puts.are_few();
        rescan_on(buffers, &mut self.members, moment, number, before);
        clear_history(
            &mut self.members,
            &mut self.puts,
            &self.tally,
            &mut self.base_tally,
            &mut self.history,
        );
        self.members.are_few();
    }

    /// Changes a link of a record, which leads nowhere then, or to a record of this set. The set
    /// keeps the part of the record and the counts. The records that no link joins to it any more
    /// are returned as a set of their own, which may be empty. Live puts with notification stay
    /// with their records, as described at [`LockSet::split`].
    ///
    /// # Errors
    ///
    /// [`AllocError`] if allocation fails; nothing has changed then, except that the history is
    /// cleared.
    pub fn part(
        &mut self,
        buffers: &mut EventBuffers<K, D>,
        alloc: Global,
        change: LinkChange,
    ) -> Result<LockSet<K, D>, AllocError>
        requires link { MayLink K.rules self.old.records change.number change.field change.link change.base_link }
        ensures apart { IfOk result (λ rest. FallsApart self.old
            (link_change_of K.rules self.old change.moment change.number change.field change.link).records change.number self.new rest) }
        ensures left { OnOk result (with_kept
            (link_change_of K.rules self.old change.moment change.number change.field change.link).records self.old.live
            self.old.waiting (world_of buffers.new.store)
            ≡ link_change_of K.rules self.old change.moment change.number change.field change.link) }
        ensures err { OnErr result (self.new ≡ folded self.old) }
    {
        let number = change.number;
        let moment = change.moment;
        let before = self.device_text(number);
        let rest = self.split(alloc, change)?;
        self.rescan(buffers, number, before, moment);
        Ok(rest)
    }

    /// Changes a link of a record of this set to lead to a record of another set, which this set
    /// takes over with its devices and its counts; the other set is empty then. The records of this
    /// set that only this link had joined to that record are returned as a set of their own, which
    /// may be empty. Live puts with notification stay with their records, as described at
    /// [`LockSet::split`] and [`LockSet::unite`]; no put may wait in both sets, and the live ones
    /// must fit into one. All memory is allocated before anything changes.
    ///
    /// # Errors
    ///
    /// [`AllocError`] if allocation fails; nothing has changed then, except that the history of
    /// this set is cleared.
    pub fn lead_into(
        &mut self,
        other: &mut LockSet<K, D>,
        buffers: &mut EventBuffers<K, D>,
        alloc: Global,
        change: LinkChange,
    ) -> Result<LockSet<K, D>, AllocError>
        requires one { MayBeOne self.old other.old }
        requires base_link { change.base_link ≡ change.link }
        requires apart { (q : ℕ) → IsSome (map.get self.old.records q) → map.get other.old.records q ≡ None }
        requires field { HasLink K.rules self.old.records change.number change.field }
        requires to { (t : ℕ) × (named_by (use_of change.link) ≡ t ∷ []) × IsSome (map.get other.old.records t) }
        ensures led { IfOk result (λ rest. LeadsInto K.rules self.old other.old change.moment change.number change.field change.link
            self.new other.new rest (world_of buffers.new.store)) }
        ensures err { OnErr result ((self.new ≡ folded self.old) × (other.new ≡ other.old)) }
    {
        held_records_are_sound::<K, D>();
        self.are_few();
        other.are_few();
        self.is_sound();
        other.is_sound();
        self.fold(alloc);
        let room = JoinBuffers::new(alloc, self.len() + other.len())?;
        let puts_room = self.puts_room_with(other, alloc)?;
        let number = change.number;
        let moment = change.moment;
        let before = self.device_text(number);
        let cut = LinkChange {
            number,
            field: change.field,
            link: LinkBox::empty(),
            base_link: LinkBox::empty(),
            moment,
        };
        let rest = self.split(alloc, cut)?;
        self.is_sound();
        self.unite(alloc, room, puts_room, other, change);
        self.is_sound();
        self.rescan(buffers, number, before, moment);
        Ok(rest)
    }
}
