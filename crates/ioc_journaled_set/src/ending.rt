//! What a journaled set knows and reports at the end of an engine and at checkpoints.
ghost use Rattle.std.specs.Prelude.{◌≡◌, ◌+◌, ℕ, IsSome};
ghost use Rattle.ioc_notify.specs.Waits.{at_record};
ghost use Rattle.ioc_set.specs.SetState.{now_of};
ghost use Rattle.ioc_set_records.specs.Slots.{AreAscending, devices_of, records_of};
ghost use Rattle.std.specs.FinMap.{get, len};
ghost use Rattle.ioc_journal.specs.Legal.{map_of};
ghost use Rattle.ioc_ledger.specs.Requests.{added, FitsAll};
ghost use Rattle.ioc_ledger.specs.Shared.{share_view};
ghost use Rattle.ioc_watched.specs.Watched.{AreFresh};
ghost use Rattle.ioc_journaled_set.specs.Holding.{KeepsDevices};
ghost use Rattle.ioc_journaled_set.specs.SameDevice.{IsDeviceOf};

use crate::journaled_set::JournaledSet;
use crate::sets_name::SetsName;
use ioc_device::Device;
use ioc_journal::legal_laws::holding_lasts;
use ioc_journal::{Cell, EngineCounts, Journal, KeyPass};
use ioc_ledger::laws::counts_are_added;
use ioc_ledger::{Tally, TallyShare};
use ioc_record::RecordKind;
use ioc_set::LockSet;
use ioc_set_records::Slot;
use ioc_watched::WatchList;
use std::marker::{Model, PhantomData};
use std::sync::Wait;

/// A set of an engine that has ended, which has no share of the engine's counts any more. Contracts
/// see what they have seen of the journaled set.
#[derive(Drop)]
pub struct EndedSet<K: RecordKind, B: SetsName<K, D>, D: Device> {
    set: LockSet<K, D>,
    pass: Option<KeyPass>,
    watched: Option<Box<WatchList>>,
    of: PhantomData<B>,
}

impl<K: RecordKind, B: SetsName<K, D>, D: Device> Model for EndedSet<K, B, D> {
    ghost use Rattle.ioc_journaled_set.specs.Holding.{HeldView};
    ghost use Rattle.ioc_journaled_set.specs.JournaledSetCode.{held_view_code};

    ghost Value = { HeldView K D };

    ghost coded = { held_view_code K.code D.code };

    ghost use Rattle.ioc_journaled_set.specs.Holding.{watching, seen_by, KeepsDevices};
    ghost use Rattle.ioc_watched.specs.Watched.{AreFresh, watched_by};
    ghost use Rattle.ioc_journaled_set.specs.SameDevice.{IsDeviceOf};

    ghost view = { λ h. watching h.set (seen_by h.pass) (watched_by h.watched) };

    ghost invariant = { λ h. KeepsDevices (IsDeviceOf D.gives B.devices) h.set
        × AreFresh K.rules B.base h.set.records (watched_by h.watched) };
}

impl<K: RecordKind, B: SetsName<K, D>, D: Device> EndedSet<K, B, D> {
    /// Returns the counts of the set's requests, and of asynchronous answers.
    pub fn tally(&self) -> Tally
        ensures { result ≡ self.now.set.tally }
    {
        self.set.tally()
    }

    /// States that each of its records has the device of the load, as the device's own answers left
    /// it, or none if it had none.
    pub fn keeps_devices(&self)
        ensures { KeepsDevices (IsDeviceOf D.gives B.devices) self.now.set }
    {
        let _ = &self.set;
    }

    /// States that each of its watched records is marked, or is now what it was after the calls up to which it was told last.
    pub fn ends_as_told(&self)
        ensures { AreFresh K.rules B.base self.now.set.records self.now.watched }
    {
        let _ = &self.set;
    }

    /// Returns the records in ascending order of their numbers, each with its device.
    pub fn into_slots(self) -> Vec<Slot<K, D>>
        ensures records { records_of result.items ≡ self.set.records }
        ensures devices { devices_of result.items ≡ self.set.devices }
        ensures ascending { AreAscending result.items }
    {
        let EndedSet {
            set,
            pass: _,
            watched: _,
            of: _,
        } = self;
        set.into_members().into_slots()
    }
}

impl<K: RecordKind, B: SetsName<K, D>, D: Device> JournaledSet<K, B, D> {
    /// Ends the set. Its share of the engine's counts goes to `all`: one part for each of its
    /// records, and the counts of the set.
    pub fn into_ended(self, all: &mut TallyShare<EngineCounts<K, B>>) -> EndedSet<K, B, D>
        requires fits { FitsAll all.old.counts }
        ensures set { result ≡ self }
        ensures merged { all.new ≡ share_view (all.old.parts + len self.set.records) (added all.old.counts self.set.tally) }
    {
        counts_are_added();
        let JournaledSet {
            set,
            pass,
            share,
            watched,
        } = self;
        if let Some(own) = share {
            all.merge(own);
        }
        EndedSet {
            set,
            pass,
            watched,
            of: PhantomData,
        }
    }

    /// Moves the set on to the whole list of the journal. At the set's numbers, the list leads to
    /// the records of this set, each with its waiting list.
    pub fn learn_all<R: Wait>(&mut self, rt: &R, cell: &Cell, journal: &mut Journal<K, B>)
        requires table { cell.now.table.shared.table_id ≡ B.table }
        ensures set { self.new.set ≡ self.old.set }
        ensures watched { self.new.watched ≡ self.old.watched }
        ensures told { (n : ℕ) → IsSome (get self.new.set.records n)
            → get (map_of K.rules B.base journal.old.filled).records n ≡ get self.new.set.records n }
        ensures waiting { (n : ℕ) → IsSome (get self.new.set.records n)
            → at_record n (map_of K.rules B.base journal.old.filled).waiting ≡ at_record n (now_of self.new.set).waiting }
        ensures journal { journal.new ≡ journal.old }
    {
        holding_lasts::<K>();
        let Some(mut pass) = self.pass.take() else {
            return;
        };
        journal.tell_all(rt, cell, &mut pass);
        self.pass = Some(pass);
    }
}
