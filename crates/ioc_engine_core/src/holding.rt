//! The journaled sets of a loaded database.
ghost use Rattle.std.specs.Prelude.{◌≡◌, ◌+◌, ◌-◌, ◌^◌, ◌++◌, [], length, IfOk, OnOk};
ghost use Rattle.std.specs.FinMap as map;
ghost use Rattle.ioc_ledger.specs.Requests.{no_counts};
ghost use Rattle.ioc_ledger.specs.Shared.{share_view};
ghost use Rattle.crossbeam_utils.specs.Seq.{cell_view};
ghost use Rattle.ioc_journal.specs.Key.{Key, Has, record_keys};
ghost use Rattle.ioc_journal.specs.Line.{keeper};
ghost use Rattle.ioc_journal.specs.Covering.{Holds};
ghost use Rattle.ioc_set_records.specs.Joined.{links_of, IsPart};
ghost use Rattle.ioc_set.specs.Resting.{resting};
ghost use Rattle.ioc_set.specs.Linking.{with_empty_history, AreCalm, NoneAwaits};
ghost use Rattle.ioc_journal.specs.Account.{AreRecords};
ghost use Rattle.ioc_journaled_set.specs.Holding.{KeepsDevices, held_view};
ghost use Rattle.ioc_journaled_set.specs.SameDevice.{IsDeviceOf};
ghost use Rattle.ioc_engine_core.specs.Loading.{IsSetOf, IsSpare, AreSetsFrom, AreOfPartsBelow};

use ioc_device::Device;
use ioc_journal::{Cell, EngineCounts, KeyPass, Keys, pass};
use ioc_journaled_set::{JournaledSet, SetsName};
use ioc_ledger::TallyShare;
use ioc_record::RecordKind;
use ioc_set::LockSet;
use ioc_set_records::Members;
use ioc_topology::{Directory, Locked};
use std::alloc::{AllocError, Global};
use std::marker::Brand;
use std::mem;

// A journaled set of these members, with a pass that owns the keys of `P` and with this share.
fn hold<P: Keys, K: RecordKind, B: SetsName<K, D>, D: Device>(
    alloc: Global,
    cell: &Cell,
    master: &mut KeyPass,
    share: TallyShare<EngineCounts<K, B>>,
    members: Members<K, D>,
) -> JournaledSet<K, B, D>
    requires table { (cell.now.table.shared.table_id ≡ B.table) × (master.old.table_id ≡ B.table) }
    requires share { share ≡ share_view (map.len members.records) no_counts }
    requires master { cell_view master.old ≡ keeper [] (cell_view master.old).born }
    requires keys { P.keys ≡ record_keys (map.keys members.records) }
    requires fresh { (key : Key) → Has key (record_keys (map.keys members.records)) → Has key (cell_view master.old).born → ⊥ }
    requires base { members.base ≡ members.records }
    requires part { IsPart (links_of K.rules members.records) }
    requires calm { AreCalm K.rules members.records }
    requires idle { NoneAwaits K.rules members.records }
    requires holds { Holds K.rules B.base (resting members.records [] []) }
    requires devices { KeepsDevices (IsDeviceOf D.gives B.devices) (with_empty_history members.records members.devices [] [] no_counts) }
    ensures table { master.new.table_id ≡ B.table }
    ensures master { cell_view master.new ≡ keeper [] (record_keys (map.keys members.records) ++ (cell_view master.old).born) }
    ensures held { result ≡ held_view (with_empty_history members.records members.devices [] [] no_counts) [] }
{
    let pass = pass::claim::<P>(cell, master);
    let set = LockSet::of(alloc, members);
    JournaledSet::new(set, pass, Some(share))
}

// A journaled set of the records of one part, with a pass that owns the keys of these records and
// has seen no call, and with a share of the engine's counts.
fn hold_part<K: RecordKind, B: SetsName<K, D>, D: Device>(
    alloc: Global,
    cell: &Cell,
    master: &mut KeyPass,
    share: TallyShare<EngineCounts<K, B>>,
    members: Members<K, D>,
    parts: &[usize],
    part: usize,
) -> JournaledSet<K, B, D>
    requires table { (cell.now.table.shared.table_id ≡ B.table) × (master.old.table_id ≡ B.table) }
    requires share { share ≡ share_view (map.len members.records) no_counts }
    requires master { cell_view master.old ≡ keeper [] (cell_view master.old).born }
    requires part { IsSetOf K.rules B.base (IsDeviceOf D.gives B.devices) parts.now part members }
    requires born { AreOfPartsBelow parts.now part (cell_view master.old).born }
    ensures table { master.new.table_id ≡ B.table }
    ensures master { cell_view master.new ≡ keeper [] (cell_view master.new).born }
    ensures born { AreOfPartsBelow parts.now (part + 1) (cell_view master.new).born }
    ensures held { result ≡ held_view (with_empty_history members.records members.devices [] [] no_counts) [] }
{
    hold::<Brand, K, B, D>(alloc, cell, master, share, members)
}

/// Moves the sets of all parts into a directory for these records, each with a part of `spare` for
/// each of its records. A part without records has no set. `sets` is left without records.
///
/// # Errors
///
/// [`AllocError`] if allocation fails.
pub fn hold_all<K: RecordKind + Drop, B: SetsName<K, D>, D: Device>(
    alloc: Global,
    cell: &Cell,
    master: &mut KeyPass,
    spare: &mut TallyShare<EngineCounts<K, B>>,
    sets: &mut [Members<K, D>],
    parts: &[usize],
) -> Result<Directory<JournaledSet<K, B, D>>, AllocError>
    requires table { (cell.now.table.shared.table_id ≡ B.table) × (master.old.table_id ≡ B.table) }
    requires master { cell_view master.old ≡ keeper [] [] }
    requires parts { AreSetsFrom K.rules B.base (IsDeviceOf D.gives B.devices) parts.now 0 sets.old }
    requires each { length sets.old ≡ length parts.now }
    requires spare { spare.old ≡ share_view (2 ^ 64 - 1) no_counts }
    ensures count { IfOk result (λ d. d ≡ length parts.now) }
    ensures table { OnOk result (master.new.table_id ≡ B.table) }
    ensures master { OnOk result (cell_view master.new ≡ keeper [] (cell_view master.new).born) }
    ensures born { OnOk result (AreRecords (cell_view master.new).born) }
    ensures spare { IfOk result (λ d. IsSpare spare.new d) }
{
    let mut directory = Directory::new(alloc, parts.len())?;
    for part in 0..sets.len() {
        let members = mem::replace(&mut sets[part], Members::new(alloc));
        let share = spare.split_off(members.len() as u64);
        let held = hold_part::<K, B, D>(alloc, cell, master, share, members, parts, part);
        if held.len() != 0 {
            directory.add(alloc, held)?;
        }
    }
    Ok(directory)
}
