//! What an engine is started with.
ghost use Rattle.std.specs.Prelude.{◌≡◌, ◌-◌, ◌^◌, ◌<◌, ℕ, List, [], length, map, slice_index_or, All, IfOk};
ghost use Rattle.crossbeam_utils.specs.Seq.{cell_view};
ghost use Rattle.ioc_journal.specs.Line.{keeper};
ghost use Rattle.rec_types.specs.Record.{record_rules};
ghost use Rattle.ioc_dbfile.specs.Owners.{owner_of};
ghost use Rattle.ioc_dbfile.specs.OwnDevices.{owner_for, own_owner, holder, device_names, with_own_devices};
ghost use Rattle.ioc_set_records.specs.Joined.{IsClosed};
ghost use Rattle.ioc_set_records.specs.Linked.{links_in};
ghost use Rattle.ioc_engine_core.specs.Loading.{IsIdle, HaveDevices};
ghost use Rattle.ioc_engine.specs.Binding.{device_of, spare_of};
ghost use Rattle.ioc_scan_rules.specs.FirstLists.{first_lists, AreStarters};
ghost use Rattle.ioc_scan_rules.specs.declared.places.Occasion.TheVariants.{Scanning};
ghost use Rattle.ioc_set_records.specs.declared.loaded.Loaded.{Loaded};
ghost use Rattle.rec_types.specs.Record.{Record};

use crate::binding::{bind, bind_own};
use crate::lookup::Lookup;
use ioc_dbfile::{Database, DeviceName, DeviceOwners, own_devices_of, owners_of};
use ioc_engine_core::{new_cell, with_copies};
use ioc_journal::{Cell, KeyPass, PLACES};
use ioc_ledger::CountBlanks;
use ioc_names::RecordNo;
use ioc_scan::{Listed, ScanLists};
use ioc_scan_rules::first_lists::first_lists;
use ioc_scan_rules::{Occasion, starters};
use ioc_set_records::Loaded;
use rec_types::Record;
use std::alloc::{AllocError, Global};
use std::sync::ledger::Blank;

/// A loaded database with its devices, from which [`Engine::start`](crate::Engine::start) makes an
/// engine. `D` is the type of the devices.
///
/// ```rust
/// // The text has record(longin,"level"){field(INP,"@tank")}.
/// let database = load(alloc, text, &Macros::new(alloc))?;
/// let mut devices = Vec::new(alloc);
/// devices.push((DeviceName::cut(b"tank"), Tank(12)))?;
/// let seed = Seed::new(alloc, database, devices)?;
/// // Here `seed.spare` is empty, because a record has the device `tank`.
/// ```
#[derive(Drop)]
pub struct Seed<D> {
    pub(crate) cell: Cell,
    pub(crate) master: KeyPass,
    pub(crate) places: Blank,
    pub(crate) tickets: Blank,
    pub(crate) counts: CountBlanks,
    pub(crate) records: Vec<Loaded<Record, D>>,
    pub(crate) lookup: Lookup,
    // The scan lists of the records, and the records that are processed at the start.
    pub(crate) lists: ScanLists,
    pub(crate) starters: Vec<Listed>,
    /// The devices that no record has: no record has a link to a device of that name, or another
    /// device with that name came before. They are never called.
    pub spare: Vec<(DeviceName, D)>,
    /// The devices that no record has, if each record has a device of its own: the record with this number
    /// names no device, or another device for it came before. They are never called.
    pub spare_own: Vec<(RecordNo, D)>,
    pub ghost same_table: { master.table_id ≡ cell.table.shared.table_id },
    pub ghost fresh: { cell_view master ≡ keeper [] [] },
    pub ghost all_places: { places.parts ≡ 2 ^ 64 - 1 },
    pub ghost all_tickets: { tickets.parts ≡ 2 ^ 64 - 1 },
    pub ghost copies: { All (λ l. l.base ≡ l.fields) records.items },
    pub ghost idle: { All (λ l. IsIdle record_rules l.fields) records.items },
    pub ghost closed: { IsClosed (links_in record_rules records.items) },
    pub ghost types: { lookup.types.items ≡ map record_rules.record_type (map (λ l. l.fields) records.items) },
    pub ghost listed: { lists ≡ first_lists record_rules Scanning (map (λ l. l.fields) records.items) },
}

impl<D: Drop> Seed<D> {
    // Creates the seed of a database by a rule of devices, with these devices by the numbers of the
    // records, and those that are spare.
    #[tactic(auto, using(crate::proofs::Closing::closed_in, crate::proofs::Closing::idle_in))]
    fn of(
        alloc: Global,
        database: Database,
        owners: DeviceOwners,
        devices: Vec<Option<D>>,
        spare: Vec<(DeviceName, D)>,
        spare_own: Vec<(RecordNo, D)>,
    ) -> Result<Self, AllocError>
        ensures records { IfOk result (λ s. map (λ l. l.fields) s.records.items ≡ database.records.items) }
        ensures names { IfOk result (λ s. s.lookup.names ≡ database.names) }
        ensures types { IfOk result (λ s. s.lookup.types.items ≡ map record_rules.record_type database.records.items) }
        ensures lists { IfOk result (λ s. s.lists ≡ first_lists record_rules Scanning database.records.items) }
        ensures starters { IfOk result (λ s. AreStarters record_rules database.records.items s.starters.items) }
        ensures owners { IfOk result (λ s. s.lookup.owners ≡ owners) }
        ensures devices { IfOk result (λ s. HaveDevices s.records.items devices.items) }
        ensures spare { IfOk result (λ s. (s.spare.items ≡ spare.items) × (s.spare_own.items ≡ spare_own.items)) }
    {
        let Database { names, records } = database;
        let lookup = Lookup::new(alloc, names, records.as_slice(), owners)?;
        let lists = first_lists(alloc, Occasion::Scanning, records.as_slice())?;
        let starters = starters(alloc, records.as_slice())?;
        let loaded = with_copies(alloc, records, devices)?;
        let (cell, master) = new_cell(alloc)?;
        Ok(Seed {
            cell,
            master,
            places: Blank::new(PLACES),
            tickets: Blank::new(PLACES),
            counts: CountBlanks::new(),
            records: loaded,
            lookup,
            lists,
            starters,
            spare,
            spare_own,
        })
    }

    /// Creates the seed of a database. Each device belongs to the first record whose INP or OUT is
    /// `@` and the device's name. If several devices have one name, the first of them counts; the
    /// other ones, and those that no record names, are in `spare`. A record whose device isn't
    /// among `devices` has none: each answer to it is a fault.
    ///
    /// # Errors
    ///
    /// [`AllocError`] if allocation fails.
    pub fn new(
        alloc: Global,
        database: Database,
        devices: Vec<(DeviceName, D)>,
    ) -> Result<Self, AllocError>
        ensures records { IfOk result (λ s. map (λ l. l.fields) s.records.items ≡ database.records.items) }
        ensures names { IfOk result (λ s. s.lookup.names ≡ database.names) }
        ensures types { IfOk result (λ s. s.lookup.types.items ≡ map record_rules.record_type database.records.items) }
        ensures lists { IfOk result (λ s. s.lists ≡ first_lists record_rules Scanning database.records.items) }
        ensures starters { IfOk result (λ s. AreStarters record_rules database.records.items s.starters.items) }
        ensures owners { IfOk result (λ s. (n : ℕ) (text : List ℕ)
            → owner_for s.lookup.owners n text ≡ owner_of record_rules database.records.items text) }
        ensures devices { IfOk result (λ s. (n : ℕ) (l : Loaded Record D) → n < length s.records.items
            → (slice_index_or s.records.items n l).device ≡ device_of (owner_of record_rules database.records.items) devices.items n) }
        ensures spare { IfOk result (λ s. s.spare.items
            ≡ spare_of (owner_of record_rules database.records.items) (length database.records.items) [] devices.items) }
    {
        let owners = owners_of(alloc, database.records.as_slice())?;
        let bound = bind(alloc, &owners, database.records.len(), devices)?;
        let owners = DeviceOwners::First(owners);
        let none = Vec::new(alloc);
        let seed = Seed::of(alloc, database, owners, bound.devices, bound.spare, none)?;
        Ok(seed)
    }

    /// Creates the seed of a database whose records have devices of their own, each record one whose INP
    /// or OUT is `@` and a name, also where several records have the same name
    /// ([`Database::with_own_devices`]). Each device belongs to the record with its number. If
    /// several devices are for one record, the first of them counts; the other ones, and those for a
    /// record that names no device, are in `spare_own`. A record whose device isn't among `devices`
    /// has none: each answer to it is a fault. A link that is changed while the engine runs leads to
    /// the record's device exactly if it has the name that the record's link has in the database.
    ///
    /// # Errors
    ///
    /// [`AllocError`] if allocation fails.
    pub fn with_own_devices(
        alloc: Global,
        database: Database,
        devices: Vec<(RecordNo, D)>,
    ) -> Result<Self, AllocError>
        ensures records { IfOk result (λ s. map (λ l. l.fields) s.records.items
            ≡ with_own_devices record_rules database.names database.records.items) }
        ensures names { IfOk result (λ s. s.lookup.names ≡ database.names) }
        ensures types { IfOk result (λ s. s.lookup.types.items
            ≡ map record_rules.record_type (with_own_devices record_rules database.names database.records.items)) }
        ensures lists { IfOk result (λ s. s.lists
            ≡ first_lists record_rules Scanning (with_own_devices record_rules database.names database.records.items)) }
        ensures starters { IfOk result (λ s.
            AreStarters record_rules (with_own_devices record_rules database.names database.records.items) s.starters.items) }
        ensures owners { IfOk result (λ s. (n : ℕ) (text : List ℕ)
            → owner_for s.lookup.owners n text ≡ own_owner (device_names record_rules database.records.items) n text) }
        ensures devices { IfOk result (λ s. (n : ℕ) (l : Loaded Record D) → n < length s.records.items
            → (slice_index_or s.records.items n l).device
            ≡ device_of (holder (device_names record_rules database.records.items)) devices.items n) }
        ensures spare { IfOk result (λ s. s.spare_own.items
            ≡ spare_of (holder (device_names record_rules database.records.items)) (length database.records.items) [] devices.items) }
    {
        let own = own_devices_of(alloc, database.records.as_slice())?;
        let bound = bind_own(alloc, &own, database.records.len(), devices)?;
        let database = database.with_own_devices(alloc)?;
        let owners = DeviceOwners::Own(own);
        let none = Vec::new(alloc);
        let seed = Seed::of(alloc, database, owners, bound.devices, none, bound.spare)?;
        Ok(seed)
    }
}
