//! Loaded databases.
ghost use Rattle.rec_types.specs.Record.{record_rules};
ghost use Rattle.ioc_dbfile.specs.FirstWorld.{first_world};
ghost use Rattle.ioc_store.specs.World.{IsClosed};
ghost use Rattle.ioc_process.specs.Rules.{IsQuiet};
ghost use Rattle.std.specs.Prelude.{All};
ghost use Rattle.ioc_dbfile.specs.Idle.{AllIdle, IsIdle};

use crate::finish::{finish_all, link_all_own};
use ioc_names::Names;
use rec_types::Record;
use std::alloc::{AllocError, Global};

/// A loaded database: the names of its records, and the records by their numbers. A device that
/// links name belongs to the first of the records with such a link: only the link of that record
/// leads to it (see [`owns_device`](crate::owns_device)). Or each record with such a link has a device
/// of its own ([`Database::with_own_devices`]).
#[derive(Drop)]
pub struct Database {
    pub names: Names,
    pub records: Vec<Record>,
    ghost closed: { IsClosed record_rules (first_world records.items) },
    ghost quiet: { IsQuiet record_rules (first_world records.items) },
    ghost idle: { All (IsIdle record_rules) records.items },
}

impl Database {
    ghost use Rattle.std.specs.Prelude.{◌≡◌, IfOk};
    ghost use Rattle.ioc_dbfile.specs.Finished.{all_finished};
    ghost use Rattle.ioc_dbfile.specs.SeenDatabase.{database_of};
    ghost use Rattle.ioc_dbfile.specs.OwnDevices.{with_own_devices, HasOwnDevice};

    /// Creates the database of the names and records of a text: links are resolved and constants
    /// are put.
    pub fn new(alloc: Global, names: Names, records: Vec<Record>) -> Result<Self, AllocError>
        requires { AllIdle record_rules records.items }
        ensures { IfOk result (λ d. database_of d ≡ all_finished record_rules (record { names = names; records = records.items })) }
    {
        let mut records = records;
        finish_all(alloc, &names, records.as_mut_slice())?;
        Ok(Database { names, records })
    }
    /// Gives each record with a link `@` and a name a device of its own, also where several records
    /// name the same device: their links lead there.
    ///
    /// # Errors
    ///
    /// [`AllocError`] if allocation fails. The database is dropped then.
    pub fn with_own_devices(self, alloc: Global) -> Result<Self, AllocError>
        ensures names { IfOk result (λ d. d.names ≡ self.names) }
        ensures records { IfOk result (λ d. d.records.items ≡ with_own_devices record_rules self.names self.records.items) }
        ensures own { IfOk result (λ d. All (HasOwnDevice record_rules) d.records.items) }
    {
        let Database { names, records } = self;
        let mut records = records;
        link_all_own(alloc, &names, records.as_mut_slice())?;
        Ok(Database { names, records })
    }
}
