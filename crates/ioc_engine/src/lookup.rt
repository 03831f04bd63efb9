//! What names lead to.
ghost use Rattle.std.specs.Prelude.{◌≡◌, map, slice_get, IfOk, ok_or};
ghost use Rattle.rec_types.specs.Record.{record_rules};
ghost use Rattle.ioc_names.specs.NameTable.{number_of};
ghost use Rattle.ioc_dbfile.specs.Finished.{leads_to};
ghost use Rattle.ioc_dbfile.specs.OwnDevices.{owner_for};
ghost use Rattle.ioc_values.specs.declared.error.IocError.TheVariants.{NoRecord};
ghost use Rattle.ioc_engine.specs.Channels.{channel_of};

use crate::channel::Channel;
use ioc_dbcommon::Lead;
use ioc_dbfile::{DeviceOwners, leads_to, types_of};
use ioc_dblex::split_at_byte;
use ioc_fields::{RecordType, field};
use ioc_links::Link;
use ioc_names::{Names, RecordNo};
use ioc_values::IocError;
use rec_types::Record;
use std::alloc::{AllocError, Global};

/// The names of a loaded database, the types of its records, and the rule by which devices belong to
/// them. None of these changes while an engine runs, so a name is looked up without a lock.
#[derive(Drop)]
pub struct Lookup {
    pub names: Names,
    pub types: Vec<RecordType>,
    pub owners: DeviceOwners,
}

impl Lookup {
    /// Creates the table of these names and records, with this rule of devices.
    ///
    /// # Errors
    ///
    /// [`AllocError`] if allocation fails.
    pub fn new(
        alloc: Global,
        names: Names,
        records: &[Record],
        owners: DeviceOwners,
    ) -> Result<Self, AllocError>
        ensures names { IfOk result (λ l. l.names ≡ names) }
        ensures types { IfOk result (λ l. l.types.items ≡ map record_rules.record_type records.now) }
        ensures owners { IfOk result (λ l. l.owners ≡ owners) }
    {
        let types = types_of(alloc, records)?;
        Ok(Lookup {
            names,
            types,
            owners,
        })
    }

    /// Returns the number of the record with this name or alias.
    ///
    /// # Errors
    ///
    /// [`IocError::NoRecord`] if there is none.
    pub fn record(&self, name: &[u8]) -> Result<RecordNo, IocError>
        ensures { result ≡ ok_or (number_of self.now.names name.now) NoRecord }
    {
        self.names.find(name).ok_or(IocError::NoRecord)
    }

    /// Returns the type of the record with this number.
    pub fn record_type(&self, number: RecordNo) -> Option<RecordType>
        ensures { result ≡ slice_get self.now.types.items number }
    {
        self.types.get(number.index()).copied()
    }

    /// Returns the channel of a text `RECORD.FIELD`, or `RECORD` for its field VAL.
    ///
    /// # Errors
    ///
    /// [`IocError::NoRecord`] or [`IocError::NoField`], in this order, if there is no such record
    /// or field.
    #[tactic(auto, unfolding(crate::specs::Channels::channel_of))]
    pub fn channel(&self, text: &[u8]) -> Result<Channel, IocError>
        ensures { result ≡ channel_of self.now.names self.now.types.items text.now }
    {
        let (name, dotted) = split_at_byte(b'.', text);
        let number = self.record(name)?;
        let Some(record_type) = self.record_type(number) else {
            return Err(IocError::NoRecord);
        };
        let found = match dotted {
            [_, field_name @ ..] => field(record_type, field_name),
            [] => field(record_type, b"VAL"),
        };
        match found {
            Some(field) => Ok(Channel {
                number: number.index(),
                field,
            }),
            None => Err(IocError::NoField),
        }
    }

    /// Returns where a link of the record with this number leads.
    pub fn lead(&self, number: RecordNo, link: &Link) -> Lead
        ensures { result ≡ leads_to self.now.names self.now.types.items (owner_for self.now.owners number) number link.now }
    {
        leads_to(
            &self.names,
            self.types.as_slice(),
            &self.owners,
            number,
            link,
        )
    }
}
