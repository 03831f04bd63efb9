//! Devices of which each record has its own.
ghost use Rattle.std.specs.Prelude.{◌≡◌, map, IfOk};
ghost use Rattle.std.specs.Option.{option_copied};
ghost use Rattle.rec_types.specs.Record.{record_rules};
ghost use Rattle.ioc_dbfile.specs.Owners.{device_lead};
ghost use Rattle.ioc_dbfile.specs.OwnDevices.{device_of_link, device_of_field, device_named, device_names, own_owner, holder, owner_for};

use crate::owners::{DeviceName, Owners};
use ioc_dbcommon::{Lead, LinkBox};
use ioc_links::Link;
use ioc_names::RecordNo;
use ioc_record::RecordKind;
use rec_types::Record;
use std::alloc::{AllocError, Global};

/// The names of the devices of records of which each has its own, by the numbers of the records.
#[derive(Drop)]
pub struct OwnDevices {
    pub names: Vec<Option<DeviceName>>,
}

/// The rule by which devices belong to records.
#[derive(Drop)]
pub enum DeviceOwners {
    /// A device belongs to the first record that names it.
    First(Owners),
    /// Each record that names a device has one of its own.
    Own(OwnDevices),
}

// Returns the name of the device of a link, if it names one.
fn device_of_link(link: &Link) -> Option<DeviceName>
    ensures { result ≡ device_of_link link.now }
{
    match link {
        Link::Device(text) => Some(*text),
        Link::Empty | Link::Constant(_) | Link::Real(_) | Link::Database(_, _) => None,
    }
}

// Returns the name of the device of a link field, if it names one.
fn device_of_field(link: Option<&LinkBox>) -> Option<DeviceName>
    ensures { result ≡ device_of_field (option_copied link.entry) }
{
    match link {
        Some(kept) => device_of_link(&kept.get().link),
        None => None,
    }
}

/// Returns the name of a record's device, which is what follows the `@` of the first of its links
/// that names one.
#[tactic(auto, unfolding(crate::specs::OwnDevices::device_named))]
pub fn device_named(item: &Record) -> Option<DeviceName>
    ensures { result ≡ device_named record_rules item.now }
{
    let mut rest = item.link_fields();
    while let [field, others @ ..] = rest {
        if let Some(name) = device_of_field(item.link(*field)) {
            return Some(name);
        }
        rest = others;
    }
    None
}

/// Returns the names of the devices of these records.
///
/// # Errors
///
/// [`AllocError`] if allocation fails.
pub fn own_devices_of(alloc: Global, records: &[Record]) -> Result<OwnDevices, AllocError>
    ensures { IfOk result (λ own. own.names.items ≡ device_names record_rules records.now) }
{
    let mut names = Vec::new(alloc);
    let mut rest = records;
    while let [first, others @ ..] = rest {
        names.push(device_named(first))?;
        rest = others;
    }
    Ok(OwnDevices { names })
}

impl OwnDevices {
    /// Returns the record with this number if its device has this name.
    pub fn owner(&self, number: RecordNo, name: &DeviceName) -> Option<RecordNo>
        ensures { result ≡ own_owner self.now.names.items number name.now }
    {
        match self.names.get(number.index()) {
            Some(Some(own)) if own == name => Some(number),
            _ => None,
        }
    }

    /// Returns the record with this number if there is one and it has a device.
    pub fn holder(&self, number: RecordNo) -> Option<RecordNo>
        ensures { result ≡ holder self.now.names.items number }
    {
        match self.names.get(number.index()) {
            Some(Some(_)) => Some(number),
            _ => None,
        }
    }

    /// Returns where a link of this record to the device with this name leads.
    pub fn lead(&self, number: RecordNo, name: &DeviceName) -> Lead
        ensures { result ≡ device_lead number (own_owner self.now.names.items number name.now) }
    {
        match self.owner(number, name) {
            Some(owner) if owner == number => Lead::OwnDevice,
            _ => Lead::Nowhere,
        }
    }
}

impl DeviceOwners {
    /// Returns where a link of this record to the device with this name leads.
    pub fn lead(&self, number: RecordNo, name: &DeviceName) -> Lead
        ensures { result ≡ device_lead number (owner_for self.now number name.now) }
    {
        match self {
            DeviceOwners::First(owners) => owners.lead(number, name),
            DeviceOwners::Own(own) => own.lead(number, name),
        }
    }
}
