//! The record that owns each device.
ghost use Rattle.std.specs.Prelude.{◌≡◌, ℕ, List, Some, None, if◌then◌else◌, IfOk, OnOk};
ghost use Rattle.std.specs.Option.{option_copied};
ghost use Rattle.rec_types.specs.Record.{record_rules};
ghost use Rattle.ioc_dbfile.specs.Owners.{names_device, asks_for, owner_of, device_lead, leads_home, owns_device};
ghost use Rattle.ioc_dbfile.specs.OwnerTable.{owner_in, or_else};

use ioc_dbcommon::{Lead, LinkBox, LinkUse};
use ioc_links::{Link, MAX_DEVICE_BYTES};
use ioc_names::RecordNo;
use ioc_record::RecordKind;
use ioc_values::Short;
use rec_types::Record;
use std::alloc::{AllocError, Global};
use std::collections::HashMap;

/// The name of a device, which is the text behind the `@` of a device link.
pub type DeviceName = Short<MAX_DEVICE_BYTES>;

/// The owner of each device, which is the first record with a link to it.
#[derive(Drop)]
pub struct Owners {
    numbers: HashMap<DeviceName, RecordNo>,
}

// Makes a record the owner of the device that its link names, if the link names one and no record
// before owns it.
fn add_link(owners: &mut Owners, number: RecordNo, link: &Link) -> Result<(), AllocError>
    ensures { OnOk result ((text : List ℕ) → owner_in owners.new text
        ≡ or_else (owner_in owners.old text) (if names_device text link.now then Some number else None)) }
{
    if let Link::Device(text) = link {
        if !owners.numbers.contains_key(text) {
            owners.numbers.insert(*text, number)?;
        }
    }
    Ok(())
}

// Makes a record the owner of the devices that its links name and no record before owns.
fn add_record(owners: &mut Owners, number: RecordNo, item: &Record) -> Result<(), AllocError>
    ensures { OnOk result ((text : List ℕ) → owner_in owners.new text
        ≡ or_else (owner_in owners.old text) (if asks_for record_rules text item.now then Some number else None)) }
{
    let mut rest = item.link_fields();
    while let [field, others @ ..] = rest {
        // A link field is large, so only device links are copied.
        if let Some(kept) = item.link(*field) {
            if kept.is_device() {
                add_link(owners, number, &kept.get().link)?;
            }
        }
        rest = others;
    }
    Ok(())
}

/// Returns the owners of all devices that these records name.
pub fn owners_of(alloc: Global, records: &[Record]) -> Result<Owners, AllocError>
    ensures { IfOk result (λ owners. (text : List ℕ) → owner_in owners text ≡ owner_of record_rules records.now text) }
{
    let mut owners = Owners {
        numbers: HashMap::new(alloc),
    };
    let mut rest = records;
    let mut number = 0;
    while let [item, others @ ..] = rest {
        add_record(&mut owners, RecordNo::new(number), item)?;
        number += 1;
        rest = others;
    }
    Ok(owners)
}

impl Owners {
    /// Returns the record that owns the device with this name.
    pub fn owner(&self, name: &DeviceName) -> Option<RecordNo>
        ensures { result ≡ owner_in self.now name.now }
    {
        self.numbers.get(name).copied()
    }

    /// Returns where a link of this record to the device with this name leads.
    pub fn lead(&self, number: RecordNo, name: &DeviceName) -> Lead
        ensures { result ≡ device_lead number (owner_in self.now name.now) }
    {
        match self.owner(name) {
            Some(owner) if owner == number => Lead::OwnDevice,
            _ => Lead::Nowhere,
        }
    }
}

fn leads_home(link: Option<&LinkBox>) -> bool
    ensures { result ≡ leads_home (option_copied link.entry) }
{
    match link {
        Some(kept) => kept.in_use() == LinkUse::OwnDevice,
        None => false,
    }
}

/// Returns whether a link of the record leads to a device of its own.
#[tactic(auto, unfolding(crate::specs::Owners::owns_device))]
pub fn owns_device(item: &Record) -> bool
    ensures { result ≡ owns_device record_rules item.now }
{
    let mut rest = item.link_fields();
    while let [field, others @ ..] = rest {
        if leads_home(item.link(*field)) {
            return true;
        }
        rest = others;
    }
    false
}
