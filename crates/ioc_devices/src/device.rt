//! The devices of the program.
use ioc_dbcommon::LinkUse;
use ioc_dbfile::{Database, DeviceName};
use ioc_device::{Answer, Device};
use ioc_links::Link;
use ioc_record::RecordKind;
use ioc_values::Value;
use rec_types::Record;
use std::alloc::{AllocError, Global};

/// A device that counts its reads: the first read gives 1, the second 2, and so on. What is written
/// to it is lost.
///
/// ```rust
/// let devices = counting_devices(alloc, &database)?;
/// ```
#[derive(Drop)]
pub struct CountingDevice {
    reads: i32,
}

impl Device for CountingDevice {
    ghost use Rattle.ioc_devices.specs.Devices.{counting_gives};

    ghost gives = { counting_gives };

    fn read(&mut self, _moment: u64) -> Answer {
        self.reads = self.reads.wrapping_add(1);
        Answer::Done(Value::Long(self.reads))
    }

    fn write(&mut self, value: Value, _moment: u64) -> Answer {
        Answer::Done(value)
    }
}

// Appends the name of the device of a link, if it has one.
fn add_name(names: &mut Vec<DeviceName>, link: &Link) -> Result<(), AllocError> {
    if let Link::Device(name) = link {
        names.push(*name)?;
    }
    Ok(())
}

/// Returns the names of the devices that a record of a loaded database owns.
///
/// # Errors
///
/// [`AllocError`] if allocation fails.
pub fn own_devices(alloc: Global, item: &Record) -> Result<Vec<DeviceName>, AllocError> {
    let mut names = Vec::new(alloc);
    for field in item.link_fields() {
        // A link field is large, so only links to own devices are copied.
        if let Some(kept) = item.link(*field) {
            if kept.in_use() == LinkUse::OwnDevice {
                add_name(&mut names, &kept.get().link)?;
            }
        }
    }
    Ok(names)
}

/// Returns a device for each name that follows the `@` of a device link of a loaded database. It
/// belongs to the first record with such a link.
///
/// # Errors
///
/// [`AllocError`] if allocation fails.
pub fn counting_devices(
    alloc: Global,
    database: &Database,
) -> Result<Vec<(DeviceName, CountingDevice)>, AllocError> {
    let mut devices = Vec::new(alloc);
    for item in &database.records {
        for name in own_devices(alloc, item)? {
            devices.push((name, CountingDevice { reads: 0 }))?;
        }
    }
    Ok(devices)
}
