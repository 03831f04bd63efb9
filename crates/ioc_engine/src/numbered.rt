//! Devices with numbers.
ghost use Rattle.std.specs.Prelude.{◌≡◌, IfOk};
ghost use Rattle.ioc_engine.specs.Numbers.{numbered_from, NumbersStay};

use ioc_dbfile::DeviceName;
use ioc_device::{Answer, Device};
use ioc_values::Value;
use std::alloc::{AllocError, Global};

/// A device with a number, which no answer changes: the device that comes back with a record has
/// the number of the device that was bound to it.
///
/// ```rust
/// let seed = Seed::new(alloc, database, with_numbers(alloc, devices)?)?;
/// ```
#[derive(Drop)]
pub struct Numbered<D> {
    pub number: usize,
    pub device: D,
}

impl<D: Device> Device for Numbered<D> {
    ghost use Rattle.ioc_engine.specs.Numbers.{numbered_gives};

    ghost gives = { numbered_gives D.gives };

    fn read(&mut self, moment: u64) -> Answer {
        self.device.read(moment)
    }

    fn write(&mut self, value: Value, moment: u64) -> Answer {
        self.device.write(value, moment)
    }
}

/// Numbers these devices by their places, from 0 on.
///
/// # Errors
///
/// [`AllocError`] if allocation fails.
pub fn with_numbers<D: Drop>(
    alloc: Global,
    devices: Vec<(DeviceName, D)>,
) -> Result<Vec<(DeviceName, Numbered<D>)>, AllocError>
    ensures { IfOk result (λ all. all.items ≡ numbered_from 0 devices.items) }
{
    let mut all = Vec::new(alloc);
    for (name, device) in devices {
        let number = all.len();
        all.push((name, Numbered { number, device }))?;
    }
    Ok(all)
}

/// States that a device keeps its number.
pub fn numbers_stay<D: Device>()
    ensures { NumbersStay D.gives }
{}
