//! The base and the device of a record in its set.
ghost use Rattle.std.specs.Prelude.{◌≡◌};

use ioc_device::{Answer, Device};
use ioc_values::Value;

/// The base of a record, which no event changes, and its device, if it has one. As a device it
/// answers what its device answers, or a fault if it has none.
#[derive(Drop)]
pub struct Attached<K, D> {
    pub base: K,
    pub device: Option<D>,
}

impl<K: Drop, D: Device> Device for Attached<K, D> {
    ghost use Rattle.ioc_set.specs.Attached.{AttachedGives};

    ghost gives = { AttachedGives D.gives };

    fn read(&mut self, moment: u64) -> Answer {
        match &mut self.device {
            Some(device) => device.read(moment),
            None => Answer::Fault,
        }
    }

    fn write(&mut self, value: Value, moment: u64) -> Answer {
        match &mut self.device {
            Some(device) => device.write(value, moment),
            None => Answer::Fault,
        }
    }
}
