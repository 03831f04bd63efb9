//! Device support: the requests to a device and its answers. Application Developer's Guide, "Device
//! Support".
#![tactic(auto)]

ghost use Rattle.std.specs.Prelude.{◌≡◌};

use ioc_values::Value;

/// The answer of a device to a read or a write.
#[derive(Clone, Copy, PartialEq, Eq)]
pub enum Answer {
    /// The request is done. The answer to a read has the value.
    Done(Value),
    Fault,
    /// The device answers later, by a completion.
    Later,
}

/// A request to a device.
#[derive(Clone, Copy, PartialEq, Eq)]
pub enum Ask {
    /// Reads a value.
    Read,
    /// Writes this value.
    Write(Value),
}

/// A device of one record. Its meaning is a relation between its states, which limits the answers
/// that it can return and nothing else. Without a request a device keeps its state.
pub trait Device: Drop {
    ghost use Rattle.std.specs.Prelude.{ℕ};
    ghost use Rattle.ioc_values.specs.declared.value.Value.{Value};
    ghost use Rattle.ioc_device.specs.declared.Answer.{Answer};
    ghost use Rattle.ioc_device.specs.declared.Ask.{Ask};
    ghost use Rattle.ioc_device.specs.declared.Ask.TheVariants.{Read, Write};

    /// Relates the device before, the request, the time stamp, the answer, and the device after.
    ghost gives: { Self → Ask → ℕ → Answer → Self → Type 0 };

    /// Reads a value. `moment` is the time stamp of the event, in nanoseconds since 1970-01-01
    /// 00:00 UTC.
    fn read(&mut self, moment: u64) -> Answer
        ensures { gives self.old Read moment result self.new };

    /// Writes a value. A value in the answer is ignored.
    fn write(&mut self, value: Value, moment: u64) -> Answer
        ensures { gives self.old (Write value) moment result self.new };
}

impl Device for Box<dyn Device + Send> {
    ghost gives = { λ b ask m a d. (w : _) × (Device-box b).gives b.value ask m a w × (d ≡ record b { value = w }) };

    fn read(&mut self, moment: u64) -> Answer {
        (**self).read(moment)
    }

    fn write(&mut self, value: Value, moment: u64) -> Answer {
        (**self).write(value, moment)
    }
}

/// Sends the request to the device and returns its answer.
pub fn answer_of<D: Device>(device: &mut D, ask: &Ask, moment: u64) -> Answer
    ensures { D.gives device.old ask.now moment result device.new }
{
    match *ask {
        Ask::Read => device.read(moment),
        Ask::Write(value) => device.write(value, moment),
    }
}
