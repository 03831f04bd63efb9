//! Names the lock sets of an engine.
use ioc_journal::JournalName;
use std::marker::Brand;

/// Names an engine and the devices that its records have at the load. Its records are of kind `K`,
/// and its devices of type `D`.
pub trait SetsName<K, D>: JournalName<K> {
    ghost use Rattle.std.specs.Prelude.{ℕ, Option};

    /// The device that each record has at the load.
    ghost devices: { ℕ → Option D };
}

impl<K, D> SetsName<K, D> for Brand {
    ghost use Rattle.ioc_journaled_set.specs.SameDevice.{no_devices};

    ghost devices = { no_devices };
}
