//! Names the journal of an engine.
use crate::CellName;
use std::marker::Brand;

/// Names the journal of an engine: its cell, the world at the load, the ledger of the held places,
/// the ledger of the tickets of requests, and those of the counts. The engine's records are of
/// kind `K`.
pub trait JournalName<K>: CellName {
    ghost use Rattle.std.specs.Prelude.{ℕ};
    ghost use Rattle.ioc_store.specs.World.{World};

    /// The world at the load.
    ghost base: { World K };

    /// The name of the ledger of places.
    ghost places: { ℕ };

    /// The name of the ledger of the tickets of requests.
    ghost tickets: { ℕ };

    /// The names of the ledgers of counts.
    ghost counts: { ℕ → ℕ };
}

impl<K> JournalName<K> for Brand {
    ghost use Rattle.ioc_journal.specs.Unnamed.{no_world};

    ghost base = { no_world };

    ghost places = { 0 };

    ghost tickets = { 0 };

    ghost counts = { λ _. 0 };
}
