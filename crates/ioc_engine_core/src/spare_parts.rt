//! The parts of the ledgers of counts that no set has.
ghost use Rattle.std.specs.FinMap.{len};
ghost use Rattle.ioc_engine_core.specs.Loading.{IsSpare};

use ioc_journal::{EngineCounts, JournalName};
use ioc_ledger::TallyShare;
use ioc_record::RecordKind;
use std::marker::Model;

/// The parts of the ledgers of counts that no set has, since each set has one for each of its
/// records. They have no counts, and take no bytes.
#[derive(Drop)]
pub struct SpareParts<K: RecordKind, B: JournalName<K>> {
    share: TallyShare<EngineCounts<K, B>>,
}

impl<K: RecordKind, B: JournalName<K>> Model for SpareParts<K, B> {
    ghost use Rattle.std.specs.FinMap.{len};
    ghost use Rattle.ioc_ledger.specs.Shared.{ShareView};
    ghost use Rattle.ioc_engine_core.specs.Loading.{IsSpare};

    ghost Value = { ShareView };

    ghost view = { λ s. s.share };

    ghost invariant = { λ s. IsSpare s.share (len B.base.records) };
}

impl<K: RecordKind, B: JournalName<K>> SpareParts<K, B> {
    /// Keeps these parts, which are all but one for each record of the load.
    pub fn new(share: TallyShare<EngineCounts<K, B>>) -> Self
        requires spare { IsSpare share (len B.base.records) }
    {
        SpareParts { share }
    }

    /// Returns the parts.
    pub fn into_share(self) -> TallyShare<EngineCounts<K, B>>
        ensures { IsSpare result (len B.base.records) }
    {
        self.share
    }
}
