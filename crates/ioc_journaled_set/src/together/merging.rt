//! Moves the keys of several passes to one.
ghost use Rattle.std.specs.Prelude.{All};
ghost use Rattle.crossbeam_utils.specs.Seq.{cell_view};
ghost use Rattle.ioc_journaled_set.specs.Passes.{IsPassOf, IsPassIn, AreTakenOver};

use ioc_journal::{JournalName, KeyPass, SharedJournal};
use ioc_record::RecordKind;
use std::sync::Wait;

/// Moves the keys of all these passes to `keeper`, and takes the passes.
pub fn merge_all<K: RecordKind, B: JournalName<K>, R: Wait>(
    rt: &R,
    journal: &SharedJournal<K, B>,
    keeper: &mut KeyPass,
    passes: &mut [Option<KeyPass>],
)
    requires keeper { IsPassOf B.table keeper.old }
    requires passes { All (IsPassIn B.table) passes.old }
    ensures keeper { IsPassOf B.table keeper.new }
    ensures merged { AreTakenOver K.rules B.base (cell_view keeper.old) passes.old (cell_view keeper.new) }
{
    for i in 0..passes.len() {
        let Some(mut pass) = passes[i].take() else {
            unreachable!();
        };
        journal.merge(rt, keeper, &mut pass);
    }
}
