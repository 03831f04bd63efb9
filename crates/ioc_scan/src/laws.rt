//! The scan list that a record is on after changes.
ghost use Rattle.std.specs.Prelude.{List};
ghost use Rattle.ioc_scan.specs.Changes.{Change, StandsAsTheHighestSays};

use crate::scan_lists::ScanLists;

/// After any list of changes each record is where the change with its highest number puts it, in
/// whatever order the changes arrived.
pub fn highest_change_stands(before: &ScanLists)
    ensures { (earlier later : List Change) (change : Change) → StandsAsTheHighestSays before.now earlier change later }
{}
