//! The records that names refer to.
ghost use Rattle.ioc_names.specs.Laws.{EnteredIsFound, OthersStay, NoneFound};

use crate::names::Names;
use crate::record_no::RecordNo;

/// After `add` or `alias` the name refers to the number of its record, and every other name refers
/// to the same record as before. If there are no records, no name refers to one.
pub fn names_are_found(names: &Names, number: RecordNo, name: &[u8], other: &[u8])
    ensures entered { EnteredIsFound names.now number name.now }
    ensures others { OthersStay names.now number name.now other.now }
    ensures none { NoneFound other.now }
{}
