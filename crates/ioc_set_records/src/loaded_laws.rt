//! Laws of the sets that records are assigned to. The contract of each function is a law; its body
//! is empty.
ghost use Rattle.std.specs.Prelude.{ℕ, List, All};
ghost use Rattle.ioc_set_records.specs.Contents.{Contents};
ghost use Rattle.ioc_set_records.specs.Joined.{links_of, IsPart};
ghost use Rattle.ioc_set_records.specs.Dealing.{AreDealt};
ghost use Rattle.ioc_set_records.specs.Linked.{AreParts};
ghost use Rattle.ioc_set_records.specs.declared.loaded.Loaded.{Loaded};

use ioc_record::RecordKind;

/// If records are assigned by the parts of their links, each set is one connected part or has no
/// record, and no link leaves it.
pub fn dealt_sets_are_parts<K: RecordKind, D>()
    ensures { (all : List (Loaded K D)) (parts : List ℕ) (sets : List (Contents K D)) →
        AreParts K.rules all parts → AreDealt all parts sets → All (λ members. IsPart (links_of K.rules members.records)) sets }
{}
