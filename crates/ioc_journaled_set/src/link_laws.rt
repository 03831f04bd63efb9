//! Laws of link changes of journaled lock sets. The contract of each function is a law; its body
//! only calls the functions whose laws it rests on.
ghost use Rattle.ioc_journaled_set.specs.LinkLaws.{SetsPart, SetsMayBeOne, SetsLead};

use ioc_journal::legal_laws::{joined_are_held, parts_are_held, parts_share_what_is_held};
use ioc_record::RecordKind;

/// A link change of a held set that may part it in two (`LockSet::part`) is the same link change of
/// all records: the list with its note is legal, and both sets are held.
pub fn parted_sets_are_held<K: RecordKind, D>()
    ensures { SetsPart D K.rules }
{
    parts_are_held::<K>();
    parts_share_what_is_held::<K>();
}

/// Two held sets without a common record may be joined: no request waits in both, and there is room
/// in one for all live puts with notification and waiting requests. All of these are live in the
/// world of all records, where at most 256 puts with notification are.
pub fn held_sets_may_be_one<K: RecordKind, D>()
    ensures { SetsMayBeOne D K.rules }
{}

/// A link change that leads from one held set into another (`LockSet::lead_into`) is one link
/// change of all records: the list with its note is legal, and the resulting sets are held.
pub fn led_sets_are_held<K: RecordKind, D>()
    ensures { SetsLead D K.rules }
{
    joined_are_held::<K>();
    parts_share_what_is_held::<K>();
}
