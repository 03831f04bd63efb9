//! Laws of cancels on held lock sets. The contract of each function is a law; its body only calls
//! the functions whose laws it rests on.
ghost use Rattle.ioc_journaled_set.specs.GiveUpLaws.{SetsGiveUp, CancelGivesUp};

use ioc_device::Device;
use ioc_journal::legal_laws::{
    changes_of_all_are_held, lists_leave_sound, parts_share_what_is_held,
};
use ioc_record::RecordKind;

/// If a put with notification has as many records in some held sets without a common record as
/// among all records, canceling it on each of these sets is one event of all records: the list with
/// its note is legal, and each set is held after it. No other record is part of it, and those that
/// are await a completion, so no waiting put may start by the cancel.
pub fn cancelled_sets_are_held<K: RecordKind, D>()
    ensures { SetsGiveUp D K.rules }
{
    lists_leave_sound::<K>();
    changes_of_all_are_held::<K>();
    parts_share_what_is_held::<K>();
}

/// A cancel on a sound set on which the put with notification is live (`LockSet::cancel`) cancels
/// it there: no device is called, nothing is sent, and nothing ends.
pub fn cancels_leave_nobody<K: RecordKind, D: Device>()
    ensures { CancelGivesUp K.rules D.gives }
{}
