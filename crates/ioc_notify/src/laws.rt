//! The waiting lists are first in, first out.
ghost use Rattle.ioc_notify.specs.Laws.{GoesToTheEnd, TakesNoOthers};

use crate::notify_id::NotifyId;
use crate::waiting_lists::{Waiting, WaitingLists};
use ioc_names::RecordNo;

/// A put with notification is added at the end of its record's list, and no other list changes.
/// Removing one takes it out of its list, and the others keep their order.
pub fn lists_are_first_in_first_out(
    lists: &WaitingLists,
    waiting: &Waiting,
    number: NotifyId,
    target: RecordNo,
)
    ensures added { GoesToTheEnd lists.now waiting.now target }
    ensures removed { TakesNoOthers lists.now number target }
{}
