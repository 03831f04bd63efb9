//! What the items that an event sends ask for, to be carried out after the event.
ghost use Rattle.std.specs.Prelude.{◌≡◌, ℕ, List, IfSome, IfOk, OnOk, OnErr};
ghost use Rattle.ioc_store.specs.declared.outbox.OutboxItem.TheVariants.{Post};
ghost use Rattle.ioc_scan.specs.Scanned.{InPhaseOrder};
ghost use Rattle.ioc_scan_rules.specs.Asked.{event_list, interrupt_list, members_of, with_change, change_asks};
ghost use Rattle.ioc_scan_rules.specs.Asked.{asked_of, lists_after, is_dropped, requests_of, drops};

use crate::places::place_by;
use ioc_names::RecordNo;
use ioc_scan::{ListName, Listed, ScanLists, event_word, given_word};
use ioc_store::{OutboxItem, ScanChange};
use ioc_values::Text;
use std::alloc::AllocError;

/// What an item that an event has sent asks of the queues.
#[derive(Clone, Copy, PartialEq, Eq)]
pub enum Asked {
    /// A request of this record, from the once queue.
    Once(RecordNo),
    /// Requests of the records that were walked, in order, each from the callback queue of its
    /// priority.
    Calls,
    /// Nothing. The item changes the scan lists, unless a later change of the record came before.
    Change,
    /// That it be counted as dropped: a change for which the scan lists have no order number left.
    Dropped,
}

/// Returns the list of the records that wait for an event with this name, if the name is one of an
/// event. Application Developer's Guide, "Scanning Specification": post_event.
pub fn event_list(name: Text) -> Option<ListName>
    ensures { result ≡ event_list name }
{
    Some(ListName::Event(event_word(name)?))
}

/// Returns the list of the records with a device link whose first word is this, unless the word is
/// longer than any. Application Developer's Guide, "Scanning Specification": scanIoRequest.
pub fn interrupt_list(word: &[u8]) -> Option<ListName>
    ensures { result ≡ interrupt_list word.now }
{
    Some(ListName::Interrupt(given_word(word)?))
}

/// Replaces the contents of `walked` with the records of a list, if there is one, in the order of
/// PHAS. A posted event and an interrupt of a device ask for a request of each, from the callback
/// queue of its priority.
///
/// # Errors
///
/// [`AllocError`] if allocation fails; the contents of `walked` are meaningless then.
pub fn calls(
    lists: &mut ScanLists,
    list: Option<ListName>,
    walked: &mut Vec<Listed>,
) -> Result<(), AllocError>
    ensures members { OnOk result (walked.new.items ≡ members_of lists.old list) }
    ensures order { IfSome list (λ list. OnOk result (InPhaseOrder lists.old list walked.new.items)) }
    ensures same { lists.new ≡ lists.old }
{
    match list {
        Some(list) => lists.walk(&list, walked),
        None => {
            walked.clear();
            Ok(())
        }
    }
}

/// Moves a record to the list that its change names, or takes it off its list, unless a later change
/// of the record came before. Application Developer's Guide, "Scanning Specification": scanAdd,
/// scanDelete. A change is done even if allocation fails.
pub fn change_list(lists: &mut ScanLists, change: &ScanChange) -> Asked
    ensures asked { result ≡ change_asks lists.old change.now }
    ensures lists { lists.new ≡ with_change lists.old change.now }
{
    if change.target.index() >= lists.len() {
        return Asked::Change;
    }
    if !lists.can_change() {
        return Asked::Dropped;
    }
    let place = place_by(&change.scanning, change.device);
    lists.change(change.target, change.number, place);
    Asked::Change
}

/// Takes an item that an event has sent: changes the scan lists if it is a change, and returns what
/// it asks for. If it posts an event, the contents of `walked` are replaced with the records of the
/// event's list.
///
/// # Errors
///
/// [`AllocError`] if allocation fails for the list of a posted event; the contents of `walked` are
/// meaningless then.
pub fn take_item(
    lists: &mut ScanLists,
    item: &OutboxItem,
    walked: &mut Vec<Listed>,
) -> Result<Asked, AllocError>
    ensures requests { IfOk result (λ asked. requests_of asked walked.new.items ≡ asked_of lists.old item.now) }
    ensures dropped { IfOk result (λ asked. drops asked ≡ is_dropped lists.old item.now) }
    ensures lists { lists.new ≡ lists_after lists.old item.now }
    ensures err { OnErr result ((name : List ℕ) × (item.now ≡ Post name)) }
{
    match item {
        OutboxItem::Once(number) => Ok(Asked::Once(*number)),
        OutboxItem::Post(name) => {
            calls(lists, event_list(*name), walked)?;
            Ok(Asked::Calls)
        }
        OutboxItem::Change(change) => Ok(change_list(lists, change)),
    }
}
