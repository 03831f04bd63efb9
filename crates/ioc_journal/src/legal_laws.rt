//! Laws of held records. The contract of each function is a law; its body only calls the functions
//! whose laws it rests on.
ghost use Rattle.ioc_journal.specs.EventLaws.{EventLaws};
ghost use Rattle.ioc_journal.specs.Laws.{Lasts, LiveLasts, OneMore, HoldersMove, HoldersAreFew, HeldAreFewer, EndsOver, EndsLast};
ghost use Rattle.ioc_journal.specs.Laws.{NobodyHas, PlaceForOneMore, OneMayBegin, CancelIsHeld, BeginningIsHeld, Asks, HeldAlike};
ghost use Rattle.ioc_journal.specs.Laws.{Falls, Gathers, Opens, HoldsAll, Parts, Joins, LinkParts, LinkJoins, LinkMoves};
ghost use Rattle.ioc_journal.specs.Laws.{RescansApart, BeginsSound, StaysSound, Replays};

use ioc_events::call_rules::{
    calls_are_local, calls_count_holders, calls_end_what_nobody_has, calls_keep_records,
    calls_leave_none_ready, rules_are_calls,
};
use ioc_events::local::counted_waits_keep_apart;
use ioc_events::notification_rules::{events_count_holders, those_over_never_end};
use ioc_record::RecordKind;

/// The laws of calls that the laws of held records rest on.
pub fn events_have_laws<K: RecordKind>()
    ensures { EventLaws K.rules }
{
    rules_are_calls::<K>();
    calls_keep_records::<K>();
    calls_are_local::<K>();
    counted_waits_keep_apart::<K>();
    events_count_holders::<K>();
    calls_count_holders::<K>();
    calls_end_what_nobody_has::<K>();
    calls_leave_none_ready::<K>();
    those_over_never_end::<K>();
}

/// Held records stay as they are known as long as no note has their keys.
pub fn holding_lasts<K: RecordKind>()
    ensures { Lasts K.rules }
{}

/// The number of records that each put with notification has stays the same as long as no note has
/// the key of the puts with notification.
pub fn live_lasts<K: RecordKind>()
    ensures { LiveLasts K.rules }
{}

/// An event of held records changes the number of records that are part of each put with
/// notification by as much among all records as among the held ones, so whoever owns the key of the
/// puts with notification adds the change in a set to its own count. The number always fits in 64
/// bits, and is never greater among the held records than among all.
pub fn holders_move<K: RecordKind>()
    ensures moves { HoldersMove K.rules }
    ensures few { HoldersAreFew K.rules }
    ensures fewer { HeldAreFewer K.rules }
{
    events_have_laws::<K>();
}

/// An event that concerns held records alone is the same event of all records: the list with its
/// note is legal, and the records are held after it. A get leaves the held records as they were.
pub fn events_are_held<K: RecordKind>()
    ensures event { OneMore K.rules }
    ensures asks { Asks K.rules }
{
    events_have_laws::<K>();
}

/// If the numbers of all live puts with notification are among fewer than 256 numbers, there is a
/// place for one more under another number, both among all records and among the held ones.
pub fn one_more_has_a_place<K: RecordKind>()
    ensures { PlaceForOneMore K.rules }
{}

/// After an event, the live puts with notification are among those before it and the one that it
/// begins.
pub fn one_may_begin<K: RecordKind>()
    ensures { OneMayBegin K.rules }
{
    events_have_laws::<K>();
}

/// A put with notification has ended among all records exactly if it has ended among the held ones
/// and no other record is part of it: its count among all is zero then. By the last call of a legal
/// list exactly those have ended that something was part of before, or that the call began, and that
/// nothing is part of afterwards.
pub fn those_ended_are_over<K: RecordKind>()
    ensures over { EndsOver K.rules }
    ensures last { EndsLast K.rules }
    ensures nobody { NobodyHas K.rules }
{
    events_have_laws::<K>();
}

/// Held records stay held when an event begins, and when a put with notification is canceled both
/// among them and among all records.
pub fn changes_of_all_are_held<K: RecordKind>()
    ensures begins { BeginningIsHeld K.rules }
    ensures cancel { CancelIsHeld K.rules }
{}

/// If held records part in two after an event, the list with its note is legal, and both parts are
/// held. The same goes for a link change of a held record to a held record, or to none.
pub fn parts_are_held<K: RecordKind>()
    ensures event { Parts K.rules }
    ensures link { LinkParts K.rules }
{
    events_have_laws::<K>();
}

/// An event of two held parts together: the list with its note is legal, and the records are held
/// after it. The same goes for a link change of a record of one part to a record of the other: the
/// part with its link changed and the other part are then held as one. If the old link was within
/// the first part and the change is done in steps, the records that part from it are held
/// separately.
pub fn joined_are_held<K: RecordKind>()
    ensures event { Joins K.rules }
    ensures link { LinkJoins K.rules }
    ensures moves { LinkMoves K.rules }
{
    events_have_laws::<K>();
}

/// Held records may be held in parts, and parts may be held together. A part of the world at the
/// load that no link leaves or enters is held. Whoever holds every record knows the records of the
/// world.
pub fn parts_share_what_is_held<K: RecordKind>()
    ensures alike { HeldAlike K.rules }
    ensures falls { Falls K.rules }
    ensures gathers { Gathers K.rules }
    ensures opens { Opens K.rules }
    ensures all { HoldsAll K.rules }
    ensures rescans { RescansApart K.rules }
{}

/// The world at the load is sound, and stays sound between events if each event is noted as it
/// happened. Whatever is noted, no record is added or removed, the records that are part of a put
/// with notification stay counted, and no waiting request may start.
pub fn lists_leave_sound<K: RecordKind>()
    ensures first { BeginsSound K.rules }
    ensures after { StaysSound K.rules }
{
    events_have_laws::<K>();
}

/// A legal list is a run by the rules of events, each with its time stamp, its answers and its
/// reply.
pub fn legal_lists_replay<K: RecordKind>()
    ensures { Replays K.rules }
{
    events_have_laws::<K>();
}
