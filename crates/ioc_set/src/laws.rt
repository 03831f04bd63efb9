//! What events leave of a lock set. The contract of each function is a law; its body is empty.
ghost use Rattle.std.specs.Prelude.{◌≡◌, ◌≢◌, ◌<◌, ◌≤◌, ◌^◌, ℕ, true, false, List, [], ◌∷◌, length};
ghost use Rattle.std.specs.FinMap.{len};
ghost use Rattle.ioc_fields.specs.declared.field_no.FieldNo.{FieldNo};
ghost use Rattle.ioc_dbcommon.specs.declared.link_field.LinkField.{LinkField};
ghost use Rattle.ioc_dbcommon.specs.Links.{use_of, named_by};
ghost use Rattle.ioc_ledger.specs.declared.tally.Tally.{Tally};
ghost use Rattle.ioc_notify.specs.declared.live_numbers.Live.{Live};
ghost use Rattle.ioc_notify.specs.declared.waiting_lists.Waiting.{Waiting};
ghost use Rattle.ioc_notify.specs.Living.{is_live};
ghost use Rattle.ioc_record.specs.Values.{stops_put};
ghost use Rattle.ioc_ledger.specs.Requests.{Requests, None};
ghost use Rattle.ioc_store.specs.Given.{Answers};
ghost use Rattle.ioc_events.specs.declared.event.Event.{Event};
ghost use Rattle.ioc_events.specs.declared.reply.Reply.{Reply};
ghost use Rattle.ioc_store.specs.World.{World, common_at};
ghost use Rattle.ioc_events.specs.declared.reply.Reply.TheVariants.{Notify};
ghost use Rattle.std.specs.Prelude.{None as Nothing_};
ghost use Rattle.ioc_events.specs.Step.{link_refusal, all_there};
ghost use Rattle.ioc_events.specs.Holding.{IsCounted, IsHeld};
ghost use Rattle.ioc_events.specs.StepRules.{Step};
ghost use Rattle.ioc_events.specs.EventReplay.{Replay};
ghost use Rattle.ioc_set_records.specs.Contents.{Records, Devices};
ghost use Rattle.ioc_set_records.specs.Joined.{links_of, IsPart, HasLink};
ghost use Rattle.ioc_events.specs.declared.event.EventEntry.{EventEntry};
ghost use Rattle.ioc_set.specs.Awaiting.{awaited};
ghost use Rattle.ioc_set.specs.SetState.{SetState, NoneIsLive, now_of, folded, held_after};
ghost use Rattle.ioc_set.specs.Doing.{is_ordinary, Does, IsShort};
ghost use Rattle.ioc_set.specs.Linking.{with_empty_history, AreCalm, AreHeld, MayBeOne};
ghost use Rattle.ioc_set.specs.Recounting.{AreLive};
ghost use Rattle.ioc_set.specs.Sound.{CountsAddUp, IsSound, TellsOf};
ghost use Rattle.ioc_set.specs.Puts.{is_put_with_notification};

use crate::awaiting_laws::events_count_awaited;
use ioc_device::Device;
use ioc_events::event_rules::{events_keep_links, events_leave_settled, rules_are_steps};
use ioc_events::notification_rules::{
    events_count_holders, events_end_what_nobody_has, events_leave_holders_awaiting,
    events_leave_none_ready, those_over_never_end,
};
use ioc_ledger::laws::{tallies_add_up, tallies_count_each_request};
use ioc_record::RecordKind;

/// After any event except a link change is done on a sound lock set and appended to its history,
/// the set is sound. It also is after its history is cleared.
pub fn events_leave_sound<K: RecordKind, D>()
    ensures event { (h : SetState K D) (entry : EventEntry) (devices : Devices D) → IsSound K.rules h → length h.history < 64
        → TellsOf K.rules h entry →
        IsSound K.rules (held_after K.rules h entry devices) }
    ensures folded { (h : SetState K D) → IsSound K.rules h → IsSound K.rules (folded h) }
{
    events_keep_links::<K>();
    events_leave_settled::<K>();
    rules_are_steps::<K>();
    events_count_holders::<K>();
    events_leave_holders_awaiting::<K>();
    events_leave_none_ready::<K>();
    tallies_count_each_request();
    tallies_add_up();
    events_count_awaited::<K>();
}

/// If no put with notification is live, none is live or waits after an event, unless the reply
/// reports that one has begun. So a set needs room for them only from its first put with
/// notification on.
pub fn none_live_stays_so<K: RecordKind>()
    ensures { (w after : World K) (entry : EventEntry) → Replay K.rules w (entry ∷ []) after → IsCounted K.rules w → w.live ≡ [] →
        ((n : ℕ) → entry.reply ≢ Notify n) → (after.live ≡ []) × (after.waiting ≡ []) }
{
    events_count_holders::<K>();
    those_over_never_end::<K>();
}

/// If no put with notification is live on a set, none is after a request, a put or a completion,
/// and none ends by it.
pub fn sets_stay_without_puts<K: RecordKind, D: Device>()
    ensures stay { (most : ℕ) (h after : SetState K D) (moment : ℕ) (event : Event) (reply : Reply) (come_to : World K) →
        Does K.rules D.gives most h moment event reply after come_to → is_ordinary event ≡ true → IsSound K.rules h → NoneIsLive h
        → NoneIsLive after }
    ensures ended { (most : ℕ) (h after : SetState K D) (moment : ℕ) (event : Event) (reply : Reply) (come_to : World K) →
        Does K.rules D.gives most h moment event reply after come_to → is_ordinary event ≡ true → IsSound K.rules h → NoneIsLive h
        → come_to.ended ≡ [] }
{
    rules_are_steps::<K>();
    none_live_stays_so::<K>();
    notifications_begin_by_notify::<K>();
    events_count_holders::<K>();
    events_end_what_nobody_has::<K>();
}

/// If an event leaves a sound set with one event in its history at most, the set's base is its
/// records before that event.
pub fn histories_begin_before<K: RecordKind, D: Device>()
    ensures { (most : ℕ) (h after : SetState K D) (moment : ℕ) (event : Event) (reply : Reply) (come_to : World K) →
        Does K.rules D.gives most h moment event reply after come_to → IsSound K.rules h → IsShort 0 after
        → after.base.records ≡ h.records }
{}

/// A put with notification begins by no other event.
pub fn notifications_begin_by_notify<K: RecordKind>()
    ensures { (answers : Answers) (w after : World K) (event : Event) (reply : Reply) (requests : Requests) (n : ℕ) →
        Step K.rules answers w event after reply requests → reply ≡ Notify n → is_put_with_notification event ≡ true }
{}

/// If no put with notification is live, each record of a sound set is calm. Calm records that are
/// one part and fewer than 2^63 make a sound set with an empty history.
pub fn calm_records_are_sound<K: RecordKind, D>()
    ensures calm { (h : SetState K D) → IsSound K.rules h → h.live ≡ [] → AreCalm K.rules h.records }
    ensures sound { (rs : Records K) (ds : Devices D) (counts : Tally) → IsPart (links_of K.rules rs) → AreCalm K.rules rs
        → len rs < 2 ^ 63 →
        CountsAddUp counts (awaited K.rules rs) → IsSound K.rules (with_empty_history rs ds [] [] counts) }
{
    events_count_holders::<K>();
}

/// The records of a sound set are held with its puts with notification: a put with notification is
/// live if one of the records is part of it or it waits, and no more wait than are live. Records
/// that are held with such puts, are one part and fewer than 2^63 make a sound set with an empty
/// history. Two sets on which none is live may become one.
pub fn held_records_are_sound<K: RecordKind, D>()
    ensures held { (h : SetState K D) → IsSound K.rules h → AreHeld K.rules h.records h.live h.waiting }
    ensures live { (h : SetState K D) → IsSound K.rules h → AreLive K.rules h.records h.waiting h.live }
    ensures holder { (h : SetState K D) (n : ℕ) → IsSound K.rules h → is_live n h.live ≡ true → IsHeld K.rules (now_of h) n }
    ensures fewer { (h : SetState K D) → IsSound K.rules h → length h.waiting ≤ length h.live }
    ensures sound { (rs : Records K) (ds : Devices D) (live : List Live) (waiting : List Waiting) (counts : Tally)
        → IsPart (links_of K.rules rs) → AreHeld K.rules rs live waiting → len rs < 2 ^ 63
        → CountsAddUp counts (awaited K.rules rs) → IsSound K.rules (with_empty_history rs ds live waiting counts) }
    ensures may_be_one { (h other : SetState K D) → NoneIsLive h → NoneIsLive other → MayBeOne h other }
{
    events_count_holders::<K>();
}

/// A link change of such a field isn't refused.
#[tactic(auto, unfolding(ioc_events::specs::Step::link_refusal, ioc_store::specs::World::at))]
pub fn link_changes_are_calls<K: RecordKind>()
    ensures { (w : World K) (s : ℕ) (field : FieldNo) (link : LinkField) →
        HasLink K.rules w.records s field → stops_put (common_at K.rules w s) field ≡ false → all_there w (named_by (use_of link)) ≡ true →
        link_refusal K.rules w s field link ≡ Nothing_ }
{}
