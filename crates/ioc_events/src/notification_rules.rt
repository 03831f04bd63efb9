//! Laws of puts with notification. The contract of each function is a law; its body is empty.
ghost use Rattle.std.specs.Prelude.{◌≡◌, ◌<◌, ◌^◌, ◌↔◌, ℕ, true, List, [], ◌∷◌, None};
ghost use Rattle.std.specs.FinMap.{len};
ghost use Rattle.ioc_ledger.specs.Requests.{Requests};
ghost use Rattle.ioc_notify.specs.Living.{is_live};
ghost use Rattle.ioc_store.specs.World.{World, Has, IsClosed, common_at};
ghost use Rattle.ioc_store.specs.Given.{Answers};
ghost use Rattle.ioc_process.specs.Rules.{IsSettled};
ghost use Rattle.ioc_events.specs.Starting.{NoneReady, IsGivenUp};
ghost use Rattle.ioc_events.specs.Holding.{HoldersAwait, IsCounted, IsHeld, EndsExactly, IsOver, NoneBegins};
ghost use Rattle.ioc_events.specs.StepRules.{Does, Step, Replay};
ghost use Rattle.ioc_events.specs.declared.event.Entry.{Entry};
ghost use Rattle.ioc_events.specs.declared.event.Event.{Event};
ghost use Rattle.ioc_events.specs.declared.event.Event.TheVariants.{Cancel};
ghost use Rattle.ioc_events.specs.declared.event.Call.TheVariants as call;
ghost use Rattle.ioc_events.specs.declared.reply.Reply.{Reply};

use ioc_record::RecordKind;

/// After an event, no put with notification waits for a record that is idle and part of none, if
/// there was none before.
pub fn events_leave_none_ready<K: RecordKind>()
    ensures { (answers : Answers) (w after : World K) (event : Event) (reply : Reply) (requests : Requests) →
        Step K.rules answers w event after reply requests → NoneReady K.rules w → NoneReady K.rules after }
{}

/// A cancel of a live put with notification removes it from every record and from the waiting list,
/// and ends none.
pub fn cancels_give_up<K: RecordKind>()
    ensures { (answers : Answers) (w after : World K) (number : ℕ) (reply : Reply) (requests : Requests) →
        Does K.rules answers w (Cancel number) after reply requests → is_live number w.live ≡ true → IsGivenUp K.rules number w after }
{}

/// After any events, a put with notification is live if and only if a record or a waiting list is
/// part of it, and it has the count of these. This holds at the start, if there is none, as after a
/// load.
pub fn events_count_holders<K: RecordKind>()
    ensures first { (w : World K) → IsClosed K.rules w → len w.records < 2 ^ 63 → w.live ≡ [] → w.waiting ≡ []
        → ((n : ℕ) → Has w n → (common_at K.rules w n).notification ≡ None) → IsCounted K.rules w }
    ensures event { (answers : Answers) (w after : World K) (event : Event) (reply : Reply) (requests : Requests) →
        Step K.rules answers w event after reply requests → IsCounted K.rules w → IsCounted K.rules after }
    ensures events { (w after : World K) (entries : List Entry) → Replay K.rules w entries after → IsCounted K.rules w
        → IsCounted K.rules after }
    ensures live { (w : World K) (n : ℕ) → IsCounted K.rules w → (is_live n w.live ≡ true) ↔ IsHeld K.rules w n }
{}

/// A put with notification ends by exactly the event after which no record and no waiting list is
/// part of it, if one was before or if it began by this event, and if it wasn't cancelled. It ends
/// once.
pub fn events_end_what_nobody_has<K: RecordKind>()
    ensures { (answers : Answers) (w after : World K) (event : Event) (reply : Reply) (requests : Requests) →
        Step K.rules answers w event after reply requests → IsCounted K.rules w → w.ended ≡ []
        → EndsExactly K.rules w (call.Event event reply) after }
{}

/// A put with notification that was cancelled, or that nothing is part of, ends by no later event,
/// unless one with its number begins again. So none ends twice.
pub fn those_over_never_end<K: RecordKind>()
    ensures cancelled { (answers : Answers) (w mid after : World K) (number : ℕ) (reply : Reply) (requests : Requests)
        (entries : List Entry) →
        Step K.rules answers w (Cancel number) mid reply requests → Replay K.rules mid entries after → IsCounted K.rules w → w.ended ≡ [] →
        NoneBegins entries number → IsOver K.rules after number }
    ensures not_held { (w after : World K) (number : ℕ) (entry : Entry) (entries : List Entry) → Replay K.rules w (entry ∷ entries) after →
        IsCounted K.rules w → (IsHeld K.rules w number → ⊥) → NoneBegins (entry ∷ entries) number → IsOver K.rules after number }
{}

/// After any events, a record that is part of a put with notification awaits a completion, and so
/// does one that a put with notification waits for. So no put with notification is left that no
/// answer of a device would end.
pub fn events_leave_holders_awaiting<K: RecordKind>()
    ensures event { (answers : Answers) (w after : World K) (event : Event) (reply : Reply) (requests : Requests) →
        Step K.rules answers w event after reply requests → IsSettled K.rules w → HoldersAwait K.rules w → HoldersAwait K.rules after }
    ensures events { (w after : World K) (entries : List Entry) → Replay K.rules w entries after → IsSettled K.rules w
        → HoldersAwait K.rules w →
        HoldersAwait K.rules after }
{}
