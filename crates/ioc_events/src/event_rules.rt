//! Laws of the rules of events. The contract of each function is a law; its body is empty.
ghost use Rattle.std.specs.Prelude.{◌≡◌, List};
ghost use Rattle.ioc_ledger.specs.Requests.{Requests};
ghost use Rattle.ioc_store.specs.World.{World, IsClosed, Keeps};
ghost use Rattle.ioc_store.specs.Given.{Answers};
ghost use Rattle.ioc_process.specs.Rules.{IsSettled};
ghost use Rattle.ioc_events.specs.declared.reply.Reply.{Reply};
ghost use Rattle.ioc_events.specs.declared.event.Event.{Event};
ghost use Rattle.ioc_events.specs.declared.event.Entry.{Entry};
ghost use Rattle.ioc_events.specs.Step.{stepped};
ghost use Rattle.ioc_events.specs.StepRules.{Step, Replay, KeepsRecords};

use ioc_record::RecordKind;

/// After each event, and after any list of events, no link leaves the database, and a record is
/// active if and only if its completion is pending.
pub fn events_leave_settled<K: RecordKind>()
    ensures event { (answers : Answers) (w after : World K) (event : Event) (reply : Reply) (requests : Requests) →
        Step K.rules answers w event after reply requests → IsSettled K.rules w → IsSettled K.rules after }
    ensures events { (w after : World K) (entries : List Entry) → Replay K.rules w entries after → IsSettled K.rules w
        → IsSettled K.rules after }
{}

/// No event adds or removes a record, or changes a link or where it leads.
pub fn events_keep_links<K: RecordKind>()
    ensures { (answers : Answers) (w after : World K) (event : Event) (reply : Reply) (requests : Requests) →
        Step K.rules answers w event after reply requests → IsClosed K.rules w → Keeps K.rules w after }
{}

/// No event adds or removes a record.
pub fn events_keep_records<K: RecordKind>()
    ensures { (answers : Answers) (w after : World K) (event : Event) (reply : Reply) (requests : Requests) →
        Step K.rules answers w event after reply requests → IsClosed K.rules w → KeepsRecords w after }
{}

/// The rules of an event allow exactly one result, that of `stepped`.
pub fn rules_are_steps<K: RecordKind>()
    ensures allowed { (answers : Answers) (w : World K) (event : Event) →
        Step K.rules answers w event (stepped K.rules answers w event).world (stepped K.rules answers w event).reply
        (stepped K.rules answers w event).requests }
    ensures alone { (answers : Answers) (w after : World K) (event : Event) (reply : Reply) (requests : Requests) →
        Step K.rules answers w event after reply requests → stepped K.rules answers w event
        ≡ record { world = after; reply = reply; requests = requests } }
{}

/// A list of events replays to at most one database.
pub fn replays_lead_to_one<K: RecordKind>()
    ensures { (w after other : World K) (entries : List Entry) → Replay K.rules w entries after
        → Replay K.rules w entries other → after ≡ other }
{}
