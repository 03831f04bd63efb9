//! Laws of the rules of calls. The contract of each function is a law; its body is empty.
ghost use Rattle.std.specs.Prelude.{◌≡◌, ℕ, Bool, true, [], Contains};
ghost use Rattle.ioc_ledger.specs.Requests.{Requests};
ghost use Rattle.ioc_store.specs.World.{World, IsClosed};
ghost use Rattle.ioc_store.specs.Given.{Answers};
ghost use Rattle.ioc_process.specs.Rules.{IsSettled};
ghost use Rattle.ioc_events.specs.declared.event.Call.{Call};
ghost use Rattle.ioc_events.specs.Calls.{called, named};
ghost use Rattle.ioc_events.specs.Holding.{IsCounted, EndsExactly, Cancels};
ghost use Rattle.ioc_events.specs.Local.{CallIsLocal, IsCallWithin};
ghost use Rattle.ioc_events.specs.Starting.{NoneReady};
ghost use Rattle.ioc_events.specs.StepRules.{Calls, KeepsRecords};

use ioc_record::RecordKind;

/// The rules of a call allow exactly one result, that of `called`.
pub fn rules_are_calls<K: RecordKind>()
    ensures allowed { (answers : Answers) (w : World K) (c : Call) →
        Calls K.rules answers w (called K.rules answers w c).call (called K.rules answers w c).world
        (called K.rules answers w c).requests }
    ensures alone { (answers : Answers) (w after : World K) (c : Call) (requests : Requests) →
        Calls K.rules answers w c after requests → called K.rules answers w c ≡ record { world = after; call = c; requests = requests } }
{}

/// No call adds or removes a record.
pub fn calls_keep_records<K: RecordKind>()
    ensures { (answers : Answers) (w after : World K) (c : Call) (requests : Requests) →
        Calls K.rules answers w c after requests → IsClosed K.rules w → KeepsRecords w after }
{}

/// After each call no link leaves the database, and a record is active if and only if its completion
/// is pending.
pub fn calls_leave_settled<K: RecordKind>()
    ensures { (answers : Answers) (w after : World K) (c : Call) (requests : Requests) →
        Calls K.rules answers w c after requests → IsSettled K.rules w → IsSettled K.rules after }
{}

/// After a call, no put with notification waits for a record that is idle and part of none, if there
/// was none before.
pub fn calls_leave_none_ready<K: RecordKind>()
    ensures { (answers : Answers) (w after : World K) (c : Call) (requests : Requests) →
        Calls K.rules answers w c after requests → NoneReady K.rules w → NoneReady K.rules after }
{}

/// After a call, the records and waiting lists that are part of each put with notification are
/// counted, if they were before.
pub fn calls_count_holders<K: RecordKind>()
    ensures { (answers : Answers) (w after : World K) (c : Call) (requests : Requests) →
        Calls K.rules answers w c after requests → IsCounted K.rules w → IsCounted K.rules after }
{}

/// A put with notification ends by exactly the call after which no record and no waiting list is
/// part of it, if one was before or if it began by this call, and if it wasn't cancelled. It ends
/// once.
pub fn calls_end_what_nobody_has<K: RecordKind>()
    ensures { (answers : Answers) (w after : World K) (c : Call) (requests : Requests) →
        Calls K.rules answers w c after requests → IsCounted K.rules w → w.ended ≡ [] → EndsExactly K.rules w c after }
{}

/// A call depends only on the records that it concerns, and changes only these. A call other than a
/// cancel concerns the records that it names.
pub fn calls_are_local<K: RecordKind>()
    ensures local { (mine : ℕ → Bool) (answers : Answers) → CallIsLocal K.rules mine answers }
    ensures within { (mine : ℕ → Bool) (w : World K) (c : Call) → IsCounted K.rules w →
        ((n : ℕ) → Contains (named c) n → mine n ≡ true) → ((number : ℕ) → Cancels c number → ⊥) → IsCallWithin K.rules mine w c }
{}
