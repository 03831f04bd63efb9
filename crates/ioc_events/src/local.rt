//! Requests and events depend only on the records that links lead to, and change only these.
ghost use Rattle.std.specs.Prelude.{◌≡◌, ◌≢◌, ℕ, Bool, true, Contains};
ghost use Rattle.ioc_events.specs.declared.event.Event.{Event};
ghost use Rattle.ioc_events.specs.declared.event.Event.TheVariants.{Cancel};
ghost use Rattle.ioc_events.specs.Beside.{RequestIsLocal};
ghost use Rattle.ioc_events.specs.Holding.{IsCounted};
ghost use Rattle.ioc_events.specs.Local.{KeepsApart, IsWithin, EventIsLocal};
ghost use Rattle.ioc_events.specs.Starting.{NoneReady};
ghost use Rattle.ioc_events.specs.Step.{names};
ghost use Rattle.ioc_store.specs.World.{World};
ghost use Rattle.ioc_store.specs.Given.{Answers};

use ioc_record::RecordKind;

/// Take two databases that agree on some records and on their waiting lists, where the links of
/// these records name only these. A request of one of them has the same effect in both: it leaves
/// them equal, makes the same requests, and leaves every other record and all waiting lists
/// unchanged. The puts with notification that are live or have ended may differ.
pub fn requests_are_local<K: RecordKind>()
    ensures { (mine : ℕ → Bool) (answers : Answers) → RequestIsLocal K.rules mine answers }
{}

/// The same holds of an event that names only such records, together with the starts after it. Its
/// reply is equal too, and the waiting list of every other record is unchanged. The puts with
/// notification that are live or have ended, and those that wait for other records, may differ
/// under these conditions: the answers to what the event asks about all puts with notification are
/// equal; none that waits for another record may start or has the number of one that waits for one
/// of these records; and the event is done within these records, which means that none that waits
/// for another record has its number, and that the records that are part of a cancelled one are
/// among them.
pub fn events_are_local<K: RecordKind>()
    ensures { (mine : ℕ → Bool) (answers : Answers) → EventIsLocal K.rules mine answers }
{}

/// Between events, if the records and waiting lists of each put with notification are counted and
/// none that waits may start, those that wait for other records are apart from those that wait for
/// any given records. An event other than a cancel is done within the records that it names.
pub fn counted_waits_keep_apart<K: RecordKind>()
    ensures apart { (mine : ℕ → Bool) (w : World K) → IsCounted K.rules w → NoneReady K.rules w → KeepsApart K.rules mine w }
    ensures within { (mine : ℕ → Bool) (w : World K) (event : Event) → IsCounted K.rules w →
        ((n : ℕ) → Contains (names event) n → mine n ≡ true) → ((number : ℕ) → event ≢ Cancel number) → IsWithin K.rules mine w event }
{}
