//! Laws of the records that await a completion. The contract of each function is a law; its body is
//! empty.
ghost use Rattle.std.specs.Prelude.{◌≡◌, ◌+◌};
ghost use Rattle.ioc_ledger.specs.Requests.{Requests};
ghost use Rattle.ioc_store.specs.World.{World};
ghost use Rattle.ioc_store.specs.Given.{Answers, later_among};
ghost use Rattle.ioc_process.specs.Rules.{IsSettled};
ghost use Rattle.ioc_events.specs.declared.event.Event.{Event};
ghost use Rattle.ioc_events.specs.declared.reply.Reply.{Reply};
ghost use Rattle.ioc_events.specs.Step.{calls_since};
ghost use Rattle.ioc_events.specs.StepRules.{Step};
ghost use Rattle.ioc_set.specs.Awaiting.{awaited, one_if_completes};

use ioc_record::RecordKind;

/// After an event, as many records await a completion as before, plus one for each call that is
/// answered later, minus one if the event is a completion that isn't refused. So the calls that are
/// answered later are those completed and those still awaited, and none is lost.
pub fn events_count_awaited<K: RecordKind>()
    ensures { (answers : Answers) (w after : World K) (event : Event) (reply : Reply) (requests : Requests) →
        Step K.rules answers w event after reply requests → IsSettled K.rules w →
        awaited K.rules after.records + one_if_completes event reply ≡ awaited K.rules w.records + later_among (calls_since w after) }
{}
