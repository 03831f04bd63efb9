//! The effect of a put with notification by itself, and of a cancel.
ghost use Rattle.std.specs.Prelude.{◌≡◌, ◌==◌, ◌+◌, ◌<◌, length};
ghost use Rattle.ioc_ledger.specs.Requests.{None};
ghost use Rattle.std.specs.List.{list_any};
ghost use Rattle.ioc_store.specs.World.{Has, at, Keeps, has_place};
ghost use Rattle.ioc_store.specs.Given.{Answers};
ghost use Rattle.ioc_process.specs.Running.{CanProcess, CanRun, HasRun};
ghost use Rattle.ioc_process.specs.Runs.{ForAnswers};
ghost use Rattle.ioc_events.specs.Starting.{value_to_put, must_wait};
ghost use Rattle.ioc_events.specs.declared.event.Event.TheVariants.{Notify, Cancel};
ghost use Rattle.ioc_events.specs.declared.reply.Reply.TheVariants.{Notify as Reply-notify};
ghost use Rattle.ioc_events.specs.Step.{begun_or_queued, done_alone};
ghost use Rattle.ioc_events.specs.Events.{Makes, HasDone};

use crate::reply::Reply;
use crate::starting::start;
use ioc_fields::FieldNo;
use ioc_ledger::Tally;
use ioc_names::RecordNo;
use ioc_notify::{NotifyId, Waiting};
use ioc_process::steps::common;
use ioc_record::{RecordKind, convert_for, test_put};
use ioc_store::frames::Frame;
use ioc_store::store::Store;
use ioc_values::{Input, IocError, Value};

// Returns the value that a client's put stores, tested and converted.
#[tactic(auto, unfolding(crate::specs::Starting::value_to_put))]
fn value_to_put<K: RecordKind>(record: &K, field: FieldNo, given: Input) -> Result<Value, IocError>
    ensures { result ≡ value_to_put K.rules record.now field given }
{
    test_put(record, field)?;
    convert_for(record, field, given)
}

// Returns whether one of these waits for the record.
fn has_waiting(waiting: &[Waiting], number: RecordNo) -> bool
    ensures { result ≡ list_any (λ x. x.target == number) waiting.now }
{
    waiting.iter().any(|one| one.target == number)
}

// Returns whether a put with notification must wait for this record.
#[tactic(auto, unfolding(crate::specs::Starting::must_wait))]
fn must_wait<S: Store>(store: &S, number: RecordNo) -> bool
    requires { Has (S.world store.now) number }
    ensures { result ≡ must_wait S.Record.rules (S.world store.now) number }
{
    let common = common(store, number);
    common.active || (common.notification.is_some() || has_waiting(store.waiting(), number))
}

// Starts a put with notification whose value was tested and converted, or lets it wait for its
// record.
#[tactic(auto, unfolding(crate::specs::Step::begun_or_queued))]
fn begin_or_queue<S: Store>(
    store: &mut S,
    frames: &mut Vec<Frame>,
    waiting: &Waiting,
    tally: &mut Tally,
)
    requires begins { CanProcess S.Record.rules (S.world store.old) waiting.now.target frames.old }
    requires place { length (S.world store.old).live + length (S.world store.old).ended < 256 }
    requires waits { length (S.world store.old).waiting < 256 }
    ensures done { ForAnswers (S.given store.new) (λ answers.
        Makes (S.world store.new) (Reply-notify waiting.now.number) tally.old tally.new
        (begun_or_queued S.Record.rules answers (S.world store.old) waiting.now)) }
    ensures run { HasRun S.Record.rules S.Device.gives (S.world store.old) (S.world store.new) (S.given store.old) (S.given store.new)
        frames.old frames.new }
{
    let waits = must_wait(store, waiting.target);
    store.admit(waiting.number);
    if waits {
        store.queue(waiting);
    } else {
        start(store, frames, waiting, tally);
    }
}

/// Tests and converts a put with notification, and starts it or lets it wait for its record.
pub fn notify<S: Store>(
    store: &mut S,
    frames: &mut Vec<Frame>,
    target: RecordNo,
    number: NotifyId,
    field: FieldNo,
    given: Input,
    tally: &mut Tally,
) -> Reply
    requires { CanRun S.Record.rules (S.world store.old) frames.old }
    ensures done { HasDone S.Record.rules (S.given store.new) (S.world store.old) (S.world store.new) result
        tally.old tally.new (Notify target number field given) }
    ensures run { HasRun S.Record.rules S.Device.gives (S.world store.old) (S.world store.new) (S.given store.old) (S.given store.new)
        frames.old frames.new }
{
    if !store.has(target) {
        return Reply::Refused(IocError::NoRecord);
    }
    let value = match value_to_put(store.record(target), field, given) {
        Ok(value) => value,
        Err(refused) => return Reply::Refused(refused),
    };
    if !store.has_place(number) {
        return Reply::Refused(IocError::QueueFull);
    }
    let waiting = Waiting {
        number,
        target,
        field,
        value,
    };
    begin_or_queue(store, frames, &waiting, tally);
    Reply::Notify(number)
}

/// Cancels a put with notification: it is removed from all records and from the waiting list, and
/// doesn't end.
pub fn cancel<S: Store>(store: &mut S, number: NotifyId) -> Reply
    ensures done { (answers : Answers) →
        done_alone S.Record.rules answers (S.world store.old) (Cancel number)
        ≡ record { world = S.world store.new; reply = result; requests = None } }
    ensures keeps { Keeps S.Record.rules (S.world store.old) (S.world store.new) }
    ensures given { S.given store.new ≡ S.given store.old }
{
    if !store.is_live(number) {
        return Reply::Refused(IocError::Stale);
    }
    store.cancel(number);
    Reply::Plain
}
