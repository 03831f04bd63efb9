//! Puts with notification that wait for their record: the order in which they start, and how one
//! starts.
ghost use Rattle.std.specs.Prelude.{◌≡◌};
ghost use Rattle.ioc_store.specs.World.{Has, at, put};
ghost use Rattle.ioc_process.specs.Running.{CanProcess, CanRun, HasRun};
ghost use Rattle.ioc_process.specs.Runs.{ForAnswers};
ghost use Rattle.ioc_events.specs.Starting.{sooner, is_ready, next_waiting, taken_and_stored, started, all_started};
ghost use Rattle.ioc_events.specs.Events.{Counts};

use crate::alone::processes;
use ioc_fields::FieldNo;
use ioc_ledger::Tally;
use ioc_names::RecordNo;
use ioc_notify::Waiting;
use ioc_process::notifying::release_notification;
use ioc_process::process::request_record;
use ioc_process::scanning::rescan;
use ioc_process::steps::{common, mark_put, set_notification};
use ioc_record::RecordKind;
use ioc_store::frames::Frame;
use ioc_store::store::Store;
use ioc_values::Value;

// Returns whether it may start: its record exists, is idle, and is part of no put with
// notification.
#[tactic(auto, unfolding(crate::specs::Starting::is_ready))]
fn is_ready<S: Store>(store: &S, waiting: &Waiting) -> bool
    ensures { result ≡ is_ready S.Record.rules (S.world store.now) waiting.now }
{
    if !store.has(waiting.target) {
        return false;
    }
    let common = common(store, waiting.target);
    !common.active && common.notification.is_none()
}

// Returns the one that starts sooner: that of the lower record number, and for the same record the
// one that came first.
fn sooner(best: Option<Waiting>, waiting: &Waiting) -> Waiting
    ensures { result ≡ sooner best waiting.now }
{
    match best {
        Some(found) if found.target.index() <= waiting.target.index() => found,
        _ => *waiting,
    }
}

// Returns the waiting one that starts next.
fn next_waiting<S: Store>(store: &S) -> Option<Waiting>
    ensures { result ≡ next_waiting S.Record.rules (S.world store.now) }
{
    let mut next = None;
    let mut rest = store.waiting();
    while let [waiting, others @ ..] = rest {
        if is_ready(store, waiting) {
            next = Some(sooner(next, waiting));
        }
        rest = others;
    }
    next
}

// Stores a value that was converted for the field.
fn store_value<S: Store>(store: &mut S, number: RecordNo, field: FieldNo, value: Value)
    requires { Has (S.world store.old) number }
    ensures world { S.world store.new
        ≡ put (S.world store.old) number (S.Record.rules.stored (at S.Record.rules (S.world store.old) number) field
        value) }
    ensures given { S.given store.new ≡ S.given store.old }
{
    store.record_mut(number).store(field, value);
}

// Makes the record part of the put with notification, and stores the value.
#[tactic(auto, unfolding(crate::specs::Starting::taken_and_stored))]
fn take_and_store<S: Store>(store: &mut S, waiting: &Waiting)
    requires { Has (S.world store.old) waiting.now.target }
    ensures world { S.world store.new ≡ taken_and_stored S.Record.rules (S.world store.old) waiting.now }
    ensures given { S.given store.new ≡ S.given store.old }
{
    set_notification(store, waiting.target, Some(waiting.number));
    store_value(store, waiting.target, waiting.field, waiting.value);
    rescan(store, waiting.target, waiting.field);
}

/// Starts a put with notification: its record becomes part of it, the value is stored, and the
/// record is processed as after a put. If nothing is processed, it ends immediately.
pub fn start<S: Store>(store: &mut S, frames: &mut Vec<Frame>, waiting: &Waiting, tally: &mut Tally)
    requires { CanProcess S.Record.rules (S.world store.old) waiting.now.target frames.old }
    ensures started { ForAnswers (S.given store.new) (λ answers.
        Counts (S.world store.new) tally.old tally.new (started S.Record.rules answers (S.world store.old) waiting.now)) }
    ensures run { HasRun S.Record.rules S.Device.gives (S.world store.old) (S.world store.new) (S.given store.old) (S.given store.new)
        frames.old frames.new }
{
    take_and_store(store, waiting);
    if !processes(store.record(waiting.target), waiting.field) {
        release_notification(store, waiting.target);
        return;
    }
    mark_put(store, waiting.target);
    let _outcome = request_record(store, frames, waiting.target, tally);
}

// Starts those that wait and can start, one after another. It is not inlined, since mostly none
// waits.
#[inline(never)]
fn start_each<S: Store>(store: &mut S, frames: &mut Vec<Frame>, tally: &mut Tally)
    requires { CanRun S.Record.rules (S.world store.old) frames.old }
    ensures started { ForAnswers (S.given store.new) (λ answers.
        Counts (S.world store.new) tally.old tally.new (all_started S.Record.rules answers (S.world store.old))) }
    ensures run { HasRun S.Record.rules S.Device.gives (S.world store.old) (S.world store.new) (S.given store.old) (S.given store.new)
        frames.old frames.new }
{
    let mut left = store.waiting().len();
    while left > 0 {
        let Some(waiting) = next_waiting(store) else {
            return;
        };
        store.unqueue(waiting.number);
        start(store, frames, &waiting, tally);
        left -= 1;
    }
}

/// Starts those that wait and can start, one after another, until there is none.
pub fn start_all<S: Store>(store: &mut S, frames: &mut Vec<Frame>, tally: &mut Tally)
    requires { CanRun S.Record.rules (S.world store.old) frames.old }
    ensures started { ForAnswers (S.given store.new) (λ answers.
        Counts (S.world store.new) tally.old tally.new (all_started S.Record.rules answers (S.world store.old))) }
    ensures run { HasRun S.Record.rules S.Device.gives (S.world store.old) (S.world store.new) (S.given store.old) (S.given store.new)
        frames.old frames.new }
{
    if store.waiting().is_empty() {
        return;
    }
    start_each(store, frames, tally);
}
