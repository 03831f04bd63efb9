//! One event of a database: a get, a request, a put, a completion, a put with notification, a
//! cancel. A function that takes frames requires that they are empty and have room for all records,
//! and leaves them empty.
ghost use Rattle.std.specs.Prelude.{◌≡◌, drop};
ghost use Rattle.ioc_store.specs.Given.{Answers, later_among};
ghost use Rattle.ioc_process.specs.Running.{CanRun, HasRun};
ghost use Rattle.ioc_process.specs.Runs.{ForAnswers};
ghost use Rattle.ioc_events.specs.declared.event.Event.TheVariants.{Put};
ghost use Rattle.ioc_events.specs.Step.{completes, shown};
ghost use Rattle.ioc_ledger.specs.Requests.{counted_started};
ghost use Rattle.ioc_record.specs.Given.{input_given};
ghost use Rattle.ioc_events.specs.Events.{HasDone, HasStepped, ends_unless, Ends};

use crate::alone::{complete, put, request};
use crate::event::Event;
use crate::notify::{cancel, notify};
use crate::reply::Reply;
use crate::starting::start_all;
use ioc_fields::{FieldNo, row_of};
use ioc_ledger::Tally;
use ioc_names::RecordNo;
use ioc_record::{FieldText, Given, RecordKind, text_of};
use ioc_store::frames::Frame;
use ioc_store::store::Store;
use ioc_values::IocError;

/// Returns the text of a field.
///
/// # Errors
///
/// [`IocError::NoRecord`] or [`IocError::NoField`] in this order, if there is no such record or
/// field.
#[tactic(auto, unfolding(crate::specs::Step::shown))]
pub fn run_get<S: Store>(store: &S, number: RecordNo, field: FieldNo) -> Result<FieldText, IocError>
    ensures { result ≡ shown S.Record.rules (S.world store.now) number field }
{
    if !store.has(number) {
        return Err(IocError::NoRecord);
    }
    let record = store.record(number);
    match row_of(record.record_type(), field) {
        Some(_) => Ok(text_of(record, field)),
        None => Err(IocError::NoField),
    }
}

// Counts the calls from `start` on that are answered later.
fn count_started<S: Store>(store: &S, start: usize, tally: &mut Tally)
    ensures { tally.new ≡ counted_started tally.old (later_among (drop start (S.world store.now).calls)) }
{
    if store.asked() <= start {
        return;
    }
    tally.count_started(store.later_from(start) as u64);
}

// Returns whether the event is a completion that was taken.
fn completes(event: &Event, told: &Reply) -> bool
    ensures { result ≡ completes event.now told.now }
{
    matches!(event, Event::Complete { .. }) && matches!(told, Reply::Plain)
}

// Ends an event. Unless it was refused, waiting puts with notification start if they can. The calls
// from `asked` on that are answered later are counted.
#[inline(always)]
fn end_event<S: Store>(
    store: &mut S,
    frames: &mut Vec<Frame>,
    asked: usize,
    refused: bool,
    tally: &mut Tally,
)
    requires { CanRun S.Record.rules (S.world store.old) frames.old }
    ensures ends { ForAnswers (S.given store.new) (λ answers.
        Ends (S.world store.new) asked tally.old tally.new (ends_unless S.Record.rules answers (S.world store.old) refused)) }
    ensures run { HasRun S.Record.rules S.Device.gives (S.world store.old) (S.world store.new) (S.given store.old) (S.given store.new)
        frames.old frames.new }
{
    if !refused {
        start_all(store, frames, tally);
    }
    count_started(store, asked, tally);
}

// Does an event by itself.
#[inline(always)]
fn do_alone<S: Store>(
    store: &mut S,
    frames: &mut Vec<Frame>,
    event: &Event,
    tally: &mut Tally,
) -> Reply
    requires { CanRun S.Record.rules (S.world store.old) frames.old }
    ensures done { HasDone S.Record.rules (S.given store.new) (S.world store.old) (S.world store.new) result
        tally.old tally.new event.now }
    ensures run { HasRun S.Record.rules S.Device.gives (S.world store.old) (S.world store.new) (S.given store.old) (S.given store.new)
        frames.old frames.new }
{
    match event {
        Event::Process { record } => request(store, frames, *record, tally),
        Event::Put {
            record,
            field,
            value,
        } => put(store, frames, *record, *field, Given::Value(value), tally),
        Event::Complete {
            record,
            wait,
            finished,
        } => complete(store, frames, *record, *wait, *finished, tally),
        Event::Notify {
            record,
            notification,
            field,
            value,
        } => notify(store, frames, *record, *notification, *field, *value, tally),
        Event::Cancel { notification } => cancel(store, *notification),
    }
}

/// Does a request, a put, a completion, a put with notification or a cancel. It is inlined, since
/// most callers know which of them it is.
///
/// # Errors
///
/// The reply is a refusal in the cases that [`Event`] names. Nothing has changed then.
#[inline(always)]
pub fn run_event<S: Store>(
    store: &mut S,
    frames: &mut Vec<Frame>,
    event: &Event,
    tally: &mut Tally,
) -> Reply
    requires { CanRun S.Record.rules (S.world store.old) frames.old }
    ensures step { HasStepped S.Record.rules (S.given store.new) (S.world store.old) (S.world store.new) result
        tally.old tally.new event.now }
    ensures run { HasRun S.Record.rules S.Device.gives (S.world store.old) (S.world store.new) (S.given store.old) (S.given store.new)
        frames.old frames.new }
{
    let asked = store.asked();
    let reply = do_alone(store, frames, event, tally);
    end_event(store, frames, asked, reply.is_refused(), tally);
    if completes(event, &reply) {
        tally.count_completion();
    }
    reply
}

/// Puts a value, or the one that a text spells, into a field as [`Event::Put`] does, and returns the
/// reply.
///
/// # Errors
///
/// Those of [`Event::Put`]. Nothing has changed then.
pub fn run_put<S: Store>(
    store: &mut S,
    frames: &mut Vec<Frame>,
    number: RecordNo,
    field: FieldNo,
    given: Given<'_>,
    tally: &mut Tally,
) -> Reply
    requires { CanRun S.Record.rules (S.world store.old) frames.old }
    ensures step { HasStepped S.Record.rules (S.given store.new) (S.world store.old) (S.world store.new) result
        tally.old tally.new (Put number field (input_given given.entry)) }
    ensures run { HasRun S.Record.rules S.Device.gives (S.world store.old) (S.world store.new) (S.given store.old) (S.given store.new)
        frames.old frames.new }
{
    let asked = store.asked();
    let reply = put(store, frames, number, field, given, tally);
    end_event(store, frames, asked, reply.is_refused(), tally);
    reply
}
