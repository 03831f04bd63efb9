//! The effect of an event by itself: a request, a put, a completion.
ghost use Rattle.std.specs.Prelude.{◌≡◌, true, Some, Ok, Err};
ghost use Rattle.ioc_fields.specs.Table.{is_process_passive};
ghost use Rattle.ioc_fields.specs.declared.field_no.FieldNo.TheVariants.{Own};
ghost use Rattle.ioc_fields.specs.declared.field_no.OwnField.TheVariants.{Val};
ghost use Rattle.ioc_record.specs.Given.{input_given};
ghost use Rattle.ioc_process.specs.Running.{CanProcess, CanRun, HasRun};
ghost use Rattle.ioc_process.specs.Runs.{ForAnswers};
ghost use Rattle.ioc_events.specs.declared.event.Event.TheVariants.{Process, Put, Complete};
ghost use Rattle.ioc_events.specs.Step.{processes, awaits, told, after_put};
ghost use Rattle.ioc_events.specs.Events.{Makes, HasDone, reply_of};

use crate::reply::Reply;
use ioc_dbcommon::Common;
use ioc_fields::{FieldNo, OwnField, RecordType, is_process_passive};
use ioc_ledger::{Outcome, Tally};
use ioc_names::RecordNo;
use ioc_process::outputs::{is_proc, put_into};
use ioc_process::process::{complete_record, request_record};
use ioc_process::scanning::rescan;
use ioc_process::steps::{mark_put, mark_reprocess};
use ioc_record::{Given, Putter, RecordKind};
use ioc_store::frames::Frame;
use ioc_store::store::Store;
use ioc_store::trace_step::TraceStep;
use ioc_values::{Finished, IocError};

// Returns whether VAL is process-passive: it is tested by the type alone, without its row.
#[tactic(auto, unfolding(ioc_fields::specs::Table::is_process_passive, ioc_fields::specs::Table::row_of, ioc_fields::specs::Table::own_row, ioc_fields::specs::Table::numeric_input_row, ioc_fields::specs::Table::numeric_output_row, ioc_fields::specs::Table::output_row, ioc_fields::specs::Table::numeric_row, ioc_fields::specs::Table::bi_row, ioc_fields::specs::Table::bo_row, ioc_fields::specs::Table::two_state_row, ioc_fields::specs::Table::mbbi_row, ioc_fields::specs::Table::mbbo_row, ioc_fields::specs::Table::multi_state_row, ioc_fields::specs::Table::text_row, ioc_fields::specs::Table::text_input_row, ioc_fields::specs::Table::stringout_row, ioc_fields::specs::Table::fanout_row, ioc_fields::specs::Table::analog_row, ioc_fields::specs::Table::scale_row, ioc_fields::specs::Table::ai_row, ioc_fields::specs::Table::ao_row, ioc_fields::specs::Table::calc_row, ioc_fields::specs::Table::calcout_row, ioc_fields::specs::Table::sel_row))]
fn val_is_passive(record_type: RecordType) -> bool
    ensures { result ≡ is_process_passive record_type (Own Val) }
{
    match record_type {
        RecordType::Longin
        | RecordType::Longout
        | RecordType::Int64in
        | RecordType::Int64out
        | RecordType::Bi
        | RecordType::Bo
        | RecordType::Mbbi
        | RecordType::Mbbo
        | RecordType::Stringin
        | RecordType::Stringout
        | RecordType::Fanout
        | RecordType::Event
        | RecordType::Ai
        | RecordType::Ao => true,
        RecordType::Calc | RecordType::Calcout | RecordType::Sel => false,
    }
}

// Returns whether the field is process-passive. VAL, which each type has, is tested before any
// other field, since most puts are to it.
fn is_passive_field<K: RecordKind>(record: &K, field: FieldNo) -> bool
    ensures { result ≡ is_process_passive (K.rules.record_type record.now) field }
{
    match field {
        FieldNo::Own(OwnField::Val) => val_is_passive(record.record_type()),
        _ => is_process_passive(record.record_type(), field),
    }
}

/// Returns whether a put to the field processes the record.
#[tactic(auto, unfolding(crate::specs::Starting::processes))]
pub fn processes<K: RecordKind>(record: &K, field: FieldNo) -> bool
    ensures { result ≡ processes K.rules record.now field }
{
    is_proc(field) || (is_passive_field(record, field) && record.common().is_passive())
}

// Requests a record that exists, and returns the outcome.
fn request_present<S: Store>(
    store: &mut S,
    frames: &mut Vec<Frame>,
    number: RecordNo,
    tally: &mut Tally,
) -> Outcome
    requires { CanProcess S.Record.rules (S.world store.old) number frames.old }
    ensures told { ForAnswers (S.given store.new) (λ answers.
        Makes (S.world store.new) (reply_of (Ok (Some result))) tally.old tally.new
        (told S.Record.rules answers (S.world store.old) number)) }
    ensures run { HasRun S.Record.rules S.Device.gives (S.world store.old) (S.world store.new) (S.given store.old) (S.given store.new)
        frames.old frames.new }
{
    request_record(store, frames, number, tally)
}

/// Requests a record.
#[inline(always)]
pub fn request<S: Store>(
    store: &mut S,
    frames: &mut Vec<Frame>,
    number: RecordNo,
    tally: &mut Tally,
) -> Reply
    requires { CanRun S.Record.rules (S.world store.old) frames.old }
    ensures done { HasDone S.Record.rules (S.given store.new) (S.world store.old) (S.world store.new) result
        tally.old tally.new (Process number) }
    ensures run { HasRun S.Record.rules S.Device.gives (S.world store.old) (S.world store.new) (S.given store.old) (S.given store.new)
        frames.old frames.new }
{
    if !store.has(number) {
        return Reply::Refused(IocError::NoRecord);
    }
    let outcome = request_present(store, frames, number, tally);
    Reply::Outcome(outcome)
}

// Processes a record that was put to, if the field requires it. An active record is marked for
// reprocessing.
#[tactic(auto, unfolding(crate::specs::Step::after_put))]
fn process_after_put<S: Store>(
    store: &mut S,
    frames: &mut Vec<Frame>,
    number: RecordNo,
    field: FieldNo,
    tally: &mut Tally,
) -> Option<Outcome>
    requires { CanProcess S.Record.rules (S.world store.old) number frames.old }
    ensures after { ForAnswers (S.given store.new) (λ answers.
        Makes (S.world store.new) (reply_of (Ok result)) tally.old tally.new
        (after_put S.Record.rules answers (S.world store.old) number field)) }
    ensures run { HasRun S.Record.rules S.Device.gives (S.world store.old) (S.world store.new) (S.given store.old) (S.given store.new)
        frames.old frames.new }
{
    let present = store.record(number);
    if !processes(present, field) {
        return None;
    }
    if present.common().active {
        store.trace(&TraceStep::Requested(number));
        mark_reprocess(store, number);
        tally.count(Outcome::Reprocess);
        store.trace(&TraceStep::Ended(number, Outcome::Reprocess));
        return Some(Outcome::Reprocess);
    }
    mark_put(store, number);
    Some(request_present(store, frames, number, tally))
}

/// Puts a value into a field, and processes the record if the field requires it.
#[inline(always)]
pub fn put<S: Store>(
    store: &mut S,
    frames: &mut Vec<Frame>,
    number: RecordNo,
    field: FieldNo,
    given: Given<'_>,
    tally: &mut Tally,
) -> Reply
    requires { CanRun S.Record.rules (S.world store.old) frames.old }
    ensures done { HasDone S.Record.rules (S.given store.new) (S.world store.old) (S.world store.new) result
        tally.old tally.new (Put number field (input_given given.entry)) }
    ensures run { HasRun S.Record.rules S.Device.gives (S.world store.old) (S.world store.new) (S.given store.old) (S.given store.new)
        frames.old frames.new }
{
    if !store.has(number) {
        return Reply::Refused(IocError::NoRecord);
    }
    match put_into(store, number, field, given, Putter::Client) {
        Ok(()) => {
            rescan(store, number, field);
            Reply::of(Ok(process_after_put(store, frames, number, field, tally)))
        }
        Err(refused) => Reply::Refused(refused),
    }
}

// Returns whether the record awaits the completion with this number.
fn awaits(common: &Common, wait: u64) -> bool
    ensures { result ≡ awaits common.now wait }
{
    match common.pending {
        Some(pending) => pending == wait,
        None => false,
    }
}

/// Completes the wait with this number of a record whose device has answered later.
pub fn complete<S: Store>(
    store: &mut S,
    frames: &mut Vec<Frame>,
    number: RecordNo,
    wait: u64,
    finished: Finished,
    tally: &mut Tally,
) -> Reply
    requires { CanRun S.Record.rules (S.world store.old) frames.old }
    ensures done { HasDone S.Record.rules (S.given store.new) (S.world store.old) (S.world store.new) result
        tally.old tally.new (Complete number wait finished) }
    ensures run { HasRun S.Record.rules S.Device.gives (S.world store.old) (S.world store.new) (S.given store.old) (S.given store.new)
        frames.old frames.new }
{
    if !store.has(number) {
        return Reply::Refused(IocError::NoRecord);
    }
    if !awaits(store.record(number).common(), wait) {
        return Reply::Refused(IocError::Stale);
    }
    complete_record(store, frames, number, finished, tally);
    Reply::Plain
}
