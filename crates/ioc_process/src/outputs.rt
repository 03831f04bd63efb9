//! The output of a body: a value to a link or to a device, and the links that it follows.
ghost use Rattle.std.specs.Prelude.{◌≡◌, ◌<◌, ◌-◌, ◌^◌, ℕ, List, Some, IsTrue, OnOk, OnErr, IfErr, Ok, Err};
ghost use Rattle.ioc_record.specs.Given.{input_given, put_by};
ghost use Rattle.ioc_record.specs.Values.{put_untested};
ghost use Rattle.ioc_values.specs.declared.input.Input.TheVariants.{Value as InputValue};
ghost use Rattle.ioc_device.specs.declared.Answer.{Answer};
ghost use Rattle.ioc_store.specs.World.{Has, at, put, common_at, Keeps, Stays};
ghost use Rattle.ioc_store.specs.Given.{Begins};
ghost use Rattle.ioc_process.specs.Runs.{ForAnswers, HasBoth, HasWritten, HasPutOut, IsStanding, how_written};
ghost use Rattle.ioc_store.specs.Links.{is_chosen, is_proc, link_at, passive_named, passive_record};
ghost use Rattle.ioc_process.specs.Processing.{stored_at, wrote, acknowledged, write_device};

use crate::inputs::can_ask;
use crate::scanning::rescan;
use crate::steps::{hand_on, passes_on, passive, raise, wait};
use ioc_dbcommon::{LinkUse, StandingLink};
use ioc_device::{Answer, Ask};
use ioc_fields::{CommonField, FieldNo, FieldSlot, OwnField};
use ioc_menus::{Severity, Status};
use ioc_names::RecordNo;
use ioc_record::{Given, Putter, RecordKind, put_by};
use ioc_store::store::Store;
use ioc_store::trace_step::TraceStep;
use ioc_values::{Input, IocError, Value};

/// Returns whether the field is PROC. A put to it processes the record.
pub fn is_proc(field: FieldNo) -> bool
    ensures { result ≡ is_proc field }
{
    match field {
        FieldNo::Common(CommonField::Proc) => true,
        _ => false,
    }
}

/// Returns whether the link with this number is chosen.
pub fn is_chosen(links: u16, slot: FieldSlot) -> bool
    ensures { result ≡ is_chosen links slot }
{
    links >> slot.index() & 1 == 1
}

/// Returns how a record uses its link with this number.
pub fn link_at<S: Store>(store: &S, number: RecordNo, slot: FieldSlot) -> LinkUse
    requires { Has (S.world store.now) number }
    ensures { result ≡ link_at S.Record.rules (S.world store.now) number slot }
{
    match store.record(number).link(FieldNo::Own(OwnField::Lnk(slot))) {
        Some(field) => field.in_use(),
        None => LinkUse::Unused,
    }
}

/// Returns the record, if there is one and it is passive.
#[inline(always)]
pub fn passive_record<S: Store>(store: &S, named: Option<RecordNo>) -> Option<RecordNo>
    requires { (n : ℕ) → named ≡ Some n → Has (S.world store.now) n }
    ensures { result ≡ passive_record S.Record.rules (S.world store.now) named }
{
    if let Some(number) = named {
        if passive(store, number) {
            return Some(number);
        }
    }
    None
}

/// Returns the record that a link names, if it is passive.
pub fn passive_target<S: Store>(store: &S, link: LinkUse) -> Option<RecordNo>
    requires { IsStanding (S.world store.now) link }
    ensures { result ≡ passive_named S.Record.rules (S.world store.now) link }
{
    if let LinkUse::Standing(target) = link {
        if passive(store, target.number) {
            return Some(target.number);
        }
    }
    None
}

/// Puts a value into a field of a record that exists, as a client or as a link does.
///
/// # Errors
///
/// Those of [`put_by`]. Nothing has changed then.
#[inline(always)]
pub fn put_into<S: Store>(
    store: &mut S,
    number: RecordNo,
    field: FieldNo,
    given: Given<'_>,
    by: Putter,
) -> Result<(), IocError>
    requires { Has (S.world store.old) number }
    ensures ok { OnOk result (put_by S.Record.rules by (at S.Record.rules (S.world store.old) number) field (input_given given.entry)
        ≡ Ok (at S.Record.rules (S.world store.new) number)) }
    ensures stored { OnOk result (S.world store.new ≡ put (S.world store.old) number (at S.Record.rules (S.world store.new) number)) }
    ensures err { IfErr result (λ e. put_by S.Record.rules by (at S.Record.rules (S.world store.old) number) field
        (input_given given.entry)
        ≡ Err e) }
    ensures same { OnErr result (S.world store.new ≡ S.world store.old) }
    ensures given { S.given store.new ≡ S.given store.old }
{
    let record = store.record_mut(number);
    put_by(record, field, given, by)
}

// Puts a value into the field that a link names, and returns whether it fits.
#[tactic(auto, unfolding(crate::specs::Processing::stored_at))]
fn place_value<S: Store>(store: &mut S, target: StandingLink, value: Value) -> bool
    requires { Has (S.world store.old) target.number }
    ensures stored { HasWritten (S.world store.new) result
        (stored_at S.Record.rules (S.world store.old) target
        (put_untested S.Record.rules (at S.Record.rules (S.world store.old) target.number) target.field (InputValue value))) }
    ensures given { S.given store.new ≡ S.given store.old }
{
    let StandingLink { number, field, .. } = target;
    let given = Input::Value(value);
    match put_into(store, number, field, Given::Value(&given), Putter::Link) {
        Ok(()) => {
            rescan(store, number, field);
            true
        }
        Err(_) => false,
    }
}

// Puts a value into the field that a link names, hands on the alarm that the writing record raises,
// and returns whether the value fits.
#[tactic(auto, unfolding(crate::specs::Processing::wrote, ioc_store::specs::Links::handed_on))]
fn store_value<S: Store>(
    store: &mut S,
    number: RecordNo,
    target: StandingLink,
    value: Value,
) -> bool
    requires { HasBoth (S.world store.old) number target }
    ensures wrote { HasWritten (S.world store.new) result (wrote S.Record.rules (S.world store.old) number target value) }
    ensures given { S.given store.new ≡ S.given store.old }
{
    let written = target.number;
    let mode = target.mode;
    let stored = place_value(store, target, value);
    hand_on(store, number, written, mode);
    stored
}

/// The result of writing a value through a link.
#[derive(Clone, Copy, PartialEq, Eq, Debug)]
pub enum Written {
    /// The value doesn't fit.
    InVain,
    Alone,
    /// The value is stored, and the record that was written is to be requested.
    AndRequests,
}

/// Writes a value through a link, and hands on the alarm that the writing record raises.
#[tactic(auto, unfolding(crate::specs::Runs::how_written))]
pub fn write_value<S: Store>(
    store: &mut S,
    number: RecordNo,
    target: StandingLink,
    value: Value,
) -> Written
    requires { HasBoth (S.world store.old) number target }
    ensures world { S.world store.new ≡ (wrote S.Record.rules (S.world store.old) number target value).world }
    ensures written { result ≡ how_written S.Record.rules (wrote S.Record.rules (S.world store.old) number target value) target }
    ensures given { S.given store.new ≡ S.given store.old }
{
    let written = target.number;
    let field = target.field;
    let process_passive = target.process_passive;
    let is_stored = store_value(store, number, target, value);
    store.trace(&TraceStep::Written {
        writer: number,
        link: &target,
        value: &value,
        is_stored,
    });
    if !is_stored {
        return Written::InVain;
    }
    if is_proc(field) || passes_on(store, process_passive, written) {
        Written::AndRequests
    } else {
        Written::Alone
    }
}

// Takes the answer of a device that was written, and returns whether the body continues now.
#[tactic(auto, unfolding(crate::specs::Processing::acknowledged))]
fn acknowledge<S: Store>(store: &mut S, number: RecordNo, answer: Answer) -> bool
    requires there { Has (S.world store.old) number }
    requires more { answer ≡ Answer.Later → (common_at S.Record.rules (S.world store.old) number).last_pending < 2 ^ 64 - 1 }
    ensures out { HasPutOut (S.world store.new) result (acknowledged S.Record.rules (S.world store.old) number answer) }
    ensures given { S.given store.new ≡ S.given store.old }
{
    match answer {
        Answer::Done(_) => true,
        Answer::Fault => {
            raise(store, number, Status::Write, Severity::Invalid);
            true
        }
        Answer::Later => {
            wait(store, number);
            false
        }
    }
}

/// Writes the device of a record, and returns whether the body continues now; it doesn't if the
/// device answers later.
pub fn write_device<S: Store>(store: &mut S, number: RecordNo, value: Value) -> bool
    requires { Has (S.world store.old) number }
    ensures out { ForAnswers (S.given store.new) (λ answers.
        HasPutOut (S.world store.new) result (write_device S.Record.rules answers (S.world store.old) number value)) }
    ensures keeps { Keeps S.Record.rules (S.world store.old) (S.world store.new) }
    ensures stays { IsTrue result → Stays S.Record.rules (S.world store.old) number (S.world store.new) }
    ensures given { Begins S.Device.gives (S.given store.old) (S.given store.new) }
{
    if can_ask(store, number) {
        let answer = store.ask(number, Ask::Write(value));
        acknowledge(store, number, answer)
    } else {
        acknowledge(store, number, Answer::Fault)
    }
}
