//! Calls with their arguments and their replies.
ghost use Rattle.std.specs.Prelude.{◌≡◌, ◌++◌, ◌∷◌, decimal, OnOk};
ghost use Rattle.ioc_fields.specs.Names.{name_of};
ghost use Rattle.ioc_journal_file.specs.Texts.{quoted};
ghost use Rattle.ioc_journal_file.specs.Lists.{call_word};
ghost use Rattle.ioc_journal_file.specs.Form.{input_text, finished_text, link_field_text, event_text, call_text};
ghost use Rattle.ioc_journal_file.specs.Reading.{Gives};
ghost use Rattle.ioc_journal_file.specs.Calls.{replied_at, process_at, put_at, complete_at, notify_at, cancel_at, get_at};
ghost use Rattle.ioc_journal_file.specs.Calls.{is_live_at, relink_at, post_at, interrupt_at, call_by, call_at};

use crate::kinds::CallKind;
use crate::links::{add_field, add_link_field, field_at, link_field_at};
use crate::lists::{call_of, call_word};
use crate::numbers::{add_number, add_record, notification_at, number_at, record_at};
use crate::replies::{
    add_changed, add_live, add_reply, add_shown, changed_at, live_at, reply_at, shown_at,
};
use crate::texts::{add_text, text_at};
use crate::values::{add_finished, add_input, finished_at, input_at};
use crate::words::split;
use ioc_dbcommon::LinkField;
use ioc_events::{Call, Event};
use ioc_fields::FieldNo;
use ioc_names::RecordNo;
use ioc_notify::NotifyId;
use ioc_values::{Finished, Input};
use std::alloc::AllocError;

/// Appends the kind of a call and a number.
fn add_kind(out: &mut Vec<u8>, kind: CallKind, number: u64) -> Result<(), AllocError>
    ensures { OnOk result (out.new.items ≡ out.old.items ++ call_word kind ++ 9 ∷ decimal number) }
{
    out.extend_from_slice(call_word(kind).as_bytes())?;
    out.push(b'\t')?;
    add_number(out, number)
}

/// Appends a tab, a field and the value that is put into it.
fn add_stored(out: &mut Vec<u8>, field: FieldNo, value: &Input) -> Result<(), AllocError>
    ensures { OnOk result (out.new.items ≡ out.old.items ++ 9 ∷ name_of field ++ 9 ∷ input_text value.now) }
{
    out.push(b'\t')?;
    add_field(out, field)?;
    out.push(b'\t')?;
    add_input(out, value)
}

/// Appends a completion.
fn add_completion(
    out: &mut Vec<u8>,
    record: RecordNo,
    wait: u64,
    finished: &Finished,
) -> Result<(), AllocError>
    ensures { OnOk result (out.new.items
        ≡ out.old.items ++ call_word CallKind.Complete ++ 9 ∷ decimal «record» ++ 9 ∷ decimal wait ++ 9 ∷ finished_text finished.now) }
{
    add_kind(out, CallKind::Complete, record.index() as u64)?;
    out.push(b'\t')?;
    add_number(out, wait)?;
    out.push(b'\t')?;
    add_finished(out, finished)
}

/// Appends a put with notification.
fn add_notify(
    out: &mut Vec<u8>,
    record: RecordNo,
    notification: NotifyId,
    field: FieldNo,
    value: &Input,
) -> Result<(), AllocError>
    ensures { OnOk result (out.new.items
        ≡ out.old.items ++ call_word CallKind.Notify ++ 9 ∷ decimal «record» ++ 9 ∷ decimal notification ++ 9 ∷ name_of field
        ++ 9 ∷ input_text value.now) }
{
    add_kind(out, CallKind::Notify, record.index() as u64)?;
    out.push(b'\t')?;
    add_number(out, notification.number())?;
    add_stored(out, field, value)
}

/// Appends an event with its arguments.
#[tactic(auto, unfolding(crate::specs::Form::event_text, crate::specs::Lists::call_word))]
fn add_event(out: &mut Vec<u8>, event: &Event) -> Result<(), AllocError>
    ensures { OnOk result (out.new.items ≡ out.old.items ++ event_text event.now) }
{
    match event {
        Event::Process { record } => add_kind(out, CallKind::Process, record.index() as u64),
        Event::Put {
            record,
            field,
            value,
        } => {
            add_kind(out, CallKind::Put, record.index() as u64)?;
            add_stored(out, *field, value)
        }
        Event::Complete {
            record,
            wait,
            finished,
        } => add_completion(out, *record, *wait, finished),
        Event::Notify {
            record,
            notification,
            field,
            value,
        } => add_notify(out, *record, *notification, *field, value),
        Event::Cancel { notification } => { add_kind(out, CallKind::Cancel, notification.number()) }
    }
}

/// Appends the kind of a call, a record and a field.
fn add_address(
    out: &mut Vec<u8>,
    kind: CallKind,
    number: RecordNo,
    field: FieldNo,
) -> Result<(), AllocError>
    ensures { OnOk result (out.new.items ≡ out.old.items ++ call_word kind ++ 9 ∷ decimal number ++ 9 ∷ name_of field) }
{
    add_kind(out, kind, number.index() as u64)?;
    out.push(b'\t')?;
    add_field(out, field)
}

/// Appends a tab and a link with where it leads.
fn add_new_link(out: &mut Vec<u8>, link: &LinkField) -> Result<(), AllocError>
    ensures { OnOk result (out.new.items ≡ out.old.items ++ 9 ∷ link_field_text link.now) }
{
    out.push(b'\t')?;
    add_link_field(out, link)
}

/// Appends the kind of a call, a text, and a number of requests.
fn add_begun(out: &mut Vec<u8>, kind: CallKind, text: &[u8], count: u64) -> Result<(), AllocError>
    ensures { OnOk result (out.new.items ≡ out.old.items ++ call_word kind ++ 9 ∷ quoted text.now ++ 9 ∷ decimal count) }
{
    out.extend_from_slice(call_word(kind).as_bytes())?;
    out.push(b'\t')?;
    add_text(out, text)?;
    out.push(b'\t')?;
    add_number(out, count)
}

/// Appends a call.
#[tactic(auto, unfolding(crate::specs::Form::call_text, crate::specs::Lists::call_word))]
pub(crate) fn add_call(out: &mut Vec<u8>, call: &Call) -> Result<(), AllocError>
    ensures { OnOk result (out.new.items ≡ out.old.items ++ call_text call.now) }
{
    match call {
        Call::Event(event, reply) => {
            add_event(out, event)?;
            out.push(b'\t')?;
            add_reply(out, reply)
        }
        Call::Get(number, field, shown) => {
            add_address(out, CallKind::Get, *number, *field)?;
            out.push(b'\t')?;
            add_shown(out, shown)
        }
        Call::IsLive(number, live) => {
            add_kind(out, CallKind::IsLive, number.number())?;
            out.push(b'\t')?;
            add_live(out, *live)
        }
        Call::Link(number, field, link, changed) => {
            add_address(out, CallKind::Link, *number, *field)?;
            add_new_link(out, link)?;
            out.push(b'\t')?;
            add_changed(out, changed)
        }
        Call::Post(name, count) => add_begun(out, CallKind::Post, name.as_slice(), *count),
        Call::Interrupt(device, count) => {
            add_begun(out, CallKind::Interrupt, device.as_slice(), *count)
        }
    }
}

/// Reads the reply of an event.
#[tactic(auto, unfolding(crate::specs::Calls::replied_at))]
fn replied_at(event: Event, bytes: &[u8]) -> Option<(Call, &[u8])>
    ensures { Gives (λ x. (x.0, x.1.now)) result (replied_at event bytes.now) }
{
    let Some((reply, rest)) = reply_at(bytes) else {
        return None;
    };
    Some((Call::Event(event, reply), rest))
}

#[tactic(auto, unfolding(crate::specs::Calls::process_at))]
fn process_at(bytes: &[u8]) -> Option<(Call, &[u8])>
    ensures { Gives (λ x. (x.0, x.1.now)) result (process_at bytes.now) }
{
    let Some((record, rest)) = record_at(bytes) else {
        return None;
    };
    replied_at(Event::Process { record }, rest)
}

#[tactic(auto, unfolding(crate::specs::Calls::put_at))]
#[inline(never)]
fn put_at(bytes: &[u8]) -> Option<(Call, &[u8])>
    ensures { Gives (λ x. (x.0, x.1.now)) result (put_at bytes.now) }
{
    let Some((record, rest)) = record_at(bytes) else {
        return None;
    };
    let Some((field, rest)) = field_at(rest) else {
        return None;
    };
    let Some((value, rest)) = input_at(rest) else {
        return None;
    };
    replied_at(
        Event::Put {
            record,
            field,
            value,
        },
        rest,
    )
}

#[tactic(auto, unfolding(crate::specs::Calls::complete_at))]
#[inline(never)]
fn complete_at(bytes: &[u8]) -> Option<(Call, &[u8])>
    ensures { Gives (λ x. (x.0, x.1.now)) result (complete_at bytes.now) }
{
    let Some((record, rest)) = record_at(bytes) else {
        return None;
    };
    let Some((wait, rest)) = number_at(rest) else {
        return None;
    };
    let Some((finished, rest)) = finished_at(rest) else {
        return None;
    };
    replied_at(
        Event::Complete {
            record,
            wait,
            finished,
        },
        rest,
    )
}

#[tactic(auto, unfolding(crate::specs::Calls::notify_at))]
#[inline(never)]
fn notify_at(bytes: &[u8]) -> Option<(Call, &[u8])>
    ensures { Gives (λ x. (x.0, x.1.now)) result (notify_at bytes.now) }
{
    let Some((record, rest)) = record_at(bytes) else {
        return None;
    };
    let Some((notification, rest)) = notification_at(rest) else {
        return None;
    };
    let Some((field, rest)) = field_at(rest) else {
        return None;
    };
    let Some((value, rest)) = input_at(rest) else {
        return None;
    };
    replied_at(
        Event::Notify {
            record,
            notification,
            field,
            value,
        },
        rest,
    )
}

#[tactic(auto, unfolding(crate::specs::Calls::cancel_at))]
#[inline(never)]
fn cancel_at(bytes: &[u8]) -> Option<(Call, &[u8])>
    ensures { Gives (λ x. (x.0, x.1.now)) result (cancel_at bytes.now) }
{
    let Some((notification, rest)) = notification_at(bytes) else {
        return None;
    };
    replied_at(Event::Cancel { notification }, rest)
}

#[tactic(auto, unfolding(crate::specs::Calls::get_at))]
#[inline(never)]
fn get_at(bytes: &[u8]) -> Option<(Call, &[u8])>
    ensures { Gives (λ x. (x.0, x.1.now)) result (get_at bytes.now) }
{
    let Some((number, rest)) = record_at(bytes) else {
        return None;
    };
    let Some((field, rest)) = field_at(rest) else {
        return None;
    };
    let (shown, rest) = shown_at(rest);
    Some((Call::Get(number, field, shown), rest))
}

#[tactic(auto, unfolding(crate::specs::Calls::is_live_at))]
#[inline(never)]
fn is_live_at(bytes: &[u8]) -> Option<(Call, &[u8])>
    ensures { Gives (λ x. (x.0, x.1.now)) result (is_live_at bytes.now) }
{
    let Some((number, rest)) = notification_at(bytes) else {
        return None;
    };
    let (live, rest) = live_at(rest);
    Some((Call::IsLive(number, live), rest))
}

#[tactic(auto, unfolding(crate::specs::Calls::relink_at))]
#[inline(never)]
fn relink_at(bytes: &[u8]) -> Option<(Call, &[u8])>
    ensures { Gives (λ x. (x.0, x.1.now)) result (relink_at bytes.now) }
{
    let Some((number, rest)) = record_at(bytes) else {
        return None;
    };
    let Some((field, rest)) = field_at(rest) else {
        return None;
    };
    let Some((link, rest)) = link_field_at(rest) else {
        return None;
    };
    let (changed, rest) = changed_at(rest);
    Some((Call::Link(number, field, link, changed), rest))
}

#[tactic(auto, unfolding(crate::specs::Calls::post_at))]
#[inline(never)]
fn post_at(bytes: &[u8]) -> Option<(Call, &[u8])>
    ensures { Gives (λ x. (x.0, x.1.now)) result (post_at bytes.now) }
{
    let (name, rest) = text_at(bytes);
    let Some((count, rest)) = number_at(rest) else {
        return None;
    };
    Some((Call::Post(name, count), rest))
}

#[tactic(auto, unfolding(crate::specs::Calls::interrupt_at))]
#[inline(never)]
fn interrupt_at(bytes: &[u8]) -> Option<(Call, &[u8])>
    ensures { Gives (λ x. (x.0, x.1.now)) result (interrupt_at bytes.now) }
{
    let (device, rest) = text_at(bytes);
    let Some((count, rest)) = number_at(rest) else {
        return None;
    };
    Some((Call::Interrupt(device, count), rest))
}

/// Reads the arguments and the reply of a call of the kind. Most calls of a journal are requests: only
/// what reads those is inlined, since a function clears its locals when it begins, and those of
/// what is inlined into it.
#[tactic(auto, unfolding(crate::specs::Calls::call_by))]
fn call_by(kind: CallKind, bytes: &[u8]) -> Option<(Call, &[u8])>
    ensures { Gives (λ x. (x.0, x.1.now)) result (call_by kind bytes.now) }
{
    match kind {
        CallKind::Process => process_at(bytes),
        CallKind::Put => put_at(bytes),
        CallKind::Complete => complete_at(bytes),
        CallKind::Notify => notify_at(bytes),
        CallKind::Cancel => cancel_at(bytes),
        CallKind::Get => get_at(bytes),
        CallKind::IsLive => is_live_at(bytes),
        CallKind::Link => relink_at(bytes),
        CallKind::Post => post_at(bytes),
        CallKind::Interrupt => interrupt_at(bytes),
    }
}

/// Reads a call.
#[tactic(auto, unfolding(crate::specs::Calls::call_at))]
pub(crate) fn call_at(bytes: &[u8]) -> Option<(Call, &[u8])>
    ensures { Gives (λ x. (x.0, x.1.now)) result (call_at bytes.now) }
{
    let (word, rest) = split(bytes);
    let kind = call_of(word)?;
    call_by(kind, rest)
}
