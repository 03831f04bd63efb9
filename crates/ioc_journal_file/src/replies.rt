//! Replies of calls.
ghost use Rattle.std.specs.Prelude.{◌≡◌, ◌++◌, OnOk};
ghost use Rattle.ioc_journal_file.specs.Form.{reply_text, shown_text, changed_text, live_word};
ghost use Rattle.ioc_journal_file.specs.Reading.{Gives};
ghost use Rattle.ioc_journal_file.specs.Parts.{refused_at, notified_at, reply_at, shown_at, changed_at, live_at};

use crate::lists::{error_of, outcome_of, outcome_word};
use crate::numbers::{add_number, notification_at};
use crate::texts::{add_text, text_at};
use crate::words::{is_word, split};
use ioc_events::Reply;
use ioc_record::FieldText;
use ioc_values::IocError;
use std::alloc::AllocError;

/// Appends the reply of an event.
#[tactic(auto, unfolding(crate::specs::Form::reply_text))]
pub(crate) fn add_reply(out: &mut Vec<u8>, reply: &Reply) -> Result<(), AllocError>
    ensures { OnOk result (out.new.items ≡ out.old.items ++ reply_text reply.now) }
{
    match reply {
        Reply::Plain => out.extend_from_slice(b"done"),
        Reply::Outcome(outcome) => out.extend_from_slice(outcome_word(*outcome).as_bytes()),
        Reply::Notify(number) => {
            out.extend_from_slice(b"notify\t")?;
            add_number(out, number.number())
        }
        Reply::Refused(error) => out.extend_from_slice(error.words().as_bytes()),
    }
}

/// Appends the reply of a get.
#[tactic(auto, unfolding(crate::specs::Form::shown_text))]
pub(crate) fn add_shown(
    out: &mut Vec<u8>,
    shown: &Result<FieldText, IocError>,
) -> Result<(), AllocError>
    ensures { OnOk result (out.new.items ≡ out.old.items ++ shown_text shown.now) }
{
    match shown {
        Ok(text) => add_text(out, text.as_slice()),
        Err(error) => out.extend_from_slice(error.words().as_bytes()),
    }
}

/// Appends the reply of a link change.
#[tactic(auto, unfolding(crate::specs::Form::changed_text))]
pub(crate) fn add_changed(
    out: &mut Vec<u8>,
    changed: &Result<(), IocError>,
) -> Result<(), AllocError>
    ensures { OnOk result (out.new.items ≡ out.old.items ++ changed_text changed.now) }
{
    match changed {
        Ok(()) => out.extend_from_slice(b"done"),
        Err(error) => out.extend_from_slice(error.words().as_bytes()),
    }
}

/// Appends whether a put with notification is live.
#[tactic(auto, unfolding(crate::specs::Form::live_word))]
pub(crate) fn add_live(out: &mut Vec<u8>, live: bool) -> Result<(), AllocError>
    ensures { OnOk result (out.new.items ≡ out.old.items ++ live_word live) }
{
    if live {
        out.extend_from_slice(b"yes")
    } else {
        out.extend_from_slice(b"no")
    }
}

#[tactic(auto, unfolding(crate::specs::Parts::refused_at))]
fn refused_at(bytes: &[u8]) -> Option<(Reply, &[u8])>
    ensures { Gives (λ x. (x.0, x.1.now)) result (refused_at bytes.now) }
{
    let (word, rest) = split(bytes);
    let error = error_of(word)?;
    Some((Reply::Refused(error), rest))
}

#[tactic(auto, unfolding(crate::specs::Parts::notified_at))]
fn notified_at(bytes: &[u8]) -> Option<(Reply, &[u8])>
    ensures { Gives (λ x. (x.0, x.1.now)) result (notified_at bytes.now) }
{
    let Some((number, rest)) = notification_at(bytes) else {
        return None;
    };
    Some((Reply::Notify(number), rest))
}

/// Reads the reply of an event.
#[tactic(auto, unfolding(crate::specs::Parts::reply_at))]
pub(crate) fn reply_at(bytes: &[u8]) -> Option<(Reply, &[u8])>
    ensures { Gives (λ x. (x.0, x.1.now)) result (reply_at bytes.now) }
{
    let (word, rest) = split(bytes);
    if is_word(word, b"done") {
        return Some((Reply::Plain, rest));
    }
    if is_word(word, b"notify") {
        return notified_at(rest);
    }
    match outcome_of(word) {
        Some(outcome) => Some((Reply::Outcome(outcome), rest)),
        None => refused_at(bytes),
    }
}

/// Reads the reply of a get.
#[tactic(auto, unfolding(crate::specs::Parts::shown_at))]
pub(crate) fn shown_at(bytes: &[u8]) -> (Result<FieldText, IocError>, &[u8])
    ensures reply { result.0 ≡ (shown_at bytes.now).0 }
    ensures after { result.1.now ≡ (shown_at bytes.now).1 }
{
    let (word, rest) = split(bytes);
    match error_of(word) {
        Some(error) => (Err(error), rest),
        None => {
            let (text, rest) = text_at(bytes);
            (Ok(text), rest)
        }
    }
}

/// Reads the reply of a link change.
#[tactic(auto, unfolding(crate::specs::Parts::changed_at))]
pub(crate) fn changed_at(bytes: &[u8]) -> (Result<(), IocError>, &[u8])
    ensures reply { result.0 ≡ (changed_at bytes.now).0 }
    ensures after { result.1.now ≡ (changed_at bytes.now).1 }
{
    let (word, rest) = split(bytes);
    match error_of(word) {
        Some(error) => (Err(error), rest),
        None => (Ok(()), rest),
    }
}

/// Reads whether a put with notification is live.
#[tactic(auto, unfolding(crate::specs::Parts::live_at))]
pub(crate) fn live_at(bytes: &[u8]) -> (bool, &[u8])
    ensures live { result.0 ≡ (live_at bytes.now).0 }
    ensures after { result.1.now ≡ (live_at bytes.now).1 }
{
    let (word, rest) = split(bytes);
    (is_word(word, b"yes"), rest)
}
