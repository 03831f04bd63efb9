//! Values of which there are few, and their words.
ghost use Rattle.std.specs.Prelude.{◌≡◌};
ghost use Rattle.ioc_journal_file.specs.Lists.{field_of, error_of, outcome_word, outcome_of, mode_word, mode_of, kind_word};
ghost use Rattle.ioc_journal_file.specs.Lists.{kind_of, call_word, call_of};

use crate::kinds::{CallKind, ValueKind};
use crate::words::is_word;
use ioc_fields::field_list::fields;
use ioc_fields::{FieldNo, name_of};
use ioc_ledger::Outcome;
use ioc_links::Mode;
use ioc_values::IocError;

static ERRORS: [IocError; 12] = [
    IocError::NoRecord,
    IocError::NoField,
    IocError::NoMod,
    IocError::PutDisabled,
    IocError::BadValue,
    IocError::BadLink,
    IocError::NotifyPending,
    IocError::Stale,
    IocError::QueueFull,
    IocError::NoMemory,
    IocError::JournalFull,
    IocError::Stopped,
];

static OUTCOMES: [Outcome; 4] = [
    Outcome::Processed,
    Outcome::Disabled,
    Outcome::Active,
    Outcome::Reprocess,
];

static MODES: [Mode; 4] = [Mode::Nms, Mode::Ms, Mode::Msi, Mode::Mss];

static VALUE_KINDS: [ValueKind; 9] = [
    ValueKind::Long,
    ValueKind::ULong,
    ValueKind::Short,
    ValueKind::UShort,
    ValueKind::UChar,
    ValueKind::Enum,
    ValueKind::Int64,
    ValueKind::Double,
    ValueKind::Text,
];

static CALL_KINDS: [CallKind; 10] = [
    CallKind::Process,
    CallKind::Put,
    CallKind::Complete,
    CallKind::Notify,
    CallKind::Cancel,
    CallKind::Get,
    CallKind::IsLive,
    CallKind::Link,
    CallKind::Post,
    CallKind::Interrupt,
];

/// Returns the field of any type with this name.
pub(crate) fn field_of(word: &[u8]) -> Option<FieldNo>
    ensures { result ≡ field_of word.now }
{
    fields()
        .iter()
        .copied()
        .find(|field| is_word(name_of(*field).as_bytes(), word))
}

/// Returns the error with these words.
pub(crate) fn error_of(word: &[u8]) -> Option<IocError>
    ensures { result ≡ error_of word.now }
{
    ERRORS
        .iter()
        .copied()
        .find(|error| is_word(error.words().as_bytes(), word))
}

/// Returns the word for the outcome.
#[tactic(auto, unfolding(crate::specs::Lists::outcome_word))]
pub(crate) fn outcome_word(outcome: Outcome) -> &'static str
    ensures { result.now ≡ outcome_word outcome }
{
    match outcome {
        Outcome::Processed => "processed",
        Outcome::Disabled => "disabled",
        Outcome::Active => "active",
        Outcome::Reprocess => "reprocess",
    }
}

/// Returns the outcome of the word.
pub(crate) fn outcome_of(word: &[u8]) -> Option<Outcome>
    ensures { result ≡ outcome_of word.now }
{
    OUTCOMES
        .iter()
        .copied()
        .find(|outcome| is_word(outcome_word(*outcome).as_bytes(), word))
}

/// Returns the word for the mode.
#[tactic(auto, unfolding(crate::specs::Lists::mode_word))]
pub(crate) fn mode_word(mode: Mode) -> &'static str
    ensures { result.now ≡ mode_word mode }
{
    match mode {
        Mode::Nms => "NMS",
        Mode::Ms => "MS",
        Mode::Msi => "MSI",
        Mode::Mss => "MSS",
    }
}

/// Returns the mode of the word.
pub(crate) fn mode_of(word: &[u8]) -> Option<Mode>
    ensures { result ≡ mode_of word.now }
{
    MODES
        .iter()
        .copied()
        .find(|mode| is_word(mode_word(*mode).as_bytes(), word))
}

/// Returns the word for the kind of a value.
#[tactic(auto, unfolding(crate::specs::Lists::kind_word))]
pub(crate) fn kind_word(kind: ValueKind) -> &'static str
    ensures { result.now ≡ kind_word kind }
{
    match kind {
        ValueKind::Long => "long",
        ValueKind::ULong => "ulong",
        ValueKind::Short => "short",
        ValueKind::UShort => "ushort",
        ValueKind::UChar => "uchar",
        ValueKind::Enum => "enum",
        ValueKind::Int64 => "int64",
        ValueKind::Double => "double",
        ValueKind::Text => "text",
    }
}

/// Returns the kind of value of the word.
pub(crate) fn kind_of(word: &[u8]) -> Option<ValueKind>
    ensures { result ≡ kind_of word.now }
{
    VALUE_KINDS
        .iter()
        .copied()
        .find(|kind| is_word(kind_word(*kind).as_bytes(), word))
}

/// Returns the word for the kind of a call.
#[tactic(auto, unfolding(crate::specs::Lists::call_word))]
pub(crate) fn call_word(kind: CallKind) -> &'static str
    ensures { result.now ≡ call_word kind }
{
    match kind {
        CallKind::Process => "process",
        CallKind::Put => "put",
        CallKind::Complete => "complete",
        CallKind::Notify => "notify",
        CallKind::Cancel => "cancel",
        CallKind::Get => "get",
        CallKind::IsLive => "live",
        CallKind::Link => "link",
        CallKind::Post => "post",
        CallKind::Interrupt => "interrupt",
    }
}

/// Returns the kind of call of the word.
pub(crate) fn call_of(word: &[u8]) -> Option<CallKind>
    ensures { result ≡ call_of word.now }
{
    CALL_KINDS
        .iter()
        .copied()
        .find(|kind| is_word(call_word(*kind).as_bytes(), word))
}
