//! Values, inputs and answers of devices.
ghost use Rattle.std.specs.Prelude.{◌≡◌, ◌++◌, ◌∷◌, codes, OnOk};
ghost use Rattle.std.specs.Fmt.{signed_decimal};
ghost use Rattle.ioc_journal_file.specs.Lists.{kind_word};
ghost use Rattle.ioc_journal_file.specs.Form.{value_text, input_text, finished_text, answer_text};
ghost use Rattle.ioc_journal_file.specs.Reading.{Gives};
ghost use Rattle.ioc_journal_file.specs.Parts.{number_in, double_at, value_by, value_at, value_input_at, input_at, done_at};
ghost use Rattle.ioc_journal_file.specs.Parts.{finished_at, value_answer_at, answer_at};

use crate::bits::{add_double, double_of_bits};
use crate::kinds::ValueKind;
use crate::lists::{kind_of, kind_word};
use crate::numbers::{add_integer, integer_at};
use crate::texts::{add_text, text_at};
use crate::words::{is_word, split};
use ioc_device::Answer;
use ioc_values::{Finished, Input, Kind, Range, Value, of_number};
use std::alloc::AllocError;

/// Appends the kind of a value and its number.
fn add_numeric(out: &mut Vec<u8>, kind: ValueKind, number: i64) -> Result<(), AllocError>
    ensures { OnOk result (out.new.items ≡ out.old.items ++ kind_word kind ++ 9 ∷ signed_decimal number) }
{
    out.extend_from_slice(kind_word(kind).as_bytes())?;
    out.push(b'\t')?;
    add_integer(out, number)
}

/// Appends a value.
#[tactic(auto, unfolding(crate::specs::Form::value_text, crate::specs::Lists::kind_word))]
pub(crate) fn add_value(out: &mut Vec<u8>, value: &Value) -> Result<(), AllocError>
    ensures { OnOk result (out.new.items ≡ out.old.items ++ value_text value.now) }
{
    match value {
        Value::Long(number) => add_numeric(out, ValueKind::Long, i64::from(*number)),
        Value::ULong(number) => add_numeric(out, ValueKind::ULong, i64::from(*number)),
        Value::Short(number) => add_numeric(out, ValueKind::Short, i64::from(*number)),
        Value::UShort(number) => add_numeric(out, ValueKind::UShort, i64::from(*number)),
        Value::UChar(number) => add_numeric(out, ValueKind::UChar, i64::from(*number)),
        Value::Enum(number) => add_numeric(out, ValueKind::Enum, i64::from(*number)),
        Value::Int64(number) => add_numeric(out, ValueKind::Int64, *number),
        Value::Double(number) => {
            out.extend_from_slice(b"double\t")?;
            add_double(out, *number)
        }
        Value::Text(text) => {
            out.extend_from_slice(b"text\t")?;
            add_text(out, text.as_slice())
        }
    }
}

/// Appends the value of a put.
#[tactic(auto, unfolding(crate::specs::Form::input_text))]
pub(crate) fn add_input(out: &mut Vec<u8>, given: &Input) -> Result<(), AllocError>
    ensures { OnOk result (out.new.items ≡ out.old.items ++ input_text given.now) }
{
    match given {
        Input::Value(value) => add_value(out, value),
        Input::LongText(text) => {
            out.extend_from_slice(b"longtext\t")?;
            add_text(out, text.as_slice())
        }
    }
}

/// Appends what a device returned in the end.
#[tactic(auto, unfolding(crate::specs::Form::finished_text))]
pub(crate) fn add_finished(out: &mut Vec<u8>, finished: &Finished) -> Result<(), AllocError>
    ensures { OnOk result (out.new.items ≡ out.old.items ++ finished_text finished.now) }
{
    match finished {
        Finished::Done(value) => add_value(out, value),
        Finished::Fault => out.extend_from_slice(b"fault"),
    }
}

/// Appends an answer of a device.
#[tactic(auto, unfolding(crate::specs::Form::answer_text))]
pub(crate) fn add_answer(out: &mut Vec<u8>, answer: &Answer) -> Result<(), AllocError>
    ensures { OnOk result (out.new.items ≡ out.old.items ++ answer_text answer.now) }
{
    match answer {
        Answer::Done(value) => add_value(out, value),
        Answer::Fault => out.extend_from_slice(b"fault"),
        Answer::Later => out.extend_from_slice(b"later"),
    }
}

/// Reads a number as a value of the range.
#[tactic(auto, unfolding(crate::specs::Parts::number_in, ioc_values::specs::Conversion::of_number, ioc_values::specs::Conversion::sort_of))]
fn number_in(range: Range, bytes: &[u8]) -> Option<(Value, &[u8])>
    ensures { Gives (λ x. (x.0, x.1.now)) result (number_in range bytes.now) }
{
    let Some((number, rest)) = integer_at(bytes) else {
        return None;
    };
    let value = of_number(Kind::Number(range), number)?;
    Some((value, rest))
}

/// Reads a double.
#[tactic(auto, unfolding(crate::specs::Parts::double_at))]
fn double_at(bytes: &[u8]) -> Option<(Value, &[u8])>
    ensures { Gives (λ x. (x.0, x.1.now)) result (double_at bytes.now) }
{
    let (word, rest) = split(bytes);
    let number = double_of_bits(word)?;
    Some((Value::Double(number), rest))
}

/// Reads a value of the kind.
#[tactic(auto, unfolding(crate::specs::Parts::value_by))]
fn value_by(kind: ValueKind, bytes: &[u8]) -> Option<(Value, &[u8])>
    ensures { Gives (λ x. (x.0, x.1.now)) result (value_by kind bytes.now) }
{
    match kind {
        ValueKind::Long => number_in(Range::Long, bytes),
        ValueKind::ULong => number_in(Range::ULong, bytes),
        ValueKind::Short => number_in(Range::Short, bytes),
        ValueKind::UShort => number_in(Range::UShort, bytes),
        ValueKind::UChar => number_in(Range::UChar, bytes),
        ValueKind::Enum => number_in(Range::Enum, bytes),
        ValueKind::Int64 => number_in(Range::Int64, bytes),
        ValueKind::Double => double_at(bytes),
        ValueKind::Text => {
            let (text, rest) = text_at(bytes);
            Some((Value::Text(text), rest))
        }
    }
}

/// Reads a value.
#[tactic(auto, unfolding(crate::specs::Parts::value_at))]
pub(crate) fn value_at(bytes: &[u8]) -> Option<(Value, &[u8])>
    ensures { Gives (λ x. (x.0, x.1.now)) result (value_at bytes.now) }
{
    let (word, rest) = split(bytes);
    let kind = kind_of(word)?;
    value_by(kind, rest)
}

#[tactic(auto, unfolding(crate::specs::Parts::value_input_at))]
fn value_input_at(bytes: &[u8]) -> Option<(Input, &[u8])>
    ensures { Gives (λ x. (x.0, x.1.now)) result (value_input_at bytes.now) }
{
    let Some((value, rest)) = value_at(bytes) else {
        return None;
    };
    Some((Input::Value(value), rest))
}

/// Reads the value of a put.
#[tactic(auto, unfolding(crate::specs::Parts::input_at))]
pub(crate) fn input_at(bytes: &[u8]) -> Option<(Input, &[u8])>
    ensures { Gives (λ x. (x.0, x.1.now)) result (input_at bytes.now) }
{
    let (word, rest) = split(bytes);
    if is_word(word, b"longtext") {
        let (text, rest) = text_at(rest);
        return Some((Input::LongText(text), rest));
    }
    value_input_at(bytes)
}

#[tactic(auto, unfolding(crate::specs::Parts::done_at))]
fn done_at(bytes: &[u8]) -> Option<(Finished, &[u8])>
    ensures { Gives (λ x. (x.0, x.1.now)) result (done_at bytes.now) }
{
    let Some((value, rest)) = value_at(bytes) else {
        return None;
    };
    Some((Finished::Done(value), rest))
}

/// Reads what a device returned in the end.
#[tactic(auto, unfolding(crate::specs::Parts::finished_at))]
pub(crate) fn finished_at(bytes: &[u8]) -> Option<(Finished, &[u8])>
    ensures { Gives (λ x. (x.0, x.1.now)) result (finished_at bytes.now) }
{
    let (word, rest) = split(bytes);
    if is_word(word, b"fault") {
        return Some((Finished::Fault, rest));
    }
    done_at(bytes)
}

#[tactic(auto, unfolding(crate::specs::Parts::value_answer_at))]
fn value_answer_at(bytes: &[u8]) -> Option<(Answer, &[u8])>
    ensures { Gives (λ x. (x.0, x.1.now)) result (value_answer_at bytes.now) }
{
    let Some((value, rest)) = value_at(bytes) else {
        return None;
    };
    Some((Answer::Done(value), rest))
}

/// Reads an answer of a device.
#[tactic(auto, unfolding(crate::specs::Parts::answer_at))]
pub(crate) fn answer_at(bytes: &[u8]) -> Option<(Answer, &[u8])>
    ensures { Gives (λ x. (x.0, x.1.now)) result (answer_at bytes.now) }
{
    let (word, rest) = split(bytes);
    if is_word(word, b"fault") {
        return Some((Answer::Fault, rest));
    }
    if is_word(word, b"later") {
        return Some((Answer::Later, rest));
    }
    value_answer_at(bytes)
}
