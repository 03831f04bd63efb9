//! Whole lines.
ghost use Rattle.std.specs.Prelude.{◌≡◌, ◌++◌, ◌∷◌, List, [], ℕ, OnOk, IfOk};
ghost use Rattle.ioc_device.specs.declared.Answer.{Answer};
ghost use Rattle.ioc_events.specs.declared.event.Call.{Call};
ghost use Rattle.ioc_journal_file.specs.declared.line.Mark.{Mark};
ghost use Rattle.ioc_journal_file.specs.Form.{mark_text, answers_text, line_of};
ghost use Rattle.ioc_journal_file.specs.Reading.{Gives};
ghost use Rattle.ioc_journal_file.specs.Calls.{mark_at, head_at, parts_of};
ghost use Rattle.ioc_journal_file.specs.Parts.{answers_of};
ghost use Rattle.ioc_journal_file.specs.Fits.{IsEntry};
ghost use Rattle.ioc_journal_file.specs.Breaks.{EndsOnce};
ghost use Rattle.ioc_journal_file.specs.Lines.{Reads, IsLineOf, IsReadAs};

use crate::calls::{add_call, call_at};
use crate::line_error::LineError;
use crate::numbers::{MOST_DIGITS, add_number, number_at, write_before};
use crate::values::{add_answer, answer_at};
use ioc_device::Answer;
use ioc_events::Call;
use std::alloc::{AllocError, Global};

/// Which entry of a journal it is.
#[derive(Clone, Copy, PartialEq, Eq, Debug)]
pub struct Mark {
    /// The place of the entry in the journal, from 0 on.
    pub place: u64,
    /// The number of the desk.
    pub desk: u64,
    /// The number of the call among the calls of this desk, from 0 on.
    pub call: u64,
    /// The time stamp, in nanoseconds since 1970-01-01 00:00 UTC.
    pub moment: u64,
}

/// An entry of a journal: which it is, the call with its reply, and the answers of devices in it, in
/// order.
#[derive(Drop)]
pub struct Line {
    pub mark: Mark,
    pub call: Call,
    pub answers: Vec<Answer>,
}

// Room for four numbers with a tab behind each.
const MARK_ROOM: usize = 4 * (MOST_DIGITS + 1);

/// Appends which entry it is, and a tab.
#[tactic(auto, unfolding(crate::specs::Form::mark_text))]
fn add_mark(out: &mut Vec<u8>, mark: &Mark) -> Result<(), AllocError>
    ensures { OnOk result (out.new.items ≡ out.old.items ++ mark_text mark.now ++ 9 ∷ []) }
{
    let mut text = [0; MARK_ROOM];
    let start = write_before(mark.moment, &mut text, MARK_ROOM);
    let start = write_before(mark.call, &mut text, start);
    let start = write_before(mark.desk, &mut text, start);
    let start = write_before(mark.place, &mut text, start);
    out.extend_from_slice(&text[start..])
}

/// Appends how many answers there are, and the answers.
#[tactic(auto, unfolding(crate::specs::Form::answers_text))]
fn add_answers(out: &mut Vec<u8>, answers: &[Answer]) -> Result<(), AllocError>
    ensures { OnOk result (out.new.items ≡ out.old.items ++ answers_text answers.now) }
{
    add_number(out, answers.len() as u64)?;
    for answer in answers {
        out.push(b'\t')?;
        add_answer(out, answer)?;
    }
    Ok(())
}

/// Appends the line of an entry.
///
/// # Errors
///
/// [`AllocError`] if allocation fails; a part of the line may have been appended then.
#[tactic(auto, unfolding(crate::specs::Form::line_of))]
pub fn print_entry(
    mark: &Mark,
    call: &Call,
    answers: &[Answer],
    out: &mut Vec<u8>,
) -> Result<(), AllocError>
    ensures { OnOk result (out.new.items ≡ out.old.items ++ line_of mark.now call.now answers.now) }
{
    add_mark(out, mark)?;
    add_call(out, call)?;
    out.push(b'\t')?;
    add_answers(out, answers)?;
    out.push(b'\n')?;
    Ok(())
}

/// Appends the line of an entry.
///
/// # Errors
///
/// [`AllocError`] if allocation fails; a part of the line may have been appended then.
pub fn print(line: &Line, out: &mut Vec<u8>) -> Result<(), AllocError>
    ensures { OnOk result (out.new.items ≡ out.old.items ++ line_of line.now.mark line.now.call line.now.answers.items) }
{
    print_entry(&line.mark, &line.call, line.answers.as_slice(), out)
}

/// Reads which entry it is.
#[tactic(auto, unfolding(crate::specs::Calls::mark_at))]
fn mark_at(bytes: &[u8]) -> Option<(Mark, &[u8])>
    ensures { Gives (λ x. (x.0, x.1.now)) result (mark_at bytes.now) }
{
    let Some((place, rest)) = number_at(bytes) else {
        return None;
    };
    let Some((desk, rest)) = number_at(rest) else {
        return None;
    };
    let Some((call, rest)) = number_at(rest) else {
        return None;
    };
    let Some((moment, rest)) = number_at(rest) else {
        return None;
    };
    let mark = Mark {
        place,
        desk,
        call,
        moment,
    };
    Some((mark, rest))
}

/// Reads the parts of a line before its answers, and how many answers there are.
#[tactic(auto, unfolding(crate::specs::Calls::head_at))]
fn head_at(bytes: &[u8]) -> Option<((Mark, Call, u64), &[u8])>
    ensures { Gives (λ x. (x.0, x.1.now)) result (head_at bytes.now) }
{
    let Some((mark, rest)) = mark_at(bytes) else {
        return None;
    };
    let Some((call, rest)) = call_at(rest) else {
        return None;
    };
    let Some((count, rest)) = number_at(rest) else {
        return None;
    };
    Some(((mark, call, count), rest))
}

/// Reads as many answers.
fn answers_of(alloc: Global, count: u64, bytes: &[u8]) -> Result<Vec<Answer>, LineError>
    ensures { Reads (λ v. v.items) result (answers_of count bytes.now) }
{
    let mut answers = Vec::new(alloc);
    let mut rest = bytes;
    for _ in 0..count {
        let Some((answer, after)) = answer_at(rest) else {
            return Err(LineError::NotALine);
        };
        answers.push(answer)?;
        rest = after;
    }
    Ok(answers)
}

/// Reads the parts of a line.
#[tactic(auto, unfolding(crate::specs::Calls::parts_of))]
fn parts_of(alloc: Global, bytes: &[u8]) -> Result<Line, LineError>
    ensures { Reads (λ line. (line.mark, line.call, line.answers.items)) result (parts_of bytes.now) }
{
    let Some((head, rest)) = head_at(bytes) else {
        return Err(LineError::NotALine);
    };
    let (mark, call, count) = head;
    let answers = answers_of(alloc, count, rest)?;
    Ok(Line {
        mark,
        call,
        answers,
    })
}

/// Returns whether the bytes are the line of the entry.
fn is_line_of(alloc: Global, line: &Line, bytes: &[u8]) -> Result<bool, AllocError>
    ensures { IfOk result (λ b. IsLineOf b bytes.now line.now.mark line.now.call line.now.answers.items) }
{
    let mut out = Vec::with_capacity(alloc, bytes.len())?;
    print(line, &mut out)?;
    Ok(out.as_slice() == bytes)
}

/// Reads a line, with the line break at its end: the entry that [`print`] writes so. The line of
/// each entry reads back as this entry.
///
/// # Errors
///
/// [`LineError::NotALine`] if no entry has this line. [`LineError::NoMemory`] if allocation fails.
pub fn parse(line: &[u8], alloc: Global) -> Result<Line, LineError>
    ensures found { IfOk result (λ l. line.now ≡ line_of l.mark l.call l.answers.items) }
    ensures only { (mark : Mark) (call : Call) (answers : List Answer) → IsEntry mark call answers → line.now ≡ line_of mark call answers
        → IsReadAs mark call answers result }
{
    let read = parts_of(alloc, line)?;
    if !is_line_of(alloc, &read, line)? {
        return Err(LineError::NotALine);
    }
    Ok(read)
}

/// Different entries have different lines.
pub fn lines_differ()
    ensures { (mark other_mark : Mark) (call other_call : Call) (answers other_answers : List Answer) → IsEntry mark call answers
        → IsEntry other_mark other_call other_answers → line_of mark call answers ≡ line_of other_mark other_call other_answers
        → (mark ≡ other_mark) × (call ≡ other_call) × (answers ≡ other_answers) }
{}

/// The only line break of a line is its last byte.
pub fn lines_end_once()
    ensures { (mark : Mark) (call : Call) (answers : List Answer) → IsEntry mark call answers → EndsOnce (line_of mark call answers) }
{}
