//! Reads the lines of a script from any reader, and answers each as it ends.
ghost use Rattle.std.specs.Prelude.{◌≡◌, ◌≤◌, ◌+◌, ◌++◌, [], length, IsOk, OnOk, OnErr, IfSome, IfErr};
ghost use Rattle.std.specs.Io.KnownBytes.{Appends};
ghost use Rattle.ioc_commands.specs.Commands.{lines_of, cut};
ghost use Rattle.ioc_main.specs.Coming.{still, to_come, AnswersLine, StopsAtLine, AnswersPiece, StopsInPiece};
ghost use Rattle.ioc_main.specs.Written.{Writes, WritesPart, StopsLine, StopsScript};

use crate::fault::{LineFault, ScriptFault, WriteFault};
use crate::session::{PendingOutput, Session};
use crate::writing::write_text;
use ioc_command_line::Reason;
use ioc_commands::cut_at;
use ioc_values::ByteBuffer;
use std::alloc::Global;
use std::io::{Read, Write};

/// The beginning of a line, long enough to recognize that the line is too long.
pub type LineBuffer = ByteBuffer<4097>;

// Writes the pending replies. Not inlined, because after most lines nothing is written.
#[inline(never)]
fn write_said<S: Session, W: Write>(
    session: &mut S,
    said: &mut PendingOutput,
    out: &mut W,
) -> Result<(), WriteFault>
    ensures ok { S.is_determined session.old
        → OnOk result (Appends (W.contents out.old) (W.contents out.new) (said.old.replies ++ said.old.more.items)) }
    ensures empty { OnOk result (said.new.replies ≡ []) }
    ensures none { OnOk result (said.new.more.items ≡ []) }
    ensures same { S.is_determined session.old → S.transcript session.new ≡ S.transcript session.old }
    ensures determined { S.is_determined session.old → S.is_determined session.new }
    ensures err { S.is_determined session.old
        → OnErr result (WritesPart (W.contents out.old) (said.old.replies ++ said.old.more.items) (W.contents out.new)) }
{
    if session.may_write() {
        write_pending(said, out)?;
    }
    said.clear();
    Ok(())
}

// Writes the pending replies, which stay.
fn write_pending<W: Write>(said: &PendingOutput, out: &mut W) -> Result<(), WriteFault>
    ensures ok { OnOk result (Appends (W.contents out.old) (W.contents out.new) (said.now.replies ++ said.now.more.items)) }
    ensures err { OnErr result (WritesPart (W.contents out.old) (said.now.replies ++ said.now.more.items) (W.contents out.new)) }
{
    write_text(out, said.replies.as_slice())?;
    write_text(out, said.more.as_slice())
}

// Writes the pending replies if there is no room for the reply to another line.
fn make_room<S: Session, W: Write>(
    session: &mut S,
    said: &mut PendingOutput,
    out: &mut W,
) -> Result<(), WriteFault>
    ensures ok { S.is_determined session.old → OnOk result (Writes (W.contents out.old) (said.old.replies ++ said.old.more.items)
        (W.contents out.new) said.new.replies) }
    ensures room { OnOk result (length said.new.replies + 256 ≤ 4096) }
    ensures none { OnOk result (said.new.more.items ≡ []) }
    ensures same { S.is_determined session.old → S.transcript session.new ≡ S.transcript session.old }
    ensures determined { S.is_determined session.old → S.is_determined session.new }
    ensures err { S.is_determined session.old
        → OnErr result (WritesPart (W.contents out.old) (said.old.replies ++ said.old.more.items) (W.contents out.new)) }
{
    if said.has_room() {
        return Ok(());
    }
    write_said(session, said, out)
}

// Answers a line, behind the pending replies. If it can't be answered, the pending replies are
// written, and nothing of the line.
fn say<S: Session, W: Write>(
    session: &mut S,
    said: &mut PendingOutput,
    out: &mut W,
    line: &[u8],
) -> Result<(), LineFault>
    requires room { length said.old.replies + 256 ≤ 4096 }
    requires none { said.old.more.items ≡ [] }
    ensures ok { S.is_determined session.old → OnOk result (AnswersLine (W.contents out.old) (still said.old.replies
        (S.transcript session.old)) line.now
        (W.contents out.new) (still said.new.replies (S.transcript session.new))) }
    ensures room { OnOk result (length said.new.replies + 256 ≤ 4096) }
    ensures none { OnOk result (said.new.more.items ≡ []) }
    ensures determined { S.is_determined session.old → S.is_determined session.new }
    ensures err { S.is_determined session.old → IfErr result (λ fault. StopsAtLine fault (W.contents out.old)
        (still said.old.replies (S.transcript session.old)) line.now (W.contents out.new)) }
{
    let before = said.replies.as_slice().len();
    match session.answer(line, said) {
        Ok(()) => {
            make_room(session, said, out)?;
            Ok(())
        }
        Err(_) => {
            write_text(out, &said.replies.as_slice()[..before])?;
            Err(LineFault::Memory)
        }
    }
}

// Answers the line that ends with `last`, and begins another.
fn end_line<S: Session, W: Write>(
    session: &mut S,
    line: &mut LineBuffer,
    said: &mut PendingOutput,
    out: &mut W,
    last: &[u8],
) -> Result<(), LineFault>
    requires room { length said.old.replies + 256 ≤ 4096 }
    requires none { said.old.more.items ≡ [] }
    ensures empty { OnOk result (line.new ≡ []) }
    ensures ok { S.is_determined session.old → OnOk result (AnswersLine (W.contents out.old)
        (still said.old.replies (S.transcript session.old)) (line.old ++ last.now) (W.contents out.new)
        (still said.new.replies (S.transcript session.new))) }
    ensures room { OnOk result (length said.new.replies + 256 ≤ 4096) }
    ensures none { OnOk result (said.new.more.items ≡ []) }
    ensures determined { S.is_determined session.old → S.is_determined session.new }
    ensures err { S.is_determined session.old → IfErr result (λ fault. StopsAtLine fault (W.contents out.old)
        (still said.old.replies (S.transcript session.old)) (line.old ++ last.now) (W.contents out.new)) }
{
    if line.is_empty() {
        return say(session, said, out, last);
    }
    line.extend_cut(last);
    say(session, said, out, line.as_slice())?;
    line.clear();
    Ok(())
}

// Answers the lines that end in a piece.
fn answer_lines<S: Session, W: Write>(
    session: &mut S,
    line: &mut LineBuffer,
    said: &mut PendingOutput,
    out: &mut W,
    piece: &[u8],
) -> Result<(), LineFault>
    requires room { length said.old.replies + 256 ≤ 4096 }
    requires none { said.old.more.items ≡ [] }
    ensures ok { S.is_determined session.old → OnOk result (AnswersPiece (W.contents out.old) (still said.old.replies
        (S.transcript session.old)) line.old piece.now
        (W.contents out.new) (still said.new.replies (S.transcript session.new)) line.new) }
    ensures room { OnOk result (length said.new.replies + 256 ≤ 4096) }
    ensures none { OnOk result (said.new.more.items ≡ []) }
    ensures determined { S.is_determined session.old → S.is_determined session.new }
    ensures err { S.is_determined session.old → IfErr result (λ fault. StopsInPiece fault (W.contents out.old)
        (still said.old.replies (S.transcript session.old)) line.old piece.now (W.contents out.new)) }
{
    let mut rest = piece;
    while !rest.is_empty() {
        let (last, more) = cut_at(rest, b'\n');
        let Some(more) = more else {
            line.extend_cut(last);
            return Ok(());
        };
        end_line(session, line, said, out, last)?;
        if session.has_ended() {
            return Ok(());
        }
        rest = more;
    }
    Ok(())
}

// Answers the lines that end in a piece of the script, and writes all that was said, so that no
// reply is pending when more is read.
fn feed<S: Session, W: Write>(
    session: &mut S,
    line: &mut LineBuffer,
    said: &mut PendingOutput,
    out: &mut W,
    piece: &[u8],
) -> Result<(), LineFault>
    requires room { length said.old.replies + 256 ≤ 4096 }
    requires none { said.old.more.items ≡ [] }
    ensures ok { S.is_determined session.old → OnOk result (AnswersPiece (W.contents out.old) (still said.old.replies
        (S.transcript session.old)) line.old piece.now
        (W.contents out.new) (still said.new.replies (S.transcript session.new)) line.new) }
    ensures written { OnOk result (said.new.replies ≡ []) }
    ensures none { OnOk result (said.new.more.items ≡ []) }
    ensures determined { S.is_determined session.old → S.is_determined session.new }
    ensures err { S.is_determined session.old → IfErr result (λ fault. StopsInPiece fault (W.contents out.old)
        (still said.old.replies (S.transcript session.old)) line.old piece.now (W.contents out.new)) }
{
    answer_lines(session, line, said, out, piece)?;
    write_said(session, said, out)?;
    Ok(())
}

// Answers a last line without a line feed, if there is one.
fn answer_rest<S: Session, W: Write>(
    session: &mut S,
    line: &mut LineBuffer,
    said: &mut PendingOutput,
    out: &mut W,
) -> Result<(), LineFault>
    requires room { length said.old.replies + 256 ≤ 4096 }
    requires none { said.old.more.items ≡ [] }
    ensures ok { S.is_determined session.old → OnOk result (Writes (W.contents out.old) (to_come (still said.old.replies
        (S.transcript session.old)) line.old [])
        (W.contents out.new) said.new.replies) }
    ensures room { OnOk result (length said.new.replies + 256 ≤ 4096) }
    ensures none { OnOk result (said.new.more.items ≡ []) }
    ensures determined { S.is_determined session.old → S.is_determined session.new }
    ensures err { S.is_determined session.old → IfErr result (λ fault. StopsLine fault (W.contents out.old)
        (to_come (still said.old.replies (S.transcript session.old)) line.old []) (W.contents out.new)) }
{
    match line.as_slice() {
        [] => Ok(()),
        [_, ..] => say(session, said, out, line.as_slice()),
    }
}

// Answers what is left of a script at its end, and writes the pending replies.
fn finish<S: Session, W: Write>(
    session: &mut S,
    line: &mut LineBuffer,
    said: &mut PendingOutput,
    out: &mut W,
) -> Result<(), LineFault>
    requires room { length said.old.replies + 256 ≤ 4096 }
    requires none { said.old.more.items ≡ [] }
    ensures ok { S.is_determined session.old → OnOk result (Appends (W.contents out.old) (W.contents out.new)
        (to_come (still said.old.replies (S.transcript session.old)) line.old [])) }
    ensures determined { S.is_determined session.old → S.is_determined session.new }
    ensures err { S.is_determined session.old → IfErr result (λ fault. StopsLine fault (W.contents out.old)
        (to_come (still said.old.replies (S.transcript session.old)) line.old []) (W.contents out.new)) }
{
    answer_rest(session, line, said, out)?;
    write_said(session, said, out)?;
    Ok(())
}

// Writes the prompt, if a user is to see one.
fn show_prompt<S: Session, W: Write>(session: &mut S, out: &mut W) -> Result<(), LineFault>
    ensures ok { S.is_determined session.old → IsOk result }
    ensures kept { S.is_determined session.old → W.contents out.new ≡ W.contents out.old }
    ensures same { S.is_determined session.old → S.transcript session.new ≡ S.transcript session.old }
    ensures determined { S.is_determined session.old → S.is_determined session.new }
{
    match session.before_read() {
        Some(prompt) => {
            write_text(out, prompt)?;
            Ok(())
        }
        None => Ok(()),
    }
}

/// Answers the lines of a script until its end, or until the session has ended. No reply is pending
/// when more is read.
///
/// # Errors
///
/// [`ScriptFault::Read`] if a read fails, [`ScriptFault::Write`] if a write fails, and
/// [`ScriptFault::Memory`] if allocation fails. Then a beginning of the transcript was written
/// (after a failed write not all of it), and nothing more is written.
pub fn run_script<S: Session, R: Read + Drop, W: Write>(
    alloc: Global,
    session: &mut S,
    mut script: R,
    out: &mut W,
) -> Result<(), ScriptFault>
    ensures ok { S.is_determined session.old → OnOk result (IfSome (R.remaining script)
        (λ text. Appends (W.contents out.old) (W.contents out.new)
        (S.transcript session.old (lines_of text)))) }
    ensures determined { S.is_determined session.old → S.is_determined session.new }
    ensures err { S.is_determined session.old → IfErr result (λ fault. IfSome (R.remaining script)
        (λ text. StopsScript fault (W.contents out.old) (S.transcript session.old (lines_of text))
        (W.contents out.new))) }
{
    let mut line = LineBuffer::new();
    let mut said = PendingOutput::new(alloc);
    let mut buffer = [0u8; 4096];
    for _ in 0..u64::MAX {
        show_prompt(session, out)?;
        match script.read(&mut buffer) {
            Ok(0) => {
                finish(session, &mut line, &mut said, out)?;
                return Ok(());
            }
            Ok(n) => {
                feed(session, &mut line, &mut said, out, buffer.split_at(n).0)?;
                if session.has_ended() {
                    return Ok(());
                }
            }
            Err(e) => return Err(ScriptFault::Read(Reason::of_input(&e))),
        }
    }
    Err(ScriptFault::Read(Reason::Other))
}
