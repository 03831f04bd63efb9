//! A whole run: a database text, and then a script.
ghost use Rattle.std.specs.Prelude.{◌≡◌, OnOk, IfErr, IfSome};
ghost use Rattle.std.specs.Io.KnownBytes.{Appends};
ghost use Rattle.ioc_commands.specs.Commands.{lines_of};
ghost use Rattle.ioc_main.specs.Written.{StopsScript};
ghost use Rattle.ioc_main.specs.Transcript.{transcript_of, IsDatabase, StopsWith};

use crate::fault::{RunFault, ScriptFault};
use crate::lines::run_script;
use crate::replay::Replay;
use crate::session::Session;
use ioc_dbfile::{Database, Macros, load};
use std::alloc::Global;
use std::io::{Read, Write};

// Answers a script until its end, and drops the session. It is generic because dropping a database
// part by part is slow to prove.
fn run_whole<S: Session + Drop, R: Read + Drop, W: Write>(
    alloc: Global,
    mut session: S,
    script: R,
    out: &mut W,
) -> Result<(), ScriptFault>
    ensures ok { S.is_determined session → OnOk result (IfSome (R.remaining script)
        (λ text. Appends (W.contents out.old) (W.contents out.new)
        (S.transcript session (lines_of text)))) }
    ensures err { S.is_determined session → IfErr result (λ fault. IfSome (R.remaining script)
        (λ text. StopsScript fault (W.contents out.old) (S.transcript session (lines_of text)) (W.contents out.new))) }
{
    run_script(alloc, &mut session, script, out)
}

/// Loads a database text with the macros that it may use, and answers a script until its end. Each
/// line is answered as it is read, and no more than 1,025 bytes of a line are kept.
///
/// # Errors
///
/// [`RunFault::BadDb`] with the first fault of the database text; nothing is written then.
/// [`RunFault::Memory`] if allocation fails: in the load, in which case nothing was written, or in
/// a line of the script. [`RunFault::Read`] if a read of the script fails. [`RunFault::Write`] if a
/// write fails, or the writer takes no byte. If the script stopped, a beginning of the transcript
/// was written, and nothing more is written.
pub fn run<R: Read + Drop, W: Write>(
    alloc: Global,
    db: &[u8],
    macros: &Macros,
    script: R,
    out: &mut W,
) -> Result<(), RunFault>
    // The transcript of the database text with its macros and of the script's contents is written.
    ensures ok { OnOk result (IsDatabase macros.now db.now
        × IfSome (R.remaining script) (λ text. Appends (W.contents out.old) (W.contents out.new)
        (transcript_of macros.now db.now text))) }
    ensures err { IfErr result (λ fault. StopsWith fault macros.now db.now (R.remaining script) (W.contents out.old)
        (W.contents out.new)) }
{
    let Database { names, records } = load(alloc, db, macros)?;
    let replay = Replay::new(alloc, names, records, None)?;
    run_whole(alloc, replay, script, out)?;
    Ok(())
}
