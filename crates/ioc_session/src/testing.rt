//! Runs of a script with expectations.
ghost use Rattle.std.specs.Prelude.{OnOk, IfErr, IfSome};
ghost use Rattle.std.specs.Io.KnownBytes.{Appends};
ghost use Rattle.ioc_commands.specs.Commands.{lines_of};
ghost use Rattle.ioc_main.specs.Written.{StopsScript};
ghost use Rattle.ioc_session.specs.Expecting.{unexpecting};

use crate::expectation::Expectations;
use crate::tested::Tested;
use ioc_main::{ScriptFault, Session, run_script};
use std::alloc::Global;
use std::io::{Read, Write};

/// Answers a script until its end, and returns its expectations. What is written is what is written
/// for the lines that expect nothing, if the lines alone determine what the session prints.
///
/// # Errors
///
/// As [`run_script`].
pub fn test_script<S: Session + Drop, R: Read + Drop, W: Write>(
    alloc: Global,
    session: S,
    script: R,
    out: &mut W,
) -> Result<Expectations, ScriptFault>
    ensures ok { S.is_determined session → OnOk result (IfSome (R.remaining script)
        (λ text. Appends (W.contents out.old) (W.contents out.new)
        (S.transcript session (unexpecting (lines_of text))))) }
    ensures err { S.is_determined session → IfErr result (λ fault. IfSome (R.remaining script)
        (λ text. StopsScript fault (W.contents out.old) (S.transcript session (unexpecting (lines_of text)))
        (W.contents out.new))) }
{
    let mut tested = Tested::new(alloc, session);
    run_script(alloc, &mut tested, script, out)?;
    Ok(tested.into_expectations())
}
