//! Whole runs: a database text, and then a script, with what is told beside the replies.
use crate::arguments::Manner;
use crate::dialogue::{Dialogue, Told};
use crate::directory::{Directory, Listed};
use crate::exchange::begins_as_script;
use crate::expectation::Expectations;
use crate::tested::Tested;
use crate::testing::test_script;
use ioc_dbfile::{Database, Macros, load};
use ioc_main::{LineFault, Replay, RunFault, ScriptFault, Session, run_script, write_text};
use ioc_record::RecordKind;
use ioc_trace::TraceLog;
use std::alloc::{AllocError, Global};
use std::io::{Read, Write};

// Lists records by their names and types.
fn listed<K: RecordKind>(alloc: Global, records: &[K]) -> Result<Vec<Listed>, AllocError> {
    let mut all = Vec::new(alloc);
    for item in records {
        all.push(Listed {
            name: item.common().name,
            record_type: item.record_type(),
        })?;
    }
    Ok(all)
}

// Loads a database a second time, for the explanations.
fn directory_of(alloc: Global, db: &[u8], macros: &Macros) -> Result<Directory, RunFault> {
    let Database { names, records } = load(alloc, db, macros)?;
    let all = listed(alloc, records.as_slice())?;
    Ok(Directory::new(alloc, names, all))
}

// Returns a log for what is traced, if anything is.
fn log_of(alloc: Global, manner: Manner) -> Result<Option<TraceLog>, AllocError> {
    if manner.is_traced {
        Ok(Some(TraceLog::new(alloc)?))
    } else {
        Ok(None)
    }
}

// Writes a text.
fn written<W: Write>(out: &mut W, text: &[u8]) -> Result<(), LineFault> {
    write_text(out, text)?;
    Ok(())
}

// Writes what was traced before the first line, if events are traced.
fn write_traced<W: Write>(told: &Told, out: &mut W) -> Result<(), LineFault> {
    let Some(trace) = &told.trace else {
        return Ok(());
    };
    let lines = trace.take()?;
    written(out, lines.as_slice())
}

// Answers a script in a dialogue until its end, or until a user ends it, and returns the session. It
// is generic because dropping a database part by part is slow to prove.
fn converse<S: Session + Drop, R: Read + Drop, W: Write, E: Write + Drop>(
    alloc: Global,
    session: S,
    script: R,
    out: &mut W,
    errors: E,
    told: Told,
) -> Result<S, ScriptFault> {
    write_traced(&told, out)?;
    let mut dialogue = Dialogue::new(alloc, session, told, errors);
    run_script(alloc, &mut dialogue, script, out)?;
    let (session, is_prompted) = dialogue.into_session();
    if is_prompted {
        written(out, b"\n")?;
    }
    Ok(session)
}

// Answers a script in this manner.
fn answer_script<S: Session + Drop, R: Read + Drop, W: Write, E: Write + Drop>(
    alloc: Global,
    session: S,
    script: R,
    out: &mut W,
    errors: E,
    told: Told,
    manner: Manner,
) -> Result<Option<Expectations>, ScriptFault> {
    if manner.is_test_alone() {
        return Ok(Some(test_script(alloc, session, script, out)?));
    }
    if !manner.is_tested {
        converse(alloc, session, script, out, errors, told)?;
        return Ok(None);
    }
    let tested = converse(
        alloc,
        Tested::new(alloc, session),
        script,
        out,
        errors,
        told,
    )?;
    Ok(Some(tested.into_expectations()))
}

/// Loads a database text with the macros that it may use, and answers a script in this manner until
/// its end. Explanations are written to `errors`. Returns the expectations of the script, if it is
/// tested.
///
/// # Errors
///
/// As [`ioc_main::run`].
pub fn run_dialogue<R: Read + Drop, W: Write, E: Write + Drop>(
    alloc: Global,
    db: &[u8],
    macros: &Macros,
    script: R,
    out: &mut W,
    mut errors: E,
    manner: Manner,
) -> Result<Option<Expectations>, RunFault> {
    let Database { names, records } = match load(alloc, db, macros) {
        Ok(database) => database,
        Err(error) => {
            if manner.is_explained && begins_as_script(db) {
                let question = b"DB begins with a line of a script; are DB and SCRIPT exchanged?\n";
                let _written = errors.write_all(question);
            }
            return Err(RunFault::from(error));
        }
    };
    let trace = log_of(alloc, manner)?;
    let session = Replay::new(alloc, names, records, trace.as_ref())?;
    let directory = if manner.is_explained {
        Some(directory_of(alloc, db, macros)?)
    } else {
        None
    };
    let told = Told {
        directory,
        has_echo: manner.has_echo,
        trace,
        has_prompt: manner.has_prompt,
    };
    Ok(answer_script(alloc, session, script, out, errors, told, manner)?)
}
