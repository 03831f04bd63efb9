//! `ioc-check DB.. [NAME=VALUE]..`: reads a site's database files, and reports every mistake in
//! them and what in them is worth a look. There is no error exactly if the other programs load them by the
//! same words.
#![tactic(auto)]

mod calc;
mod checking;
mod command;
mod writing;

use crate::calc::{NAMES, Tried, calculate};
use crate::checking::{Checked, check_databases};
use crate::command::{NOTES, PROGRAM, Words, names_expression};
use crate::writing::save;
use ioc_command_line::{Ending, Program, Reason, Stop, given, show};
use ioc_site_database::{Counts, HELP, SiteWords, Verdict, add_findings};
use std::alloc::{AllocError, Global};
use std::env;
use std::io::{self, Write};
use std::process::ExitCode;

/// What a run prints.
#[derive(Drop)]
struct Printed {
    output: Vec<u8>,
    errors: Vec<u8>,
    /// How many findings there are. They decide the exit status.
    counts: Counts,
}

// Returns what is printed of what is found: a line for each finding, and how many there are.
fn printed_of(alloc: Global, words: &Words<'_>, checked: &Checked) -> Result<Printed, AllocError> {
    let Verdict { findings, counts } = &checked.verdict;
    let mut lines = Vec::new(alloc);
    add_findings(alloc, &checked.files, findings, &mut lines)?;
    let is_shown = words.sets || words.dot;
    let (output, mut errors) = if is_shown {
        (checked.shown.clone()?, lines)
    } else {
        (lines, Vec::new(alloc))
    };
    errors.extend_from_slice(&checked.losses)?;
    errors.extend_from_slice(counts.line(alloc)?.as_bytes())?;
    Ok(Printed {
        output,
        errors,
        counts: *counts,
    })
}

// Tries an expression on the numbers that the words give.
fn calculated(alloc: Global, words: &Words<'_>, text: &str) -> Result<Printed, Stop> {
    let mut output = Vec::new(alloc);
    let mut all = Vec::new(alloc);
    let inputs = words.inputs(alloc)?;
    match calculate(alloc, text.as_bytes(), &inputs)? {
        Tried::Gives(lines) => output = lines,
        Tried::Fault(finding) => all.push(finding).map_err(AllocError::from)?,
    }
    let mut files = Vec::new(alloc);
    for name in NAMES {
        files.push(name.to_vec(alloc)?).map_err(AllocError::from)?;
    }
    add_findings(alloc, &files, &all, &mut output)?;
    Ok(Printed {
        output,
        errors: Vec::new(alloc),
        counts: Counts::of(&all),
    })
}

// Prints the output of a run.
fn print(rt: &HostRuntime, output: &[u8]) -> Result<(), Stop> {
    match io::writer(rt).write_all(output) {
        Ok(()) => Ok(()),
        Err(e) => Err(Stop::Write(Reason::of(&e))),
    }
}

// Prints what a run tells, and returns the exit status. What can't be written there doesn't change it.
fn tell(rt: &HostRuntime, printed: &Printed) -> Result<u8, Stop> {
    let text = String::from_utf8_lossy(rt.alloc(), printed.errors.as_slice())?;
    let _written = eprint!(rt; "{text}");
    Ok(printed.counts.status())
}

// Runs words that ask for an expression.
fn calculate_words<'a>(
    rt: &HostRuntime,
    program: &Program<'a>,
    all: &'a [String],
) -> Result<u8, Stop> {
    let words = Words::from_words(rt.alloc(), program, all, false)?;
    let printed = calculated(rt.alloc(), &words, words.expression.unwrap_or(""))?;
    print(rt, &printed.output)?;
    tell(rt, &printed)
}

// Writes the text of all records, if that is asked for.
fn save_database(rt: &HostRuntime, words: &Words<'_>, checked: &Checked) -> Result<(), Stop> {
    match (words.output, &checked.database) {
        (Some(path), Some(text)) => save(rt, path, text.as_slice()),
        _ => Ok(()),
    }
}

// Runs words that name databases, of which these are left beside those of a site's files.
fn check_words<'a>(
    rt: &HostRuntime,
    program: &Program<'a>,
    site: &SiteWords<'_>,
    left: &'a [String],
) -> Result<u8, Stop> {
    let words = Words::from_words(rt.alloc(), program, left, site.names_files())?;
    let checked = check_databases(rt, site, &words)?;
    let printed = printed_of(rt.alloc(), &words, &checked)?;
    print(rt, &printed.output)?;
    save_database(rt, &words, &checked)?;
    tell(rt, &printed)
}

// Does what the words of the command line ask for, and returns the exit status of the program.
fn work(rt: &HostRuntime) -> Result<u8, Stop> {
    let all = given(rt.alloc(), env::args(rt))?;
    let notes = format!(in rt.alloc(); "{HELP}\n{NOTES}")?;
    let program = Program {
        notes: &notes,
        ..PROGRAM
    };
    if names_expression(all.as_slice()) {
        return calculate_words(rt, &program, all.as_slice());
    }
    let site = SiteWords::of(rt.alloc(), all.as_slice())?;
    let left = site.left(PROGRAM.name)?;
    check_words(rt, &program, &site, left.as_slice())
}

fn main(rt: HostRuntime) -> ExitCode {
    match work(&rt) {
        Ok(status) => ExitCode::from(status),
        Err(stop) => show(&rt, &Ending::of(PROGRAM.name, Err(stop))),
    }
}
