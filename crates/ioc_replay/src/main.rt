//! `ioc-replay DB SCRIPT [NAME=VALUE]..`: loads a database text with these macros, runs a script on
//! it, and prints a line for each reply. By its flags, and to a user at a terminal, it tells more. With
//! `-d`, `-I` or `--adapt` the database is that of a site's files.
#![tactic(auto)]

use ioc_command_line::{FileRole, Program, Stage, Stop, given, open, read_whole, show};
use ioc_commands::{Dialect, Help};
use ioc_dbfile::Macros;
use ioc_main::{run, whole_run};
use ioc_session::{Arguments, Expectations, Manner, Verdict, ending, run_dialogue};
use ioc_site_database::{HELP, SiteFault, SiteText, SiteWords, site_text};
use std::alloc::{AllocError, Global};
use std::env;
use std::io::{self, BufWriter, IsTerminal, Read, Write};
use std::process::ExitCode;

// The program, without the notes of its help.
const PROGRAM: Program<'static> = Program {
    name: "ioc-replay",
    version: "0.1.0",
    about: "Loads the database text DB, in which the macros NAME stand for VALUE, \
        does the script SCRIPT to it, and prints a line for each reply.",
    notes: "",
};

// What the help says behind the lines of a script.
const STATUSES: &str = "\
The exit status: 0 the script is done, 1 the database is refused, 2 the command line is wrong, \
    3 a file cannot be read or the replies cannot be written, 4 memory ran out, \
    5 an expectation failed";

// Returns what the help says behind the arguments.
fn notes(alloc: Global) -> Result<String, AllocError> {
    let lines = Help(Dialect::Script);
    format!(in alloc;
        "The lines of a script:\n{lines}\
        expect TEXT         with --test, and at a terminal: the last line of replies is to be TEXT\n\n\
        At a terminal, the line help prints what else there is.\n\n{HELP}\n\n{STATUSES}"
    )
}

// How many bytes of replies are written at once. A terminal shows them as they are made, and
// explanations stand behind them.
fn room(rt: &HostRuntime, manner: Manner) -> usize {
    if rt.stdout().is_terminal() || manner.is_explained {
        0
    } else {
        8192
    }
}

// Runs a script without any flag.
fn plain<R: Read + Drop, W: Write>(
    alloc: Global,
    text: &[u8],
    macros: &Macros,
    lines: R,
    out: &mut W,
    script: String,
) -> Result<Verdict, Stop> {
    let ran = run(alloc, text, macros, lines, out);
    whole_run(ran, out.flush(), script)?;
    Ok(Verdict::Passed)
}

// Tells on standard error which expectations failed, and how many there were. A user who had none
// is told nothing.
fn judged<E: Write>(expectations: &Expectations, manner: Manner, errors: &mut E) -> Verdict {
    if !manner.has_prompt || expectations.count > 0 {
        let _written = expectations.report(errors);
    }
    Verdict::of(expectations)
}

// Runs a script with more told than the replies.
fn telling<R: Read + Drop, W: Write>(
    rt: &HostRuntime,
    text: &[u8],
    macros: &Macros,
    lines: R,
    out: &mut W,
    script: String,
    manner: Manner,
) -> Result<Verdict, Stop> {
    let told = run_dialogue(rt.alloc(), text, macros, lines, out, rt.stderr(), manner);
    let (ran, expectations) = match told {
        Ok(expectations) => (Ok(()), expectations),
        Err(fault) => (Err(fault), None),
    };
    whole_run(ran, out.flush(), script)?;
    match expectations {
        Some(expectations) => Ok(judged(&expectations, manner, &mut rt.stderr())),
        None => Ok(Verdict::Passed),
    }
}

// Runs the script of a command line on a database text, in which these macros are replaced.
fn run_on(
    rt: &HostRuntime,
    text: &[u8],
    macros: &Macros,
    script: &str,
    manner: Manner,
) -> Result<Verdict, Stop> {
    let lines = open(rt, FileRole::Script, script)?;
    let path = String::from_str(rt.alloc(), script)?;
    let Ok(mut out) = BufWriter::with_capacity(rt.alloc(), room(rt, manner), io::writer(rt)) else {
        return Err(Stop::Memory(Stage::Loading));
    };
    if manner.is_plain() {
        plain(rt.alloc(), text, macros, lines, &mut out, path)
    } else {
        telling(rt, text, macros, lines, &mut out, path, manner)
    }
}

// Returns how a script is answered: to a user at a terminal more is told.
fn manner_of(rt: &HostRuntime, script: &str, manner: Manner) -> Manner {
    if script == "-" && rt.stdin().is_terminal() {
        manner.at_terminal()
    } else {
        manner
    }
}

// Runs the words of a command line that names one database text.
fn replay_text(rt: &HostRuntime, program: &Program<'_>, words: &[String]) -> Result<Verdict, Stop> {
    let Arguments { files, manner } = Arguments::from_words(rt.alloc(), program, words)?;
    let manner = manner_of(rt, files.other, manner);
    let text = read_whole(rt, FileRole::Database, files.database)?;
    run_on(rt, &text, &files.macros, files.other, manner)
}

// Runs the words of a command line that names a site's files.
fn replay_site(
    rt: &HostRuntime,
    program: &Program<'_>,
    site: &SiteWords<'_>,
) -> Result<Verdict, SiteFault> {
    let left = site.left(PROGRAM.name)?;
    let Arguments { files, manner } = Arguments::from_words(rt.alloc(), program, left.as_slice())?;
    let manner = manner_of(rt, files.other, manner);
    let definitions = site.words_behind(2)?;
    let SiteText { text, told } = site_text(rt, site, files.database, &definitions)?;
    let _written = eprint!(rt; "{told}");
    let macros = Macros::new(rt.alloc());
    Ok(run_on(rt, &text, &macros, files.other, manner)?)
}

// Does what the words of the command line ask for.
fn replay(rt: &HostRuntime) -> Result<Verdict, SiteFault> {
    let words = given(rt.alloc(), env::args(rt))?;
    let notes = notes(rt.alloc())?;
    let program = Program {
        notes: &notes,
        ..PROGRAM
    };
    match SiteWords::from_words(rt.alloc(), words.as_slice())? {
        Some(site) => replay_site(rt, &program, &site),
        None => Ok(replay_text(rt, &program, words.as_slice())?),
    }
}

fn main(rt: HostRuntime) -> ExitCode {
    let ending = match replay(&rt) {
        Ok(verdict) => ending(PROGRAM.name, Ok(verdict)),
        Err(fault) => fault.ending(PROGRAM.name),
    };
    show(&rt, &ending)
}
