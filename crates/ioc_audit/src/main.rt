//! `ioc-audit DB JOURNAL [NAME=VALUE]..`: loads a database text with these macros, makes the entries
//! of a journal again on it, and tells whether all agree, or which is the first one that doesn't. With
//! `-d`, `-I` or `--adapt` the database is that of a site's files.
#![tactic(auto)]

mod command;
mod restoring;
mod showing;
mod telling;
mod watching;

use crate::command::{PROGRAM, Words};
use crate::restoring::{Restored, restore};
use crate::showing::{Found, add_shown, found_in};
use crate::telling::{Telling, told_of, told_of_base, told_of_no_base};
use crate::watching::begin_trace;
use ioc_command_line::{
    FileRole, Reason, Stage, Stop, bad_database, given, open, read_whole, show, unreadable,
};
use ioc_dbfile::{Database, Macros, load};
use ioc_journal_audit::{AuditFault, Auditor, FileBegun, FileFound, audit_file, begin_file};
use ioc_journal_base::base_of;
use ioc_journal_lines::database_hash;
use ioc_site_database::{SiteFault, SiteText, SiteWords, site_text};
use ioc_values::LoadError;
use std::alloc::{AllocError, Global};
use std::env;
use std::io::{self, BufRead, BufReader, BufWriter, Write};
use std::process::ExitCode;

// Returns why the program stops if an audit did.
fn stop_of(alloc: Global, fault: AuditFault, journal: &str) -> Stop {
    match fault {
        AuditFault::Read(e) => match String::from_str(alloc, journal) {
            Ok(path) => unreadable(FileRole::Journal, path, &e),
            Err(_) => Stop::Memory(Stage::Loading),
        },
        AuditFault::Write(e) => Stop::Write(Reason::of(&e)),
        AuditFault::Memory => Stop::Memory(Stage::Loading),
    }
}

/// Returns the database that a load of the text gave.
///
/// # Errors
///
/// [`Stop::BadDbIn`] if the text was refused. [`Stop::Memory`] if allocation failed.
pub(crate) fn loaded(
    alloc: Global,
    words: &Words<'_>,
    read: Result<Database, LoadError>,
) -> Result<Database, Stop> {
    match read {
        Ok(database) => Ok(database),
        Err(LoadError::BadDb(fault)) => Err(bad_database(alloc, words.database, fault)),
        Err(LoadError::NoMemory) => Err(Stop::Memory(Stage::Loading)),
    }
}

// Audits the entries of a journal, and writes the changes that were asked for.
fn audited<R: BufRead, W: Write>(
    alloc: Global,
    words: &Words<'_>,
    found: &Found,
    auditor: &mut Auditor,
    begun: FileBegun,
    journal: &mut R,
    out: &mut W,
) -> Result<FileFound, Stop> {
    let mut trace = if begun.is_found() {
        None
    } else {
        begin_trace(alloc, words, found, auditor.map(), out)?
    };
    let most = words.most(begun.first());
    match audit_file(alloc, auditor, begun, journal, most, &mut trace, out) {
        Ok(audited) => Ok(audited),
        Err(fault) => Err(stop_of(alloc, fault, words.journal)),
    }
}

// Returns the database by the rule of devices that the run had.
fn by_rule(alloc: Global, database: Database, begun: &FileBegun) -> Result<Database, AllocError> {
    if begun.has_own_devices() {
        return database.with_own_devices(alloc);
    }
    Ok(database)
}

// Returns the auditor of a journal's file: of the database with the saved values that the run has taken,
// or of the base with which the file begins. Returns what is said if there is none. If no entries are to
// be checked, it is one of the database.
fn auditor_of(
    alloc: Global,
    words: &Words<'_>,
    text: &[u8],
    database: Database,
    begun: &FileBegun,
) -> Result<Result<Auditor, Telling>, Stop> {
    if begun.first() == 0 || begun.is_found() {
        let database = match restore(alloc, words, text, database, begun.bases.as_slice())? {
            Restored::Database(database) => database,
            Restored::Fault(line, fault) => {
                return Ok(Err(told_of_base(alloc, words, line, fault)?));
            }
        };
        let Database { records, .. } = by_rule(alloc, database, begun)?;
        return Ok(Ok(Auditor::new(alloc, records)?));
    }
    if let Some(base) = base_of(alloc, database.records.as_slice(), begun.items.as_slice())?
        && let Some(auditor) = Auditor::resume(alloc, base, begun.first())?
    {
        return Ok(Ok(auditor));
    }
    Ok(Err(told_of_no_base(alloc, words)?))
}

// Audits a journal on the database of a text, with the saved values that its run has taken, and writes
// what was asked for.
fn run<R: BufRead, W: Write>(
    alloc: Global,
    words: &Words<'_>,
    text: &[u8],
    journal: &mut R,
    out: &mut W,
) -> Result<Telling, Stop> {
    let database = loaded(alloc, words, load(alloc, text, &words.macros))?;
    let found = found_in(alloc, &database, words)?;
    let hash = database_hash(text, words.definitions.as_slice());
    let begun = match begin_file(alloc, journal, &hash) {
        Ok(begun) => begun,
        Err(fault) => return Err(stop_of(alloc, fault, words.journal)),
    };
    let mut auditor = match auditor_of(alloc, words, text, database, &begun)? {
        Ok(auditor) => auditor,
        Err(told) => return Ok(told),
    };
    let audited = audited(alloc, words, &found, &mut auditor, begun, journal, out)?;
    let mut said = Vec::new(alloc);
    add_shown(alloc, words, &found, auditor.map(), &audited, &mut said)?;
    match out.write_all(said.as_slice()) {
        Ok(()) => Ok(told_of(alloc, words, &hash, audited)?),
        Err(e) => Err(Stop::Write(Reason::of(&e))),
    }
}

// Audits the journal that the words name on a database text.
fn work_on(rt: &HostRuntime, words: &Words<'_>, text: &[u8]) -> Result<Telling, Stop> {
    let alloc = rt.alloc();
    let file = open(rt, FileRole::Journal, words.journal)?;
    let (Ok(mut journal), Ok(mut out)) = (
        BufReader::new(alloc, file),
        BufWriter::new(alloc, io::writer(rt)),
    ) else {
        return Err(Stop::Memory(Stage::Loading));
    };
    let told = run(alloc, words, text, &mut journal, &mut out);
    match out.flush() {
        Ok(()) => told,
        Err(e) => match told {
            Ok(_) => Err(Stop::Write(Reason::of(&e))),
            Err(stop) => Err(stop),
        },
    }
}

// Does what the words of a command line ask for that names one database text.
fn work_text(rt: &HostRuntime, words: &[String]) -> Result<Telling, Stop> {
    let words = Words::from_words(rt.alloc(), words)?;
    let text = read_whole(rt, FileRole::Database, words.database)?;
    work_on(rt, &words, text.as_slice())
}

// Does what the words of a command line ask for that names a site's files.
fn work_site(rt: &HostRuntime, site: &SiteWords<'_>) -> Result<Telling, SiteFault> {
    let alloc = rt.alloc();
    let left = site.left(PROGRAM.name)?;
    let mut words = Words::from_words(alloc, left.as_slice())?;
    let definitions = site.behind_options(&words.definitions);
    let SiteText { text, told } = site_text(rt, site, words.database, definitions)?;
    let _written = eprint!(rt; "{told}");
    words.macros = Macros::new(alloc);
    words.definitions = Vec::new(alloc);
    Ok(work_on(rt, &words, text.as_slice())?)
}

// Does what the words of the command line ask for.
fn work(rt: &HostRuntime) -> Result<Telling, SiteFault> {
    let all = given(rt.alloc(), env::args(rt))?;
    match SiteWords::from_words(rt.alloc(), all.as_slice())? {
        Some(site) => work_site(rt, &site),
        None => Ok(work_text(rt, all.as_slice())?),
    }
}

fn main(rt: HostRuntime) -> ExitCode {
    match work(&rt) {
        Ok(told) => show(&rt, &told.ending()),
        Err(fault) => show(&rt, &fault.ending(PROGRAM.name)),
    }
}
