//! The text that a site's files are as one database.
ghost use Rattle.std.specs.Prelude.{◌≡◌, IfOk, OnOk, IfSome, IsSome, IsSomeAnd, count_by, false};
ghost use Rattle.ioc_site_writer.specs.Loads.{Loads};
ghost use Rattle.ioc_site_database.specs.Counting.{is_error};

use crate::adapting::{Adapted, adapt};
use crate::disk::Disk;
use crate::fault::SiteFault;
use crate::instances::told_once;
use crate::printing::{Counts, add_adapted, add_findings};
use crate::site_words::SiteWords;
use crate::skipped::{WayOut, add_skipped};
use crate::verdict::Verdict;
use ioc_command_line::{Stage, Stop};
use ioc_site::{Finding, Reading, Severity, Statement};
use ioc_site_reader::{Definition, Request, read_each};
use ioc_site_rules::{check, put_in_order};
use ioc_site_writer::{Written, write_database};
use ioc_values::LoadError;
use std::alloc::{Alloc, AllocError, Global};
use std::fs::{self, Files};

/// The text that a site's files are as one database.
#[derive(Drop)]
pub struct SiteText {
    /// It loads without macros.
    pub text: Vec<u8>,
    /// Lines of what was adapted.
    pub told: String,
}

/// A file of a site, with the macros that hold in it.
#[derive(Drop)]
struct Part<'a> {
    path: [&'a [u8]; 1],
    macros: Vec<Definition>,
}

// Returns the paths of folders of `-I`. The first one that isn't there is refused.
fn folder_paths<'a, R: Files + Alloc<A = Global>>(
    rt: &R,
    folders: &[&'a str],
) -> Result<Vec<&'a [u8]>, Stop> {
    let mut paths = Vec::new(rt.alloc());
    for folder in folders {
        let folder = *folder;
        let is_folder = match fs::metadata(rt, folder) {
            Ok(found) => found.is_dir(),
            Err(_) => false,
        };
        if !is_folder {
            let text = format!(in rt.alloc();
                "error: -I names '{folder}', and there is no such folder\n\nFor more information, try '--help'.\n"
            )?;
            return Err(Stop::Refused(text));
        }
        paths.push(folder.as_bytes()).map_err(AllocError::from)?;
    }
    Ok(paths)
}

// Returns the request of a file.
fn request_of<'x>(part: &'x Part<'x>, folders: &'x [&'x [u8]]) -> Request<'x> {
    Request {
        paths: part.path.as_slice(),
        macros: part.macros.as_slice(),
        folders,
        is_alone: false,
    }
}

// Reads files, which are one database.
fn read_parts<'x, R: Files + Alloc<A = Global>>(
    rt: &R,
    parts: &'x [Part<'x>],
    folders: &'x [&'x [u8]],
) -> Result<Reading, AllocError> {
    let alloc = rt.alloc();
    let mut requests = Vec::new(alloc);
    for part in parts {
        requests.push(request_of(part, folders))?;
    }
    read_each(alloc, &mut Disk(rt), requests.as_slice())
}

// Returns the mistakes among what is found.
fn mistakes_among(alloc: Global, all: Vec<Finding>) -> Result<Vec<Finding>, AllocError> {
    let mut mistakes = Vec::new(alloc);
    for finding in all {
        if finding.severity == Severity::Error {
            mistakes.push(finding)?;
        }
    }
    Ok(mistakes)
}

// Returns why there is no database: these mistakes, each at its place.
fn refused(
    alloc: Global,
    files: &[Vec<u8>],
    mistakes: Vec<Finding>,
) -> Result<SiteFault, AllocError> {
    let mut mistakes = mistakes;
    put_in_order(alloc, &mut mistakes)?;
    let told = told_once(alloc, mistakes)?;
    let mut lines = Vec::new(alloc);
    add_findings(alloc, files, told.as_slice(), &mut lines)?;
    Ok(SiteFault::Mistakes(String::from_utf8_lossy(alloc, lines.as_slice())?))
}

// Returns the lines of what was adapted, and of what works no longer.
fn told_of(
    alloc: Global,
    files: &[Vec<u8>],
    notes: Vec<Finding>,
    losses: &[u8],
) -> Result<String, AllocError> {
    let mut notes = notes;
    put_in_order(alloc, &mut notes)?;
    let notes = told_once(alloc, notes)?;
    let mut lines = Vec::new(alloc);
    add_adapted(alloc, files, notes.as_slice(), &mut lines)?;
    lines.extend_from_slice(losses)?;
    String::from_utf8_lossy(alloc, lines.as_slice())
}

/// What is found in a site's files.
#[derive(Drop)]
struct Examined {
    files: Vec<Vec<u8>>,
    found: Vec<Finding>,
    /// What was adapted.
    notes: Vec<Finding>,
    /// Lines of what works no longer.
    losses: Vec<u8>,
    /// The text that they are as one database, if nothing that is found is a mistake.
    text: Option<Vec<u8>>,
}

/// What is said of a site's files, and the text that they are as one database if it loads.
#[derive(Drop)]
pub struct JudgedSite {
    /// The names of the files.
    pub files: Vec<Vec<u8>>,
    pub verdict: Verdict,
    /// Lines of what works no longer.
    pub losses: Vec<u8>,
    pub text: Option<Vec<u8>>,
}

// Writes the statements as one text. What `load` refuses is a mistake at its place, or it is dropped and
// told.
fn text_written(alloc: Global, statements: &[Statement]) -> Result<Written, Stop>
    ensures { IfOk result (λ w. Loads w.text.items) }
{
    match write_database(alloc, statements) {
        Ok(written) => Ok(written),
        Err(LoadError::BadDb(fault)) => Err(Stop::BadDb(fault)),
        Err(LoadError::NoMemory) => Err(Stop::Memory(Stage::Loading)),
    }
}

// Returns what a text that loads can't have as mistakes. An info that it can't have is told alone, if what is
// left out is adapted.
fn refusals_among(
    alloc: Global,
    dropped: Vec<Finding>,
    is_adapted: bool,
    notes: &mut Vec<Finding>,
) -> Result<Vec<Finding>, AllocError> {
    let mut mistakes = Vec::new(alloc);
    for finding in dropped {
        if is_adapted && finding.text.starts_with(b"dropped info(") {
            notes.push(finding)?;
            continue;
        }
        let text = match finding.text.strip_prefix(b"dropped ") {
            Some(rest) => rest.to_vec(alloc)?,
            None => finding.text.as_slice().to_vec(alloc)?,
        };
        mistakes.push(Finding {
            severity: Severity::Error,
            place: finding.place,
            text,
        })?;
    }
    Ok(mistakes)
}

// Returns what is found in what is read, and the text that it is if nothing in it is a mistake.
fn examine(alloc: Global, adaption: Adapted, is_adapted: bool) -> Result<Examined, Stop>
    ensures text { IfOk result (λ e. IfSome e.text (λ t. Loads t.items)) }
    ensures faults { IfOk result (λ e. IsSome e.text → count_by is_error adaption.reading.findings.items ≡ 0) }
{
    let Adapted {
        reading,
        mut notes,
        losses,
    } = adaption;
    let mut checked = check(alloc, &reading)?;
    add_skipped(
        alloc,
        reading.statements.as_slice(),
        WayOut::Adapt,
        &mut checked,
    )?;
    let Reading {
        files,
        statements,
        findings,
        ..
    } = reading;
    let mut found = findings;
    found.append(&mut checked).map_err(AllocError::from)?;
    let mut text = None;
    if Counts::of(found.as_slice()).errors == 0 {
        let Written {
            text: written,
            dropped,
        } = text_written(alloc, statements.as_slice())?;
        let mut refused = refusals_among(alloc, dropped, is_adapted, &mut notes)?;
        if refused.is_empty() {
            text = Some(written);
        }
        found.append(&mut refused).map_err(AllocError::from)?;
    }
    Ok(Examined {
        files,
        found,
        notes,
        losses,
        text,
    })
}

// Returns what is read as one text that loads, if there is no mistake in it.
fn text_of(alloc: Global, adaption: Adapted, is_adapted: bool) -> Result<SiteText, SiteFault>
    ensures text { IfOk result (λ t. Loads t.text.items) }
    ensures faults { OnOk result (count_by is_error adaption.reading.findings.items ≡ 0) }
{
    let Examined {
        files,
        found,
        notes,
        losses,
        text,
    } = examine(alloc, adaption, is_adapted)?;
    let Some(text) = text else {
        let mistakes = mistakes_among(alloc, found)?;
        return Err(refused(alloc, files.as_slice(), mistakes)?);
    };
    let told = told_of(alloc, files.as_slice(), notes, losses.as_slice())?;
    Ok(SiteText { text, told })
}

/// Returns a reading without what this project leaves out, which is dropped or replaced, if that is asked
/// for. Otherwise it is the reading.
///
/// # Errors
///
/// [`AllocError`] if allocation fails.
pub fn with_adaption(
    alloc: Global,
    reading: Reading,
    is_adapted: bool,
) -> Result<Adapted, AllocError>
    ensures { is_adapted ≡ false → IfOk result (λ a. a.reading ≡ reading) }
{
    if is_adapted {
        return adapt(alloc, reading);
    }
    Ok(Adapted {
        reading,
        notes: Vec::new(alloc),
        losses: Vec::new(alloc),
    })
}

/// Reads the files of a site that the words of a command line name: those of `-d`, or the databases that are
/// named without it. The definitions of macros hold in all files; each stands behind a byte 0.
///
/// # Errors
///
/// [`Stop::Refused`] if a folder isn't there. [`UsageFault::NoDefinition`](ioc_command_line::UsageFault) if a
/// word defines no macro. [`Stop::Memory`] if allocation fails.
pub fn read_site<'a, R: Files + Alloc<A = Global>>(
    rt: &R,
    words: &SiteWords<'a>,
    databases: &[&'a str],
    definitions: &[u8],
) -> Result<Reading, Stop> {
    let folders = folder_paths(rt, words.folders())?;
    let mut parts = Vec::new(rt.alloc());
    for (path, macros) in words.files(databases, definitions)? {
        let path = [path.as_bytes()];
        parts.push(Part { path, macros }).map_err(AllocError::from)?;
    }
    Ok(read_parts(rt, parts.as_slice(), folders.as_slice())?)
}

/// Reads the files of a site that the words of a command line name, and returns them as one text that
/// loads without macros. `database` is the word that names the database text of the program, which is read
/// if there is no `-d`. The definitions of macros hold in all files; each stands behind a byte 0.
///
/// # Errors
///
/// [`SiteFault::Mistakes`] if there are mistakes in the files, and without `--adapt` if they have what
/// this project leaves out. [`SiteFault::Other`] if a folder isn't there, a word defines no macro, the text
/// is too long, or allocation fails.
pub fn site_text<'a, R: Files + Alloc<A = Global>>(
    rt: &R,
    words: &SiteWords<'a>,
    database: &'a str,
    definitions: &[u8],
) -> Result<SiteText, SiteFault>
    ensures { IfOk result (λ t. Loads t.text.items) }
{
    let reading = read_site(rt, words, &[database], definitions)?;
    let adaption = with_adaption(rt.alloc(), reading, words.is_adapted())?;
    text_of(rt.alloc(), adaption, words.is_adapted())
}

/// Judges what a site's files have, as the programs that run them do.
///
/// # Errors
///
/// [`Stop::BadDb`] if their text is too long. [`Stop::Memory`] if allocation fails.
pub fn judged_site(alloc: Global, adaption: Adapted, is_adapted: bool) -> Result<JudgedSite, Stop>
    ensures { IfOk result (λ j. j.verdict.counts.errors ≡ 0 → IsSomeAnd j.text (λ t. Loads t.items)) }
{
    let Examined {
        files,
        mut found,
        mut notes,
        losses,
        text,
    } = examine(alloc, adaption, is_adapted)?;
    found.append(&mut notes).map_err(AllocError::from)?;
    let verdict = Verdict::of(alloc, found, text.is_none())?;
    Ok(JudgedSite {
        files,
        verdict,
        losses,
        text,
    })
}
