//! What is found in the databases that a command line names.
use crate::command::Words;
use crate::writing::{Prepared, database_of, prepare, refuse_overwriting};
use ioc_command_line::Stop;
use ioc_site::Reading;
use ioc_site_database::{
    Disk, JudgedSite, SiteWords, Verdict, WayOut, add_skipped, judged_site, judged_text, read_site,
    with_adaption,
};
use ioc_site_reader::{Request, is_substitution_file, read_each};
use ioc_site_rules::{add_picture, add_sets, check};
use std::alloc::{Alloc, AllocError, Global};
use std::fs::Files;

/// What is found in databases.
#[derive(Drop)]
pub struct Checked {
    /// The names of the files.
    pub files: Vec<Vec<u8>>,
    pub verdict: Verdict,
    /// Lock sets and a picture, as the words ask for.
    pub shown: Vec<u8>,
    /// Lines of what works no longer.
    pub losses: Vec<u8>,
    /// The text of all records, if it is to be written.
    pub database: Option<Vec<u8>>,
}

// Returns what a reading shows of itself: lock sets and a picture, as the words ask for.
fn shown(alloc: Global, words: &Words<'_>, reading: &Reading) -> Result<Vec<u8>, AllocError> {
    let mut out = Vec::new(alloc);
    if words.sets {
        add_sets(alloc, reading, &mut out)?;
    }
    if words.dot {
        let mut text = String::new(alloc);
        add_picture(alloc, reading, &mut text)?;
        out.extend_from_slice(text.as_bytes())?;
    }
    Ok(out)
}

// Checks one file that is loaded alone.
fn checked_text<R: Files + Alloc<A = Global>>(
    rt: &R,
    words: &Words<'_>,
    path: &str,
) -> Result<Checked, Stop> {
    let alloc = rt.alloc();
    let macros = words.macros(alloc)?;
    let definitions = words.literals(alloc, &macros)?;
    let request = Request {
        paths: &[path.as_bytes()],
        macros: definitions.as_slice(),
        folders: &[],
        is_alone: true,
    };
    let reading = read_each(alloc, &mut Disk(rt), &[request])?;
    let shown = shown(alloc, words, &reading)?;
    let mut checked = check(alloc, &reading)?;
    add_skipped(
        alloc,
        &reading.statements,
        WayOut::AdaptByName,
        &mut checked,
    )?;
    let Reading {
        files,
        texts,
        findings: mut found,
        ..
    } = reading;
    found.append(&mut checked).map_err(AllocError::from)?;
    let verdict = match texts.first() {
        Some(source) => judged_text(alloc, source, &macros, found)?,
        None => Verdict::of(alloc, found, true)?,
    };
    Ok(Checked {
        files,
        verdict,
        shown,
        losses: Vec::new(alloc),
        database: None,
    })
}

// Checks a site's files.
fn checked_site(
    alloc: Global,
    site: &SiteWords<'_>,
    words: &Words<'_>,
    reading: Reading,
) -> Result<Checked, Stop> {
    let adaption = with_adaption(alloc, reading, site.is_adapted())?;
    let shown = shown(alloc, words, &adaption.reading)?;
    let JudgedSite {
        files,
        verdict,
        losses,
        ..
    } = judged_site(alloc, adaption, site.is_adapted())?;
    Ok(Checked {
        files,
        verdict,
        shown,
        losses,
        database: None,
    })
}

// Checks what is to be written of a site's files.
fn checked_writing(
    alloc: Global,
    site: &SiteWords<'_>,
    words: &Words<'_>,
    reading: Reading,
) -> Result<Checked, Stop> {
    let types = words.left_out_types;
    let Prepared { reading, losses } = prepare(alloc, types, site.is_adapted(), reading)?;
    let shown = shown(alloc, words, &reading)?;
    let mut checked = check(alloc, &reading)?;
    add_skipped(alloc, &reading.statements, WayOut::Written, &mut checked)?;
    let Reading {
        files,
        statements,
        findings: mut found,
        ..
    } = reading;
    found.append(&mut checked).map_err(AllocError::from)?;
    let database = database_of(alloc, &statements, &mut found)?;
    let verdict = Verdict::of(alloc, found, database.is_none())?;
    Ok(Checked {
        files,
        verdict,
        shown,
        losses,
        database,
    })
}

// Returns the path of the one file that is loaded alone by these words, if there is one.
fn alone<'a>(site: &SiteWords<'_>, words: &Words<'a>) -> Option<&'a str> {
    let has_more = site.names_files() || site.is_adapted() || !site.folders().is_empty();
    match words.paths.as_slice() {
        [path] if !has_more && words.output.is_none() => {
            let path = *path;
            if is_substitution_file(path.as_bytes()) {
                None
            } else {
                Some(path)
            }
        }
        _ => None,
    }
}

/// Checks the databases that the words of a command line name.
///
/// # Errors
///
/// [`Stop::Refused`] if a folder isn't there, or what is to be written would overwrite what is read.
/// [`Stop::Usage`] if a word defines no macro. [`Stop::BadDb`] if the text of all records is too long.
/// [`Stop::Memory`] if allocation fails.
pub fn check_databases<R: Files + Alloc<A = Global>>(
    rt: &R,
    site: &SiteWords<'_>,
    words: &Words<'_>,
) -> Result<Checked, Stop> {
    let alloc = rt.alloc();
    if let Some(path) = alone(site, words) {
        return checked_text(rt, words, path);
    }
    let definitions = words.definitions(alloc)?;
    let reading = read_site(rt, site, &words.paths, &definitions)?;
    match words.output {
        Some(path) => {
            refuse_overwriting(rt, path, reading.files.as_slice())?;
            checked_writing(alloc, site, words, reading)
        }
        None => checked_site(alloc, site, words, reading),
    }
}
