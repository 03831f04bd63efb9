//! What is said of a text that the load refuses, and where.
use ioc_site::{Finding, Place, Severity, SourceText};
use ioc_values::{BadDbKind, DbFault};
use std::alloc::{AllocError, Global};

/// The byte order mark of UTF-8.
const MARK: &[u8] = b"\xef\xbb\xbf";

// What a load refuses: the byte of its line at which it begins, what it is, and what to do.
#[derive(Clone, Copy)]
struct Refused {
    at: usize,
    what: &'static str,
    remedy: &'static str,
}

// What to do about what is taken of a site's files and not of a text alone.
const BY_NAME: &str = "; name the file by -d, or load what --write OUT makes";

// Returns the line with this number, from 1.
fn line_of(text: &[u8], number: u64) -> &[u8] {
    let mut left = number;
    for line in text.split(|byte| *byte == b'\n') {
        left = left.saturating_sub(1);
        if left == 0 {
            return line;
        }
    }
    &[]
}

// Returns where a value in JSON begins on a line, if there is one: a bracket behind a comma.
fn json_at(line: &[u8]) -> Option<usize> {
    let mut is_behind_comma = false;
    for (at, byte) in line.iter().enumerate() {
        match *byte {
            b'{' | b'[' if is_behind_comma => return Some(at),
            b' ' | b'\t' => {}
            other => is_behind_comma = other == b',',
        }
    }
    None
}

// Returns what a load refuses on a line for this reason.
fn refused_on(line: &[u8], kind: BadDbKind) -> Refused {
    let solid = line.trim_ascii_start();
    let front = line.len().saturating_sub(solid.len());
    let dollar = line.iter().position(|byte| *byte == b'$');
    let (at, what) = match kind {
        _ if line.starts_with(MARK) => (0, "this byte order mark"),
        _ if solid.starts_with(b"include") => (front, "this include"),
        _ if solid.starts_with(b"substitute") => (front, "this substitute"),
        BadDbKind::LeftOut => (front, "this statement"),
        BadDbKind::Macro => (dollar.unwrap_or(front), "this macro"),
        BadDbKind::TooMany => (0, "a text of this size"),
        _ => match json_at(line) {
            Some(at) if kind == BadDbKind::Syntax => (at, "this JSON"),
            _ => (front, "this line"),
        },
    };
    let remedy = match kind {
        BadDbKind::TooMany => "; split it",
        BadDbKind::Syntax | BadDbKind::Macro | BadDbKind::LeftOut => BY_NAME,
        _ => "",
    };
    Refused { at, what, remedy }
}

// Returns the error at the place where the load refuses a text for this fault.
fn refused_place(
    alloc: Global,
    source: &SourceText,
    fault: DbFault,
) -> Result<Finding, AllocError> {
    let Refused { at, what, remedy } = refused_on(line_of(&source.text, fault.line), fault.kind);
    let words = fault.kind.words();
    let text = format!(in alloc; "the load refuses {what} ({words}){remedy}")?;
    Ok(Finding {
        severity: Severity::Error,
        place: Place {
            file: source.file,
            line: u32::try_from(fault.line).unwrap_or(u32::MAX),
            column: u32::try_from(at).unwrap_or(u32::MAX).saturating_add(1),
        },
        text: text.into_bytes(),
    })
}

// Returns whether the lines between these two have no words.
fn are_blank_between(text: &[u8], before: u64, behind: u64) -> bool {
    let mut number = 0u64;
    for line in text.split(|byte| *byte == b'\n') {
        number = number.saturating_add(1);
        let is_between = before < number && number < behind;
        if is_between && !matches!(line.trim_ascii_start(), [] | [b'#', ..]) {
            return false;
        }
    }
    true
}

// Returns whether an error says why a load refuses the file for this fault: whether it stands on the load's
// line, or is of a sign that is missing behind the last word before it. A body that isn't closed is told where
// it opens, and refused at the end of the text.
fn is_explanation(source: &SourceText, fault: DbFault, error: &Finding) -> bool {
    let line = u64::from(error.place.line);
    let text = error.text.as_slice();
    if error.place.file != source.file || line > fault.line {
        false
    } else if text.starts_with(b"the body of ") && text.ends_with(b"'}' at its end") {
        fault.kind == BadDbKind::OpenBody
    } else {
        line == fault.line
            || (text.ends_with(b" there") && are_blank_between(&source.text, line, fault.line))
    }
}

// Returns whether an error stands where the load has passed.
fn is_passed(source: &SourceText, fault: DbFault, error: &Finding) -> bool {
    let is_before = error.place.file == source.file && u64::from(error.place.line) < fault.line;
    is_before && !is_explanation(source, fault, error)
}

/// Returns what is said of a file that a load refuses for this fault, of which this is found: no error before
/// the load's line, but those that say why it is refused. If there is none, the fault is an error at its place.
///
/// # Errors
///
/// [`AllocError`] if allocation fails.
pub fn told_of_refusal(
    alloc: Global,
    source: &SourceText,
    fault: DbFault,
    found: Vec<Finding>,
) -> Result<Vec<Finding>, AllocError> {
    let mut told = Vec::new(alloc);
    let mut is_explained = false;
    for finding in found {
        let is_error = finding.severity == Severity::Error;
        is_explained = is_explained || (is_error && is_explanation(source, fault, &finding));
        if !is_error || !is_passed(source, fault, &finding) {
            told.push(finding)?;
        }
    }
    if !is_explained {
        told.push(refused_place(alloc, source, fault)?)?;
    }
    Ok(told)
}
