//! What the program tells of an audit.
use crate::command::{PROGRAM, Words};
use crate::restoring::BaseFault;
use ioc_command_line::{Ending, Stop, Stream};
use ioc_journal_audit::{Audited, Difference, FileFault, FileFound, Frame, Tail};
use ioc_journal_file::{Line, print};
use std::alloc::{AllocError, Global};
use std::fmt::Write;

/// What is told at the end of an audit.
#[derive(Drop)]
pub enum Telling {
    /// All entries agree, and maybe something that has to be known.
    Agreement(Option<String>),
    /// The entry or the line that this text names is the first one that doesn't.
    Fault(String),
}

impl Telling {
    /// Returns the ending of the program.
    pub fn ending(self) -> Ending {
        match self {
            Telling::Agreement(None) => Ending::of(PROGRAM.name, Ok(())),
            Telling::Agreement(Some(text)) => Ending {
                program: PROGRAM.name,
                status: 0,
                stream: Stream::Error,
                told: Some(Stop::Refused(text)),
            },
            Telling::Fault(text) => Ending {
                program: PROGRAM.name,
                status: 1,
                stream: Stream::Error,
                told: Some(Stop::Refused(text)),
            },
        }
    }
}

// Appends the line of the entry that the rules give.
fn add_entry(alloc: Global, text: &mut String, entry: &Line) -> Result<(), AllocError> {
    let mut line = Vec::new(alloc);
    print(entry, &mut line)?;
    let words = String::from_utf8_lossy(alloc, line.as_slice())?;
    text.push_str(words.as_str())
}

// Appends how an entry differs.
fn add_difference(
    alloc: Global,
    text: &mut String,
    difference: &Difference,
) -> Result<(), AllocError> {
    match difference {
        Difference::Place(place) => writeln!(text, "place {place} expected"),
        Difference::DeskCall(call) => writeln!(text, "call {call} of its desk expected"),
        Difference::Notification(number) => writeln!(
            text,
            "an entry before has begun put with notification {number}"
        ),
        Difference::Reply(entry) => {
            write!(text, "another reply: ")?;
            add_entry(alloc, text, entry)
        }
        Difference::Answers(entry) => {
            write!(text, "other answers: ")?;
            add_entry(alloc, text, entry)
        }
    }
}

// Appends why a file isn't the journal of a database with this hash.
fn add_fault(
    alloc: Global,
    text: &mut String,
    fault: &FileFault,
    hash: &[u8; 32],
) -> Result<(), AllocError> {
    match fault {
        FileFault::Empty => text.push_str(" is empty, and no journal\n"),
        FileFault::OtherDatabase(other) => {
            let (other, hash) = (hex::encode(alloc, other)?, hex::encode(alloc, hash)?);
            writeln!(
                text,
                " is that of another database or other macros: it has the hash {other}, and these have {hash}"
            )
        }
        FileFault::Seal(line) => writeln!(text, " line {line}: other lines were sealed"),
        FileFault::End(line, count) => writeln!(text, " line {line}: end {count} expected"),
        FileFault::BehindEnd(line) => writeln!(text, " line {line}: behind the end"),
    }
}

// Returns why a journal that agrees isn't whole, if it isn't.
fn lack_of(audited: &Audited, frame: &Frame) -> Option<&'static str> {
    match (audited, frame.tail) {
        (Audited::CutOff(_), _) => Some("its last line is cut off"),
        (_, Tail::Running) => Some("the run did not end"),
        (_, Tail::Unsealed) => Some("its last seal is missing"),
        (_, Tail::Unknown) => Some("it has no header"),
        (_, Tail::Ended | Tail::GoesOn | Tail::NotSeen) => None,
    }
}

// Returns the line that is printed if all entries of a journal agree.
fn agreement(
    alloc: Global,
    words: &Words<'_>,
    audited: &Audited,
    frame: &Frame,
) -> Result<Telling, AllocError> {
    let (name, journal) = (PROGRAM.name, words.journal);
    if words.sealed && !frame.is_sealed {
        let text = format!(in alloc; "{name}: journal '{journal}' has no seals\n")?;
        return Ok(Telling::Fault(text));
    }
    let lack = lack_of(audited, frame);
    if let (true, Some(lack)) = (words.whole, lack) {
        let text = format!(in alloc; "{name}: journal '{journal}' isn't whole: {lack}\n")?;
        return Ok(Telling::Fault(text));
    }
    if let Some(place) = words.at {
        if place < frame.first || frame.place() <= place {
            let text = format!(in alloc;
                "{name}: journal '{journal}' has no entry at place {place}\n"
            )?;
            return Ok(Telling::Agreement(Some(text)));
        }
    }
    if frame.has_header {
        return Ok(Telling::Agreement(None));
    }
    let text = format!(in alloc;
        "{name}: journal '{journal}' has no header, as those of older programs: \
                whether it is of this database, and whether its run has ended, isn't known\n"
    )?;
    Ok(Telling::Agreement(Some(text)))
}

/// Returns what is said of a base line whose value the database doesn't take.
///
/// # Errors
///
/// [`AllocError`] if allocation fails.
pub fn told_of_base(
    alloc: Global,
    words: &Words<'_>,
    line: u64,
    fault: BaseFault,
) -> Result<Telling, AllocError> {
    let (name, journal) = (PROGRAM.name, words.journal);
    let mut text = format!(in alloc; "{name}: journal '{journal}' line {line}: ")?;
    match fault {
        BaseFault::NoRecord => text.push_str("no such record is in the database\n")?,
        BaseFault::NoField => text.push_str("the record has no such field\n")?,
        BaseFault::NoText => text.push_str("no database text gives the field this value\n")?,
        BaseFault::Refused(kind) => writeln!(
            text,
            "the field doesn't take this value: {}",
            kind.words()
        )?,
    }
    Ok(Telling::Fault(text))
}

/// Returns what is said of a file that doesn't begin with a base of the database.
///
/// # Errors
///
/// [`AllocError`] if allocation fails.
pub fn told_of_no_base(alloc: Global, words: &Words<'_>) -> Result<Telling, AllocError> {
    let (name, journal) = (PROGRAM.name, words.journal);
    let text = format!(in alloc;
        "{name}: journal '{journal}' line 2: what follows is no base of this database\n"
    )?;
    Ok(Telling::Fault(text))
}

/// Returns what an audit says of the journal of a database with this hash.
///
/// # Errors
///
/// [`AllocError`] if allocation fails.
pub fn told_of(
    alloc: Global,
    words: &Words<'_>,
    hash: &[u8; 32],
    found: FileFound,
) -> Result<Telling, AllocError> {
    let name = PROGRAM.name;
    let journal = words.journal;
    let mut text = format!(in alloc; "{name}: journal '{journal}'")?;
    match found {
        FileFound::Fault(fault) => add_fault(alloc, &mut text, &fault, hash)?,
        FileFound::Checked(Audited::Differs(line, difference), _) => {
            write!(text, " line {line}: ")?;
            add_difference(alloc, &mut text, &difference)?;
        }
        FileFound::Checked(Audited::NoEntry(line), _) => writeln!(text, " line {line}: no entry")?,
        FileFound::Checked(audited, frame) => return agreement(alloc, words, &audited, &frame),
    }
    Ok(Telling::Fault(text))
}
