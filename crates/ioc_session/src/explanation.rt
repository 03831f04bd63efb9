//! Why a line is bad or refused.
use crate::directory::{Directory, Listed, field_of, nearest_field};
use crate::kinds::Taken;
use ioc_commands::{BadLine, Command, Dialect, LayoutFault, Quoted, Shown, cut_at};
use ioc_fields::{FieldKind, RecordType, kind_of};
use ioc_values::IocError;
use std::alloc::AllocError;
use std::fmt;

/// Why a line is bad or refused.
#[derive(Clone, Copy)]
pub enum Explanation<'a> {
    Bad(BadLine<'a>),
    Layout(LayoutFault<'a>),
    /// There is no record of the first name. The second may have been meant.
    NoRecord(Quoted<'a>, Option<&'a [u8]>),
    /// Records of this type have no field of the first name. The second may have been meant.
    NoField(RecordType, Quoted<'a>, Option<&'static str>),
    /// This field is no link.
    NoLink(Subject<'a>),
    /// The link of this text leads to no field of a record.
    LeadsNowhere(Quoted<'a>),
    /// The record with this name owns no device.
    NoDevice(Quoted<'a>),
    /// This field can't be put.
    NotPut(Subject<'a>),
    /// This field is a link.
    LinkField(Subject<'a>),
    /// The field DISP of the record with this name isn't 0.
    PutDisabled(Shown<'a>),
    /// This text doesn't fit this field, which takes this.
    BadValue(Quoted<'a>, Subject<'a>, Taken),
    /// This text is no link.
    BadLink(Quoted<'a>),
    /// The record with this name doesn't wait under this number.
    NotAwaited(Quoted<'a>, u64),
    /// No put with notification is live under this number.
    NotLive(u64),
    /// All numbers of puts with notification are live.
    TooManyLive,
}

/// The record and the field that a line names, and its text. The field and the text are empty if
/// the line has none.
#[derive(Clone, Copy)]
pub struct Subject<'a> {
    pub record: &'a [u8],
    pub field: &'a [u8],
    pub text: &'a [u8],
}

/// The name of the field, as `REC.F`.
impl fmt::Display for Subject<'_> {
    fn fmt<W: fmt::Write>(&self, f: &mut fmt::Formatter<W>) -> fmt::Result {
        write!(f, "{}.{}", Shown(self.record), Shown(self.field))
    }
}

impl<'a> Subject<'a> {
    // A record alone.
    fn record(record: &'a [u8]) -> Self {
        Subject {
            record,
            field: b"",
            text: b"",
        }
    }

    // What a command names, if it names a record.
    fn of(command: &Command<'a>) -> Option<Self> {
        match *command {
            Command::Put(record, field, text)
            | Command::Notify(record, field, text)
            | Command::Link(record, field, text) => Some(Subject {
                record,
                field,
                text,
            }),
            Command::Get(record, field) => Some(Subject {
                field,
                ..Subject::record(record)
            }),
            Command::Process(record)
            | Command::NextDone(record, _)
            | Command::NextFault(record)
            | Command::NextLater(record)
            | Command::Done(record, _, _)
            | Command::Fault(record, _) => Some(Subject::record(record)),
            _ => None,
        }
    }
}

// The refusals of a script.
static REFUSALS: [IocError; 8] = [
    IocError::NoRecord,
    IocError::NoField,
    IocError::NoMod,
    IocError::PutDisabled,
    IocError::BadValue,
    IocError::BadLink,
    IocError::Stale,
    IocError::QueueFull,
];

// Returns the refusal that a reply tells.
fn refusal_in(reply: &[u8]) -> Option<IocError> {
    REFUSALS
        .iter()
        .copied()
        .find(|refused| refused.words().as_bytes() == reply)
}

// Why a line has E1. The link that is given to a record may lead to another that there isn't.
fn no_record<'a>(
    directory: &'a Directory,
    subject: &Subject<'a>,
) -> Result<Explanation<'a>, AllocError> {
    let word = cut_at(subject.text.trim_ascii(), b' ').0;
    let target = cut_at(word, b'.').0;
    let name = if directory.find(subject.record).is_none() {
        subject.record
    } else if directory.find(target).is_none() {
        target
    } else {
        return Ok(Explanation::LeadsNowhere(Quoted(subject.text)));
    };
    Ok(Explanation::NoRecord(Quoted(name), directory.nearest(name)?))
}

// Why a line has E2.
fn no_field<'a>(
    directory: &Directory,
    listed: &Listed,
    subject: &Subject<'a>,
) -> Result<Explanation<'a>, AllocError> {
    if subject.field.is_empty() {
        return Ok(Explanation::NoDevice(Quoted(subject.record)));
    }
    if field_of(listed, subject.field).is_some() {
        return Ok(Explanation::NoLink(*subject));
    }
    let meant = nearest_field(directory.alloc, listed.record_type, subject.field)?;
    Ok(Explanation::NoField(listed.record_type, Quoted(subject.field), meant))
}

// Returns what the field of a line takes.
fn kind_in(listed: &Listed, subject: &Subject<'_>) -> Option<FieldKind> {
    kind_of(listed.record_type, field_of(listed, subject.field)?)
}

// Why a line has E3.
fn no_mod<'a>(listed: &Listed, subject: &Subject<'a>) -> Explanation<'a> {
    match kind_in(listed, subject) {
        Some(FieldKind::Link(_)) => Explanation::LinkField(*subject),
        _ => Explanation::NotPut(*subject),
    }
}

// Why a line has E5.
fn bad_value<'a>(listed: &Listed, subject: &Subject<'a>) -> Option<Explanation<'a>> {
    let taken = Taken(kind_in(listed, subject)?);
    Some(Explanation::BadValue(Quoted(subject.text), *subject, taken))
}

// Why a line that names a record has this refusal.
fn by_subject<'a>(
    directory: &'a Directory,
    refused: IocError,
    subject: &Subject<'a>,
) -> Result<Option<Explanation<'a>>, AllocError> {
    if let IocError::NoRecord = refused {
        return Ok(Some(no_record(directory, subject)?));
    }
    let Some(listed) = directory.find(subject.record) else {
        return Ok(None);
    };
    Ok(match refused {
        IocError::NoField => Some(no_field(directory, listed, subject)?),
        IocError::NoMod => Some(no_mod(listed, subject)),
        IocError::PutDisabled => Some(Explanation::PutDisabled(Shown(subject.record))),
        IocError::BadValue => bad_value(listed, subject),
        IocError::BadLink => Some(Explanation::BadLink(Quoted(subject.text))),
        _ => None,
    })
}

// Why the command of a line has this refusal.
fn by_command<'a>(
    directory: &'a Directory,
    refused: IocError,
    command: &Command<'a>,
) -> Result<Option<Explanation<'a>>, AllocError> {
    let explanation = match (refused, *command) {
        (IocError::QueueFull, _) => Explanation::TooManyLive,
        (IocError::Stale, Command::Cancel(number)) => Explanation::NotLive(number),
        (IocError::Stale, Command::Done(record, wait, _) | Command::Fault(record, wait)) => {
            Explanation::NotAwaited(Quoted(record), wait)
        }
        _ => match Subject::of(command) {
            Some(subject) => return by_subject(directory, refused, &subject),
            None => return Ok(None),
        },
    };
    Ok(Some(explanation))
}

impl<'a> Explanation<'a> {
    /// Returns why a line of this speaker has this reply, if it is bad or refused. The reply comes
    /// without its line feed.
    ///
    /// # Errors
    ///
    /// [`AllocError`] if allocation fails.
    pub fn of(
        directory: &'a Directory,
        dialect: Dialect,
        line: &'a [u8],
        reply: &[u8],
    ) -> Result<Option<Self>, AllocError> {
        if reply == b"bad".as_slice() {
            return Ok(Some(Explanation::Bad(BadLine::of(dialect, line))));
        }
        let Some(refused) = refusal_in(reply) else {
            return Ok(None);
        };
        match LayoutFault::of(dialect, line) {
            Some(fault) => Ok(Some(Explanation::Layout(fault))),
            None => by_command(directory, refused, &Command::from_line(line)),
        }
    }
}

/// Returns the words that say why a line of this speaker has this reply, if it is bad or refused.
///
/// # Errors
///
/// [`AllocError`] if allocation fails.
pub fn explained<'a>(
    directory: &'a Directory,
    dialect: Dialect,
    line: &'a [u8],
    reply: &[u8],
) -> Result<Option<String>, AllocError> {
    match Explanation::of(directory, dialect, line, reply) {
        Ok(Some(explanation)) => Ok(Some(format!(in directory.alloc; "{explanation}")?)),
        Ok(None) => Ok(None),
        Err(error) => Err(error),
    }
}

// Writes the name that may have been meant.
fn write_meant<W: fmt::Write>(f: &mut fmt::Formatter<W>, meant: Option<&[u8]>) -> fmt::Result {
    match meant {
        Some(name) => write!(f, "; did you mean {}?", Quoted(name)),
        None => Ok(()),
    }
}

impl fmt::Display for Explanation<'_> {
    fn fmt<W: fmt::Write>(&self, f: &mut fmt::Formatter<W>) -> fmt::Result {
        match self {
            Explanation::Bad(fault) => fault.fmt(f),
            Explanation::Layout(fault) => fault.fmt(f),
            Explanation::NoRecord(name, meant) => {
                write!(f, "E1: no record {name}")?;
                write_meant(f, *meant)
            }
            Explanation::LeadsNowhere(link) => write!(f, "E1: the link {link} leads to no field"),
            Explanation::NoField(record_type, name, meant) => {
                write!(f, "E2: the type {} has no field {name}", record_type.name())?;
                write_meant(f, meant.map(str::as_bytes))
            }
            Explanation::NoLink(field) => write!(f, "E2: {field} is no link"),
            Explanation::NoDevice(name) => write!(f, "E2: {name} owns no device"),
            Explanation::NotPut(field) => write!(f, "E3: {field} can't be put"),
            Explanation::LinkField(field) => {
                write!(f, "E3: {field} is a link; the line link changes it")
            }
            Explanation::PutDisabled(name) => write!(
                f,
                "E4: {name}.DISP isn't 0; put 0 to it first"
            ),
            Explanation::BadValue(text, field, taken) => {
                write!(f, "E5: {text} doesn't fit {field} ({taken})")
            }
            Explanation::BadLink(text) => write!(f, "E6: {text} is no link; one is: REC.F PP MS"),
            Explanation::NotAwaited(name, n) => write!(
                f,
                "E8: {name} doesn't wait under the number {n}"
            ),
            Explanation::NotLive(n) => write!(f, "E8: no put with notification {n} is live"),
            Explanation::TooManyLive => {
                f.write_str("E9: 256 puts with notification are live; let some end")
            }
        }
    }
}
