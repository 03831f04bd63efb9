//! Writes statements as the text of a database.
ghost use Rattle.std.specs.Prelude.{IfOk};
ghost use Rattle.ioc_site_writer.specs.Loads.{Loads};

use crate::dropping::{Reason, Subject};
use crate::lines::{Line, LineRole, Lines};
use crate::quoting::{begins_macro, quote};
use crate::spelling::add_value;
use crate::types::{Standing, Types};
use ioc_dbfile::{Macros, load};
use ioc_fields::RecordType;
use ioc_links::is_record_name;
use ioc_site::{Entry, EntryKind, Finding, RecordText, Statement, Word};
use ioc_values::{BadDbKind, DbFault, LoadError};
use std::alloc::{AllocError, Global};

/// What was written.
#[derive(Drop)]
pub struct Written {
    /// The text of the database.
    pub text: Vec<u8>,
    /// What is left out of it, as warnings.
    pub dropped: Vec<Finding>,
}

/// The lines of a text that is being written.
#[derive(Drop)]
struct Writer<'a> {
    alloc: Global,
    lines: Lines<'a>,
    /// How many bytes the text had before the line that is being written.
    begun: usize,
    dropped: Vec<Finding>,
    types: Types,
    /// The number of the statement that is being written.
    statement: usize,
}

// Returns why a text can't have the entry.
fn fault_of(entry: &Entry) -> Option<Reason> {
    let (name, value) = (entry.name.text.as_slice(), entry.value.text.as_slice());
    if begins_macro(name) || begins_macro(value) {
        Some(Reason::BeginsMacro)
    } else if value.contains(&0) {
        Some(Reason::HasZero)
    } else {
        None
    }
}

impl<'a> Writer<'a> {
    // Leaves something out.
    fn leave_out(&mut self, subject: Subject<'a>, reason: Reason) -> Result<(), AllocError> {
        let finding = subject.dropped(self.alloc, reason)?;
        Ok(self.dropped.push(finding)?)
    }

    // Ends a line.
    fn end_line(&mut self, role: LineRole, subject: Subject<'a>) -> Result<(), AllocError> {
        let end = self.lines.text.len();
        let length = end.saturating_sub(self.begun);
        let statement = self.statement;
        self.begun = end;
        Ok(
            self.lines.list.push(Line {
                role,
                statement,
                subject,
                length,
            })?,
        )
    }

    // Returns the record of a statement, or why it is left out.
    fn opened(&mut self, record: &RecordText) -> Result<Result<RecordType, Reason>, AllocError> {
        if !is_record_name(record.name.text.as_slice()) {
            return Ok(Err(Reason::Refused(BadDbKind::BadName)));
        }
        match self.types.enter(record, false)? {
            Some(Standing::Kept(record_type)) => Ok(Ok(record_type)),
            _ if record.record_type.text.as_slice() == b"*".as_slice() => {
                Ok(Err(Reason::Refused(BadDbKind::NoRecord)))
            }
            _ => Ok(Err(Reason::Refused(BadDbKind::BadType))),
        }
    }

    // Adds the head of a record.
    fn add_head(&mut self, record: &'a RecordText) -> Result<(), AllocError> {
        let text = &mut self.lines.text;
        text.extend_from_slice(b"record(")?;
        let type_name = record.record_type.text.as_slice();
        match RecordType::from_name(type_name) {
            Some(record_type) => text.extend_from_slice(record_type.name().as_bytes())?,
            None => quote(text, type_name)?,
        }
        text.extend_from_slice(b", ")?;
        quote(text, record.name.text.as_slice())?;
        text.extend_from_slice(b") {\n")?;
        let (word, name) = ("record", &record.name);
        self.end_line(LineRole::Head, Subject { word, name })
    }

    // Adds a field or an info.
    fn add_entry(&mut self, record_type: RecordType, entry: &'a Entry) -> Result<(), AllocError> {
        let word = match entry.kind {
            EntryKind::Field => "field",
            EntryKind::Info => "info",
        };
        let name = &entry.name;
        let subject = Subject { word, name };
        if let Some(reason) = fault_of(entry) {
            return self.leave_out(subject, reason);
        }
        let (alloc, text) = (self.alloc, &mut self.lines.text);
        text.extend_from_slice(b"  ")?;
        text.extend_from_slice(word.as_bytes())?;
        text.push(b'(')?;
        let (name, value) = (name.text.as_slice(), entry.value.text.as_slice());
        quote(text, name)?;
        text.extend_from_slice(b", ")?;
        match entry.kind {
            EntryKind::Field => add_value(alloc, text, record_type, name, value)?,
            EntryKind::Info => quote(text, value)?,
        }
        text.extend_from_slice(b")\n")?;
        self.end_line(LineRole::Entry, subject)
    }

    // Adds a second name, in the body of a record or as a statement of its own.
    fn add_alias(&mut self, record: Option<&Word>, name: &'a Word) -> Result<(), AllocError> {
        let word = "alias";
        let subject = Subject { word, name };
        if !is_record_name(name.text.as_slice()) {
            return self.leave_out(subject, Reason::Refused(BadDbKind::BadName));
        }
        let text = &mut self.lines.text;
        let role = match record {
            Some(record) => {
                text.extend_from_slice(b"alias(")?;
                quote(text, record.text.as_slice())?;
                text.extend_from_slice(b", ")?;
                LineRole::Head
            }
            None => {
                text.extend_from_slice(b"  alias(")?;
                LineRole::Entry
            }
        };
        quote(text, name.text.as_slice())?;
        text.extend_from_slice(b")\n")?;
        self.end_line(role, subject)
    }

    // Adds a record.
    fn add_record(&mut self, record: &'a RecordText) -> Result<(), AllocError> {
        let (word, name) = ("record", &record.name);
        let subject = Subject { word, name };
        let record_type = match self.opened(record)? {
            Ok(record_type) => record_type,
            Err(reason) => return self.leave_out(subject, reason),
        };
        self.add_head(record)?;
        for entry in &record.entries {
            self.add_entry(record_type, entry)?;
        }
        for alias in &record.aliases {
            self.add_alias(None, alias)?;
        }
        self.lines.text.extend_from_slice(b"}\n")?;
        self.end_line(LineRole::End, subject)
    }

    // Adds a second name by a statement of its own.
    fn add_alias_of(&mut self, record: &Word, alias: &'a Word) -> Result<(), AllocError> {
        if let Some(standing) = self.types.standing(record.text.as_slice()) {
            self.types.note(alias.text.as_slice(), standing)?;
        }
        if begins_macro(record.text.as_slice()) {
            let (word, name) = ("alias", alias);
            return self.leave_out(Subject { word, name }, Reason::BeginsMacro);
        }
        self.add_alias(Some(record), alias)
    }
}

// Returns the lines of the statements.
fn lines_of<'a>(alloc: Global, statements: &'a [Statement]) -> Result<Writer<'a>, AllocError> {
    let mut writer = Writer {
        alloc,
        lines: Lines {
            text: Vec::new(alloc),
            list: Vec::new(alloc),
        },
        begun: 0,
        dropped: Vec::new(alloc),
        types: Types::new(alloc),
        statement: 0,
    };
    for (number, statement) in statements.iter().enumerate() {
        writer.statement = number;
        match statement {
            Statement::Record(record) => writer.add_record(record)?,
            Statement::Alias { record, alias } => writer.add_alias_of(record, alias)?,
            Statement::Skipped(_) => {}
        }
    }
    Ok(writer)
}

/// Writes the records and aliases of some statements as one text, each entry on a line of its own,
/// values between quotes and numbers in decimal. What `load` refuses is left out. What is returned
/// loads without macros.
///
/// # Errors
///
/// [`LoadError::BadDb`] if the text is too long or has too many records. [`LoadError::NoMemory`] if
/// allocation fails.
pub fn write_database(alloc: Global, statements: &[Statement]) -> Result<Written, LoadError>
    ensures { IfOk result (λ w. Loads w.text.items) }
{
    let Writer {
        mut lines,
        mut dropped,
        ..
    } = lines_of(alloc, statements)?;
    let mut last = DbFault {
        line: 1,
        kind: BadDbKind::Syntax,
    };
    for _ in 0..=lines.list.len() {
        let fault = match load(alloc, lines.text.as_slice(), &Macros::new(alloc)) {
            Ok(_) => {
                let Lines { text, .. } = lines;
                return Ok(Written { text, dropped });
            }
            Err(LoadError::BadDb(fault)) => fault,
            Err(LoadError::NoMemory) => return Err(LoadError::NoMemory),
        };
        if fault.kind == BadDbKind::TooMany {
            return Err(LoadError::BadDb(fault));
        }
        last = fault;
        let Some((others, subject)) = lines.without(alloc, fault.line)? else {
            return Err(LoadError::BadDb(fault));
        };
        lines = others;
        dropped.push(subject.dropped(alloc, Reason::Refused(fault.kind))?)?;
    }
    Err(LoadError::BadDb(last))
}
