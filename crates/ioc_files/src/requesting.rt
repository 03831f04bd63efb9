//! Request files, which name the channels whose values are saved.
use ioc_command_line::{FileRole, Stop, define, read_whole};
use ioc_dbfile::{Database, Macros};
use ioc_dblex::{End, expand};
use ioc_fields::{FieldNo, field};
use ioc_names::RecordNo;
use ioc_record::RecordKind;
use ioc_saved::{RequestLine, request_line};
use ioc_values::{FieldName, IocError, Name};
use std::alloc::{Alloc, AllocError, Global};
use std::fs::Files;

// How many files are read at most, so that files which name one another come to an end.
const MOST_FILES: usize = 1_000;

/// A field of a record whose value is saved.
#[derive(Clone, Copy, Debug, PartialEq, Eq)]
pub struct SavedField {
    pub record: RecordNo,
    pub field: FieldNo,
}

/// What request files ask for.
#[derive(Drop)]
pub struct Requested {
    pub fields: Vec<SavedField>,
    /// A line of text for each line of a file that names no field.
    pub told: Vec<u8>,
}

// What was read of request files, and the files that their lines name and that aren't read yet.
#[derive(Drop)]
struct Reader {
    requested: Requested,
    files: Vec<RequestFile>,
}

// A request file, and the macros of its lines if they aren't those of the command line.
#[derive(Drop)]
struct RequestFile {
    path: String,
    macros: Option<Macros>,
}

// A request file that is read.
#[derive(Clone, Copy)]
struct Reading<'a> {
    database: &'a Database,
    macros: &'a Macros,
    path: &'a str,
}

// Finds a field of a record.
fn found(database: &Database, name: &Name, field_name: &FieldName) -> Result<SavedField, IocError> {
    let Some(number) = database.names.find(name.as_slice()) else {
        return Err(IocError::NoRecord);
    };
    let Some(record) = database.records.get(number.index()) else {
        return Err(IocError::NoRecord);
    };
    match field(record.record_type(), field_name.as_slice()) {
        Some(found) => Ok(SavedField {
            record: number,
            field: found,
        }),
        None => Err(IocError::NoField),
    }
}

// Returns the path of a file that another one names: beside it, unless the name begins with `/`.
fn beside(alloc: Global, path: &str, name: &str) -> Result<String, AllocError> {
    let folder = match path.rfind('/') {
        Some(place) if !name.starts_with('/') => path.get(..=place).unwrap_or(""),
        _ => "",
    };
    format!(in alloc; "{folder}{name}")
}

impl Reader {
    // Tells what is wrong with a line.
    fn tell(
        &mut self,
        alloc: Global,
        reading: &Reading<'_>,
        line: usize,
        words: &str,
    ) -> Result<(), AllocError> {
        let path = reading.path;
        let text = format!(in alloc; "request file '{path}' line {line}: {words}\n")?;
        self.requested.told.extend_from_slice(text.as_bytes())
    }

    // Adds the file that a line names, with its macros.
    fn add_file(
        &mut self,
        alloc: Global,
        reading: &Reading<'_>,
        line: usize,
        name: &[u8],
        macros: &[u8],
    ) -> Result<(), Stop> {
        let (Ok(name), Ok(words)) = (str::from_utf8(name), str::from_utf8(macros)) else {
            return Ok(self.tell(alloc, reading, line, "no UTF-8")?);
        };
        let mut inner = Macros::new(alloc);
        if !words.is_empty() {
            define(alloc, words, &mut inner)?;
        }
        let file = RequestFile {
            path: beside(alloc, reading.path, name)?,
            macros: Some(inner),
        };
        Ok(self.files.push(file).map_err(AllocError::from)?)
    }

    // Takes what a line asks for.
    fn add_line(
        &mut self,
        alloc: Global,
        reading: &Reading<'_>,
        number: usize,
        line: &[u8],
    ) -> Result<(), Stop> {
        let text = expand(alloc, reading.macros, line)?;
        if text.end != End::Whole {
            return Ok(self.tell(alloc, reading, number, "a macro has no value")?);
        }
        match request_line(&text.bytes) {
            RequestLine::Nothing => Ok(()),
            RequestLine::Bad => Ok(self.tell(alloc, reading, number, "no channel")?),
            RequestLine::File(name, macros) => self.add_file(alloc, reading, number, name, macros),
            RequestLine::Channel(name, field) => match found(reading.database, &name, &field) {
                Ok(place) => Ok(self.requested.fields.push(place).map_err(AllocError::from)?),
                Err(refused) => Ok(self.tell(alloc, reading, number, refused.words())?),
            },
        }
    }

    // Takes what the lines of a file ask for.
    fn add_lines<R: Files + Alloc<A = Global>>(
        &mut self,
        rt: &R,
        reading: &Reading<'_>,
    ) -> Result<(), Stop> {
        let text = read_whole(rt, FileRole::Request, reading.path)?;
        for (index, line) in text.split(|byte| *byte == b'\n').enumerate() {
            self.add_line(rt.alloc(), reading, index.saturating_add(1), line)?;
        }
        Ok(())
    }

    // Reads the files that aren't read yet, and those that they name.
    fn add_files<R: Files + Alloc<A = Global>>(
        &mut self,
        rt: &R,
        database: &Database,
        macros: &Macros,
    ) -> Result<(), Stop> {
        for _ in 0..MOST_FILES {
            let Some(file) = self.files.pop() else {
                return Ok(());
            };
            let reading = Reading {
                database,
                macros: file.macros.as_ref().unwrap_or(macros),
                path: file.path.as_str(),
            };
            self.add_lines(rt, &reading)?;
        }
        let told = b"request files: more than 1000 of them, so the others aren't read\n";
        self.requested.told.extend_from_slice(told)?;
        Ok(())
    }
}

impl Requested {
    /// Reads the request file of this path, in whose lines the macros are replaced, and the files that it
    /// names.
    ///
    /// # Errors
    ///
    /// [`Stop::Unreadable`] if a file can't be read. [`Stop::Usage`] if a line defines macros wrongly.
    /// [`Stop::Memory`] if allocation fails.
    pub fn of<R: Files + Alloc<A = Global>>(
        rt: &R,
        database: &Database,
        macros: &Macros,
        path: &str,
    ) -> Result<Self, Stop> {
        let alloc = rt.alloc();
        let mut reader = Reader {
            requested: Requested {
                fields: Vec::new(alloc),
                told: Vec::new(alloc),
            },
            files: Vec::new(alloc),
        };
        let file = RequestFile {
            path: String::from_str(alloc, path)?,
            macros: None,
        };
        reader.files.push(file).map_err(AllocError::from)?;
        reader.add_files(rt, database, macros)?;
        Ok(reader.requested)
    }
}
