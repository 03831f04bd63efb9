//! Saved values as a part of the database text.
use ioc_command_line::Reason;
use ioc_dbfile::Database;
use ioc_fields::{FieldNo, field, name_of};
use ioc_record::{RecordKind, set_field};
use ioc_saved::{SavedFault, SavedText, SavedValue, add_block, has_block, parse_saved};
use ioc_values::{FieldName, IocError, Value, spelled_number};
use rec_types::Record;
use std::alloc::{Alloc, AllocError, Global};
use std::fs::{self, Files};

// Returns the values of a saved file, or why it isn't taken.
fn read_saved<R: Files + Alloc<A = Global>>(
    rt: &R,
    path: &str,
) -> Result<Result<Vec<SavedValue>, String>, AllocError> {
    let alloc = rt.alloc();
    let text = match fs::read(rt, path) {
        Ok(text) => text,
        Err(error) => {
            let reason = Reason::of(&error);
            return Ok(Err(format!(in alloc; "{reason}")?));
        }
    };
    match parse_saved(alloc, &text) {
        Ok(values) => Ok(Ok(values)),
        Err(SavedFault::NoEnd) => Ok(Err(format!(in alloc;
            "it has no <END>, so it was cut short"
        )?)),
        Err(SavedFault::BadLine(line)) => Ok(Err(format!(in alloc; "line {line} is no value")?)),
        Err(SavedFault::NoMemory) => Err(AllocError),
    }
}

/// Returns the values of the saved file of this path, or, if it isn't whole, those of the one before it,
/// which has a `B` behind its name. Returns none if neither is whole. Adds a line of text for each file
/// that isn't taken.
///
/// # Errors
///
/// [`AllocError`] if allocation fails.
pub fn saved_values<R: Files + Alloc<A = Global>>(
    rt: &R,
    path: &str,
    told: &mut Vec<u8>,
) -> Result<Vec<SavedValue>, AllocError> {
    let alloc = rt.alloc();
    let before = format!(in alloc; "{path}B")?;
    for each in [path, before.as_str()] {
        match read_saved(rt, each)? {
            Ok(values) => return Ok(values),
            Err(why) => {
                let line = format!(in alloc; "saved file '{each}': {why}\n")?;
                told.extend_from_slice(line.as_bytes())?;
            }
        }
    }
    Ok(Vec::new(alloc))
}

/// Saved values that a database takes.
#[derive(Drop)]
pub struct Restored {
    /// The values, by the names of records that are no aliases.
    pub values: Vec<SavedValue>,
    /// A database text that has the same values.
    pub blocks: Vec<u8>,
    /// A line of text for each value that it doesn't take.
    pub told: Vec<u8>,
}

// Copies of the records of a database that saved values are tried on.
#[derive(Drop)]
struct Tried<'d> {
    database: &'d Database,
    // A copy of each record that a value was tried on, at the place of its number.
    copies: Vec<Option<Record>>,
}

impl<'d> Tried<'d> {
    // No value was tried yet.
    fn new(alloc: Global, database: &'d Database) -> Result<Self, AllocError> {
        let mut copies = Vec::with_capacity(alloc, database.records.len())?;
        for _ in &database.records {
            copies.push(None)?;
        }
        Ok(Tried { database, copies })
    }

    // Returns the copy of the record with this name.
    fn copy(&mut self, alloc: Global, name: &[u8]) -> Result<&mut Record, IocError> {
        let Some(number) = self.database.names.find(name) else {
            return Err(IocError::NoRecord);
        };
        let records = &self.database.records;
        let (Some(record), Some(copy)) = (
            records.get(number.index()),
            self.copies.get_mut(number.index()),
        ) else {
            return Err(IocError::NoRecord);
        };
        if copy.is_none() {
            *copy = Some(record.copy(alloc)?);
        }
        copy.as_mut().ok_or(IocError::NoRecord)
    }
}

// Returns the text of the state with this number.
fn state_text(record: &Record, number: i64) -> Result<SavedText, IocError> {
    let Ok(place) = usize::try_from(number) else {
        return Err(IocError::BadValue);
    };
    match record.states().get(place) {
        Some(text) => Ok(SavedText::cut(text.as_slice())),
        None => Err(IocError::BadValue),
    }
}

// Sets a field of a record to a saved value, and returns the text by which a database sets it. A state
// is saved as its number, which may be the text of another state: then its own text is wanted.
fn set_saved(
    alloc: Global,
    record: &mut Record,
    field: FieldNo,
    value: SavedText,
) -> Result<SavedText, IocError> {
    set_field(alloc, record, field, value.as_slice())?;
    let Some(wanted) = spelled_number(value.as_slice()) else {
        return Ok(value);
    };
    match record.get(field) {
        Some(Value::Enum(taken)) if i64::from(taken) != wanted => {}
        _ => return Ok(value),
    }
    let text = state_text(record, wanted)?;
    set_field(alloc, record, field, text.as_slice())?;
    match record.get(field) {
        Some(Value::Enum(taken)) if i64::from(taken) == wanted => Ok(text),
        _ => Err(IocError::BadValue),
    }
}

impl Restored {
    // Takes a saved value, or leaves it out.
    fn add(
        &mut self,
        alloc: Global,
        tried: &mut Tried<'_>,
        saved: &SavedValue,
    ) -> Result<(), IocError> {
        let record = tried.copy(alloc, saved.record_name.as_slice())?;
        let record_type = record.record_type();
        let Some(found) = field(record_type, saved.field.as_slice()) else {
            return Err(IocError::NoField);
        };
        let taken = SavedValue {
            record_name: record.common().name,
            field: FieldName::cut(name_of(found).as_bytes()),
            value: set_saved(alloc, record, found, saved.value)?,
        };
        if !has_block(&taken) {
            return Err(IocError::BadValue);
        }
        add_block(&mut self.blocks, record_type.name().as_bytes(), &taken)?;
        self.values.push(taken)?;
        Ok(())
    }

    // Tells that a value is left out.
    fn tell(
        &mut self,
        alloc: Global,
        saved: &SavedValue,
        refused: IocError,
    ) -> Result<(), AllocError> {
        let words = refused.words();
        self.told.extend_from_slice(b"saved value ")?;
        self.told.extend_from_slice(saved.record_name.as_slice())?;
        self.told.push(b'.')?;
        self.told.extend_from_slice(saved.field.as_slice())?;
        let text = format!(in alloc; ": {words}, so it is left out\n")?;
        self.told.extend_from_slice(text.as_bytes())
    }

    /// Takes those of these values whose fields a database text can set to them.
    ///
    /// # Errors
    ///
    /// [`AllocError`] if allocation fails.
    pub fn of(
        alloc: Global,
        database: &Database,
        values: &[SavedValue],
    ) -> Result<Self, AllocError> {
        let mut restored = Restored {
            values: Vec::new(alloc),
            blocks: Vec::new(alloc),
            told: Vec::new(alloc),
        };
        let mut tried = Tried::new(alloc, database)?;
        for saved in values {
            match restored.add(alloc, &mut tried, saved) {
                Ok(()) => {}
                Err(IocError::NoMemory) => return Err(AllocError),
                Err(refused) => restored.tell(alloc, saved, refused)?,
            }
        }
        Ok(restored)
    }
}
