//! The records of a database by their names, and the replies of several lines.
use crate::pattern::matches;
use ioc_commands::{add_shown_text, add_to_set, begin_set, begin_sets, cut_at, end_set, end_sets};
use ioc_dbfile::Database;
use ioc_events::Reply;
use ioc_fields::{FieldNo, RecordType, name_of};
use ioc_main::{LineReply, count_line, say_reply};
use ioc_names::RecordNo;
use ioc_record::RecordKind;
use ioc_values::Name;
use std::alloc::{AllocError, Global};

// A record of the list.
#[derive(Clone, Copy)]
struct Listed {
    name: Name,
    record_type: RecordType,
}

impl Listed {
    // Returns whether the record has this type, if there is one.
    fn is_of(&self, record_type: Option<RecordType>) -> bool {
        match record_type {
            Some(record_type) => self.record_type == record_type,
            None => true,
        }
    }
}

/// The names and types of the records of a database, by their numbers.
#[derive(Drop)]
pub struct RecordList {
    records: Vec<Listed>,
}

/// Appends the line of a reply.
///
/// # Errors
///
/// [`AllocError`] if allocation fails.
pub fn add_reply(said: &mut Vec<u8>, reply: &Reply) -> Result<(), AllocError> {
    let mut line = LineReply::new();
    say_reply(&mut line, reply);
    said.extend_from_slice(line.as_slice())
}

/// Appends the line of a reply with the place of its call in the journal: `REPLY place P`.
///
/// # Errors
///
/// [`AllocError`] if allocation fails.
pub fn add_placed(
    alloc: Global,
    said: &mut Vec<u8>,
    reply: &Reply,
    place: u64,
) -> Result<(), AllocError> {
    let mut line = LineReply::new();
    say_reply(&mut line, reply);
    said.extend_from_slice(cut_at(line.as_slice(), b'\n').0)?;
    let placed = format!(in alloc; " place {place}\n")?;
    said.extend_from_slice(placed.as_bytes())
}

/// Appends lines, each behind this tag: `@TAG LINE`.
///
/// # Errors
///
/// [`AllocError`] if allocation fails.
pub fn add_tagged(said: &mut Vec<u8>, tag: &[u8], lines: &[u8]) -> Result<(), AllocError> {
    let mut begins = true;
    for byte in lines {
        if begins {
            said.push(b'@')?;
            said.extend_from_slice(tag)?;
            said.push(b' ')?;
        }
        said.push(*byte)?;
        begins = *byte == b'\n';
    }
    Ok(())
}

/// Appends the line of a count, `ok N`.
///
/// # Errors
///
/// [`AllocError`] if allocation fails.
pub fn add_count(said: &mut Vec<u8>, count: u64) -> Result<(), AllocError> {
    said.extend_from_slice(count_line(count).as_slice())
}

/// Appends the line of a count with this name, `- NAME N`.
///
/// # Errors
///
/// [`AllocError`] if allocation fails.
pub fn add_named(
    alloc: Global,
    said: &mut Vec<u8>,
    name: &str,
    count: u64,
) -> Result<(), AllocError> {
    let line = format!(in alloc; "- {name} {count}\n")?;
    said.extend_from_slice(line.as_bytes())
}

/// Appends the line of a field that was asked for, `= TEXT`.
///
/// # Errors
///
/// [`AllocError`] if allocation fails.
pub fn add_shown(said: &mut Vec<u8>, text: &[u8]) -> Result<(), AllocError> {
    said.extend_from_slice(b"= ")?;
    add_shown_text(said, text)?;
    said.push(b'\n')?;
    Ok(())
}

/// Appends the line of a field among those of its record, `FIELD: TEXT`.
///
/// # Errors
///
/// [`AllocError`] if allocation fails.
pub fn add_field(said: &mut Vec<u8>, field: FieldNo, text: &[u8]) -> Result<(), AllocError> {
    said.extend_from_slice(name_of(field).as_bytes())?;
    said.extend_from_slice(b": ")?;
    add_shown_text(said, text)?;
    said.push(b'\n')?;
    Ok(())
}

impl RecordList {
    /// Creates the list of the records of a database.
    ///
    /// # Errors
    ///
    /// [`AllocError`] if allocation fails.
    pub fn new(alloc: Global, database: &Database) -> Result<Self, AllocError> {
        let mut records = Vec::with_capacity(alloc, database.records.len())?;
        for item in &database.records {
            records.push(Listed {
                name: item.common().name,
                record_type: item.record_type(),
            })?;
        }
        Ok(RecordList { records })
    }

    /// Returns the type of the record with this number.
    pub fn record_type(&self, number: RecordNo) -> Option<RecordType> {
        match self.records.get(number.index()) {
            Some(listed) => Some(listed.record_type),
            None => None,
        }
    }

    // Returns the name of the record with this number. It is empty if there is none.
    fn name(&self, number: RecordNo) -> &[u8] {
        match self.records.get(number.index()) {
            Some(listed) => listed.name.as_slice(),
            None => b"",
        }
    }

    /// Appends the names of the records of a type, or of any, that a pattern stands for, a line
    /// each, in the order of their numbers. Returns how many.
    ///
    /// # Errors
    ///
    /// [`AllocError`] if allocation fails.
    pub fn add_names(
        &self,
        said: &mut Vec<u8>,
        record_type: Option<RecordType>,
        pattern: &[u8],
    ) -> Result<u64, AllocError> {
        let mut count = 0u64;
        for listed in &self.records {
            if listed.is_of(record_type) && matches(pattern, listed.name.as_slice()) {
                said.extend_from_slice(listed.name.as_slice())?;
                said.push(b'\n')?;
                count = count.saturating_add(1);
            }
        }
        Ok(count)
    }

    /// Appends a line `- REC TYPE` for each record, in the order of their numbers. Returns how many.
    ///
    /// # Errors
    ///
    /// [`AllocError`] if allocation fails.
    pub fn add_types(&self, said: &mut Vec<u8>) -> Result<u64, AllocError> {
        for listed in &self.records {
            said.extend_from_slice(b"- ")?;
            said.extend_from_slice(listed.name.as_slice())?;
            said.push(b' ')?;
            said.extend_from_slice(listed.record_type.name().as_bytes())?;
            said.push(b'\n')?;
        }
        Ok(self.records.len() as u64)
    }

    /// Appends the line of these sets of records.
    ///
    /// # Errors
    ///
    /// [`AllocError`] if allocation fails.
    pub fn add_sets(&self, said: &mut Vec<u8>, sets: &[Vec<RecordNo>]) -> Result<(), AllocError> {
        begin_sets(said)?;
        for set in sets {
            if let [first, others @ ..] = set.as_slice() {
                begin_set(said, self.name(*first))?;
                for number in others {
                    add_to_set(said, self.name(*number))?;
                }
                end_set(said)?;
            }
        }
        end_sets(said)
    }
}
