//! Which records work no longer as their site has them, and why.
use indexmap::IndexMap;
use ioc_fields::{FieldKind, LinkRole, RecordType, field, row_of};
use ioc_links::{Link, parse};
use ioc_site::{Entry, EntryKind};
use ioc_site_writer::{Standing, Types};
use ioc_values::Name;
use std::alloc::{AllocError, Global};
use std::fmt::Write;

/// The most names of records that one line tells.
const MOST_NAMES: usize = 8;

/// What a record does with others that were dropped.
#[derive(Drop)]
struct Loss {
    record_type: RecordType,
    read: Vec<Name>,
    written: Vec<Name>,
    processed: Vec<Name>,
    /// How many of its links have CP or CPP.
    monitors: usize,
}

/// The records that work no longer as their site has them, by their names.
#[derive(Drop)]
pub struct Losses {
    alloc: Global,
    records: IndexMap<Name, Loss>,
}

// Returns the dropped record that an entry of a record of this type names, and what is done with it.
fn dropped_by(types: &Types, record_type: RecordType, entry: &Entry) -> Option<(LinkRole, Name)> {
    if entry.kind == EntryKind::Info {
        return None;
    }
    let found = field(record_type, entry.name.text.as_slice())?;
    let FieldKind::Link(role) = row_of(record_type, found)?.kind else {
        return None;
    };
    let Ok(Link::Database(target, _)) = parse(role.link_kind(), entry.value.text.as_slice()) else {
        return None;
    };
    match types.standing(target.record_name.as_slice()) {
        Some(Standing::Dropped) => Some((role, target.record_name)),
        _ => None,
    }
}

// Adds a name that isn't among these.
fn add_once(names: &mut Vec<Name>, name: Name) -> Result<(), AllocError> {
    if !names
        .iter()
        .any(|known| known.as_slice() == name.as_slice())
    {
        names.push(name)?;
    }
    Ok(())
}

// Appends the line of what a record does with others.
fn add_line(
    alloc: Global,
    out: &mut Vec<u8>,
    head: &[u8],
    verb: &str,
    names: &[Name],
) -> Result<(), AllocError> {
    let count = names.len();
    if count == 0 {
        return Ok(());
    }
    let (records, were) = if count == 1 {
        ("record", "was")
    } else {
        ("records", "were")
    };
    let mut text = String::new(alloc);
    write!(text, "{verb} {count} {records} that {were} dropped: ")?;
    out.extend_from_slice(head)?;
    out.extend_from_slice(text.as_bytes())?;
    for (number, name) in names.iter().take(MOST_NAMES).enumerate() {
        if number > 0 {
            out.extend_from_slice(b", ")?;
        }
        out.extend_from_slice(name.as_slice())?;
    }
    let end: &[u8] = if count > MOST_NAMES { b", ..\n" } else { b"\n" };
    out.extend_from_slice(end)
}

impl Loss {
    // Appends the lines of a record.
    fn add_lines(&self, alloc: Global, name: &[u8], out: &mut Vec<u8>) -> Result<(), AllocError> {
        let mut head = self.record_type.name().as_bytes().to_vec(alloc)?;
        head.extend_from_slice(b" \"")?;
        head.extend_from_slice(name)?;
        head.extend_from_slice(b"\" ")?;
        add_line(alloc, out, head.as_slice(), "reads", self.read.as_slice())?;
        add_line(
            alloc,
            out,
            head.as_slice(),
            "writes",
            self.written.as_slice(),
        )?;
        add_line(
            alloc,
            out,
            head.as_slice(),
            "processes",
            self.processed.as_slice(),
        )?;
        let count = self.monitors;
        if count > 0 {
            let links = if count == 1 { "link" } else { "links" };
            let mut text = String::new(alloc);
            write!(
                text,
                "has {count} {links} whose CP or CPP processes it no longer\n"
            )?;
            out.extend_from_slice(head.as_slice())?;
            out.extend_from_slice(text.as_bytes())?;
        }
        Ok(())
    }
}

impl Losses {
    /// Begins with no records.
    pub fn new(alloc: Global) -> Self {
        Losses {
            alloc,
            records: IndexMap::new(alloc),
        }
    }

    // Notes a record of this type.
    fn note_record(&mut self, record_type: RecordType, name: Name) -> Result<(), AllocError> {
        if self.records.get(name.as_slice()).is_none() {
            let loss = Loss {
                record_type,
                read: Vec::new(self.alloc),
                written: Vec::new(self.alloc),
                processed: Vec::new(self.alloc),
                monitors: 0,
            };
            self.records.insert(name, loss)?;
        }
        Ok(())
    }

    /// Notes that a record has a link with CP or CPP.
    ///
    /// # Errors
    ///
    /// [`AllocError`] if allocation fails.
    pub fn note_monitor(&mut self, record_type: RecordType, name: &[u8]) -> Result<(), AllocError> {
        let Some(name) = Name::from_slice(name) else {
            return Ok(());
        };
        self.note_record(record_type, name)?;
        if let Some(loss) = self.records.get_mut(name.as_slice()) {
            loss.monitors = loss.monitors.saturating_add(1);
        }
        Ok(())
    }

    /// Notes what an entry of a record of this type does with a record that was dropped.
    ///
    /// # Errors
    ///
    /// [`AllocError`] if allocation fails.
    pub fn note_entry(
        &mut self,
        types: &Types,
        record_type: RecordType,
        name: &[u8],
        entry: &Entry,
    ) -> Result<(), AllocError> {
        let Some((role, target)) = dropped_by(types, record_type, entry) else {
            return Ok(());
        };
        let Some(name) = Name::from_slice(name) else {
            return Ok(());
        };
        self.note_record(record_type, name)?;
        if let Some(loss) = self.records.get_mut(name.as_slice()) {
            match role {
                LinkRole::Input | LinkRole::InputWithoutDevice => add_once(&mut loss.read, target)?,
                LinkRole::Output => add_once(&mut loss.written, target)?,
                LinkRole::Forward => add_once(&mut loss.processed, target)?,
            }
        }
        Ok(())
    }

    /// Returns a line for each way in which a record works no longer.
    ///
    /// # Errors
    ///
    /// [`AllocError`] if allocation fails.
    pub fn into_lines(self) -> Result<Vec<u8>, AllocError> {
        let mut out = Vec::new(self.alloc);
        for (name, loss) in self.records.iter() {
            loss.add_lines(self.alloc, name.as_slice(), &mut out)?;
        }
        Ok(out)
    }
}
