//! The records of a site, gathered from all its statements.
use crate::wording::Shown;
use indexmap::IndexMap;
use ioc_fields::{FieldNo, RecordType};
use ioc_site::{Place, Word};
use ioc_values::Name;
use std::alloc::{AllocError, Global};
use std::fmt;

/// A field that the text of a record sets.
#[derive(Clone, Copy)]
pub struct Setting<'a> {
    pub field: FieldNo,
    pub value: &'a Word,
    /// The number of the statement that sets it.
    pub statement: usize,
}

/// A record, as all its statements together give it.
#[derive(Drop)]
pub struct SiteRecord<'a> {
    /// The name in the statement that adds it.
    pub name: &'a Word,
    pub type_word: &'a Word,
    /// The type, if it is one of this project's.
    pub record_type: Option<RecordType>,
    /// The fields that are set, each once, with the value that stands.
    pub settings: Vec<Setting<'a>>,
    /// Whether something is wrong in its text, so that it isn't known what it does.
    pub is_faulty: bool,
    /// Whether its text has a field that EPICS doesn't know either, which may be meant for any other.
    pub has_unknown_field: bool,
    /// Whether statements give it two types.
    pub has_two_types: bool,
}

impl<'a> SiteRecord<'a> {
    /// Returns the value that the text sets the field to.
    pub fn value(&self, field: FieldNo) -> Option<&'a Word> {
        for setting in self.settings.iter() {
            if setting.field == field {
                return Some(setting.value);
            }
        }
        None
    }

    /// Sets a field, and returns the setting that stood before.
    ///
    /// # Errors
    ///
    /// [`AllocError`] if allocation fails.
    pub fn set(&mut self, setting: Setting<'a>) -> Result<Option<Setting<'a>>, AllocError> {
        for old in self.settings.iter_mut() {
            if old.field == setting.field {
                let before = *old;
                *old = setting;
                return Ok(Some(before));
            }
        }
        self.settings.push(setting)?;
        Ok(None)
    }
}

/// A second name of a record.
#[derive(Clone, Copy)]
pub struct Alias<'a> {
    pub word: &'a Word,
    /// The number of the record.
    pub record: usize,
}

/// What a name stands for.
#[derive(Clone, Copy)]
pub struct Named {
    /// The number of the record.
    pub record: usize,
    /// The number of the alias, if the name is one.
    pub alias: Option<usize>,
}

/// A place as it is shown: `FILE:LINE`.
#[derive(Clone, Copy)]
pub struct At<'a> {
    file: &'a [u8],
    line: u32,
}

impl fmt::Display for At<'_> {
    fn fmt<W: fmt::Write>(&self, f: &mut fmt::Formatter<W>) -> fmt::Result {
        write!(f, "{}:{}", Shown(self.file), self.line)
    }
}

/// The records and aliases of a site, numbered from 0 in the order of their statements.
#[derive(Drop)]
pub struct Site<'a> {
    alloc: Global,
    files: &'a [Vec<u8>],
    pub records: Vec<SiteRecord<'a>>,
    pub aliases: Vec<Alias<'a>>,
    /// The values in which something is wrong, or whose field is unknown: they may be links.
    pub suspects: Vec<&'a Word>,
    /// Whether an entry of a record couldn't be read.
    pub lacks_entries: bool,
    names: IndexMap<Name, Named>,
}

impl<'a> Site<'a> {
    /// Creates a site with no records, of these files.
    pub fn new(alloc: Global, files: &'a [Vec<u8>]) -> Self {
        Site {
            alloc,
            files,
            records: Vec::new(alloc),
            aliases: Vec::new(alloc),
            suspects: Vec::new(alloc),
            lacks_entries: false,
            names: IndexMap::new(alloc),
        }
    }

    /// Returns the place as it is shown.
    pub fn at(&self, place: Place) -> At<'a> {
        let file: &[u8] = match self.files.get(place.file as usize) {
            Some(name) => name.as_slice(),
            None => &[],
        };
        At {
            file,
            line: place.line,
        }
    }

    /// Returns what the name stands for.
    pub fn find(&self, name: &[u8]) -> Option<Named> {
        let names = &self.names;
        names.get(name).copied()
    }

    /// Adds a record, and returns its number. A name that can't be a record's isn't entered.
    ///
    /// # Errors
    ///
    /// [`AllocError`] if allocation fails.
    pub fn add(
        &mut self,
        name: &'a Word,
        type_word: &'a Word,
        record_type: Option<RecordType>,
    ) -> Result<usize, AllocError> {
        let record = self.records.len();
        if let Some(short) = Name::from_slice(name.text.as_slice()) {
            let alias = None;
            self.names.insert(short, Named { record, alias })?;
        }
        self.records.push(SiteRecord {
            name,
            type_word,
            record_type,
            settings: Vec::new(self.alloc),
            is_faulty: record_type.is_none(),
            has_unknown_field: false,
            has_two_types: false,
        })?;
        Ok(record)
    }

    /// Adds a second name of the record with this number.
    ///
    /// # Errors
    ///
    /// [`AllocError`] if allocation fails.
    pub fn add_alias(&mut self, record: usize, word: &'a Word) -> Result<(), AllocError> {
        if let Some(short) = Name::from_slice(word.text.as_slice()) {
            let alias = Some(self.aliases.len());
            self.names.insert(short, Named { record, alias })?;
        }
        self.aliases.push(Alias { word, record })?;
        Ok(())
    }

    /// Notes that something is wrong in the text of the record with this number.
    pub fn mark_faulty(&mut self, record: usize) {
        if let Some(found) = self.records.get_mut(record) {
            found.is_faulty = true;
        }
    }
}
