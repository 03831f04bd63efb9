//! What is dropped or replaced by `--adapt`.
use crate::constants::{Constant, constant_of, is_json};
use crate::left_out::{Kept, LeftOutTypes, leave_out};
use crate::losses::Losses;
use crate::notes::Notes;
use ioc_fields::{FieldKind, RecordType, field, row_of};
use ioc_menus::Menu;
use ioc_site::{Entry, EntryKind, Finding, Reading, RecordText, Statement, Word};
use ioc_site_writer::{Standing, Types};
use ioc_values::Range;
use std::alloc::{AllocError, Global};

/// A reading in which what this project leaves out is dropped or replaced.
#[derive(Drop)]
pub struct Adapted {
    pub reading: Reading,
    /// What was dropped or replaced, each at its place.
    pub notes: Vec<Finding>,
    /// A line for each way in which a record works no longer.
    pub losses: Vec<u8>,
}

/// The work of adapting.
#[derive(Drop)]
struct Adapter {
    alloc: Global,
    types: Types,
    notes: Notes,
    losses: Losses,
    statements: Vec<Statement>,
}

/// The record that an entry belongs to.
#[derive(Clone, Copy)]
struct Owner<'a> {
    name: &'a [u8],
    record_type: RecordType,
}

// Returns the kind of the field that an entry sets, if a text can set it.
fn kind_of(record_type: RecordType, entry: &Entry) -> Option<FieldKind> {
    if entry.kind == EntryKind::Info {
        return None;
    }
    let found = field(record_type, entry.name.text.as_slice())?;
    let row = row_of(record_type, found)?;
    if row.can_set { Some(row.kind) } else { None }
}

// Returns whether a word of a link is one of Channel Access.
fn is_channel_word(word: &[u8]) -> bool {
    word == b"CA".as_slice() || word == b"CP".as_slice() || word == b"CPP".as_slice()
}

// Returns the choice of PINI that is taken for one that is left out.
fn start_choice(choice: &[u8]) -> Option<&'static [u8]> {
    if choice == b"RUN".as_slice() || choice == b"RUNNING".as_slice() {
        Some(b"YES")
    } else if choice == b"PAUSE".as_slice() || choice == b"PAUSED".as_slice() {
        Some(b"NO")
    } else {
        None
    }
}

impl Adapter {
    // Tells of an entry: how it was, and what is taken for it.
    fn tell(
        &mut self,
        owner: Owner<'_>,
        entry: &Entry,
        was: &[u8],
        taken: &[u8],
    ) -> Result<(), AllocError> {
        let name = entry.name.text.as_slice();
        let parts: [&[u8]; 6] = [name, b" of record ", owner.name, was, b", ", taken];
        self.notes.tell(entry.value.place, &parts)
    }

    // Returns an entry with another value.
    fn with_value(&self, entry: Entry, text: &[u8]) -> Result<Entry, AllocError> {
        let Entry { kind, name, value } = entry;
        Ok(Entry {
            kind,
            name,
            value: Word {
                text: text.to_vec(self.alloc)?,
                place: value.place,
                quoted: true,
            },
        })
    }

    // Returns the entry that a text sets in place of a link: VAL, of records of texts.
    fn with_text(&self, entry: Entry, text: &[u8]) -> Result<Entry, AllocError> {
        let place = entry.name.place;
        let Entry { kind, value, .. } = self.with_value(entry, text)?;
        Ok(Entry {
            kind,
            name: Word {
                text: b"VAL".to_vec(self.alloc)?,
                place,
                quoted: true,
            },
            value,
        })
    }

    // Returns what is taken for a link in JSON.
    fn json(&mut self, owner: Owner<'_>, entry: Entry) -> Result<Option<Entry>, AllocError> {
        let json = entry.value.text.as_slice().to_vec(self.alloc)?;
        let holds_text = matches!(
            owner.record_type,
            RecordType::Stringin | RecordType::Stringout
        );
        let name = entry.name.text.as_slice();
        let is_value = name == b"INP".as_slice() || name == b"DOL".as_slice();
        match constant_of(json.as_slice()) {
            Some(Constant::Number(number)) => {
                let taken: [&[u8]; 2] = [b"read as the constant ", number];
                self.tell_parts(owner, &entry, b" is JSON", &taken)?;
                Ok(Some(self.with_value(entry, number)?))
            }
            Some(Constant::Text(text)) if holds_text && is_value => {
                let taken: [&[u8]; 2] = [b"read as VAL with the text ", text];
                self.tell_parts(owner, &entry, b" is JSON", &taken)?;
                Ok(Some(self.with_text(entry, text)?))
            }
            _ => {
                self.tell(owner, &entry, b" is JSON", b"dropped")?;
                Ok(None)
            }
        }
    }

    // Tells of an entry, with two parts of what is taken for it.
    fn tell_parts(
        &mut self,
        owner: Owner<'_>,
        entry: &Entry,
        was: &[u8],
        taken: &[&[u8]; 2],
    ) -> Result<(), AllocError> {
        let mut text = taken[0].to_vec(self.alloc)?;
        text.extend_from_slice(taken[1])?;
        self.tell(owner, entry, was, text.as_slice())
    }

    // Returns a link without its words of Channel Access.
    fn link(&mut self, owner: Owner<'_>, entry: Entry) -> Result<Entry, AllocError> {
        let mut kept = Vec::new(self.alloc);
        let mut is_monitor = false;
        let mut is_left_out = false;
        let mut count = 0usize;
        for word in entry
            .value
            .text
            .split(|byte| *byte == b' ' || *byte == b'\t')
        {
            if word.is_empty() {
                continue;
            }
            if count > 0 && is_channel_word(word) {
                is_left_out = true;
                is_monitor = is_monitor || word != b"CA".as_slice();
                continue;
            }
            if count > 0 {
                kept.push(b' ')?;
            }
            kept.extend_from_slice(word)?;
            count = count.saturating_add(1);
        }
        if !is_left_out || entry.value.text.starts_with(b"@") {
            return Ok(entry);
        }
        if is_monitor {
            let taken = b"read as NPP: a change there processes nothing";
            self.tell(owner, &entry, b" has CP or CPP", taken)?;
            self.losses.note_monitor(owner.record_type, owner.name)?;
        } else {
            self.tell(owner, &entry, b" has CA", b"read without it")?;
        }
        self.with_value(entry, kept.as_slice())
    }

    // Returns what is taken for a choice of PINI.
    fn start(&mut self, owner: Owner<'_>, entry: Entry) -> Result<Entry, AllocError> {
        let Some(choice) = start_choice(entry.value.text.as_slice()) else {
            return Ok(entry);
        };
        let was = entry.value.text.as_slice().to_vec(self.alloc)?;
        let taken: [&[u8]; 2] = [b"read as ", choice];
        let mut said = b" is ".to_vec(self.alloc)?;
        said.extend_from_slice(was.as_slice())?;
        self.tell_parts(owner, &entry, said.as_slice(), &taken)?;
        self.with_value(entry, choice)
    }

    // Returns an entry of a field that is 0 alone, unless it is another number.
    fn zero(&mut self, owner: Owner<'_>, entry: Entry) -> Result<Option<Entry>, AllocError> {
        let value = entry.value.text.as_slice();
        if value.is_empty() || value == b"0".as_slice() {
            return Ok(Some(entry));
        }
        self.tell(owner, &entry, b" is 0 alone here", b"dropped")?;
        Ok(None)
    }

    // Returns what is taken for an entry.
    fn entry(&mut self, owner: Owner<'_>, entry: Entry) -> Result<Option<Entry>, AllocError> {
        match kind_of(owner.record_type, &entry) {
            Some(FieldKind::Link(_)) if is_json(&entry.value) => self.json(owner, entry),
            Some(FieldKind::Link(_)) => Ok(Some(self.link(owner, entry)?)),
            Some(FieldKind::Menu(Menu::Pini)) => Ok(Some(self.start(owner, entry)?)),
            Some(FieldKind::Number(Range::Zero)) => self.zero(owner, entry),
            _ => Ok(Some(entry)),
        }
    }

    // Adapts a record.
    fn record(&mut self, record: RecordText) -> Result<(), AllocError> {
        let mut record = record;
        let name = record.name.text.as_slice().to_vec(self.alloc)?;
        if let Some(Standing::Kept(record_type)) = self.types.standing(name.as_slice()) {
            let owner = Owner {
                name: name.as_slice(),
                record_type,
            };
            let mut kept = Vec::new(self.alloc);
            for entry in record.entries {
                if let Some(entry) = self.entry(owner, entry)? {
                    self.losses
                        .note_entry(&self.types, record_type, owner.name, &entry)?;
                    kept.push(entry)?;
                }
            }
            record.entries = kept;
        }
        Ok(self.statements.push(Statement::Record(record))?)
    }

    // Adapts a statement.
    fn statement(&mut self, statement: Statement) -> Result<(), AllocError> {
        match statement {
            Statement::Record(record) => self.record(record),
            Statement::Skipped(word) => {
                let parts: [&[u8]; 3] = [
                    b"dropped statement ",
                    word.text.as_slice(),
                    b": left out here",
                ];
                self.notes.tell(word.place, &parts)
            }
            other => Ok(self.statements.push(other)?),
        }
    }
}

/// Drops or replaces in a reading what EPICS has and this project leaves out.
///
/// # Errors
///
/// [`AllocError`] if allocation fails.
pub fn adapt(alloc: Global, reading: Reading) -> Result<Adapted, AllocError> {
    let Reading {
        files,
        texts,
        statements,
        findings,
        first_loss,
    } = reading;
    let Kept {
        statements,
        dropped,
        types,
    } = leave_out(alloc, statements, LeftOutTypes::Drop)?;
    let mut adapter = Adapter {
        alloc,
        types,
        notes: Notes::new(alloc),
        losses: Losses::new(alloc),
        statements: Vec::new(alloc),
    };
    adapter.notes.list = dropped;
    for statement in statements {
        adapter.statement(statement)?;
    }
    let Adapter {
        notes,
        losses,
        statements,
        ..
    } = adapter;
    let Notes { list: notes, .. } = notes;
    Ok(Adapted {
        reading: Reading {
            files,
            texts,
            statements,
            findings,
            first_loss,
        },
        notes,
        losses: losses.into_lines()?,
    })
}
