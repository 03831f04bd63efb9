//! The watched fields of an audit.
use crate::played_map::PlayedMap;
use ioc_fields::FieldNo;
use ioc_names::RecordNo;
use ioc_record::{RecordKind, text_of};
use ioc_store::Store;
use ioc_watches::{FieldShown, Watch, Watches};
use rec_types::Record;
use std::alloc::{AllocError, Global};

/// The watched fields of an audit. Behind each entry, the lines that are due are printed.
#[derive(Drop)]
pub struct Watching {
    // The records that have them, each once.
    numbers: Vec<RecordNo>,
    watches: Watches,
}

// Returns what these fields of a record show.
fn shown_of(
    alloc: Global,
    record: &Record,
    fields: &[FieldNo],
) -> Result<Vec<FieldShown>, AllocError> {
    let mut shown = Vec::new(alloc);
    for field in fields {
        shown.push(FieldShown {
            text: text_of(record, *field),
            value: record.get(*field),
        })?;
    }
    Ok(shown)
}

impl Watching {
    /// No field is watched.
    pub fn new(alloc: Global) -> Self {
        Watching {
            numbers: Vec::new(alloc),
            watches: Watches::new(alloc),
        }
    }

    /// Watches a field of a record from now on. If its word watches a field already, this watch replaces that one.
    ///
    /// # Errors
    ///
    /// [`AllocError`] if allocation fails.
    pub fn add(&mut self, alloc: Global, number: RecordNo, watch: Watch) -> Result<(), AllocError> {
        if !self.numbers.contains(&number) {
            self.numbers.push(number)?;
        }
        self.watches.add(alloc, number, watch)
    }

    /// Appends the lines that are due of the records as they are: one of each field of which none was told
    /// yet, and one of each that has changed by its rule since.
    ///
    /// # Errors
    ///
    /// [`AllocError`] if allocation fails; a part of the lines may have been appended then.
    pub fn add_lines(
        &mut self,
        alloc: Global,
        map: &PlayedMap<Record>,
        out: &mut Vec<u8>,
    ) -> Result<(), AllocError> {
        for number in self.numbers.as_slice() {
            if map.has(*number) {
                let fields = self.watches.fields(alloc, *number)?;
                let shown = shown_of(alloc, map.record(*number), fields.as_slice())?;
                self.watches.add_lines(out, *number, shown.as_slice())?;
            }
        }
        Ok(())
    }
}
