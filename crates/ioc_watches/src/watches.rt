//! The list of watched fields.
use crate::content::{FieldShown, RecordShown};
use crate::watch::Watch;
use ioc_fields::{CommonField, FieldNo};
use ioc_names::RecordNo;
use std::alloc::{AllocError, Global};

/// What a word that is to watch no more has watched.
#[derive(Clone, Copy, PartialEq, Eq, Debug)]
pub enum Removal {
    /// Nothing.
    NotWatched,
    /// A field of a record that other words watch too.
    OneOfMany,
    /// The last watched field of its record.
    LastOfRecord,
}

/// The watched fields of all records.
///
/// ```rust
/// let mut watches = Watches::new(alloc);
/// watches.add(alloc, number, Watch::new(alloc, b"door.VAL#", field, true, Rule::Shown)?)?;
/// let fields = watches.fields(alloc, number)?;
/// watches.add_lines(&mut lines, number, &shown_of(fields))?;
/// ```
#[derive(Drop)]
pub struct Watches {
    // Those of each record, at its number.
    records: Vec<Vec<Watch>>,
    count: u64,
}

// The fields that are shown of each watched record, whatever is watched of it.
static RECORD_FIELDS: [FieldNo; 3] = [
    FieldNo::Common(CommonField::Stat),
    FieldNo::Common(CommonField::Sevr),
    FieldNo::Common(CommonField::Time),
];

// Returns the place of the field that a word watches.
fn place_of(watches: &[Watch], word: &[u8]) -> Option<usize> {
    watches.iter().position(|watch| watch.is_by(word))
}

impl Watches {
    /// No field is watched.
    pub fn new(alloc: Global) -> Self {
        Watches {
            records: Vec::new(alloc),
            count: 0,
        }
    }

    /// Returns how many words watch.
    pub fn len(&self) -> u64 {
        self.count
    }

    /// Returns whether no field is watched.
    pub fn is_empty(&self) -> bool {
        self.count == 0
    }

    // Takes the room for the record with this index.
    fn make_room(&mut self, alloc: Global, index: usize) -> Result<(), AllocError> {
        for _ in self.records.len()..=index {
            if self.records.push(Vec::new(alloc)).is_err() {
                return Err(AllocError);
            }
        }
        Ok(())
    }

    /// Watches a field of a record from now on. If its word watches a field already, this watch replaces that one.
    ///
    /// # Errors
    ///
    /// [`AllocError`] if allocation fails.
    pub fn add(&mut self, alloc: Global, number: RecordNo, watch: Watch) -> Result<(), AllocError> {
        self.make_room(alloc, number.index())?;
        let Some(watches) = self.records.get_mut(number.index()) else {
            return Ok(());
        };
        for place in 0..watches.len() {
            if watches[place].is_by_word_of(&watch) {
                watches[place] = watch;
                return Ok(());
            }
        }
        if watches.push(watch).is_err() {
            return Err(AllocError);
        }
        self.count = self.count.saturating_add(1);
        Ok(())
    }

    /// Watches a field of a record no more, which this word watches.
    pub fn remove(&mut self, number: RecordNo, word: &[u8]) -> Removal {
        let Some(watches) = self.records.get_mut(number.index()) else {
            return Removal::NotWatched;
        };
        let Some(place) = place_of(watches, word) else {
            return Removal::NotWatched;
        };
        if place < watches.len() {
            let _watch = watches.remove(place);
        }
        self.count = self.count.saturating_sub(1);
        if watches.is_empty() {
            Removal::LastOfRecord
        } else {
            Removal::OneOfMany
        }
    }

    /// Returns the fields that a look at a record has to show for the lines of those that are watched:
    /// none if none is.
    ///
    /// # Errors
    ///
    /// [`AllocError`] if allocation fails.
    pub fn fields(&self, alloc: Global, number: RecordNo) -> Result<Vec<FieldNo>, AllocError> {
        let mut fields = Vec::new(alloc);
        let Some(watches) = self.records.get(number.index()) else {
            return Ok(fields);
        };
        if watches.is_empty() {
            return Ok(fields);
        }
        fields.extend_from_slice(&RECORD_FIELDS)?;
        for watch in watches {
            watch.add_fields(&mut fields)?;
        }
        Ok(fields)
    }

    /// Appends the lines that are due after a look has shown the fields of a record ([`Watches::fields`]):
    /// `! WORD MASK STAT SEVR TIME VALUE` for each.
    ///
    /// # Errors
    ///
    /// [`AllocError`] if allocation fails; a part of the lines may have been appended then.
    pub fn add_lines(
        &mut self,
        out: &mut Vec<u8>,
        number: RecordNo,
        shown: &[FieldShown],
    ) -> Result<(), AllocError> {
        let (Some(watches), [status, severity, moment, fields @ ..]) = (
            self.records.get_mut(number.index()),
            shown,
        ) else {
            return Ok(());
        };
        let record = RecordShown {
            status: *status,
            severity: *severity,
            moment: *moment,
        };
        let mut left = fields;
        for place in 0..watches.len() {
            let [field, behind @ ..] = left else {
                return Ok(());
            };
            let count = watches[place].count_of_others().min(behind.len());
            let (others, rest) = behind.split_at(count);
            watches[place].add_line(out, &record, field, others)?;
            left = rest;
        }
        Ok(())
    }
}
