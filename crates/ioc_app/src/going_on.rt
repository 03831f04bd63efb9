//! When a journal goes on in another file, and what that one begins with.
use ioc_engine::{IocError, JournalEntry, RecordCopies};
use ioc_journal_base::{Base, DeskCalls};
use ioc_values::Short;
use rec_types::Record;
use std::alloc::{AllocError, Global};
use std::fmt::Write;

/// The files of a journal that is kept by size.
#[derive(Clone, Copy)]
pub struct Sizes {
    /// How many bytes the entries of a file have at most, but for those that are written together.
    pub most: u64,
    /// The name of the first file, without its folder.
    pub name: Short<255>,
}

/// How far the current file of a journal has come, if it is kept by size.
#[derive(Clone, Copy)]
pub struct Progress {
    sizes: Option<Sizes>,
    /// The number of the current file, from 1 on.
    number: u64,
    // How many bytes the entries of the current file have.
    bytes: u64,
}

impl Progress {
    /// Nothing is written to the first file.
    pub fn new(sizes: Option<Sizes>) -> Self {
        Progress {
            sizes,
            number: 1,
            bytes: 0,
        }
    }

    /// Counts bytes of entries.
    pub fn count(&mut self, bytes: usize) {
        self.bytes = self.bytes.saturating_add(bytes as u64);
    }

    /// Returns whether the current file has enough entries.
    pub fn is_full(&self) -> bool {
        match self.sizes {
            Some(sizes) => self.bytes > sizes.most,
            None => false,
        }
    }

    /// Returns the name of the next file, cut if it is too long.
    ///
    /// # Errors
    ///
    /// [`AllocError`] if allocation fails.
    pub fn next_name(&self, alloc: Global) -> Result<Short<255>, AllocError> {
        let mut ending = String::new(alloc);
        write!(ending, ".{}", self.number.saturating_add(1))?;
        let mut name = match self.sizes {
            Some(sizes) => sizes.name,
            None => Short::new(),
        };
        for byte in ending.as_bytes() {
            name.push_cut(*byte);
        }
        Ok(name)
    }

    /// Nothing is written to the next file.
    pub fn go_on(&mut self) {
        self.number = self.number.saturating_add(1);
        self.bytes = 0;
    }
}

// Counts a call of a desk.
fn count_call(calls: &mut Vec<DeskCalls>, desk: u64, number: u64) -> Result<(), AllocError> {
    for counted in calls.iter_mut() {
        if counted.desk == desk {
            counted.calls = number.saturating_add(1);
            return Ok(());
        }
    }
    calls.push(DeskCalls {
        desk,
        calls: number.saturating_add(1),
    })?;
    Ok(())
}

/// Counts the calls of these entries.
///
/// # Errors
///
/// [`AllocError`] if allocation fails.
pub fn count_calls(calls: &mut Vec<DeskCalls>, entries: &[JournalEntry]) -> Result<(), AllocError> {
    for kept in entries {
        count_call(calls, kept.desk, kept.call)?;
    }
    Ok(())
}

/// Returns the base that these copies of records are, after so many calls of desks.
///
/// # Errors
///
/// [`IocError::NoRecord`] if the copy of a record is missing. [`IocError::NoMemory`] if allocation
/// fails.
pub fn base_of(
    alloc: Global,
    copies: RecordCopies<Record>,
    calls: &[DeskCalls],
) -> Result<Base, IocError> {
    let RecordCopies { base, .. } = copies;
    let mut records = Vec::with_capacity(alloc, base.records.len())?;
    for copy in base.records {
        let Some(record) = copy else {
            return Err(IocError::NoRecord);
        };
        records.push(record)?;
    }
    let mut desks = Vec::new(alloc);
    desks.extend_from_slice(calls)?;
    Ok(Base {
        records,
        waiting: base.waiting,
        desks,
    })
}
