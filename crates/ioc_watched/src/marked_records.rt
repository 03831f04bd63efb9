//! The records that have been marked, for whoever tells of them.
use ioc_names::RecordNo;
use std::alloc::{AllocError, Global};

/// The records of an engine that have been marked since they were last taken from here, in the order in which they were marked,
/// each once. There is room for all records of the engine once one is watched, so that no event allocates.
#[derive(Drop)]
pub struct MarkedRecords {
    numbers: Vec<RecordNo>,
    // Of each record of the engine whether it is in the list.
    is_listed: Vec<bool>,
}

impl MarkedRecords {
    /// Creates a list without records and without room.
    pub fn new(alloc: Global) -> Self {
        MarkedRecords {
            numbers: Vec::new(alloc),
            is_listed: Vec::new(alloc),
        }
    }

    /// Takes the room for the records of an engine, unless it has it already.
    ///
    /// # Errors
    ///
    /// [`AllocError`] if allocation fails; the list has as much room as before then.
    pub fn make_room(&mut self, alloc: Global, count: usize) -> Result<(), AllocError> {
        if count <= self.is_listed.len() {
            return Ok(());
        }
        let mut is_listed = vec![in alloc; false; count]?;
        let mut numbers = Vec::with_capacity(alloc, count)?;
        for number in self.numbers.iter() {
            if number.index() < is_listed.len() && numbers.len() < count {
                is_listed[number.index()] = true;
                numbers.push_reserved(*number);
            }
        }
        self.is_listed = is_listed;
        self.numbers = numbers;
        Ok(())
    }

    /// Lists a record, unless it is in the list.
    pub fn add(&mut self, number: RecordNo) {
        let place = number.index();
        if place >= self.is_listed.len() || self.is_listed[place] {
            return;
        }
        // Each record is listed once, so there is room for it.
        if self.numbers.len() < self.numbers.capacity() {
            self.is_listed[place] = true;
            self.numbers.push_reserved(number);
        }
    }

    /// Returns the records that are listed, in order, and lists none any more.
    ///
    /// # Errors
    ///
    /// [`AllocError`] if allocation fails; nothing has changed then.
    pub fn take(&mut self, alloc: Global) -> Result<Vec<RecordNo>, AllocError> {
        let taken = self.numbers.as_slice().to_vec(alloc)?;
        for number in taken.iter() {
            if number.index() < self.is_listed.len() {
                self.is_listed[number.index()] = false;
            }
        }
        self.numbers.clear();
        Ok(taken)
    }
}
