//! The names of records.
ghost use Rattle.std.specs.Prelude.{◌≡◌, ◌↔◌, ◌<◌, ◌≤◌, ◌-◌, ◌^◌, None, length, IsTrue, IfOk, IfSome, OnOk, OnErr};
ghost use Rattle.ioc_names.specs.NameTable.{no_names, number_of, added, aliased};
ghost use Rattle.ioc_names.specs.Entering.{entered, entry_of, or_inserted};
ghost use Rattle.std.specs.FinMap.{get, insert};
ghost use Rattle.ioc_names.specs.Entries.{number_map};

use crate::entered::Entered;
use crate::record_no::RecordNo;
use indexmap::IndexMap;
use indexmap::map::Entry;
use ioc_values::Name;
use std::alloc::{AllocError, Global};
use std::marker::Model;

/// The names and aliases of records, with the records' numbers. Contracts see it as the map from
/// names to numbers, and the number of records.
#[derive(Drop)]
pub struct Names {
    numbers: IndexMap<Name, RecordNo>,
    count: usize,
}

impl Model for Names {
    ghost use Rattle.ioc_names.specs.Entries.{number_map};
    ghost use Rattle.ioc_names.specs.NameTable.{NameTable, table_code, IsNameTable};

    ghost Value = { NameTable };

    ghost coded = { table_code };

    ghost view = { λ n. record { numbers = number_map n.numbers.entries; count = n.count } };

    ghost invariant = { λ n. IsNameTable (number_map n.numbers.entries) n.count };
}

impl Names {
    /// Creates an empty table.
    pub fn new(alloc: Global) -> Self
        ensures { result ≡ no_names }
    {
        Names {
            numbers: IndexMap::new(alloc),
            count: 0,
        }
    }

    /// Returns the number of records.
    pub fn len(&self) -> usize
        ensures { result ≡ self.now.count }
    {
        self.count
    }

    /// Returns whether there are no records.
    pub fn is_empty(&self) -> bool
        ensures { IsTrue result ↔ (self.now.count ≡ 0) }
    {
        self.count == 0
    }

    /// Returns the number of the record that has this name or alias, by one look-up. No record has
    /// a name of more than 60 bytes.
    pub fn find(&self, name: &[u8]) -> Option<RecordNo>
        ensures value { result ≡ number_of self.now name.now }
        ensures known { IfSome result (λ number. number < self.now.count) }
    {
        let numbers = &self.numbers;
        numbers.get(name).copied()
    }

    /// Adds a record with this name and returns its number, which is the next one, counted from 0.
    /// No record must have the name yet; see `find`.
    ///
    /// # Errors
    ///
    /// [`AllocError`] if allocation fails; nothing has changed then.
    pub fn add(&mut self, name: Name) -> Result<RecordNo, AllocError>
        requires free { number_of self.old name ≡ None }
        requires room { self.old.count < 2 ^ 64 - 1 }
        ensures number { IfOk result (λ number. number ≡ self.old.count) }
        ensures added { OnOk result (self.new ≡ added self.old name) }
        ensures err { OnErr result (self.new ≡ self.old) }
    {
        let number = RecordNo::new(self.count);
        enter(&mut self.numbers, name, number)?;
        self.count += 1;
        Ok(number)
    }

    /// Returns the number of the record that has this name or alias, by one look-up. If there is
    /// none, adds a record with this name and the next number.
    ///
    /// # Errors
    ///
    /// [`AllocError`] if allocation fails; nothing has changed then.
    pub fn find_or_add(&mut self, name: Name) -> Result<Entered, AllocError>
        requires { self.old.count < 2 ^ 64 - 1 }
        ensures entered { OnOk result (self.new ≡ entered self.old name) }
        ensures number { IfOk result (λ e. e ≡ entry_of self.old name) }
        ensures err { OnErr result (self.new ≡ self.old) }
    {
        let next = RecordNo::new(self.count);
        if let Some(found) = find_or_enter(&mut self.numbers, name, next)? {
            return Ok(Entered::Before(found));
        }
        self.count = next.index() + 1;
        Ok(Entered::Now(next))
    }

    /// Adds an alias for the record with this number. No record must have the name yet; see `find`.
    ///
    /// # Errors
    ///
    /// [`AllocError`] if allocation fails; nothing has changed then.
    pub fn alias(&mut self, number: RecordNo, alias: Name) -> Result<(), AllocError>
        requires free { number_of self.old alias ≡ None }
        requires known { number < self.old.count }
        ensures aliased { OnOk result (self.new ≡ aliased self.old number alias) }
        ensures err { OnErr result (self.new ≡ self.old) }
    {
        enter(&mut self.numbers, alias, number)?;
        Ok(())
    }
}

// Returns the number that the name was entered with, or enters the name with this number.
fn find_or_enter(
    numbers: &mut IndexMap<Name, RecordNo>,
    name: Name,
    number: RecordNo,
) -> Result<Option<RecordNo>, AllocError>
    ensures found { IfOk result (λ f. f ≡ get (number_map numbers.old.entries) name) }
    ensures ok { IfOk result (λ f. number_map numbers.new.entries ≡ or_inserted f (number_map numbers.old.entries) name number) }
    ensures err { OnErr result (numbers.new.entries ≡ numbers.old.entries) }
    ensures short { length name ≤ 60 }
{
    let _bytes = name.as_slice();
    match numbers.entry(name)? {
        Entry::Occupied(entry) => Ok(Some(*entry.get())),
        Entry::Vacant(entry) => {
            entry.insert(number);
            Ok(None)
        }
    }
}

// Enters a new name with its number, by one look-up.
fn enter(
    numbers: &mut IndexMap<Name, RecordNo>,
    name: Name,
    number: RecordNo,
) -> Result<(), AllocError>
    requires { get (number_map numbers.old.entries) name ≡ None }
    ensures ok { OnOk result (number_map numbers.new.entries ≡ insert (number_map numbers.old.entries) name number) }
    ensures err { OnErr result (numbers.new.entries ≡ numbers.old.entries) }
    ensures short { length name ≤ 60 }
{
    let _bytes = name.as_slice();
    numbers.insert(name, number)?;
    Ok(())
}
