//! The numbers of entries, of the calls of each desk, and of puts with notification.
ghost use Rattle.std.specs.Prelude.{◌≡◌, ◌≤◌, ◌==◌, ◌+◌, ◌++◌, ◌∷◌, ℕ, List, [], if◌then◌else◌, OnOk};
ghost use Rattle.std.specs.List.{cons_option};
ghost use Rattle.ioc_journal_audit.specs.Numbers.{count_to, count_in, has_begun, AreBegun};
ghost use Rattle.ioc_journal_audit.specs.Numbering as numbering;

use ioc_events::{Call, Event};
use std::alloc::{AllocError, Global};
use std::collections::{HashMap, HashSet};

/// Returns whether a number is the next one, from 0 on, after the last one.
pub fn is_next(number: u64, last: Option<u64>) -> bool
    ensures { result ≡ (number == count_to last) }
{
    match last {
        Some(last) => number > last && number - last == 1,
        None => number == 0,
    }
}

/// Returns the number after the last one, or the largest number if that is past it.
pub fn next_after(last: Option<u64>) -> u64 {
    match last {
        Some(last) => last.saturating_add(1),
        None => 0,
    }
}

/// How many calls each desk has made.
#[derive(Drop)]
pub struct DeskCounts {
    // The number of the last call of each desk that has made one.
    last: HashMap<u64, u64>,
}

impl DeskCounts {
    /// No desk has made a call.
    pub fn new(alloc: Global) -> Self
        ensures { (desk : ℕ) → count_in result desk ≡ 0 }
    {
        DeskCounts {
            last: HashMap::new(alloc),
        }
    }

    /// Returns the number of the last call of a desk, if it has made one.
    pub fn last(&self, desk: u64) -> Option<u64>
        ensures { count_to result ≡ count_in self.now desk }
    {
        self.last.get(&desk).copied()
    }

    /// Counts so many calls of a desk that has made none, of which there is one at least.
    ///
    /// # Errors
    ///
    /// [`AllocError`] if allocation fails.
    pub fn begin(&mut self, desk: u64, calls: u64) -> Result<(), AllocError>
        requires some { 1 ≤ calls }
        requires none { count_in self.old desk ≡ 0 }
        ensures { OnOk result ((other : ℕ) → count_in self.new other
            ≡ (if desk == other then calls else 0) + count_in self.old other) }
    {
        self.last.insert(desk, calls - 1)?;
        Ok(())
    }

    /// Counts the next call of a desk, which has this number.
    ///
    /// # Errors
    ///
    /// [`AllocError`] if allocation fails.
    pub fn count(&mut self, desk: u64, number: u64) -> Result<(), AllocError>
        requires { number ≡ count_in self.old desk }
        ensures { OnOk result ((other : ℕ) → count_in self.new other
            ≡ (if desk == other then 1 else 0) + count_in self.old other) }
    {
        self.last.insert(desk, number)?;
        Ok(())
    }
}

/// Returns the number under which a call begins a put with notification, if it does.
pub fn number_begun(made: &Call) -> Option<u64>
    ensures { result ≡ numbering.number_begun made.now }
{
    match made {
        Call::Event(Event::Notify { notification, .. }, _) => Some(notification.number()),
        _ => None,
    }
}

/// The numbers under which puts with notification have begun.
#[derive(Drop)]
pub struct NumbersBegun {
    numbers: HashSet<u64>,
}

impl NumbersBegun {
    /// None has begun.
    pub fn new(alloc: Global) -> Self
        ensures { AreBegun result [] }
    {
        NumbersBegun {
            numbers: HashSet::new(alloc),
        }
    }

    /// Returns whether one has begun under this number.
    pub fn has(&self, number: u64) -> bool
        ensures { result ≡ has_begun self.now number }
    {
        self.numbers.contains(&number)
    }

    /// Adds the number of one that begins, if one does.
    ///
    /// # Errors
    ///
    /// [`AllocError`] if allocation fails.
    pub fn add(&mut self, begins: Option<u64>) -> Result<(), AllocError>
        ensures { OnOk result ((numbers : List ℕ) → AreBegun self.old numbers
            → AreBegun self.new (numbers ++ cons_option begins [])) }
    {
        match begins {
            Some(number) => self.insert(number),
            None => Ok(()),
        }
    }

    // Adds a number.
    fn insert(&mut self, number: u64) -> Result<(), AllocError>
        ensures { OnOk result ((numbers : List ℕ) → AreBegun self.old numbers
            → AreBegun self.new (numbers ++ number ∷ [])) }
    {
        self.numbers.insert(number)?;
        Ok(())
    }
}
